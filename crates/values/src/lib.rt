// The scalars of document 01's value_writer with their annotations, put into a lent buffer.
// Annotations are lent as bytes, eight a sid; no bytes are no annotations, and then the value goes out by itself.
#![tactic(auto)]

ghost use Rattle.std.specs.Prelude.{◌≡◌, List, ℕ, Option};
ghost use Rattle.buffer.specs.Laid.{written};
ghost use Rattle.annotations.specs.Sids.{sids_of};
ghost use Rattle.values.specs.Values.{annotated_checked};

pub use scalars::{Bits, Decimal, Int, IonType, Lob, Symbol, Text, Timestamp, Value, WriteAsIon};

// The value with its annotations. Nothing is put where one of the value's own checks refuses it.
pub fn write<V: WriteAsIon>(
    buf: &mut [u8],
    at: usize,
    annotations: &[u8],
    value: V,
) -> Option<usize>
    ensures { ◌≡◌ {A = Option ℕ × List ℕ} (result, buf.new)
        (written buf.old at (annotated_checked (sids_of annotations.now) (V.argument value))) }
{
    let wrapper = if annotations.is_empty() {
        0
    } else {
        annotations::write_prefix(buf, at, annotations, value.size()?)?
    };
    // One call, with annotations and without: with two, a timestamp is copied for it, 31 instructions.
    let body = value.write(buf, at + wrapper)?;
    Some(wrapper + body)
}
