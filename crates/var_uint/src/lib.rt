// VarUInt: seven bits a byte, most significant first, the end flag on the last. It is stored from the last byte to the first.
// `as u8` of a number that fits one byte: Rust has no `From` for it.
#![tactic(auto)]

ghost use Rattle.std.specs.Prelude.{◌≡◌, List, ℕ, Option, length};
ghost use Rattle.encoding.specs.Fields.{var_uint_bytes};
ghost use Rattle.buffer.specs.Laid.{placed};
ghost use Rattle.var_uint.specs.Filled.{filled};

// `var_int` has constants of these names too: its field's first byte holds six bits and a sign, so that all but the end flag have other values.
const END_FLAG: u8 = 0x80;

// The least number that takes more than one byte.
const TWO_BYTES: u64 = 128;

// The bytes that 64 bits take at most.
const MOST_BYTES: usize = 10;

// The bytes that `value` takes as a VarUInt: one for each seven bits, and one for zero.
#[tactic(auto, using(encoding::proofs::Sizes::sizes))]
pub fn encoded_size_of(value: u64) -> usize
    ensures { result ≡ length (var_uint_bytes value) }
{
    if value < TWO_BYTES {
        return 1;
    }
    (digits::bits_used(value) - 1) / 7 + 1
}

// The last `limit` bytes of `value` as a VarUInt at `at`, or all if it has no more: the byte with the end flag by the first store, and by each further
// one the byte before. Answers how many stores it made, or makes none where the whole field does not fit.
pub fn fill(buf: &mut [u8], at: usize, value: u64, limit: usize) -> Option<usize>
    ensures { ◌≡◌ {A = Option ℕ × List ℕ} (result, buf.new) (filled limit buf.old at (var_uint_bytes value)) }
{
    let size = encoded_size_of(value);
    if !buffer::has_room(buf.len(), at, size) {
        return None;
    }
    let count = size.min(limit);
    let mut flag = END_FLAG;
    let mut rest = value;
    // By place: a proof knows nothing of what `iter_mut().rev()` lends.
    for i in (size - count..size).rev() {
        buf[at + i] = flag + (rest % 128) as u8;
        flag = 0;
        rest = rest / 128;
    }
    Some(count)
}

// `value` as a VarUInt. Most lengths and sids take one byte, a whole field of one store, so that is asked first.
pub fn write(buf: &mut [u8], at: usize, value: u64) -> Option<usize>
    ensures { ◌≡◌ {A = Option ℕ × List ℕ} (result, buf.new) (placed buf.old at (var_uint_bytes value)) }
{
    if value < TWO_BYTES {
        return buffer::put(buf, at, END_FLAG + value as u8);
    }
    fill(buf, at, value, MOST_BYTES)
}
