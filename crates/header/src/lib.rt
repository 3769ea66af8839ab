// The header of a value: the type code in the high four bits; the length in the low four, or from 14 on E there and a VarUInt behind.
// `as` stands where Rust has no `From`: from usize to u64, and to u8 of a number below 15.
#![tactic(auto)]

ghost use Rattle.std.specs.Prelude.{◌≡◌, List, ℕ, Option, ◌*◌, ◌/◌, length};
ghost use Rattle.encoding.specs.Headers.{header_bytes};
ghost use Rattle.buffer.specs.Laid.{placed};

// The least length that goes into a VarUInt, and the low four bits that say so.
const LONG: usize = 14;

// The bytes that the header of `body` bytes takes, of any type.
pub fn encoded_size_of(body: usize) -> usize
    ensures { result ≡ length (header_bytes 0 body) }
{
    if body < LONG {
        return 1;
    }
    var_uint::encoded_size_of(body as u64) + 1
}

// The header of `body` bytes. `code` has the type code in its high four bits; its low four do not count.
#[tactic(auto, using(buffer::proofs::Laid::laid_or_full, encoding::proofs::Headers::length_header))]
pub fn write(buf: &mut [u8], at: usize, code: u8, body: usize) -> Option<usize>
    ensures { ◌≡◌ {A = Option ℕ × List ℕ} (result, buf.new) (placed buf.old at (header_bytes (code / 16 * 16) body)) }
{
    let high = code / 16 * 16;
    if body < LONG {
        return buffer::put(buf, at, high + body as u8);
    }
    let size = encoded_size_of(body);
    if !buffer::has_room(buf.len(), at, size) {
        return None;
    }
    let one = buffer::put(buf, at, high + LONG as u8)?;
    let more = var_uint::write(buf, at + one, body as u64)?;
    Some(one + more)
}
