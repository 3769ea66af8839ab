// UInt: big-endian bytes without leading zero bytes.
// The buffer is lent at each call, and goes in beside a place: a struct of both would be made and taken apart in each function of one line.
// `as u8` of a size that fits one byte: Rust has no `From` for it.
#![tactic(auto)]

ghost use Rattle.std.specs.Prelude.{◌≡◌, List, ℕ, Option, ◌+◌, ◌*◌, ◌/◌, length};
ghost use Rattle.encoding.specs.Fields.{uint_bytes, fixed_bytes, trimmed, or_zero};
ghost use Rattle.encoding.specs.Headers.{framed_bytes};
ghost use Rattle.buffer.specs.Laid.{placed};

// The bytes that `value` takes as a UInt: none for zero.
#[tactic(auto, using(encoding::proofs::Sizes::sizes))]
pub fn encoded_size_of(value: u64) -> usize
    ensures { result ≡ length (uint_bytes value) }
{
    (digits::bits_used(value) + 7) / 8
}

// The lowest `count` bytes of `value`, zeros in front where it has fewer.
#[tactic(auto, unfolding(encoding::specs::Fields::fixed_bytes))]
pub fn write_fixed(buf: &mut [u8], at: usize, count: usize, value: u64) -> Option<usize>
    ensures { ◌≡◌ {A = Option ℕ × List ℕ} (result, buf.new) (placed buf.old at (fixed_bytes count value)) }
{
    digits::put_digits(buf, at, count, 0xFF, value)
}

// `value` as a UInt.
#[tactic(auto, using(encoding::proofs::Sizes::uint_fixed))]
pub fn write(buf: &mut [u8], at: usize, value: u64) -> Option<usize>
    ensures { ◌≡◌ {A = Option ℕ × List ℕ} (result, buf.new) (placed buf.old at (uint_bytes value)) }
{
    write_fixed(buf, at, encoded_size_of(value), value)
}

// A type byte with the size in its low four bits, and `value` as a UInt, which has eight bytes at most. The low four bits of `code` do not count.
// The UInt is put first and tests the room; zero has none.
pub fn write_framed(buf: &mut [u8], at: usize, code: u8, value: u64) -> Option<usize>
    ensures { ◌≡◌ {A = Option ℕ × List ℕ} (result, buf.new) (placed buf.old at (framed_bytes (code / 16 * 16) (uint_bytes value))) }
{
    let high = code / 16 * 16;
    if value == 0 {
        return buffer::put(buf, at, high);
    }
    if buf.len() <= at {
        return None;
    }
    let size = write(buf, at + 1, value)?;
    buf[at] = high + size as u8;
    Some(1 + size)
}

// How many leading bytes of a big-endian magnitude are zero.
// The count itself is asked, for the test of zero and for the size: a slice without them, in its place, would be compared by its length.
pub fn leading_zero_bytes(magnitude: &[u8]) -> usize
    ensures { result + length (trimmed magnitude.now) ≡ length magnitude.now }
{
    magnitude
        .iter()
        .position(|byte| *byte != 0)
        .unwrap_or(magnitude.len())
}

// A big-endian magnitude without its leading zero bytes. Zero keeps one byte.
// It copies lent bytes, where `write` takes the digits of a word: the two share no line.
pub fn write_magnitude(buf: &mut [u8], at: usize, magnitude: &[u8]) -> Option<usize>
    ensures { ◌≡◌ {A = Option ℕ × List ℕ} (result, buf.new) (placed buf.old at (or_zero (trimmed magnitude.now))) }
{
    let zeros = leading_zero_bytes(magnitude);
    if zeros == magnitude.len() {
        return buffer::put(buf, at, 0);
    }
    buffer::copy(buf, at, &magnitude[zeros..])
}
