// Int: a UInt with the sign in the top bit of the first byte; where the magnitude takes that bit, a byte with the sign alone goes before it.
#![tactic(auto)]

ghost use Rattle.std.specs.Prelude.{◌≡◌, ◌&&◌, false, List, ◌∷◌, ℕ, Option, eqb, length};
ghost use Rattle.ion.specs.Fields.{uint};
ghost use Rattle.encoding.specs.Fields.{uint_bytes, trimmed, int_bytes};
ghost use Rattle.buffer.specs.Laid.{placed};

const SIGN: u8 = 0x80;

// An int of any size: its sign, and its magnitude from the highest byte on, whose leading zero bytes do not count.
// Their count is asked below, for the test of zero and for the size: a slice without them, in its place, would be compared by its length.
#[derive(Clone, Copy)]
pub struct Int<'a> {
    pub negative: bool,
    pub magnitude: &'a [u8],
}

impl<'a> Int<'a> {
    // Check 5 of document 01's table.
    pub fn is_negative_zero(self) -> bool
        ensures { result ≡ (self.entry.negative && eqb (uint self.entry.magnitude.now) 0) }
    {
        self.negative & (uint::leading_zero_bytes(self.magnitude) == self.magnitude.len())
    }
}

// The bytes that `int` takes as an Int: none for zero, one for negative zero.
pub fn encoded_size_of(int: Int<'_>) -> usize
    ensures { result ≡ length (int_bytes int.entry.negative (trimmed int.entry.magnitude.now)) }
{
    let zeros = uint::leading_zero_bytes(int.magnitude);
    if zeros == int.magnitude.len() {
        return usize::from(int.negative);
    }
    let size = int.magnitude.len() - zeros;
    if int.magnitude[zeros] < SIGN {
        return size;
    }
    size + 1
}

// A first byte and those of `rest`.
fn write_first(buf: &mut [u8], at: usize, first: u8, rest: &[u8]) -> Option<usize>
    ensures { ◌≡◌ {A = Option ℕ × List ℕ} (result, buf.new) (placed buf.old at (first ∷ rest.now)) }
{
    if !buffer::has_room(buf.len(), at, rest.len() + 1) {
        return None;
    }
    let one = buffer::put(buf, at, first)?;
    let more = buffer::copy(buf, at + one, rest)?;
    Some(one + more)
}

// `int` as an Int. Zero keeps its sign.
pub fn write(buf: &mut [u8], at: usize, int: Int<'_>) -> Option<usize>
    ensures { ◌≡◌ {A = Option ℕ × List ℕ} (result, buf.new)
        (placed buf.old at (int_bytes int.entry.negative (trimmed int.entry.magnitude.now))) }
{
    let magnitude = int.magnitude;
    let zeros = uint::leading_zero_bytes(magnitude);
    let sign = SIGN * u8::from(int.negative);
    if zeros == magnitude.len() {
        if int.negative {
            return buffer::put(buf, at, sign);
        }
        return buffer::copy(buf, at, b"");
    }
    let first = magnitude[zeros];
    if first < SIGN {
        return write_first(buf, at, sign + first, &magnitude[zeros + 1..]);
    }
    write_first(buf, at, sign, &magnitude[zeros..])
}

// The bytes that `value` takes as an Int: n of them hold 8 n - 1 bits, and zero takes none.
// Here and in `write_u64` a word's leading zeros tell the size, where an `Int` is lent bytes: of the two ways no line is the same.
#[tactic(auto, using(encoding::proofs::Sizes::sizes))]
pub fn encoded_size_of_u64(value: u64) -> usize
    ensures { result ≡ length (int_bytes false (uint_bytes value)) }
{
    if value == 0 {
        return 0;
    }
    digits::bits_used(value) / 8 + 1
}

// `value` as an Int: its bytes with the top bit clear, so that a zero byte goes before them where the top bit is taken.
#[tactic(auto, using(encoding::proofs::Sizes::int_fixed_by))]
pub fn write_u64(buf: &mut [u8], at: usize, value: u64) -> Option<usize>
    ensures { ◌≡◌ {A = Option ℕ × List ℕ} (result, buf.new) (placed buf.old at (int_bytes false (uint_bytes value))) }
{
    uint::write_fixed(buf, at, encoded_size_of_u64(value), value)
}
