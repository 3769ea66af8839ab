// Floats: `write_f32` and `write_f64` of document 01's value_writer. The type byte is 4 and the size of what follows: 40, 44 or 48.
// A call that keeps a NaN's own bits takes bits, since the language has one NaN; a call that takes an f32 or f64 compares it with zero.
// `as` stands where Rust has no `From`: to u32 and u8 of numbers that fit.
#![tactic(auto)]

ghost use Rattle.std.specs.Prelude.{◌≡◌, refl, List, [], ◌∷◌, ℕ, Option, ◌+◌, ◌≤◌, ◌<◌, eqb, length};
ghost use Rattle.std.specs.Float.{binary32, binary64};
ghost use Rattle.std.specs.Float.Ieee.{to_bits};
ghost use Rattle.buffer.specs.Laid.{placed};
ghost use Rattle.encoding.specs.Fields.{fixed_bytes};
ghost use Rattle.encoding.specs.Argument.{Argument, write_f32, write_f64, argument_checks, argument_bytes, float32_bytes, float64_bytes};
ghost use Rattle.floats.specs.Narrowed.{narrowed_bits, Dropped};
ghost use Rattle.floats.specs.Zero.{float32_zero, float64_zero};
ghost use Rattle.floats.specs.Puts.{float32_puts, float64_puts};

// The sign bits, and the weight of the exponent's field. In pairs, since `narrow` uses those of both formats.
const SIGN_32: u32 = 0x8000_0000;

const SIGN_64: u64 = 0x8000_0000_0000_0000;

const FIELD_32: u64 = 0x80_0000;

const FIELD_64: u64 = 0x10_0000_0000_0000;

const INFINITY_32: u32 = 0x7F80_0000;

const INFINITY_64: u64 = 0x7FF0_0000_0000_0000;

const QUIET_NAN_32: u32 = 0x7FC0_0000;

const QUIET_NAN_64: u64 = 0x7FF8_0000_0000_0000;

// The exponent's field of binary64 at 2^-149, the least number of binary32; where the last of the 53 digits stands for 2^-149; and at 2^127.
const LEAST: u64 = 874;

const LAST_IS_LEAST: u64 = 926;

const GREATEST: u64 = 1150;

// binary64 has 53 digits, binary32 has 24.
const MORE_DIGITS: u64 = 29;

// How many of the 53 digits at the field x binary32 has no place for: those too many, and those below 2^-149.
fn dropped_digits(x: u64) -> u64
    requires { 874 ≤ x }
    ensures { Dropped x result }
{
    if x < LAST_IS_LEAST - MORE_DIGITS {
        return LAST_IS_LEAST - x;
    }
    MORE_DIGITS
}

// The bits in binary32 of an f64 by its bits, where binary32 holds its value exactly; a NaN is not narrowed.
// The digits that are dropped must be zeros, which the trailing zeros tell.
pub fn narrow(bits: u64) -> Option<u32>
    ensures { result ≡ narrowed_bits bits }
{
    let sign = (bits / SIGN_64) as u32 * SIGN_32;
    let magnitude = bits % SIGN_64;
    if magnitude == 0 {
        return Some(sign);
    }
    if magnitude == INFINITY_64 {
        return Some(sign + INFINITY_32);
    }
    let x = magnitude / FIELD_64;
    if x < LEAST {
        return None;
    }
    if GREATEST < x {
        return None;
    }
    let digits = bits % FIELD_64 + FIELD_64;
    let dropped = dropped_digits(x);
    if u64::from(digits.trailing_zeros()) < dropped {
        return None;
    }
    Some(sign + ((x + dropped - LAST_IS_LEAST) * FIELD_32 + (digits >> dropped)) as u32)
}

// The type byte and `size` bytes of bits, which are put first and test the room.
fn write_sized(buf: &mut [u8], at: usize, size: usize, bits: u64) -> Option<usize>
    requires { size ≤ 8 }
    ensures { ◌≡◌ {A = Option ℕ × List ℕ} (result, buf.new) (placed buf.old at ((0x40 + size) ∷ fixed_bytes size bits)) }
{
    if buf.len() <= at {
        return None;
    }
    let count = uint::write_fixed(buf, at + 1, size, bits)?;
    buf[at] = (0x40 + size) as u8;
    Some(1 + count)
}

// u32 and u64: the bits of a float, and how a float of these bits is written.
pub trait FloatBits: Copy {
    // The number that bits are, the scalar call that takes it, and the bytes that a float of these bits takes.
    ghost number: { Self → ℕ };

    ghost argument: { ℕ → Argument };

    ghost bytes_of: { ℕ → List ℕ };

    // The size of what `write_float` puts.
    fn float_size(self) -> usize
        ensures { result ≡ length (bytes_of (number self)) };

    // A float by its bits: a NaN keeps its own.
    fn write_float(self, buf: &mut [u8], at: usize) -> Option<usize>
        ensures { ◌≡◌ {A = Option ℕ × List ℕ} (result, buf.new) (placed buf.old at (bytes_of (number self))) };

    ghost positive_zero: { bytes_of 0 ≡ 0x40 ∷ fixed_bytes 0 0 };

    ghost unchecked: { (n : ℕ) → argument_checks (argument n) ≡ [] };

    ghost puts: { (n : ℕ) → argument_bytes (argument n) ≡ bytes_of n };
}

impl FloatBits for u32 {
    ghost number = { λ n. n };

    ghost argument = { write_f32 };

    ghost bytes_of = { float32_bytes };

    ghost positive_zero = { float32_zero };

    ghost unchecked = { λ n. refl };

    ghost puts = { float32_puts };

    #[tactic(auto, using(crate::proofs::Bytes::by_bits), unfolding(encoding::specs::Fields::fixed_bytes, encoding::specs::Digits::low_digits))]
    fn float_size(self) -> usize {
        if self == 0 {
            return 1;
        }
        5
    }

    // Positive zero is 40; every other f32 is 44 and its own bits.
    #[tactic(auto, using(crate::proofs::Bytes::by_bits))]
    fn write_float(self, buf: &mut [u8], at: usize) -> Option<usize> {
        if self == 0 {
            return write_sized(buf, at, 0, 0);
        }
        write_sized(buf, at, 4, u64::from(self))
    }
}

impl FloatBits for u64 {
    ghost number = { λ n. n };

    ghost argument = { write_f64 };

    ghost bytes_of = { float64_bytes };

    ghost positive_zero = { float64_zero };

    ghost unchecked = { λ n. refl };

    ghost puts = { float64_puts };

    #[tactic(auto, using(crate::proofs::Bytes::by_bits), unfolding(encoding::specs::Fields::fixed_bytes, encoding::specs::Digits::low_digits))]
    fn float_size(self) -> usize {
        match narrow(self) {
            Some(n) => n.float_size(),
            None => 9,
        }
    }

    // An f64 that binary32 holds exactly goes out as an f32; every other, and every NaN, is 48 and its own bits.
    #[tactic(auto, using(crate::proofs::Bytes::by_bits))]
    fn write_float(self, buf: &mut [u8], at: usize) -> Option<usize> {
        match narrow(self) {
            Some(n) => n.write_float(buf, at),
            None => write_sized(buf, at, 8, self),
        }
    }
}

// f32 and f64, and the bits of each.
// `bits` and `is_positive_zero` read alike in the two impls: `to_bits`, the literal 0.0 and the quiet NaN are those of each type.
pub trait Float: Copy {
    type Bits: FloatBits;

    // The bits of a float by IEEE 754.
    ghost bits_of: { Self → ℕ };

    // A NaN has the bits of the quiet NaN: `to_bits` is not defined there.
    fn bits(self) -> Self::Bits
        ensures { Self.Bits.number result ≡ bits_of self };

    // Negative zero equals positive zero, so the sign bit is asked too.
    fn is_positive_zero(self) -> bool
        ensures { result ≡ eqb (bits_of self) 0 };
}

impl Float for f32 {
    type Bits = u32;

    ghost bits_of = { to_bits binary32 };

    fn bits(self) -> u32 {
        if self.is_nan() {
            return QUIET_NAN_32;
        }
        self.to_bits()
    }

    fn is_positive_zero(self) -> bool {
        (self == 0.0) & (self.bits() < SIGN_32)
    }
}

impl Float for f64 {
    type Bits = u64;

    ghost bits_of = { to_bits binary64 };

    fn bits(self) -> u64 {
        if self.is_nan() {
            return QUIET_NAN_64;
        }
        self.to_bits()
    }

    fn is_positive_zero(self) -> bool {
        (self == 0.0) & (self.bits() < SIGN_64)
    }
}

// The size of what `write` puts.
#[tactic(auto, unfolding(encoding::specs::Fields::fixed_bytes, encoding::specs::Digits::low_digits))]
pub fn size<F: Float>(v: F) -> usize
    ensures { result ≡ length (F.Bits.bytes_of (F.bits_of v)) }
{
    if v.is_positive_zero() {
        return 1;
    }
    v.bits().float_size()
}

// An f32 or an f64 by its value.
pub fn write<F: Float>(buf: &mut [u8], at: usize, v: F) -> Option<usize>
    ensures { ◌≡◌ {A = Option ℕ × List ℕ} (result, buf.new) (placed buf.old at (F.Bits.bytes_of (F.bits_of v))) }
{
    if v.is_positive_zero() {
        return write_sized(buf, at, 0, 0);
    }
    v.bits().write_float(buf, at)
}
