// Digits of a number in a base, and the bits that tell how many there are.
// `as` stands where Rust has no `From`: from u32 and u64 to usize, and to u8 for a digit, which one byte holds.
#![tactic(auto)]

ghost use Rattle.std.specs.Prelude.{◌≡◌, List, ℕ, Option, ◌+◌, ◌-◌, ◌^◌, ◌≤◌, SomeIff};
ghost use Rattle.std.specs.Int.Count.{count_leading_zeros};
ghost use Rattle.encoding.specs.Digits.{low_digits};
ghost use Rattle.buffer.specs.Laid.{placed};

// The bits that `value` takes: none for zero.
pub fn bits_used(value: u64) -> usize
    ensures { result ≡ 64 - count_leading_zeros 64 value }
{
    (64 - value.leading_zeros()) as usize
}

// The lowest `count` digits of `value`, most significant first, in the base whose greatest digit is `greatest`: no such base is zero, and each digit is a byte.
// They are put from the last to the first.
pub fn put_digits(
    buf: &mut [u8],
    at: usize,
    count: usize,
    greatest: u8,
    value: u64,
) -> Option<usize>
    ensures { ◌≡◌ {A = Option ℕ × List ℕ} (result, buf.new) (placed buf.old at (low_digits (greatest + 1) count value)) }
{
    if !buffer::has_room(buf.len(), at, count) {
        return None;
    }
    let base = u64::from(greatest) + 1;
    let mut rest = value;
    // By place: a proof knows nothing of what `iter_mut().rev()` lends.
    for i in (0..count).rev() {
        buf[at + i] = (rest % base) as u8;
        rest = rest / base;
    }
    Some(count)
}

// The powers of ten that 64 bits hold, each at its exponent.
const POWERS_OF_TEN: [u64; 20] = [
    1,
    10,
    100,
    1_000,
    10_000,
    100_000,
    1_000_000,
    10_000_000,
    100_000_000,
    1_000_000_000,
    10_000_000_000,
    100_000_000_000,
    1_000_000_000_000,
    10_000_000_000_000,
    100_000_000_000_000,
    1_000_000_000_000_000,
    10_000_000_000_000_000,
    100_000_000_000_000_000,
    1_000_000_000_000_000_000,
    10_000_000_000_000_000_000,
];

// Ten to `exponent`, where 64 bits hold it: up to 19.
pub fn power_of_ten(exponent: u64) -> Option<u64>
    ensures { SomeIff result (exponent ≤ 19) (10 ^ exponent) }
{
    POWERS_OF_TEN.get(exponent as usize).copied()
}
