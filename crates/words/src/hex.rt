// Lower-case hex. A byte that is no digit counts as 0.
ghost use Rattle.std.specs.Prelude.{◌≡◌, List, ℕ, Option, ◌*◌, ◌%◌, ◌^◌, ◌≤◌, min, length, get_or, IfSome};
ghost use Rattle.std.proofs.Math.Seq.{paste};
ghost use Rattle.buffer.specs.Laid.{placed};
ghost use Rattle.words.specs.Numbers.{magnitude};
ghost use Rattle.words.specs.Hex.{is_hex, hex_digit, hex_value, hex_behind, padded, hex_bytes, hex_glyph, hex_text};

use crate::numbers;

#[tactic(auto, unfolding(crate::specs::Hex::hex_digit, crate::specs::Hex::is_hex_letter, crate::specs::Numbers::is_digit))]
fn hex_digit(byte: u8) -> Option<u8>
    ensures { result ≡ hex_digit byte }
{
    match byte {
        b'0'..=b'9' => Some(byte - b'0'),
        b'a'..=b'f' => Some(byte - b'a' + 10),
        _ => None,
    }
}

// What a byte counts as in a number.
#[tactic(auto, using(crate::proofs::HexDigits::value_within))]
fn hex_value(byte: u8) -> u8
    ensures value { result ≡ hex_value byte }
    ensures within { result ≤ 15 }
{
    hex_digit(byte).unwrap_or(0)
}

// Whether a word is one or more digits.
pub fn is_hex(word: &[u8]) -> bool
    ensures { result ≡ is_hex word.now }
{
    !word.is_empty() && word.iter().all(|byte| hex_digit(*byte).is_some())
}

// The lowest 64 bits of a number.
#[tactic(auto, using(crate::proofs::HexDigits::congruent, crate::proofs::HexDigits::behind_next, crate::proofs::HexDigits::behind_end))]
pub fn bits(word: &[u8]) -> u64
    ensures { result ≡ hex_behind 0 word.now % 2 ^ 64 }
{
    let mut bits: u64 = 0;
    for byte in word {
        bits = bits % 0x1000_0000_0000_0000 * 16 + u64::from(hex_value(*byte));
    }
    bits
}

// The digit at index `i` of a word before which stand `zeros` zeros. Behind its end stands a 0 too, as in the definition, and no `None`.
#[tactic(auto, using(crate::proofs::HexDigits::padded_zero, crate::proofs::HexDigits::padded_digit, crate::proofs::HexDigits::padded_end))]
fn digit_behind(word: &[u8], zeros: usize, i: usize) -> u8
    ensures { (result ≡ get_or (padded zeros word.now) i 0) × (result ≤ 15) }
{
    if i < zeros {
        return 0;
    }
    match word.get(i - zeros) {
        Some(digit) => hex_value(*digit),
        None => 0,
    }
}

// Puts the bytes of the digits behind a minus, as many as there is room for, and answers their number. An odd first digit is a byte.
pub fn bytes(word: &[u8], out: &mut [u8]) -> usize
    ensures { (result ≡ min (length (hex_bytes (magnitude word.now))) (length out.new))
        × (out.new ≡ paste out.old 0 (hex_bytes (magnitude word.now)) result) }
{
    let digits = numbers::magnitude(word);
    let zeros = digits.len() % 2;
    let count = (digits.len() / 2 + zeros).min(out.len());
    for (i, byte) in out[..count].iter_mut().enumerate() {
        *byte = digit_behind(digits, zeros, 2 * i) * 16 + digit_behind(digits, zeros, 2 * i + 1);
    }
    count
}

// The digit of the lowest four bits.
#[tactic(auto, unfolding(crate::specs::Hex::hex_glyph))]
fn glyph(bits: u8) -> u8
    ensures { result ≡ hex_glyph bits }
{
    let digit = bits % 16;
    if digit < 10 {
        return b'0' + digit;
    }
    b'a' + (digit - 10)
}

// Puts two digits for each byte, from `at` on, and answers their number; none where they do not fit.
pub fn put(out: &mut [u8], at: usize, bytes: &[u8]) -> Option<usize>
    ensures { (◌≡◌ {A = Option ℕ × List ℕ} (result, out.new) (placed out.old at (hex_text bytes.now)))
        × IfSome result (λ n. n ≤ 2 * length bytes.now) }
{
    if !buffer::has_room(out.len(), at, 2 * bytes.len()) {
        return None;
    }
    // By index: a proof knows nothing of what `chunks_exact_mut` lends.
    for (i, byte) in bytes.iter().enumerate() {
        out[at + 2 * i] = glyph(*byte / 16);
        out[at + 2 * i + 1] = glyph(*byte);
    }
    Some(2 * bytes.len())
}
