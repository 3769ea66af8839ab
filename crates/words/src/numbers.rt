// The numbers that words spell in base ten, if they spell any within a limit.
ghost use Rattle.std.specs.Prelude.{◌≡◌, ◌≤◌, pos, neg_ℤ, IfSome};
ghost use Rattle.words.specs.Numbers.{digit_behind, natural, signed, has_minus, magnitude};

const MINUS: u8 = b'-';

// The largest numbers of signed 64 bits, signed 32 bits and unsigned 32 bits, spelled out, since each is a u64 here. A minus allows one more of the signed.
const MOST_I64: u64 = 9223372036854775807;

pub const MOST_I32: u64 = 2147483647;

const MOST_U32: u64 = 4294967295;

// The number with one digit more at its end.
#[tactic(auto, unfolding(crate::specs::Numbers::digit_behind, crate::specs::Numbers::is_digit))]
fn with_digit(value: u64, byte: u8, most: u64) -> Option<u64>
    ensures { result ≡ digit_behind most value byte }
{
    match byte {
        b'0'..=b'9' => {
            let digit = u64::from(byte - b'0');
            if most < digit || (most - digit) / 10 < value {
                return None;
            }
            Some(value * 10 + digit)
        }
        _ => None,
    }
}

// A number without sign of at most `most`.
#[tactic(auto, using(crate::proofs::Digits::digit_most, crate::proofs::Digits::digits_none, crate::proofs::Digits::digits_next, crate::proofs::Digits::digits_end, crate::proofs::Digits::natural_is, crate::proofs::Digits::natural_none))]
pub fn natural(word: &[u8], most: u64) -> Option<u64>
    ensures value { result ≡ natural most word.now }
    ensures within { IfSome result (λ n. n ≤ most) }
{
    if word.is_empty() {
        return None;
    }
    let mut value: u64 = 0;
    for byte in word {
        value = with_digit(value, *byte, most)?;
    }
    Some(value)
}

pub fn natural_u32(word: &[u8]) -> Option<u32>
    ensures { result ≡ natural 4294967295 word.now }
{
    Some(natural(word, MOST_U32)? as u32)
}

#[tactic(auto, unfolding(crate::specs::Numbers::has_minus))]
pub fn has_minus(word: &[u8]) -> bool
    ensures { result ≡ has_minus word.now }
{
    matches!(word, [MINUS, ..])
}

// The word behind its minus.
#[tactic(auto, unfolding(crate::specs::Numbers::has_minus, crate::specs::Numbers::magnitude))]
pub fn magnitude(word: &[u8]) -> &[u8]
    ensures { result.now ≡ magnitude word.now }
{
    match word {
        [MINUS, digits @ ..] => digits,
        _ => word,
    }
}

// `magnitude` below zero.
fn negated(magnitude: u64) -> i64
    requires { magnitude ≤ 9223372036854775808 }
    ensures { result ≡ neg_ℤ (pos magnitude) }
{
    if magnitude == 0 {
        return 0;
    }
    // By hand: 2 ^ 63 is no i64, so there is no `From`, and `try_from` would refuse it.
    -1 - (magnitude - 1) as i64
}

// A number of signed bits of which `most` is the largest.
fn signed(word: &[u8], most: u64) -> Option<i64>
    requires { most ≤ 9223372036854775807 }
    ensures { result ≡ signed most word.now }
{
    if has_minus(word) {
        return Some(negated(natural(magnitude(word), most + 1)?));
    }
    Some(natural(word, most)? as i64)
}

pub fn i64_of(word: &[u8]) -> Option<i64>
    ensures { result ≡ signed 9223372036854775807 word.now }
{
    signed(word, MOST_I64)
}

pub fn i32_of(word: &[u8]) -> Option<i32>
    ensures { result ≡ signed 2147483647 word.now }
{
    Some(signed(word, MOST_I32)? as i32)
}
