// A VarUInt at a place, taken apart: its number and the place behind it, or why it does not read.
#![tactic(auto)]

ghost use Rattle.std.specs.Prelude.{◌≡◌, drop};
ghost use Rattle.reading.specs.Headers.{var_uint_from, var_uint_at};

use reading::{Number, Refusal};

// The bit that only a last group has.
pub const END_FLAG: u8 = 0x80;

// The greatest number that seven more bits leave within 64.
pub const MAX_BEFORE_GROUP: u64 = 0x1FF_FFFF_FFFF_FFFF;

// The VarUInt whose groups before `at` make `acc`, group by group of seven bits. How many they are is not limited, since leading groups may be zero.
#[tactic(auto, using(crate::proofs::VarUInts::a_byte))]
pub fn var_uint_from(s: &[u8], at: usize, acc: u64, out: Refusal) -> Result<Number, Refusal>
    ensures { result ≡ var_uint_from out acc at (drop at s.now) }
{
    let mut value = acc;
    // By place, which is what is answered.
    for i in at..s.len() {
        let b = s[i];
        if MAX_BEFORE_GROUP < value {
            return Err(Refusal::NotIon);
        }
        value = value * 128 + u64::from(b % 128);
        if END_FLAG <= b {
            return Ok(Number { value, next: i + 1 });
        }
    }
    Err(out)
}

// The VarUInt at `at`; `out` where the bytes end before it does. Most take one byte, so that is asked first.
#[tactic(auto, using(crate::proofs::VarUInts::a_byte), unfolding(reading::specs::Headers::var_uint_at))]
pub fn var_uint(s: &[u8], at: usize, out: Refusal) -> Result<Number, Refusal>
    ensures { result ≡ var_uint_at out s.now at }
{
    let b = *s.get(at).ok_or(out)?;
    if END_FLAG <= b {
        return Ok(Number {
            value: u64::from(b % 128),
            next: at + 1,
        });
    }
    var_uint_from(s, at, 0, out)
}
