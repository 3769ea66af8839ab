// The numbers in a scalar's body, and the bodies that are one number or two: decimals, symbols and negative ints.
#![tactic(auto)]

ghost use Rattle.std.specs.Prelude.{◌≡◌, Bool, ℕ, eqb};
ghost use Rattle.ion.specs.Fields.{uint};
ghost use Rattle.reading.specs.Bodies.{decimal_in, symbol_in};
ghost use Rattle.read_bodies.specs.Places.{groups_at, var_uint_at, var_int_at, small_from, with_sign};

use reading::{Decimal, Number, Refusal};

// A sign and a magnitude, and the place behind them.
#[derive(Clone, Copy, Debug, PartialEq, Eq)]
pub struct VarInt {
    pub negative: bool,
    pub magnitude: u64,
    pub next: usize,
}

// The largest magnitude of a signed number of 64 bits, that of the least one.
const MOST: u64 = 0x8000_0000_0000_0000;

// ---- "VarUInt and VarInt Fields"

// Bodies give one refusal, so these two take no other; each is the function of one definition of the grammar.

// The VarUInt at a place.
#[tactic(auto, using(crate::proofs::VarFields::a_number))]
pub fn var_uint(b: &[u8], at: usize) -> Result<Number, Refusal>
    ensures { result ≡ var_uint_at b.now at }
{
    read_fields::var_uint(b, at, Refusal::NotIon)
}

// The VarUInt whose groups before `at` make `acc`.
#[tactic(auto, using(crate::proofs::VarFields::a_number))]
fn groups(b: &[u8], at: usize, acc: u64) -> Result<Number, Refusal>
    ensures { result ≡ groups_at b.now at acc }
{
    read_fields::var_uint_from(b, at, acc, Refusal::NotIon)
}

// The magnitude that its groups make, with the sign, where signed 64 bits hold it.
fn with_sign(negative: bool, number: Number) -> Result<VarInt, Refusal>
    ensures { result ≡ with_sign negative number }
{
    if MOST < number.value {
        return Err(Refusal::NotIon);
    }
    if (number.value == MOST) & !negative {
        return Err(Refusal::NotIon);
    }
    Ok(VarInt {
        negative,
        magnitude: number.value,
        next: number.next,
    })
}

// The VarInt at a place.
#[tactic(auto, using(crate::proofs::VarFields::first_byte))]
pub fn var_int(b: &[u8], at: usize) -> Result<VarInt, Refusal>
    ensures { result ≡ var_int_at b.now at }
{
    let first = u64::from(*b.get(at).ok_or(Refusal::NotIon)?);
    let negative = first / 64 % 2 == 1;
    if 0x7F < first {
        return Ok(VarInt {
            negative,
            magnitude: first % 64,
            next: at + 1,
        });
    }
    with_sign(negative, groups(b, at + 1, first % 64)?)
}

// ---- "UInt and Int Fields"

// The big-endian number whose digits before `at` make `acc`, where 64 bits hold it.
pub fn small_from(b: &[u8], at: usize, acc: u64) -> Option<u64>
    ensures { result ≡ small_from b.now at acc }
{
    let mut value = acc;
    for byte in b.iter().skip(at) {
        value = value.checked_mul(256)? + u64::from(*byte);
    }
    Some(value)
}

// ---- bodies

// Whether all bytes are zero, which the magnitude of a negative int may not be ("3: int").
pub fn is_zero(body: &[u8]) -> bool
    ensures { result ≡ eqb (uint body.now) 0 }
{
    body.iter().all(|b| *b == 0)
}

// "5: decimal".
#[tactic(auto, using(crate::proofs::Bodies::decimal_by_exponent))]
pub fn decimal(body: &[u8]) -> Result<Decimal, Refusal>
    ensures { result ≡ decimal_in body.now }
{
    if body.is_empty() {
        return Ok(Decimal {
            negative: false,
            exponent: 0,
            coefficient: 0,
        });
    }
    let exponent = var_int(body, 0)?;
    // No `From`: this is the one use.
    Ok(Decimal {
        negative: exponent.negative,
        exponent: exponent.magnitude,
        coefficient: exponent.next,
    })
}

// "7: symbol".
#[tactic(auto, unfolding(crate::specs::Places::small_from, reading::specs::Bodies::symbol_in))]
pub fn symbol(body: &[u8]) -> Result<u64, Refusal>
    ensures { result ≡ symbol_in body.now }
{
    small_from(body, 0, 0).ok_or(Refusal::NotIon)
}
