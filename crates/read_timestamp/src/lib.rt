// A timestamp's body: offset, UTC fields and seconds fraction.
#![tactic(auto)]

ghost use Rattle.std.specs.Prelude.{◌≡◌, ◌&&◌, ◌≤◌, eqb, length};
ghost use Rattle.ion.specs.Value.{signed};
ghost use Rattle.ion.specs.Fields.{int_field};
ghost use Rattle.ion.specs.Calendar.{is_day};
ghost use Rattle.ion.specs.Scalars.{is_year, are_fields, fraction_of};
ghost use Rattle.reading.specs.Scalars.{is_some};
ghost use Rattle.reading.specs.Bodies.{is_negative, magnitude, known_offset, timestamp_in};
ghost use Rattle.reading.specs.Told.{fields_told};
ghost use Rattle.read_timestamp.specs.Parts.{fields_at, fraction_at};

use read_bodies::VarInt;
use reading::{Fields, Fraction, Offset, Refusal, Timestamp};

// The fields, and the place behind them.
#[derive(Clone, Copy, Debug, PartialEq, Eq)]
struct FieldsTo {
    fields: Fields,
    next: usize,
}

// ---- the offset

// Negative zero is the unknown offset.
fn known_offset(offset: VarInt) -> Option<Offset>
    ensures { result ≡ known_offset (signed offset.negative offset.magnitude) }
{
    if offset.negative & (offset.magnitude == 0) {
        return None;
    }
    Some(Offset {
        negative: offset.negative,
        minutes: offset.magnitude,
    })
}

// ---- fields

const MOST_FIELDS: usize = 6;

// At most six VarUInts, as many as there are bytes for. They lie in fixed memory.
fn fields_at(body: &[u8], at: usize) -> Result<FieldsTo, Refusal>
    requires { at ≤ length body.now }
    ensures { result ≡ fields_at body.now at }
{
    let mut f = [0; MOST_FIELDS];
    let mut count = 0;
    let mut next = at;
    for field in f.iter_mut() {
        if body.len() <= next {
            break;
        }
        let number = read_bodies::var_uint(body, next)?;
        *field = number.value;
        count += 1;
        next = number.next;
    }
    let [year, month, day, hour, minute, second] = f;
    let fields = Fields {
        count,
        year,
        month,
        day,
        hour,
        minute,
        second,
    };
    Ok(FieldsTo { fields, next })
}

// A year from 0 to 10000, and a day of the calendar.
#[tactic(auto, using(crate::proofs::Tested::a_date))]
fn is_date(year: u64, month: u64, day: u64) -> bool
    ensures { result ≡ (is_year year && is_day year month day) }
{
    if (10000 < year) | (12 < month) {
        return false;
    }
    let days = calendar::days_in_month(year as u32, month as u32);
    (1 <= month) & ((1 <= day) & (day <= u64::from(days)))
}

// Year; month; day; hour and minute together; second.
#[tactic(auto, using(crate::proofs::Tested::some_fields))]
fn are_fields(f: Fields) -> bool
    requires { f.count ≤ 6 }
    ensures { result ≡ are_fields (fields_told f) }
{
    if f.count < 3 {
        return (1 <= f.count)
            & ((f.year <= 10000) & ((f.count == 1) | ((1 <= f.month) & (f.month <= 12))));
    }
    is_date(f.year, f.month, f.day)
        & ((f.count == 3)
            | ((5 <= f.count)
                & ((f.hour < 24) & ((f.minute < 60) & ((f.count == 5) | (f.second < 60))))))
}

// ---- the fraction

// The sign of an Int.
#[tactic(auto, using(crate::proofs::Coefficients::sign_of_int))]
fn is_negative(c: &[u8]) -> bool
    ensures { result ≡ is_negative (int_field c.now) }
{
    match c {
        [] => false,
        [first, ..] => 0x80 <= *first,
    }
}

// An Int of zero, of either sign.
#[tactic(auto, using(crate::proofs::Coefficients::zero_of_int))]
fn is_zero(c: &[u8]) -> bool
    ensures { result ≡ eqb (magnitude (int_field c.now)) 0 }
{
    match c {
        [] => true,
        [first, rest @ ..] => (*first % 128 == 0) && read_bodies::is_zero(rest),
    }
}

// Below one and not below zero, with the Int's bytes; an exponent that is not below zero only has zero.
#[tactic(auto, using(crate::proofs::Coefficients::a_coefficient))]
fn coefficient_fits(exponent: VarInt, c: &[u8]) -> bool
    ensures { result ≡ is_some (fraction_of (signed exponent.negative exponent.magnitude) (int_field c.now)) }
{
    if exponent.negative & ((exponent.magnitude != 0) & !is_negative(c)) {
        return read_fraction::below_one(c, exponent.magnitude);
    }
    is_zero(c)
}

// What follows the fields: nothing, or an exponent and a coefficient.
#[tactic(auto, using(crate::proofs::Coefficients::fraction_parts, read_bodies::proofs::VarFields::var_int_within, std::proofs::lemmas::List::take_rest))]
fn fraction_at(body: &[u8], at: usize) -> Result<Option<Fraction>, Refusal>
    ensures { result ≡ fraction_at body.now at }
{
    if body.len() <= at {
        return Ok(None);
    }
    let exponent = read_bodies::var_int(body, at)?;
    let coefficient = exponent.next;
    if !coefficient_fits(exponent, &body[coefficient..]) {
        return Err(Refusal::NotIon);
    }
    if exponent.negative & (exponent.magnitude != 0) {
        return Ok(Some(Fraction {
            digits: exponent.magnitude,
            coefficient,
        }));
    }
    Ok(None)
}

// ---- the body

// "6: timestamp".
#[tactic(auto, using(crate::proofs::Whole::by_parts, crate::proofs::Gathered::fields_few, read_bodies::proofs::VarFields::var_int_within))]
pub fn timestamp(body: &[u8]) -> Result<Timestamp, Refusal>
    ensures { result ≡ timestamp_in body.now }
{
    let offset = read_bodies::var_int(body, 0)?;
    let FieldsTo { fields, next } = fields_at(body, offset.next)?;
    if !are_fields(fields) {
        return Err(Refusal::NotIon);
    }
    let fraction = fraction_at(body, next)?;
    Ok(Timestamp {
        offset: known_offset(offset),
        fields,
        fraction,
    })
}
