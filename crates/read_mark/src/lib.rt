// A timestamp's body with the out-of-calendar mark: its UTC year, or its local year where it has a time, is outside 1 to 9999.
#![tactic(auto)]

ghost use Rattle.std.specs.Prelude.{◌≡◌, true, not, pos, ◌+ℤ◌};
ghost use Rattle.ion.specs.Value.{signed};
ghost use Rattle.ion.specs.Fields.{number};
ghost use Rattle.ion.specs.Scalars.{are_fields};
ghost use Rattle.mark.specs.OutOfCalendar.{is_calendar_minute, out_of_calendar};
ghost use Rattle.reading.specs.Bodies.{shown_in};
ghost use Rattle.reading.specs.Told.{offset_told, fields_told};

use reading::{Fields, Offset, Refusal, Shown};

// The numbers of the first minute of the year 1 and of the year 10000.
const FIRST: u64 = 528_480;

const LIMIT: u64 = 5_259_493_440;

// The fewest fields that a timestamp with a time has.
const TIMED: u8 = 5;

// An offset may be as large as an i64, so it is held to what is left on its side: no sum is made.
#[tactic(auto, using(crate::proofs::Shifted::a_shift))]
fn is_local_outside(minute: u64, offset: Offset) -> bool
    requires { is_calendar_minute (pos minute) ≡ true }
    ensures { result ≡ not (is_calendar_minute (pos minute +ℤ number (signed offset.negative offset.minutes))) }
{
    if offset.negative {
        return minute - FIRST < offset.minutes;
    }
    LIMIT - minute <= offset.minutes
}

// By the UTC year; then, with a time and a known offset, by the local one.
#[tactic(auto, using(crate::proofs::Marked::marks, crate::proofs::Marked::calendar_time))]
fn is_marked(offset: Option<Offset>, fields: Fields) -> bool
    requires { are_fields (fields_told fields) ≡ true }
    ensures { result ≡ out_of_calendar (offset_told offset) (fields_told fields) }
{
    if (fields.year < 1) | (9999 < fields.year) {
        return true;
    }
    let Some(offset) = offset else {
        return false;
    };
    if fields.count < TIMED {
        return false;
    }
    let number = calendar::minute_number(
        fields.year as u32,
        fields.month as u32,
        fields.day as u32,
        fields.hour as u32,
        fields.minute as u32,
    );
    is_local_outside(number, offset)
}

// A body that does not read has no mark.
#[tactic(auto, using(crate::proofs::Read::shown_by, crate::proofs::Read::fields_told_hold))]
pub fn timestamp(body: &[u8]) -> Result<Shown, Refusal>
    ensures { result ≡ shown_in body.now }
{
    let timestamp = read_timestamp::timestamp(body)?;
    let marked = is_marked(timestamp.offset, timestamp.fields);
    Ok(Shown { timestamp, marked })
}
