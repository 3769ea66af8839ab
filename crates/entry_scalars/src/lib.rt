// The entry points that write a scalar given by numbers; state and buffer are lent.
// Each answers 0 for an accepted call, or the refusal's number, since C takes no `Result`. A refused call leaves state and buffer as they were.
// A number that stands for yes or no is no where it is 0: C is given neither a bool nor an Option.
// State, buffer and annotations are parameters apart, as C hands them.
#![tactic(auto)]

ghost use Rattle.std.specs.Prelude.{◌≡◌};
ghost use Rattle.state_bytes.specs.StateBytes.{entered};
ghost use Rattle.entry_steps.specs.Entries.{entered_as};
ghost use Rattle.entry_numbers.specs.EntryCall.{gm_write_null, gm_write_bool, gm_write_i64, gm_write_f32, gm_write_f64, gm_write_timestamp, gm_write_symbol};
ghost use Rattle.entry_numbers.specs.EntryCall.{call_of};

use entry_numbers::{PrecisionNumber, TypeNumber};
use scalars::IonType;
use timestamp::{Precision, Timestamp};
use values::{Bits, Symbol};

// A null, by the type code.
pub fn gm_write_null(state: &mut [u8], buf: &mut [u8], annotations: &[u8], code: u8) -> u8
    ensures { entered_as result state.new buf.new
        ≡ entered (call_of (gm_write_null annotations.now code)) state.old buf.old }
{
    let t = IonType::from(TypeNumber(code));
    entry_numbers::answered(entry_steps::write(state, buf, annotations, t))
}

// A bool.
pub fn gm_write_bool(state: &mut [u8], buf: &mut [u8], annotations: &[u8], value: u8) -> u8
    ensures { entered_as result state.new buf.new
        ≡ entered (call_of (gm_write_bool annotations.now value)) state.old buf.old }
{
    entry_numbers::answered(entry_steps::write(state, buf, annotations, value != 0))
}

// An int of 64 bits with its sign.
pub fn gm_write_i64(state: &mut [u8], buf: &mut [u8], annotations: &[u8], value: i64) -> u8
    ensures { entered_as result state.new buf.new
        ≡ entered (call_of (gm_write_i64 annotations.now value)) state.old buf.old }
{
    entry_numbers::answered(entry_steps::write(state, buf, annotations, value))
}

// A float by the bits of binary32.
pub fn gm_write_f32(state: &mut [u8], buf: &mut [u8], annotations: &[u8], bits: u32) -> u8
    ensures { entered_as result state.new buf.new
        ≡ entered (call_of (gm_write_f32 annotations.now bits)) state.old buf.old }
{
    entry_numbers::answered(entry_steps::write(state, buf, annotations, Bits(bits)))
}

// A float by the bits of binary64, in four bytes where binary32 holds it.
pub fn gm_write_f64(state: &mut [u8], buf: &mut [u8], annotations: &[u8], bits: u64) -> u8
    ensures { entered_as result state.new buf.new
        ≡ entered (call_of (gm_write_f64 annotations.now bits)) state.old buf.old }
{
    entry_numbers::answered(entry_steps::write(state, buf, annotations, Bits(bits)))
}

// A timestamp by its local fields and its offset. A field past the precision means nothing, nor does an offset that is not known or a fraction that is not given.
pub fn gm_write_timestamp(
    state: &mut [u8],
    buf: &mut [u8],
    annotations: &[u8],
    precision: u8,
    year: u32,
    month: u32,
    day: u32,
    hour: u32,
    minute: u32,
    second: u32,
    known: u8,
    offset: i32,
    given: u8,
    digits: u32,
    coefficient: u64,
) -> u8
    ensures { entered_as result state.new buf.new
        ≡ entered (call_of (gm_write_timestamp annotations.now (record {
          precision = precision;
          year = year;
          month = month;
          day = day;
          hour = hour;
          minute = minute;
          second = second;
          known = known;
          offset = offset;
          given = given;
          digits = digits;
          coefficient = coefficient;
        }))) state.old buf.old }
{
    let timestamp = Timestamp {
        precision: Precision::from(PrecisionNumber(precision)),
        year,
        month,
        day,
        hour,
        minute,
        second,
        offset: entry_numbers::offset_of(known, offset),
        fraction: entry_numbers::fraction_of(given, digits, coefficient),
    };
    entry_numbers::answered(entry_steps::write(state, buf, annotations, timestamp))
}

// A symbol by its sid.
pub fn gm_write_symbol(state: &mut [u8], buf: &mut [u8], annotations: &[u8], sid: u64) -> u8
    ensures { entered_as result state.new buf.new
        ≡ entered (call_of (gm_write_symbol annotations.now sid)) state.old buf.old }
{
    entry_numbers::answered(entry_steps::write(state, buf, annotations, Symbol(sid)))
}
