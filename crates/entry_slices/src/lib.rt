// The entry points that write a scalar given by a slice: ints and decimals of any size, strings and lobs; state and buffer are lent.
// Each answers 0 for an accepted call, or the refusal's number, since C takes no `Result`. A refused call leaves state and buffer as they were.
// A number that stands for yes or no is no where it is 0: C is given neither a bool nor an Option.
// State, buffer and annotations are parameters apart, as C hands them.
#![tactic(auto)]

ghost use Rattle.std.specs.Prelude.{◌≡◌};
ghost use Rattle.state_bytes.specs.StateBytes.{entered};
ghost use Rattle.entry_steps.specs.Entries.{entered_as};
ghost use Rattle.entry_numbers.specs.EntryCall.{gm_write_int, gm_write_decimal, gm_write_string, gm_write_clob, gm_write_blob, call_of};

use values::{Decimal, Int, Lob};

// An int of any size: its sign, and its magnitude from the highest byte on.
pub fn gm_write_int(
    state: &mut [u8],
    buf: &mut [u8],
    annotations: &[u8],
    negative: u8,
    magnitude: &[u8],
) -> u8
    ensures { entered_as result state.new buf.new
        ≡ entered (call_of (gm_write_int annotations.now negative magnitude.now)) state.old buf.old }
{
    let int = Int {
        negative: negative != 0,
        magnitude,
    };
    entry_numbers::answered(entry_steps::write(state, buf, annotations, int))
}

// A decimal: sign, coefficient from the highest byte on, exponent.
pub fn gm_write_decimal(
    state: &mut [u8],
    buf: &mut [u8],
    annotations: &[u8],
    negative: u8,
    coefficient: &[u8],
    exponent: i64,
) -> u8
    ensures { entered_as result state.new buf.new
        ≡ entered (call_of (gm_write_decimal annotations.now negative coefficient.now exponent)) state.old buf.old }
{
    let decimal = Decimal {
        coefficient: Int {
            negative: negative != 0,
            magnitude: coefficient,
        },
        exponent,
    };
    entry_numbers::answered(entry_steps::write(state, buf, annotations, decimal))
}

// A string, in UTF-8.
pub fn gm_write_string(state: &mut [u8], buf: &mut [u8], annotations: &[u8], bytes: &[u8]) -> u8
    ensures { entered_as result state.new buf.new
        ≡ entered (call_of (gm_write_string annotations.now bytes.now)) state.old buf.old }
{
    entry_numbers::answered(entry_steps::write_string(state, buf, annotations, bytes))
}

// A clob.
pub fn gm_write_clob(state: &mut [u8], buf: &mut [u8], annotations: &[u8], bytes: &[u8]) -> u8
    ensures { entered_as result state.new buf.new
        ≡ entered (call_of (gm_write_clob annotations.now bytes.now)) state.old buf.old }
{
    entry_numbers::answered(entry_steps::write(state, buf, annotations, Lob::Clob(bytes)))
}

// A blob.
pub fn gm_write_blob(state: &mut [u8], buf: &mut [u8], annotations: &[u8], bytes: &[u8]) -> u8
    ensures { entered_as result state.new buf.new
        ≡ entered (call_of (gm_write_blob annotations.now bytes.now)) state.old buf.old }
{
    entry_numbers::answered(entry_steps::write(state, buf, annotations, Lob::Blob(bytes)))
}
