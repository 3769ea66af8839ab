// The calls that write a scalar: document 01's module value_writer, over a state by value and a lent buffer.
// State, buffer, annotations and value are parameters apart, and each type has a function of its name, as in ion-rust's writer, which document 01 takes over.
#![tactic(auto)]

ghost use Rattle.std.specs.Prelude.{◌≡◌};
ghost use Rattle.std.specs.Float.{binary32, binary64};
ghost use Rattle.std.specs.Float.Ieee.{to_bits};
ghost use Rattle.encoding.specs.Argument.{write_null, write_bool, write_i64, write_int, write_f32, write_f64, write_decimal};
ghost use Rattle.encoding.specs.Argument.{write_symbol, write_string, write_clob, write_blob};
ghost use Rattle.machine.specs.Machine.{config, run};
ghost use Rattle.machine.specs.Numbers.{outcome_of};
ghost use Rattle.machine.specs.Call.{write};
ghost use Rattle.annotations.specs.Sids.{sids_of};
ghost use Rattle.scalars.specs.Types.{type_of};
ghost use Rattle.timestamp.specs.Arguments.{argument_of};

use machine::{Refused, State};
use timestamp::Timestamp;
use values::{Bits, Decimal, Int, IonType, Lob, Symbol, Value, WriteAsIon};

// A scalar of any type: its place is checked, it is put at the end of the used bytes, and the innermost container has a member more.
pub fn write<V: WriteAsIon>(
    s: State,
    buf: &mut [u8],
    annotations: &[u8],
    value: V,
) -> Result<State, Refused>
    ensures { outcome_of result buf.new ≡ run (write (sids_of annotations.now) (V.argument value)) (config s buf.old) }
{
    let head = steps::write(&s, buf, annotations, value).map_err(|why| steps::refused(s, why))?;
    Ok(steps::with_head(steps::counted(s, head.depth), head))
}

// The functions from here on are `write` of one type each, under the names and with the parameters of ion-rust's value_writer.

// A null of each type.
pub fn write_null(
    s: State,
    buf: &mut [u8],
    annotations: &[u8],
    t: IonType,
) -> Result<State, Refused>
    ensures { outcome_of result buf.new ≡ run (write (sids_of annotations.now) (write_null (type_of t))) (config s buf.old) }
{
    write(s, buf, annotations, t)
}

// 10 or 11.
pub fn write_bool(
    s: State,
    buf: &mut [u8],
    annotations: &[u8],
    value: bool,
) -> Result<State, Refused>
    ensures { outcome_of result buf.new ≡ run (write (sids_of annotations.now) (write_bool value)) (config s buf.old) }
{
    write(s, buf, annotations, value)
}

// An int of 64 bits with its sign.
pub fn write_i64(s: State, buf: &mut [u8], annotations: &[u8], value: i64) -> Result<State, Refused>
    ensures { outcome_of result buf.new ≡ run (write (sids_of annotations.now) (write_i64 value)) (config s buf.old) }
{
    write(s, buf, annotations, value)
}

// An int of any size: its sign, and its magnitude from the highest byte on.
pub fn write_int(
    s: State,
    buf: &mut [u8],
    annotations: &[u8],
    negative: bool,
    magnitude: &[u8],
) -> Result<State, Refused>
    ensures { outcome_of result buf.new ≡ run (write (sids_of annotations.now) (write_int negative magnitude.now)) (config s buf.old) }
{
    write(
        s,
        buf,
        annotations,
        Int {
            negative,
            magnitude,
        },
    )
}

// A float by the bits of binary32; a NaN keeps its own.
pub fn write_f32_bits(
    s: State,
    buf: &mut [u8],
    annotations: &[u8],
    bits: u32,
) -> Result<State, Refused>
    ensures { outcome_of result buf.new ≡ run (write (sids_of annotations.now) (write_f32 bits)) (config s buf.old) }
{
    write(s, buf, annotations, Bits(bits))
}

// A float by the bits of binary64, in four bytes where binary32 holds it; a NaN keeps its own.
pub fn write_f64_bits(
    s: State,
    buf: &mut [u8],
    annotations: &[u8],
    bits: u64,
) -> Result<State, Refused>
    ensures { outcome_of result buf.new ≡ run (write (sids_of annotations.now) (write_f64 bits)) (config s buf.old) }
{
    write(s, buf, annotations, Bits(bits))
}

// A float by its value; a NaN has the bits 7FC00000.
pub fn write_f32(s: State, buf: &mut [u8], annotations: &[u8], value: f32) -> Result<State, Refused>
    ensures { outcome_of result buf.new ≡ run (write (sids_of annotations.now) (write_f32 (to_bits binary32 value))) (config s buf.old) }
{
    write(s, buf, annotations, Value(value))
}

// A float by its value; a NaN has the bits 7FF8000000000000.
pub fn write_f64(s: State, buf: &mut [u8], annotations: &[u8], value: f64) -> Result<State, Refused>
    ensures { outcome_of result buf.new ≡ run (write (sids_of annotations.now) (write_f64 (to_bits binary64 value))) (config s buf.old) }
{
    write(s, buf, annotations, Value(value))
}

// A decimal: sign, coefficient from the highest byte on, exponent.
pub fn write_decimal(
    s: State,
    buf: &mut [u8],
    annotations: &[u8],
    negative: bool,
    coefficient: &[u8],
    exponent: i64,
) -> Result<State, Refused>
    ensures { outcome_of result buf.new ≡ run (write (sids_of annotations.now) (write_decimal negative coefficient.now exponent)) (config s buf.old) }
{
    write(
        s,
        buf,
        annotations,
        Decimal {
            coefficient: Int {
                negative,
                magnitude: coefficient,
            },
            exponent,
        },
    )
}

// A timestamp by its local fields and its offset.
pub fn write_timestamp(
    s: State,
    buf: &mut [u8],
    annotations: &[u8],
    value: Timestamp,
) -> Result<State, Refused>
    ensures { outcome_of result buf.new ≡ run (write (sids_of annotations.now) (argument_of value)) (config s buf.old) }
{
    write(s, buf, annotations, value)
}

// A symbol by its sid.
pub fn write_symbol(
    s: State,
    buf: &mut [u8],
    annotations: &[u8],
    sid: u64,
) -> Result<State, Refused>
    ensures { outcome_of result buf.new ≡ run (write (sids_of annotations.now) (write_symbol sid)) (config s buf.old) }
{
    write(s, buf, annotations, Symbol(sid))
}

// A string, in UTF-8.
pub fn write_string(
    s: State,
    buf: &mut [u8],
    annotations: &[u8],
    bytes: &[u8],
) -> Result<State, Refused>
    ensures { outcome_of result buf.new ≡ run (write (sids_of annotations.now) (write_string bytes.now)) (config s buf.old) }
{
    let head = steps::write_string(&s, buf, annotations, bytes).map_err(|why| steps::refused(
        s, why,
    ))?;
    Ok(steps::with_head(steps::counted(s, head.depth), head))
}

// A clob.
pub fn write_clob(
    s: State,
    buf: &mut [u8],
    annotations: &[u8],
    bytes: &[u8],
) -> Result<State, Refused>
    ensures { outcome_of result buf.new ≡ run (write (sids_of annotations.now) (write_clob bytes.now)) (config s buf.old) }
{
    write(s, buf, annotations, Lob::Clob(bytes))
}

// A blob.
pub fn write_blob(
    s: State,
    buf: &mut [u8],
    annotations: &[u8],
    bytes: &[u8],
) -> Result<State, Refused>
    ensures { outcome_of result buf.new ≡ run (write (sids_of annotations.now) (write_blob bytes.now)) (config s buf.old) }
{
    write(s, buf, annotations, Lob::Blob(bytes))
}
