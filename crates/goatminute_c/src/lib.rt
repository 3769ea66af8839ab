// The static library for hosts: each entry point as a C function, which calls the library's of the same name under the same clauses.
// A slice crosses as its pointer and its length; host/include/goatminute.h declares them all.
#![tactic(auto)]

ghost use Rattle.entry_numbers.specs.EntryCall.{call_of, gm_abandon, gm_close, gm_empty, gm_field_name, gm_open_list, gm_open_sexp, gm_open_struct, gm_version_marker, gm_write_blob, gm_write_bool, gm_write_clob, gm_write_decimal, gm_write_f32, gm_write_f64, gm_write_i64, gm_write_int, gm_write_null, gm_write_string, gm_write_symbol, gm_write_timestamp};
ghost use Rattle.entry_steps.specs.Entries.{entered_as, start_entered};
ghost use Rattle.machine.specs.Machine.{finished_length};
ghost use Rattle.read_answers.specs.Answers.{Answered, decimal_answer, item_answer, number_answer, reading_answer, symbol_answer, timestamp_answer};
ghost use Rattle.reader.specs.Values.{next_in};
ghost use Rattle.reading.specs.Bodies.{decimal_in, shown_in, symbol_in};
ghost use Rattle.reading.specs.Headers.{var_uint_at};
ghost use Rattle.reading.specs.Walk.{walk_in};
ghost use Rattle.reading.specs.declared.Refusal.TheVariants.{NotIon};
ghost use Rattle.state_bytes.specs.StateBytes.{answered, entered, state_of};
ghost use Rattle.std.specs.Prelude.{length, ◌≡◌};

// ---- goatminute

// A start: the empty state over a lent buffer that begins with a version marker.
#[unsafe(no_mangle)]
pub extern "C" fn gm_start(state: &mut [u8], buf: &mut [u8]) -> u8
    ensures { entered_as result state.new buf.new ≡ start_entered state.old buf.old }
{
    goatminute::gm_start(state, buf)
}

// A version marker, at the place of the call.
#[unsafe(no_mangle)]
pub extern "C" fn gm_version_marker(state: &mut [u8], buf: &mut [u8]) -> u8
    ensures { entered_as result state.new buf.new
        ≡ entered (call_of gm_version_marker) state.old buf.old }
{
    goatminute::gm_version_marker(state, buf)
}

// An emptying: the used length becomes zero, and no byte of the buffer alters.
#[unsafe(no_mangle)]
pub extern "C" fn gm_empty(state: &mut [u8], buf: &[u8]) -> u8
    ensures { entered_as result state.new buf.now
        ≡ entered (call_of gm_empty) state.old buf.now }
{
    goatminute::gm_empty(state, buf)
}

// A taking: how many bytes from the buffer's front are finished.
#[unsafe(no_mangle)]
pub extern "C" fn gm_finished(state: &[u8], buf: &[u8]) -> usize
    ensures { result ≡ finished_length (state_of state.now) (length buf.now) }
{
    goatminute::gm_finished(state, buf)
}

// ---- entry_containers

// A field name: its sid as a VarUInt.
#[unsafe(no_mangle)]
pub extern "C" fn gm_field_name(state: &mut [u8], buf: &mut [u8], sid: u64) -> u8
    ensures { entered_as result state.new buf.new
        ≡ entered (call_of (gm_field_name sid)) state.old buf.old }
{
    entry_containers::gm_field_name(state, buf, sid)
}

#[unsafe(no_mangle)]
pub extern "C" fn gm_open_list(state: &mut [u8], buf: &mut [u8], annotations: &[u8]) -> u8
    ensures { entered_as result state.new buf.new
        ≡ entered (call_of (gm_open_list annotations.now)) state.old buf.old }
{
    entry_containers::gm_open_list(state, buf, annotations)
}

#[unsafe(no_mangle)]
pub extern "C" fn gm_open_sexp(state: &mut [u8], buf: &mut [u8], annotations: &[u8]) -> u8
    ensures { entered_as result state.new buf.new
        ≡ entered (call_of (gm_open_sexp annotations.now)) state.old buf.old }
{
    entry_containers::gm_open_sexp(state, buf, annotations)
}

#[unsafe(no_mangle)]
pub extern "C" fn gm_open_struct(state: &mut [u8], buf: &mut [u8], annotations: &[u8]) -> u8
    ensures { entered_as result state.new buf.new
        ≡ entered (call_of (gm_open_struct annotations.now)) state.old buf.old }
{
    entry_containers::gm_open_struct(state, buf, annotations)
}

// A closing: the header, and the wrapper's, in their final form. What it answers of the container, in four bytes each, least significant first:
// how many bytes it takes, how many members it has, and how many bytes moved. It answers in the slice `closed`, as far as that holds the numbers whole.
// The container is then a member of the one that it lies in.
#[unsafe(no_mangle)]
pub extern "C" fn gm_close(state: &mut [u8], buf: &mut [u8], closed: &mut [u8]) -> u8
    ensures { (entered_as result state.new buf.new ≡ entered (call_of gm_close) state.old buf.old)
        × (closed.new ≡ answered state.old buf.old closed.old) }
{
    entry_containers::gm_close(state, buf, closed)
}

// An abandonment: the innermost container's bytes are given back, and a name before it waits again.
#[unsafe(no_mangle)]
pub extern "C" fn gm_abandon(state: &mut [u8], buf: &mut [u8]) -> u8
    ensures { entered_as result state.new buf.new
        ≡ entered (call_of gm_abandon) state.old buf.old }
{
    entry_containers::gm_abandon(state, buf)
}

// ---- entry_scalars

// A null, by the type code.
#[unsafe(no_mangle)]
pub extern "C" fn gm_write_null(
    state: &mut [u8],
    buf: &mut [u8],
    annotations: &[u8],
    code: u8,
) -> u8
    ensures { entered_as result state.new buf.new
        ≡ entered (call_of (gm_write_null annotations.now code)) state.old buf.old }
{
    entry_scalars::gm_write_null(state, buf, annotations, code)
}

// A bool.
#[unsafe(no_mangle)]
pub extern "C" fn gm_write_bool(
    state: &mut [u8],
    buf: &mut [u8],
    annotations: &[u8],
    value: u8,
) -> u8
    ensures { entered_as result state.new buf.new
        ≡ entered (call_of (gm_write_bool annotations.now value)) state.old buf.old }
{
    entry_scalars::gm_write_bool(state, buf, annotations, value)
}

// An int of 64 bits with its sign.
#[unsafe(no_mangle)]
pub extern "C" fn gm_write_i64(
    state: &mut [u8],
    buf: &mut [u8],
    annotations: &[u8],
    value: i64,
) -> u8
    ensures { entered_as result state.new buf.new
        ≡ entered (call_of (gm_write_i64 annotations.now value)) state.old buf.old }
{
    entry_scalars::gm_write_i64(state, buf, annotations, value)
}

// A float by the bits of binary32.
#[unsafe(no_mangle)]
pub extern "C" fn gm_write_f32(
    state: &mut [u8],
    buf: &mut [u8],
    annotations: &[u8],
    bits: u32,
) -> u8
    ensures { entered_as result state.new buf.new
        ≡ entered (call_of (gm_write_f32 annotations.now bits)) state.old buf.old }
{
    entry_scalars::gm_write_f32(state, buf, annotations, bits)
}

// A float by the bits of binary64, in four bytes where binary32 holds it.
#[unsafe(no_mangle)]
pub extern "C" fn gm_write_f64(
    state: &mut [u8],
    buf: &mut [u8],
    annotations: &[u8],
    bits: u64,
) -> u8
    ensures { entered_as result state.new buf.new
        ≡ entered (call_of (gm_write_f64 annotations.now bits)) state.old buf.old }
{
    entry_scalars::gm_write_f64(state, buf, annotations, bits)
}

// A timestamp by its local fields and its offset. A field past the precision means nothing, nor does an offset that is not known or a fraction that is not given.
#[unsafe(no_mangle)]
pub extern "C" fn gm_write_timestamp(
    state: &mut [u8],
    buf: &mut [u8],
    annotations: &[u8],
    precision: u8,
    year: u32,
    month: u32,
    day: u32,
    hour: u32,
    minute: u32,
    second: u32,
    known: u8,
    offset: i32,
    given: u8,
    digits: u32,
    coefficient: u64,
) -> u8
    ensures { entered_as result state.new buf.new
        ≡ entered (call_of (gm_write_timestamp annotations.now (record {
          precision = precision;
          year = year;
          month = month;
          day = day;
          hour = hour;
          minute = minute;
          second = second;
          known = known;
          offset = offset;
          given = given;
          digits = digits;
          coefficient = coefficient;
        }))) state.old buf.old }
{
    entry_scalars::gm_write_timestamp(
        state,
        buf,
        annotations,
        precision,
        year,
        month,
        day,
        hour,
        minute,
        second,
        known,
        offset,
        given,
        digits,
        coefficient,
    )
}

// A symbol by its sid.
#[unsafe(no_mangle)]
pub extern "C" fn gm_write_symbol(
    state: &mut [u8],
    buf: &mut [u8],
    annotations: &[u8],
    sid: u64,
) -> u8
    ensures { entered_as result state.new buf.new
        ≡ entered (call_of (gm_write_symbol annotations.now sid)) state.old buf.old }
{
    entry_scalars::gm_write_symbol(state, buf, annotations, sid)
}

// ---- entry_slices

// An int of any size: its sign, and its magnitude from the highest byte on.
#[unsafe(no_mangle)]
pub extern "C" fn gm_write_int(
    state: &mut [u8],
    buf: &mut [u8],
    annotations: &[u8],
    negative: u8,
    magnitude: &[u8],
) -> u8
    ensures { entered_as result state.new buf.new
        ≡ entered (call_of (gm_write_int annotations.now negative magnitude.now)) state.old buf.old }
{
    entry_slices::gm_write_int(state, buf, annotations, negative, magnitude)
}

// A decimal: sign, coefficient from the highest byte on, exponent.
#[unsafe(no_mangle)]
pub extern "C" fn gm_write_decimal(
    state: &mut [u8],
    buf: &mut [u8],
    annotations: &[u8],
    negative: u8,
    coefficient: &[u8],
    exponent: i64,
) -> u8
    ensures { entered_as result state.new buf.new
        ≡ entered (call_of (gm_write_decimal annotations.now negative coefficient.now exponent)) state.old buf.old }
{
    entry_slices::gm_write_decimal(state, buf, annotations, negative, coefficient, exponent)
}

// A string, in UTF-8.
#[unsafe(no_mangle)]
pub extern "C" fn gm_write_string(
    state: &mut [u8],
    buf: &mut [u8],
    annotations: &[u8],
    bytes: &[u8],
) -> u8
    ensures { entered_as result state.new buf.new
        ≡ entered (call_of (gm_write_string annotations.now bytes.now)) state.old buf.old }
{
    entry_slices::gm_write_string(state, buf, annotations, bytes)
}

// A clob.
#[unsafe(no_mangle)]
pub extern "C" fn gm_write_clob(
    state: &mut [u8],
    buf: &mut [u8],
    annotations: &[u8],
    bytes: &[u8],
) -> u8
    ensures { entered_as result state.new buf.new
        ≡ entered (call_of (gm_write_clob annotations.now bytes.now)) state.old buf.old }
{
    entry_slices::gm_write_clob(state, buf, annotations, bytes)
}

// A blob.
#[unsafe(no_mangle)]
pub extern "C" fn gm_write_blob(
    state: &mut [u8],
    buf: &mut [u8],
    annotations: &[u8],
    bytes: &[u8],
) -> u8
    ensures { entered_as result state.new buf.new
        ≡ entered (call_of (gm_write_blob annotations.now bytes.now)) state.old buf.old }
{
    entry_slices::gm_write_blob(state, buf, annotations, bytes)
}

// ---- entry_reading

// The item at a position of what ends at `end`: the stream, with 0 for `parent`, or a container, with its type byte. Six numbers: its name, where its
// sids start and stop, its type byte, where its body starts and stops.
#[unsafe(no_mangle)]
pub extern "C" fn gm_read_item(
    stream: &[u8],
    end: usize,
    parent: u8,
    least: u64,
    depth: u8,
    position: usize,
    item: &mut [u64],
) -> u8
    ensures { ◌≡◌ {A = Answered} (result, item.new)
        (item_answer position (next_in stream.now end parent least depth position) item.old) }
{
    entry_reading::gm_read_item(stream, end, parent, least, depth, position, item)
}

// All from a position to `end`, containers entered: 0 if it reads, else the refusal, with the place of the item that does not read.
#[unsafe(no_mangle)]
pub extern "C" fn gm_read_rest(
    stream: &[u8],
    end: usize,
    parent: u8,
    least: u64,
    depth: u8,
    position: usize,
    place: &mut [u64],
) -> u8
    ensures { ◌≡◌ {A = Answered} (result, place.new)
        (reading_answer (walk_in stream.now end parent least depth position).1 place.old) }
{
    entry_reading::gm_read_rest(stream, end, parent, least, depth, position, place)
}

// A sid of the part that an item's sids are, and where the next starts.
#[unsafe(no_mangle)]
pub extern "C" fn gm_read_sid(sids: &[u8], position: usize, sid: &mut [u64]) -> u8
    ensures { ◌≡◌ {A = Answered} (result, sid.new)
        (number_answer (var_uint_at NotIon sids.now position) sid.old) }
{
    entry_reading::gm_read_sid(sids, position, sid)
}

// A decimal's body: the exponent's sign (1 if negative) and magnitude, and where the coefficient starts, an Int.
#[unsafe(no_mangle)]
pub extern "C" fn gm_read_decimal(body: &[u8], decimal: &mut [u64]) -> u8
    ensures { ◌≡◌ {A = Answered} (result, decimal.new) (decimal_answer (decimal_in body.now) decimal.old) }
{
    entry_reading::gm_read_decimal(body, decimal)
}

// A timestamp's body: whether its offset is known, the offset's sign and minutes; how many fields there are, and six of them, in UTC; how many digits
// the fraction has, and where its coefficient starts, an Int; whether it is marked as out of the calendar.
#[unsafe(no_mangle)]
pub extern "C" fn gm_read_timestamp(body: &[u8], timestamp: &mut [u64]) -> u8
    ensures { ◌≡◌ {A = Answered} (result, timestamp.new) (timestamp_answer (length body.now) (shown_in body.now) timestamp.old) }
{
    entry_reading::gm_read_timestamp(body, timestamp)
}

// A symbol's body: its sid.
#[unsafe(no_mangle)]
pub extern "C" fn gm_read_symbol(body: &[u8], sid: &mut [u64]) -> u8
    ensures { ◌≡◌ {A = Answered} (result, sid.new) (symbol_answer (symbol_in body.now) sid.old) }
{
    entry_reading::gm_read_symbol(body, sid)
}
