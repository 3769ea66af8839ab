// The entry points of the reader: a lent stream and numbers in, numbers in a lent slice out.
// Each answers 0, or the refusal's number, and then leaves the slice as it was; `gm_read_rest` puts a refusal's place there.
#![tactic(auto)]

ghost use Rattle.std.specs.Prelude.{◌≡◌, length};
ghost use Rattle.reading.specs.declared.Refusal.TheVariants.{NotIon};
ghost use Rattle.reading.specs.Headers.{var_uint_at};
ghost use Rattle.reading.specs.Bodies.{decimal_in, shown_in, symbol_in};
ghost use Rattle.reading.specs.Walk.{walk_in};
ghost use Rattle.reader.specs.Values.{next_in};
ghost use Rattle.read_answers.specs.Answers.{Answered, item_answer, reading_answer, number_answer, decimal_answer, timestamp_answer, symbol_answer};

use reading::{Holder, Refusal};

// The item at a position of what ends at `end`: the stream, with 0 for `parent`, or a container, with its type byte. Six numbers: its name, where its
// sids start and stop, its type byte, where its body starts and stops.
pub fn gm_read_item(
    stream: &[u8],
    end: usize,
    parent: u8,
    least: u64,
    depth: u8,
    position: usize,
    item: &mut [u64],
) -> u8
    ensures { ◌≡◌ {A = Answered} (result, item.new)
        (item_answer position (next_in stream.now end parent least depth position) item.old) }
{
    let holder = Holder {
        kind: parent,
        least,
        depth,
    };
    read_answers::answer_item(reader::next(stream, end, holder, position), position, item)
}

// All from a position to `end`, containers entered: 0 if it reads, else the refusal, with the place of the item that does not read.
pub fn gm_read_rest(
    stream: &[u8],
    end: usize,
    parent: u8,
    least: u64,
    depth: u8,
    position: usize,
    place: &mut [u64],
) -> u8
    ensures { ◌≡◌ {A = Answered} (result, place.new)
        (reading_answer (walk_in stream.now end parent least depth position).1 place.old) }
{
    let holder = Holder {
        kind: parent,
        least,
        depth,
    };
    read_answers::answer_reading(reader::read(stream, end, holder, position), place)
}

// A sid of the part that an item's sids are, and where the next starts.
pub fn gm_read_sid(sids: &[u8], position: usize, sid: &mut [u64]) -> u8
    ensures { ◌≡◌ {A = Answered} (result, sid.new)
        (number_answer (var_uint_at NotIon sids.now position) sid.old) }
{
    read_answers::answer_number(read_fields::var_uint(sids, position, Refusal::NotIon), sid)
}

// A decimal's body: the exponent's sign (1 if negative) and magnitude, and where the coefficient starts, an Int.
pub fn gm_read_decimal(body: &[u8], decimal: &mut [u64]) -> u8
    ensures { ◌≡◌ {A = Answered} (result, decimal.new) (decimal_answer (decimal_in body.now) decimal.old) }
{
    read_answers::answer_decimal(read_bodies::decimal(body), decimal)
}

// A timestamp's body: whether its offset is known, the offset's sign and minutes; how many fields there are, and six of them, in UTC; how many digits
// the fraction has, and where its coefficient starts, an Int; whether it is marked as out of the calendar.
pub fn gm_read_timestamp(body: &[u8], timestamp: &mut [u64]) -> u8
    ensures { ◌≡◌ {A = Answered} (result, timestamp.new) (timestamp_answer (length body.now) (shown_in body.now) timestamp.old) }
{
    read_answers::answer_timestamp(read_mark::timestamp(body), body.len(), timestamp)
}

// A symbol's body: its sid.
pub fn gm_read_symbol(body: &[u8], sid: &mut [u64]) -> u8
    ensures { ◌≡◌ {A = Answered} (result, sid.new) (symbol_answer (symbol_in body.now) sid.old) }
{
    read_answers::answer_symbol(read_bodies::symbol(body), sid)
}
