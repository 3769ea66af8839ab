// One item of a stream or of a body: its name, its header, what a wrapper holds, and whether its content reads.
#![tactic(auto)]

ghost use Rattle.std.specs.Prelude.{◌≡◌, ◌<◌, ◌≤◌, length};
ghost use Rattle.reading.specs.declared.Refusal.TheVariants.{NotIon};
ghost use Rattle.reading.specs.Headers.{header_at};
ghost use Rattle.reading.specs.Scalars.{is_some, sids_of};
ghost use Rattle.reading.specs.Items.{is_pad, is_wrapper, opens, has_names, name_at, head_in, filled, annotated, wrapped_at, unwrapped, reads, falls};
ghost use Rattle.reading.specs.Items.{raised, item_at};
ghost use Rattle.read_items.specs.Stands.{stands};
ghost use Rattle.read_items.specs.Ints.{is_sequence, is_short_int, int_end};
ghost use Rattle.read_items.specs.Sids.{groups_with};

use read_fields::{END_FLAG, MAX_BEFORE_GROUP};
use reading::codes::{LONG, MARKER};
use reading::{Header, Holder, Item, MOST_OPEN, Name, Number, Refusal, Wrapped};

// Type bytes. Those below null's are pads. They are numbers, and no enum: an item answers the byte of the stream as it stands, its length bits too.
const NULL: u8 = 0x0F;

const INT_ZERO: u8 = 0x20;

const LIST: u8 = 0xB0;

const NULL_LIST: u8 = 0xBF;

const NULL_SEXP: u8 = 0xCF;

const STRUCT: u8 = 0xD0;

const SORTED_STRUCT: u8 = 0xD1;

const NULL_STRUCT: u8 = 0xDF;

const NULL_WRAPPER: u8 = 0xEF;

pub fn is_pad(kind: u8) -> bool
    ensures { result ≡ is_pad kind }
{
    kind < NULL
}

pub fn is_wrapper(kind: u8) -> bool
    ensures { result ≡ is_wrapper kind }
{
    (MARKER < kind) & (kind < NULL_WRAPPER)
}

// A list, an s-expression or a struct that is not null.
pub fn is_container(kind: u8) -> bool
    ensures { result ≡ opens kind }
{
    (LIST <= kind) & ((kind < NULL_STRUCT) & (!(kind == NULL_LIST) & !(kind == NULL_SEXP)))
}

// Whether the items of this parent have names.
pub fn has_names(parent: u8) -> bool
    ensures { result ≡ has_names parent }
{
    (STRUCT <= parent) & (parent < NULL_STRUCT)
}

// The least name that may follow: a pad's does not count. It is 0 where items have none.
pub fn least_after(least: u64, kind: u8, name: Option<u64>) -> u64
    ensures { result ≡ raised least kind name }
{
    if is_pad(kind) {
        least
    } else {
        name.unwrap_or(0)
    }
}

// In a sorted struct a name may repeat but not fall, a pad's aside.
fn name_falls(holder: Holder, kind: u8, name: Option<u64>) -> bool
    ensures { result ≡ falls holder.kind holder.least kind name }
{
    (holder.kind == SORTED_STRUCT) & (!is_pad(kind) & name.is_some_and(|name| name < holder.least))
}

// The groups of a VarUInt so far and a byte more. A last group leaves none.
fn with_group(groups: u64, b: u8) -> u64
    requires { groups ≤ 0x1FFFFFFFFFFFFFF }
    ensures { result ≡ groups_with groups b }
{
    if b < END_FLAG {
        return groups * 128 + u64::from(b % 128);
    }
    0
}

// Whether whole sids fill the bytes. Leading groups may be zero, so their count is not limited.
#[tactic(auto, using(crate::proofs::Sids::a_byte))]
pub fn are_sids(part: &[u8]) -> bool
    ensures { result ≡ is_some (sids_of part.now) }
{
    let mut groups: u64 = 0;
    let mut whole = true;
    for b in part {
        if MAX_BEFORE_GROUP < groups {
            return false;
        }
        groups = with_group(groups, *b);
        whole = END_FLAG <= *b;
    }
    whole
}

// The name of the item at `at`, where items have one.
fn name_at(s: &[u8], parent: u8, at: usize) -> Result<Name, Refusal>
    ensures { result ≡ name_at s.now parent at }
{
    if !has_names(parent) {
        return Ok(Name {
            value: None,
            next: at,
        });
    }
    let Number { value, next } = read_fields::var_uint(s, at, Refusal::NotIon)?;
    Ok(Name {
        value: Some(value),
        next,
    })
}

// The header behind the name. Only the stream itself can be cut short.
fn head_in(s: &[u8], parent: u8, at: usize) -> Result<Header, Refusal>
    ensures { result ≡ head_in s.now parent at }
{
    if parent == Holder::STREAM.kind {
        return read_header::top_header_at(s, at);
    }
    read_header::header_at(s, at, Refusal::NotIon)
}

// The one value behind a wrapper's sids.
fn wrapped_value(s: &[u8], from: usize, to: usize) -> Result<Wrapped, Refusal>
    ensures { result ≡ filled s.now from to (header_at NotIon s.now to) }
{
    let header = read_header::header_at(s, to, Refusal::NotIon)?;
    if is_pad(header.kind) | (is_wrapper(header.kind) | !(header.stop == s.len())) {
        return Err(Refusal::NotIon);
    }
    Ok(Wrapped {
        sids: from,
        sids_end: to,
        header,
    })
}

// A wrapper's sids, whose length and start `sum` gives, and the value behind them.
#[tactic(auto, using(crate::proofs::Parts::part_slice))]
fn annotated_value(s: &[u8], sum: Number) -> Result<Wrapped, Refusal>
    requires { sum.next ≤ length s.now }
    ensures { result ≡ annotated s.now (Ok sum) }
{
    let Number {
        value: n,
        next: from,
    } = sum;
    if n < 1 {
        return Err(Refusal::NotIon);
    }
    if ((s.len() - from) as u64) < n {
        return Err(Refusal::NotIon);
    }
    let to = from + n as usize;
    if are_sids(&s[from..to]) {
        return wrapped_value(s, from, to);
    }
    Err(Refusal::NotIon)
}

// What a wrapper holds whose body stands at `at`; the bytes reach to the wrapper's end.
#[tactic(auto, using(read_fields::proofs::VarUInts::var_uint_bounds), unfolding(reading::specs::Items::wrapped_at))]
pub fn wrapped(s: &[u8], at: usize) -> Result<Wrapped, Refusal>
    ensures { result ≡ wrapped_at s.now at }
{
    annotated_value(s, read_fields::var_uint(s, at, Refusal::NotIon)?)
}

// The value of a header, in its wrapper or as it stands.
fn unwrap(s: &[u8], header: Header) -> Result<Wrapped, Refusal>
    requires { header.stop ≤ length s.now }
    ensures { result ≡ unwrapped s.now (Ok header) }
{
    if is_wrapper(header.kind) {
        return wrapped(&s[..header.stop], header.start);
    }
    Ok(Wrapped {
        sids: header.start,
        sids_end: header.start,
        header,
    })
}

// Whether the body of a scalar reads. Others are not judged by their body. Most are scalars, so that is asked first.
#[tactic(auto, using(crate::proofs::Stands::reads_by))]
fn body_reads(kind: u8, body: &[u8]) -> bool
    ensures { result ≡ reads kind body.now }
{
    read_scalars::reads(kind, body) || (is_pad(kind) | ((kind == MARKER) | is_container(kind)))
}

// The header behind the name, and what it holds. Document 01 names `let .. else` here, where `?` would do.
#[tactic(auto, using(crate::proofs::Bounds::head_bounds))]
fn held_at(s: &[u8], parent: u8, at: usize) -> Result<Wrapped, Refusal>
    ensures { result ≡ unwrapped s.now (head_in s.now parent at) }
{
    let found = head_in(s, parent, at);
    let Ok(header) = found else {
        return Err(found.unwrap_err());
    };
    unwrap(s, header)
}

// Whether the name, the count of open containers and the body let the item stand. A container is not judged by its body, so the order is free.
#[tactic(auto, using(crate::proofs::Stands::container_reads))]
fn judge(holder: Holder, name: Option<u64>, kind: u8, body: &[u8]) -> Result<(), Refusal>
    ensures { result ≡ stands holder.kind holder.least holder.depth name kind body.now }
{
    if name_falls(holder, kind, name) {
        return Err(Refusal::NotIon);
    }
    if (MOST_OPEN <= holder.depth) && is_container(kind) {
        return Err(Refusal::TooDeep);
    }
    if !body_reads(kind, body) {
        return Err(Refusal::NotIon);
    }
    Ok(())
}

// The item at `at`, in what holds it, whose end the bytes reach to. It is not inlined: a walk that enters containers would take its frame for each.
// Its parts are put together here: a struct that is handed on is copied with its padding, with which whole reading takes 333 ns a record for 249.
#[inline(never)]
#[tactic(auto, using(crate::proofs::Bounds::body_bounds, crate::proofs::Parts::part_slice), unfolding(reading::specs::Items::item_at))]
pub fn item(s: &[u8], holder: Holder, at: usize) -> Result<Option<Item>, Refusal>
    ensures { result ≡ item_at s.now holder.kind holder.least holder.depth at }
{
    if s.len() < at {
        return Err(Refusal::PastTheEnd);
    }
    if at == s.len() {
        return Ok(None);
    }
    let name = name_at(s, holder.kind, at)?;
    let held = held_at(s, holder.kind, name.next)?;
    let Header { kind, start, stop } = held.header;
    judge(holder, name.value, kind, &s[start..stop])?;
    let header = Header { kind, start, stop };
    Ok(Some(Item {
        name: name.value,
        held: Wrapped { header, ..held },
    }))
}

// A list's or an s-expression's type byte.
fn is_sequence(parent: u8) -> bool
    ensures { result ≡ is_sequence parent }
{
    (LIST <= parent) & (parent < STRUCT)
}

// An int of 1 to 13 bytes, of either sign: the two type codes differ in their last bit.
fn is_short_int(kind: u8) -> bool
    ensures { result ≡ is_short_int kind }
{
    (kind / 32 == 1) & ((0 < kind % 16) & (kind % 16 < LONG))
}

// A short way past an int in a list or an s-expression: the place behind it; none where anything else stands, for `item` to judge.
// In the shortest form an int's first byte is not zero, so it is not negative zero.
#[tactic(auto, using(crate::proofs::Ints::an_int))]
pub fn int_end(s: &[u8], parent: u8, at: usize) -> Option<usize>
    ensures { result ≡ int_end s.now parent at }
{
    if !is_sequence(parent) {
        return None;
    }
    let b = *s.get(at)?;
    if b == INT_ZERO {
        return Some(at + 1);
    }
    if !is_short_int(b) {
        return None;
    }
    let size = usize::from(b % 16);
    if s.len() - at <= size {
        return None;
    }
    if s[at + 1] == 0 {
        return None;
    }
    Some(at + 1 + size)
}
