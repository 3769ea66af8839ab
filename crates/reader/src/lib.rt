// The walk over the bytes of a stream or of a body: item by item to the end, containers entered, up to the first item that does not read.
#![tactic(auto)]

ghost use Rattle.std.specs.Prelude.{◌≡◌, ℕ, ◌+◌, ◌-◌, ◌≤◌, length};
ghost use Rattle.reading.specs.Walk.{walk_from, walk_in};
ghost use Rattle.reader.specs.Values.{value_at, next_in};

use reading::{Header, Holder, Item, Passed, Refusal, Stopped};

// The item at `at` and all that it holds; none where the bytes end. The end and the ints of a list are asked first: they take no call.
#[cycle(body_value)]
fn value(s: &[u8], holder: Holder, at: usize) -> Result<Option<Passed>, Stopped>
    ensures { (f : ℕ) → length s.now - at ≤ f → result ≡ value_at f s.now holder.kind holder.least holder.depth at }
{
    if at == s.len() {
        return Ok(None);
    }
    if let Some(next) = read_items::int_end(s, holder.kind, at) {
        return Ok(Some(Passed { next, least: 0 }));
    }
    any_value(s, holder, at)
}

// The same, whatever stands at `at`.
#[cycle(body_value)]
fn any_value(s: &[u8], holder: Holder, at: usize) -> Result<Option<Passed>, Stopped>
    ensures { (f : ℕ) → length s.now - at ≤ f → result ≡ value_at f s.now holder.kind holder.least holder.depth at }
{
    // A match, so that the three ends stand together.
    let item = match read_items::item(s, holder, at) {
        Ok(Some(item)) => item,
        Ok(None) => return Ok(None),
        Err(refusal) => return Err(Stopped { refusal, place: at }),
    };
    let Header { kind, start, stop } = item.held.header;
    if read_items::is_container(kind) {
        body(&s[..stop], holder.inside(kind), start)?;
    }
    Ok(Some(Passed {
        next: stop,
        least: read_items::least_after(holder.least, kind, item.name),
    }))
}

// The items from `at` to the end of the bytes. They are a loop: only containers inside containers take the stack.
#[cycle(body_value)]
fn body(s: &[u8], holder: Holder, at: usize) -> Result<(), Stopped>
    ensures { (f : ℕ) → length s.now - at + 1 ≤ f → result ≡ (walk_from f s.now holder.kind holder.least holder.depth at).1 }
{
    let mut i = at;
    let mut holder = holder;
    while let Some(passed) = value(s, holder, i)? {
        i = passed.next;
        holder.least = passed.least;
    }
    Ok(())
}

// How the walk over the bytes before `end` ends, from `at` on, in what holds them.
#[tactic(auto, unfolding(reading::specs::Walk::walk_in))]
pub fn read(s: &[u8], end: usize, holder: Holder, at: usize) -> Result<(), Stopped>
    ensures { result ≡ (walk_in s.now end holder.kind holder.least holder.depth at).1 }
{
    let part = s.get(..end).ok_or(Stopped {
        refusal: Refusal::PastTheEnd,
        place: at,
    })?;
    body(part, holder, at)
}

// The item at `at` of the bytes before `end`, in what holds them.
#[tactic(auto, unfolding(crate::specs::Values::next_in))]
pub fn next(s: &[u8], end: usize, holder: Holder, at: usize) -> Result<Option<Item>, Refusal>
    ensures { result ≡ next_in s.now end holder.kind holder.least holder.depth at }
{
    let part = s.get(..end).ok_or(Refusal::PastTheEnd)?;
    read_items::item(part, holder, at)
}
