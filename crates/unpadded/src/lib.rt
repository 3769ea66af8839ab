// Whether bytes are one value without NOP pad and without out-of-calendar timestamp, by the items that the reader finds.
#![tactic(auto)]

ghost use Rattle.std.specs.Prelude.{◌≡◌, true, ℕ, ◌+◌, ◌-◌, ◌<◌, ◌≤◌, length};
ghost use Rattle.reading.specs.Scalars.{scalar_in};
ghost use Rattle.reading.specs.Bodies.{mark_in};
ghost use Rattle.reading.specs.Items.{opens};
ghost use Rattle.unpadded.specs.Rule.{content_by, is_whole, unpadded_from, is_one_value};

use reading::codes::{MARKER, NULL, TIMESTAMP};
use reading::{Header, Holder, Item, Refusal};

// Only a timestamp has a mark, and a null is none.
#[tactic(auto, using(crate::proofs::Marks::told_mark, crate::proofs::Marks::timestamp_mark, crate::proofs::Marks::no_mark))]
fn has_mark(kind: u8, body: &[u8]) -> bool
    ensures { result ≡ mark_in (scalar_in kind body.now) }
{
    if (kind / 16 == TIMESTAMP) & (kind % 16 < NULL) {
        return read_mark::timestamp(body).is_ok_and(|shown| shown.marked);
    }
    false
}

// What stands in an item's body: a container's items, or a scalar.
#[cycle(are_unpadded_is_content)]
fn is_content(s: &[u8], holder: Holder, header: Header) -> bool
    requires { (header.start ≤ header.stop) × ((header.stop ≤ length s.now) × (opens header.kind ≡ true → holder.depth < 32)) }
    ensures { (f : ℕ) → header.stop - header.start + 1 ≤ f → result ≡ content_by f s.now holder.depth header.kind header.start header.stop }
{
    let Header { kind, start, stop } = header;
    if read_items::is_container(kind) {
        return are_unpadded(&s[..stop], holder.inside(kind), start);
    }
    !has_mark(kind, &s[start..stop])
}

// The items from `at` to the end of the bytes. They are a loop: only containers inside containers take the stack.
#[cycle(are_unpadded_is_content)]
fn are_unpadded(s: &[u8], holder: Holder, at: usize) -> bool
    requires { at ≤ length s.now }
    ensures { (f : ℕ) → length s.now - at + 1 ≤ f → result ≡ unpadded_from f s.now holder.kind holder.least holder.depth at }
{
    let mut i = at;
    let mut least = holder.least;
    while let Ok(Some(item)) = read_items::item(s, Holder { least, ..holder }, i) {
        let header = item.held.header;
        if read_items::is_pad(header.kind) || !is_content(s, holder, header) {
            return false;
        }
        least = item.name.unwrap_or(0);
        i = header.stop;
    }
    i == s.len()
}

// The first item is all of the bytes, and no version marker.
fn is_whole(s: &[u8], found: Result<Option<Item>, Refusal>) -> bool
    ensures { result ≡ is_whole s.now found }
{
    match found {
        Ok(Some(Item { held, .. })) => {
            (held.header.stop == s.len()) & !(held.header.kind == MARKER)
        }
        _ => false,
    }
}

// Most strings are not one item, so that is asked first.
#[tactic(auto, using(crate::proofs::Steps::not_whole, crate::proofs::Steps::whole))]
pub fn is_one_value(s: &[u8]) -> bool
    ensures { result ≡ is_one_value s.now }
{
    is_whole(s, read_items::item(s, Holder::STREAM, 0)) && are_unpadded(s, Holder::STREAM, 0)
}
