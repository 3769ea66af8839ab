// The walk over a stream by the reader's entry points: item by item, containers entered.
ghost use Rattle.std.specs.Prelude.{◌≤◌, length};

use crate::refusal::{Refusal, answered};
use crate::values::{NULL, Value};
use arrayvec::ArrayVec;
use entry_reading::{gm_read_item, gm_read_rest, gm_read_sid};
use std::{fmt, io};

const MOST_OPEN: usize = 32;

// Numbers, and no enum, as in `values`: the entry point gives the type byte as it stands. The least that is no pad's, that of a marker, and what stands for no item more.
const PAST_PADS: u8 = 0x0F;

const MARKER: u8 = 0xE0;

const NO_MORE: u8 = 0xFF;

// Type bytes: the least of a list and of a struct, and a struct's null, the last of the containers.
const LIST: u8 = 0xB0;

const STRUCT: u8 = 0xD0;

const NULL_STRUCT: u8 = 0xDF;

// What stands for the stream where a container's type byte is asked for.
const STREAM: u8 = 0;

// The bytes between two places, as far as the stream has them.
fn part(stream: &[u8], from: usize, to: usize) -> &[u8] {
    let end = to.min(stream.len());
    &stream[from.min(end)..end]
}

fn is_struct(kind: u8) -> bool {
    (STRUCT..NULL_STRUCT).contains(&kind)
}

// An item: its name in a struct, where the sids of its annotations stand, its type byte, and where its body stands.
#[derive(Clone, Copy)]
struct Item {
    name: u64,
    sids: usize,
    sids_end: usize,
    kind: u8,
    start: usize,
    stop: usize,
}

// The numbers that `gm_read_item` puts.
impl From<[u64; 6]> for Item {
    fn from(numbers: [u64; 6]) -> Self {
        let [name, sids, sids_end, kind, start, stop] = numbers;
        Item {
            name,
            sids: sids as usize,
            sids_end: sids_end as usize,
            kind: (kind % 256) as u8,
            start: start as usize,
            stop: stop as usize,
        }
    }
}

impl Item {
    fn is_pad(&self) -> bool {
        self.kind < PAST_PADS
    }

    // A list, an s-expression or a struct that is not null.
    fn opens(&self) -> bool {
        (LIST..NULL_STRUCT).contains(&self.kind) && self.kind % 16 != NULL
    }
}

// A sid and the place behind it.
fn sid_at(sids: &[u8], at: usize) -> Result<(u64, usize), Refusal> {
    let mut numbers = [0u64; 2];
    answered(gm_read_sid(sids, at, &mut numbers))?;
    let [sid, next] = numbers;
    Ok((sid, next as usize))
}

// The sids that fill a part.
#[derive(Clone, Copy)]
struct Annotations<'a>(&'a [u8]);

impl fmt::Display for Annotations<'_> {
    fn fmt<W: fmt::Write>(&self, f: &mut fmt::Formatter<W>) -> fmt::Result {
        let sids = self.0;
        let mut at: usize = 0;
        // Each has a byte at least, so as many turns do.
        for _ in 0..sids.len() {
            if sids.len() <= at {
                break;
            }
            match sid_at(sids, at) {
                Ok((sid, next)) => {
                    write!(f, "{sid}::")?;
                    at = next;
                }
                Err(refusal) => return write!(f, "{refusal}"),
            }
        }
        Ok(())
    }
}

// Prints what an item shows, which a pad does not.
fn print_item(rt: &impl Print, stream: &[u8], holder: Holder, item: Item) -> io::Result<()> {
    if item.is_pad() {
        return Ok(());
    }
    if item.kind == MARKER {
        return print!(rt; "m ");
    }
    if is_struct(holder.kind) {
        print!(rt; "{}=", item.name)?;
    }
    let annotations = Annotations(part(stream, item.sids, item.sids_end));
    let value = Value {
        kind: item.kind,
        body: part(stream, item.start, item.stop),
    };
    print!(rt; "{annotations}{value} ")
}

// What holds an item, a container or the stream: where it ends, its type byte, `STREAM` for the stream, and the least name that may follow in it.
#[derive(Clone, Copy, Default)]
struct Holder {
    end: usize,
    kind: u8,
    least: u64,
}

// Where a walk stands: the position, and what holds it, the stream and the containers that were entered.
#[derive(Drop)]
struct Walk {
    position: usize,
    stream: Holder,
    containers: ArrayVec<Holder, MOST_OPEN>,
}

impl Walk {
    fn new(end: usize, position: usize) -> Self {
        Walk {
            position,
            stream: Holder {
                end,
                kind: STREAM,
                least: 0,
            },
            containers: ArrayVec::new(),
        }
    }

    // What holds the position.
    fn innermost(&self) -> Holder {
        self.containers.last().copied().unwrap_or(self.stream)
    }

    // The item at the position, or none where what holds it ends.
    fn read(&self, stream: &[u8]) -> Result<Option<Item>, Refusal> {
        let holder = self.innermost();
        let mut numbers = [0u64; 6];
        answered(gm_read_item(
            stream,
            holder.end,
            holder.kind,
            holder.least,
            self.containers.len() as u8,
            self.position,
            &mut numbers,
        ))?;
        let item = Item::from(numbers);
        Ok((item.kind != NO_MORE).then_some(item))
    }

    // Goes behind the container that was entered last, if there is one.
    fn leave(&mut self) -> bool {
        match self.containers.pop() {
            Some(container) => {
                self.position = container.end;
                true
            }
            None => false,
        }
    }

    // Goes behind an item. The name of a pad does not count.
    fn pass(&mut self, item: Item) {
        self.position = item.stop;
        if !item.is_pad() {
            self.containers.last_mut().unwrap_or(&mut self.stream).least = item.name;
        }
    }

    // Goes into a container. The reader refuses one for which there is no room.
    fn enter(&mut self, item: Item) {
        if !self.containers.is_full() {
            self.position = item.start;
            self.containers.push(Holder {
                end: item.stop,
                kind: item.kind,
                least: 0,
            });
        }
    }
}

// How a walk ended: where the stream does, or at a place whose item was refused.
#[derive(Clone, Copy, PartialEq, Eq, Drop)]
enum Ending {
    Whole,
    Refused { refusal: Refusal, place: usize },
    // The turns ran out, which no refusal's number says.
    Endless { place: usize },
}

impl fmt::Display for Ending {
    fn fmt<W: fmt::Write>(&self, f: &mut fmt::Formatter<W>) -> fmt::Result {
        match *self {
            Ending::Whole => f.write_str("whole"),
            Ending::Refused { refusal, place } => write!(f, "{refusal}@{place}"),
            Ending::Endless { place } => write!(f, "!255@{place}"),
        }
    }
}

// Each turn reads an item, of a byte at least, or leaves a container.
fn walked(rt: &impl Print, stream: &[u8], position: usize) -> io::Result<Ending>
    requires { length stream.now ≤ 8192 }
{
    let mut walk = Walk::new(stream.len(), position);
    for _ in 0..2 * stream.len() + 1 {
        match walk.read(stream) {
            Err(refusal) => {
                return Ok(Ending::Refused {
                    refusal,
                    place: walk.position,
                });
            }
            Ok(Some(item)) => {
                print_item(rt, stream, walk.innermost(), item)?;
                walk.pass(item);
                if item.opens() {
                    walk.enter(item);
                }
            }
            Ok(None) => {
                if !walk.leave() {
                    return Ok(Ending::Whole);
                }
                print!(rt; ". ")?;
            }
        }
    }
    Ok(Ending::Endless {
        place: walk.position,
    })
}

// How `gm_read_rest` says that a walk ends.
fn rest(stream: &[u8], position: usize) -> Ending {
    let mut numbers = [0u64; 1];
    let answer = answered(gm_read_rest(stream, stream.len(), STREAM, 0, 0, position, &mut numbers));
    let [place] = numbers;
    match answer {
        Ok(()) => Ending::Whole,
        Err(refusal) => Ending::Refused {
            refusal,
            place: place as usize,
        },
    }
}

// Prints what the walk from a position shows, and how it ended; behind it the ending by `gm_read_rest`, if that is another.
pub(crate) fn print_walk(rt: &impl Print, stream: &[u8], position: usize) -> io::Result<()>
    requires { length stream.now ≤ 8192 }
{
    let ending = walked(rt, stream, position)?;
    print!(rt; "{ending}")?;
    let whole = rest(stream, position);
    if ending != whole {
        print!(rt; " but rest {whole}")?;
    }
    Ok(())
}
