// A reader holds the stream that is lent to it and a position in it. The work is done by functions over a plain slice and a number, as document 01 has it.
#![tactic(auto)]

ghost use Rattle.std.specs.Prelude.{◌≡◌};
ghost use Rattle.stream_reader.specs.Top.{top_item, top_reading};

use reading::{Holder, Item, Refusal, Stopped};

// The item at a position of a stream.
pub fn item_in(stream: &[u8], position: usize) -> Result<Option<Item>, Refusal>
    ensures { result ≡ top_item stream.now position }
{
    read_items::item(stream, Holder::STREAM, position)
}

// How the walk over a stream ends, from a position on.
pub fn reading_from(stream: &[u8], position: usize) -> Result<(), Stopped>
    ensures { result ≡ top_reading stream.now position }
{
    reader::read(stream, stream.len(), Holder::STREAM, position)
}

#[derive(Clone, Copy)]
pub struct Reader<'a> {
    pub stream: &'a [u8],
    pub position: usize,
}

impl<'a> Reader<'a> {
    pub fn new(stream: &'a [u8]) -> Reader<'a>
        ensures { (result.stream ≡ stream.entry) × (result.position ≡ 0) }
    {
        Reader {
            stream,
            position: 0,
        }
    }

    pub fn next_item(self) -> Result<Option<Item>, Refusal>
        ensures { result ≡ top_item self.entry.stream.now self.entry.position }
    {
        item_in(self.stream, self.position)
    }

    pub fn read_rest(self) -> Result<(), Stopped>
        ensures { result ≡ top_reading self.entry.stream.now self.entry.position }
    {
        reading_from(self.stream, self.position)
    }

    pub fn moved(self, position: usize) -> Reader<'a>
        ensures { (result.stream ≡ self.entry.stream) × (result.position ≡ position) }
    {
        Reader { position, ..self }
    }
}
