// Runs the vectors of standard input and compares what the writer puts with what it should. A line: the expected bytes in hex, the function, its
// arguments, then `#` and where the vector comes from. A minus in the place of bytes is none: a zero that has no byte, or a refusal. A fill has EE for
// the bytes that its limit leaves out.
#![tactic(auto)]

mod calls;
mod functions;

ghost use Rattle.std.specs.Prelude.{◌≤◌, length};

use calls::{AT, Call};
use functions::NoFunction;
use std::{fmt, io};
use words::filled::Filled;

const ROOM: usize = 512;

// So many bytes of input are too many. Nothing allocates, so the text and the buffers are arrays.
const MOST_TEXT: usize = 65536;

// What a buffer holds before a call.
const FILL: u8 = 0xEE;

// Whether a call puts `expected`, and alters no other byte, where the buffer has `room` bytes.
fn puts(call: Call<'_>, room: usize, expected: &[u8]) -> bool
    requires { room ≤ 512 }
{
    let mut image = [FILL; ROOM];
    buffer::copy(&mut image, AT, expected);
    let mut buf = [FILL; ROOM];
    let count = call.put(&mut buf[..room]).unwrap_or(0);
    count == call.count(expected.len()) && buf == image
}

// Why a vector is wrong.
#[derive(Clone, Copy)]
enum Wrong<'a> {
    NoFunction,
    // The call, and how many bytes are expected of it.
    Differs { call: Call<'a>, size: usize },
    DiffersWithJustRoom,
    DiffersWithoutRoom,
}

impl From<NoFunction> for Wrong<'_> {
    fn from(_none: NoFunction) -> Self {
        Wrong::NoFunction
    }
}

// Of a call that differs also what lies in the buffer behind it: the bytes that it puts, and as many as were expected.
impl fmt::Display for Wrong<'_> {
    fn fmt<W: fmt::Write>(&self, f: &mut fmt::Formatter<W>) -> fmt::Result {
        match *self {
            Wrong::NoFunction => f.write_str("names no function"),
            Wrong::Differs { call, size } => {
                f.write_str("differs: got ")?;
                let mut buf = [FILL; ROOM];
                let count = call.put(&mut buf).unwrap_or(0).max(size);
                for byte in buf.iter().skip(AT).take(count) {
                    write!(f, "{byte:02x}")?;
                }
                Ok(())
            }
            Wrong::DiffersWithJustRoom => f.write_str("differs where there is just room"),
            Wrong::DiffersWithoutRoom => f.write_str("differs where a byte of room is missing"),
        }
    }
}

// A vector is right if its bytes come out where there is room to spare and where there is just room, and none where a byte of room is missing.
fn compared<'a>(vector: &'a [u8], expected: &[u8]) -> Result<(), Wrong<'a>>
    requires { length expected.now ≤ 256 }
{
    let call = Call::try_from(vector)?;
    if !puts(call, ROOM, expected) {
        return Err(Wrong::Differs {
            call,
            size: expected.len(),
        });
    }
    let end = AT + expected.len();
    if !puts(call, end, expected) {
        return Err(Wrong::DiffersWithJustRoom);
    }
    if !puts(call, end - 1, b"") {
        return Err(Wrong::DiffersWithoutRoom);
    }
    Ok(())
}

// Answers whether a vector is right.
fn answer(rt: &impl Print, line: &[u8]) -> io::Result<bool> {
    let expected: Filled<256> = Filled::from_hex(words::word(line, 0));
    match compared(words::from_word(line, 1), expected.used()) {
        Ok(()) => {
            println!(rt; "ok")?;
            Ok(true)
        }
        Err(wrong) => {
            println!(rt; "{wrong}")?;
            Ok(false)
        }
    }
}

// A line's words, which stand before its `#`. `calls` has these lines too: `words` knows of no `#`.
fn words_of(line: &[u8]) -> &[u8] {
    line.split(|byte| matches!(*byte, b'#' | b'\n'))
        .next()
        .unwrap_or(line)
}

#[derive(Clone, Copy, Default)]
struct Counts {
    vectors: usize,
    right: usize,
}

// A line that has no words is no vector.
fn count_lines(rt: &HostRuntime, text: &[u8]) -> io::Result<Counts> {
    let mut counts = Counts::default();
    for line in text.split_inclusive(|byte| *byte == b'\n') {
        let vector = words_of(line);
        if !vector.is_empty() {
            let is_right = answer(rt, vector)?;
            counts.vectors += 1;
            counts.right += usize::from(is_right);
        }
    }
    Ok(counts)
}

fn main(rt: HostRuntime) -> io::Result<()> {
    // Here and not in a function: it could not lend its own array.
    let mut text = [0u8; MOST_TEXT];
    let n = words::input::read_full(&mut rt.stdin(), &mut text)?;
    if n == MOST_TEXT {
        return println!(rt; "more than is read");
    }
    let counts = count_lines(&rt, &text[..n])?;
    println!(rt; "{} of {} vectors are right", counts.right, counts.vectors)
}
