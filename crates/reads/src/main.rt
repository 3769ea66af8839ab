// Walks streams of standard input through the reader's entry points. A line: the stream in hex, or a minus where it is empty, and the position
// that is read from. Its answer is what the walk shows and how it ended, in the words of compare/src/reading/text.rs. A line that begins with
// `#` is its own answer.
#![tactic(auto)]

mod numbers;
mod refusal;
mod values;
mod walk;

use std::io;
use words::filled::Filled;

// So many bytes of input are too many. Nothing allocates, so what is read and the numbers that the entry points put are arrays.
const MOST_TEXT: usize = 65536;

const LONGEST_STREAM: usize = 8192;

// Printed as it is read, here and in `walk`: no value holds the items of a stream, which `Display` could show.
fn print_stream(
    rt: &impl Print,
    line: &[u8],
    stream: &mut Filled<LONGEST_STREAM>,
) -> io::Result<()> {
    let hex = words::word(line, 0);
    if 2 * LONGEST_STREAM < hex.len() {
        return print!(rt; "longer than is read");
    }
    stream.read_hex(hex);
    let position = words::numbers::natural(words::word(line, 1), u64::MAX).unwrap_or(0);
    walk::print_walk(rt, stream.used(), position as usize)
}

fn answer(rt: &impl Print, line: &[u8], stream: &mut Filled<LONGEST_STREAM>) -> io::Result<()> {
    if line.starts_with(b"#") {
        rt.write_all(line)?;
    } else {
        print_stream(rt, line, stream)?;
    }
    println!(rt)
}

// The array of a stream is made once, since to clear it takes longer than a short line.
fn answer_lines(rt: &impl Print, text: &[u8]) -> io::Result<()> {
    let mut stream = Filled::new();
    for line in text.split_inclusive(|byte| *byte == b'\n') {
        answer(rt, line.strip_suffix(b"\n").unwrap_or(line), &mut stream)?;
    }
    Ok(())
}

fn main(rt: HostRuntime) -> io::Result<()> {
    // Here and not in a function: it could not lend its own array.
    let mut text = [0u8; MOST_TEXT];
    let n = words::input::read_full(&mut rt.stdin(), &mut text)?;
    if n == MOST_TEXT {
        return println!(rt; "more than is read");
    }
    answer_lines(&rt, &text[..n])
}
