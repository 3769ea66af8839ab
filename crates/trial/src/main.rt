// The trial program of document 01: reads lines, writes the value of each with an empty state, and prints its bytes in lower-case hex, or `!` and the
// number of the refusal.
#![tactic(auto)]

mod form;
mod names;
mod refused;
mod run;
mod walk;

ghost use Rattle.std.specs.Prelude.{◌≡◌, [], ◌∷◌, ◌++◌, ◌≤◌, length, IfOk};
ghost use Rattle.words.specs.Hex.{hex_text};

use run::Writer;
use std::fmt;
use std::fmt::Write;
use std::io::Read;
use std::process::ExitCode;
use walk::{TOO_LONG, Walk};
use words::filled::Filled;

// How many bytes are read or printed at once, at most.
const BLOCK: usize = 65536;

// How many bytes may wait to be printed where an answer, of at most two digits for each byte of a buffer and a line feed, is put behind them.
const MOST_WAITING: usize = 32767;

// Why the answers are not whole.
#[derive(Debug, Drop)]
enum Failure {
    Unread,
    Unwritten,
}

impl fmt::Display for Failure {
    fn fmt<W: fmt::Write>(&self, f: &mut fmt::Formatter<W>) -> fmt::Result {
        match self {
            Failure::Unread => write!(f, "the input can't be read"),
            Failure::Unwritten => write!(f, "they can't be written"),
        }
    }
}

// A function: `From` would take an error of any reading for one of writing.
fn print(rt: &impl Print, text: &[u8]) -> Result<(), Failure> {
    rt.write_all(text).map_err(|_| Failure::Unwritten)
}

// The answers that wait to be printed.
#[derive(Drop)]
struct Answers {
    waiting: Filled<BLOCK>,
}

impl Answers {
    fn print(&mut self, rt: &impl Print) -> Result<(), Failure>
        ensures { self.new.waiting ≡ [] }
    {
        let printed = print(rt, self.waiting.used());
        self.waiting.clear();
        printed
    }

    // Prints the answers, if they are too many to put one more behind them.
    fn make_room(&mut self, rt: &impl Print) -> Result<(), Failure>
        ensures { IfOk result (λ _. length self.new.waiting ≤ 32767) }
    {
        if MOST_WAITING < self.waiting.used().len() {
            self.print(rt)?;
        }
        Ok(())
    }

    // Puts the answer that is bytes.
    fn put(&mut self, bytes: &[u8])
        requires { (length self.old.waiting ≤ 32767) × (length bytes.now ≤ 16384) }
        ensures { self.new.waiting ≡ self.old.waiting ++ (hex_text bytes.now ++ (10 ∷ [])) }
    {
        self.waiting.append_hex(bytes);
        self.waiting.append(b"\n");
    }

    fn answer<'a>(&mut self, writer: &mut Writer, walk: &mut Walk<'a>, line: &'a [u8])
        requires { length self.old.waiting ≤ 32767 }
    {
        match writer.bytes_of(walk, line) {
            Ok(bytes) => self.put(bytes),
            Err(refused) => {
                // There is room, as for bytes.
                let _ = write!(self.waiting, "{refused}");
                self.waiting.append(b"\n");
            }
        }
    }
}

// Prints the answers to the lines that end in a text, or stops where they can't be printed. The result is where the rest starts. The arrays are made
// once, since to clear them takes longer than a short line.
fn answer_lines(rt: &impl Print, text: &[u8]) -> Result<usize, Failure>
    ensures { IfOk result (λ n. n ≤ length text.now) }
{
    let Some(last) = text.iter().rposition(|byte| *byte == b'\n') else {
        return Ok(0);
    };
    let mut answers = Answers {
        waiting: Filled::new(),
    };
    let mut writer = Writer::new();
    let mut walk = Walk::new();
    for line in text[..last].split(|byte| *byte == b'\n') {
        answers.make_room(rt)?;
        answers.answer(&mut writer, &mut walk, line);
    }
    answers.print(rt)?;
    Ok(last + 1)
}

// What is read, an array, since nothing allocates, of which the first `kept` bytes are behind the last line feed: a line and a byte at most.
#[derive(Drop)]
struct Input {
    text: [u8; BLOCK],
    kept: usize,
    ghost short: { kept ≤ 4097 },
}

impl Input {
    // Reads on behind what is kept. The result is how many bytes there are.
    fn read_on<R: Read>(&mut self, input: &mut R) -> Result<usize, Failure>
        ensures { IfOk result (λ n. (self.old.kept ≤ n) × (n ≤ 65536)) }
    {
        match input.read(&mut self.text[self.kept..]) {
            Ok(n) => Ok(self.kept + n),
            Err(_) => Err(Failure::Unread),
        }
    }

    // Prints the answers to the lines that end in the first `end` bytes, and keeps the rest, but no more than tells that a line is too long.
    fn take_lines(&mut self, rt: &impl Print, end: usize) -> Result<(), Failure>
        requires { end ≤ 65536 }
    {
        let from = answer_lines(rt, &self.text[..end])?;
        self.kept = (end - from).min(TOO_LONG);
        self.text.copy_within(from..from + self.kept, 0);
        Ok(())
    }

    // Prints the answers to the lines that end in the input, up to its end or to a read that fails, whose last line is not answered.
    fn take_all<P: Print, R: Read>(&mut self, rt: &P, input: &mut R) -> Result<(), Failure> {
        // No input takes so many turns.
        for _ in 0..u64::MAX {
            let end = self.read_on(input)?;
            if end == self.kept {
                return Ok(());
            }
            self.take_lines(rt, end)?;
        }
        Ok(())
    }
}

// A last line without line feed is given one.
fn answer_input<P: Print, R: Read>(rt: &P, input: &mut R) -> Result<(), Failure> {
    let mut read = Input {
        text: [0; BLOCK],
        kept: 0,
    };
    read.take_all(rt, input)?;
    if 0 < read.kept {
        read.text[read.kept] = b'\n';
        answer_lines(rt, &read.text[..read.kept + 1])?;
    }
    Ok(())
}

fn main(rt: HostRuntime) -> ExitCode {
    match answer_input(&rt, &mut rt.stdin()) {
        Ok(()) => ExitCode::SUCCESS,
        Err(why) => {
            let _ = eprintln!(rt; "the answers are not whole: {why}");
            ExitCode::FAILURE
        }
    }
}
