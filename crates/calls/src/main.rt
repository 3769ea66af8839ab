// Runs lists of calls from standard input and compares answers, states and bytes with what they should be. A line, of which what stands behind `#`
// says where it comes from, is one of these:
//   fresh                                    a new list: every byte of the buffer is EE, the state is empty
//   set USED DEPTH WAITING                   the next call is given these in its state
//   record INDEX START HEADER CODE MEMBERS   the next call is given this record of an open container in its state
//   ROOM ANSWER USED DEPTH WAITING CALL ..   a call that is lent ROOM bytes, its answer (0, or the refusal's number) and the state behind it;
//                                            behind `close` stand the size, the members and the moved bytes that it answers, 0 0 0 if it is refused
//   open INDEX START HEADER CODE MEMBERS     the record of an open container
//   take ROOM LENGTH                         how many finished bytes are handed back
//   bytes FROM HEX                           the bytes from FROM on
//   all FROM TO HEX                          the byte at each place from FROM to before TO
// Where a call's words name none, `no call` is printed.
#![tactic(auto)]

mod lines;
mod writes;

ghost use Rattle.std.specs.Prelude.{◌≡◌, length};

use lines::{Got, Line};
use machine::{MOST_OPEN, State};
use std::io;
use words::filled::Filled;
use writes::Call;

// So many bytes of input are too many. Nothing allocates, so the text and the buffer are arrays.
const MOST_TEXT: usize = 65536;

// What the buffer holds before a list.
const FILL: u8 = 0xEE;

fn has_bytes(buf: &[u8], from: usize, hex: &[u8]) -> bool {
    let bytes: Filled<256> = Filled::from_hex(hex);
    buf.get(from..).unwrap_or(&[]).starts_with(bytes.used())
}

// Printed as the lines are run: no value is kept of an answer that `Display` could show.
fn report(rt: &impl Print, is_right: bool) -> io::Result<()> {
    println!(rt; "{}", if is_right { "ok" } else { "differs" })
}

fn call(
    rt: &impl Print,
    room: usize,
    expected: Got,
    words: &[u8],
    state: &mut State,
    buf: &mut [u8],
) -> io::Result<()> {
    let Ok(call) = Call::try_from(words) else {
        return println!(rt; "no call");
    };
    let room = room.min(buf.len());
    let got = call.make(*state, &mut buf[..room]);
    *state = match got {
        Ok(closed) => closed.state,
        Err(refused) => refused.state,
    };
    let got = Got::from(got);
    let compared = match words::word(words, 0) {
        b"close" => got,
        _ => got.without_figures(),
    };
    if compared != expected {
        print!(rt; "got {got} ")?;
    }
    report(rt, compared == expected)
}

fn step(rt: &impl Print, line: &[u8], state: &mut State, buf: &mut [u8]) -> io::Result<()> {
    match Line::from(line) {
        Line::Nothing => Ok(()),
        Line::Fresh => {
            buf.fill(FILL);
            *state = State::empty(0);
            Ok(())
        }
        Line::Set {
            used,
            depth,
            waiting,
        } => {
            state.used = used;
            state.depth = depth;
            state.waiting = waiting;
            Ok(())
        }
        Line::Record { index, record } => {
            state.containers[index % MOST_OPEN] = record;
            Ok(())
        }
        Line::Open { index, record } => {
            report(rt, state.containers[index % MOST_OPEN] == record)
        }
        Line::Take { room, length } => {
            let room = room.min(buf.len());
            report(rt, writer::finished(*state, &buf[..room]).len() == length)
        }
        Line::All { from, to, byte } => {
            let to = to.min(buf.len());
            report(rt, buf[from.min(to)..to].iter().all(|here| *here == byte))
        }
        Line::Bytes { from, hex } => report(rt, has_bytes(buf, from, hex)),
        Line::Call {
            room,
            expected,
            words,
        } => call(rt, room, expected, words, state, buf),
    }
}

fn run_lines(rt: &impl Print, text: &[u8], buf: &mut [u8]) -> io::Result<()> {
    let mut state = State::empty(0);
    for line in text.split_inclusive(|byte| *byte == b'\n') {
        // As in `vectors`: `words` knows of no `#`.
        let words = line
            .split(|byte| matches!(*byte, b'#' | b'\n'))
            .next()
            .unwrap_or(line);
        step(rt, words, &mut state, buf)?;
    }
    Ok(())
}

// The `ensures` gives the length, which lending the array as a slice needs: it is too long to be counted.
fn longest_buffer() -> [u8; 2_200_000]
    ensures { 2200000 ≡ length result }
{
    [FILL; 2_200_000]
}

fn main(rt: HostRuntime) -> io::Result<()> {
    // Here and not in a function: it could not lend its own array.
    let mut text = [0u8; MOST_TEXT];
    let n = words::input::read_full(&mut rt.stdin(), &mut text)?;
    if n == MOST_TEXT {
        return println!(rt; "more than is read");
    }
    let mut buf = longest_buffer();
    run_lines(&rt, &text[..n], &mut buf)?;
    println!(rt; "end")
}
