// Containers in a lent buffer: opening reserves two bytes for each header, closing puts the headers in their short form and moves what lies behind them.
#![tactic(auto)]

ghost use Rattle.std.specs.Prelude.{◌≡◌, Bool, true, List, Option, [], ◌∷◌, ◌++◌, ℕ, ◌+◌, ◌-◌, ◌*◌, ◌/◌, ◌<◌, ◌≤◌, length, take, drop, replicate};
ghost use Rattle.encoding.specs.Headers.{header_bytes, annotation_bytes};
ghost use Rattle.machine.specs.Machine.{reserve, closed_bytes, length_if_moved, moved_bytes, container_fits};
ghost use Rattle.buffer.specs.Laid.{laid, placed};
ghost use Rattle.annotations.specs.Sids.{sids_of};
ghost use Rattle.containers.specs.declared.Closing.{Closing};
ghost use Rattle.containers.specs.Containers.{closed_on, abandoned_on};

use annotations::WRAPPER;

// The bytes reserved for a header.
const RESERVE: usize = 2;

// What a close answers: the used length on return, and how many bytes moved.
#[derive(Clone, Copy)]
pub struct Closing {
    pub used: usize,
    pub moved: usize,
}

// The `count` bytes at `from` to `to`, either way: how many moved. Where they lie there already, none does.
fn move_bytes(buf: &mut [u8], from: usize, to: usize, count: usize) -> usize
    requires { (from + count ≤ length buf.old) × (to + count ≤ length buf.old) }
    ensures { (result ≡ length_if_moved from to count)
        × (buf.new ≡ laid buf.old to (take count (drop from buf.old))) }
{
    if from != to {
        let part = from..from + count;
        let moved = part.len();
        buf.copy_within(part, to);
        return moved;
    }
    0
}

// Zero bytes from `from` on, up to `to`; none where `to` lies before.
fn clear(buf: &mut [u8], from: usize, to: usize)
    requires { (from ≤ length buf.old) × (to ≤ length buf.old) }
    ensures { buf.new ≡ laid buf.old from (replicate (to - from) 0) }
{
    if from < to {
        buf[from..to].fill(0);
    }
}

// The header of `body` bytes. The type code has nothing in its low four bits.
fn put_header(buf: &mut [u8], at: usize, code: u8, body: usize)
    requires { (code / 16 * 16 ≡ code) × (at + length (header_bytes 0 body) ≤ length buf.old) }
    ensures { buf.new ≡ laid buf.old at (header_bytes code body) }
{
    header::write(buf, at, code, body);
}

// A container that fits and ends at `used`. That this lies in the buffer is asked by each method, since the buffer is lent to it and no field.
#[derive(Clone, Copy)]
struct Ending {
    c: machine::Container,
    used: usize,
    ghost fits: { container_fits used c ≡ true },
}

impl Ending {
    // A container without annotations: its header in the short form, and its body behind it.
    #[tactic(auto, using(machine::proofs::Fit::fit))]
    fn close_plain(self, buf: &mut [u8]) -> Option<Closing>
        requires { (self.c.header ≡ self.c.start) × (self.used ≤ length buf.old) }
        ensures { ◌≡◌ {A = Option Closing × List ℕ} (result, buf.new) (closed_on self.c self.used buf.old) }
    {
        let start = self.c.start;
        let body = self.used - (start + RESERVE);
        let size = header::encoded_size_of(body);
        let end = start + size + body;
        if buf.len() < end {
            return None;
        }
        let moved = move_bytes(buf, start + RESERVE, start + size, body);
        put_header(buf, start, self.c.code, body);
        clear(buf, end, self.used);
        Some(Closing { used: end, moved })
    }

    // The wrapper's header, the annotations, the inner header and the body, each at its final place; `inner` and `wrapper` are the sizes of the headers.
    // Annotations and body move once each: how many of their bytes moved. The part that moves to the right makes way first: the body, unless the
    // wrapper's header has one byte.
    #[tactic(auto, using(machine::proofs::Fit::fit))]
    fn lay_wrapped(self, buf: &mut [u8], inner: usize, wrapper: usize) -> usize
        requires apart { self.c.start + 2 ≤ self.c.header }
        requires held { self.used ≤ length buf.old }
        requires room { self.c.start + wrapper + (self.c.header - (self.c.start + 2)) + inner + (self.used - (self.c.header + 2)) ≤ length buf.old }
        requires inner_size { inner ≡ length (header_bytes 0 (self.used - (self.c.header + 2))) }
        requires wrapper_size { wrapper ≡ length (header_bytes 0 (self.c.header - (self.c.start + 2) + inner + (self.used - (self.c.header + 2)))) }
        ensures moved { result ≡ moved_bytes self.c.start self.c.header self.c.code (take self.used buf.old) }
        ensures bytes { buf.new ≡ laid buf.old self.c.start (closed_bytes self.c.start self.c.header self.c.code (take self.used buf.old)) }
    {
        let machine::Container {
            start,
            header,
            code,
            ..
        } = self.c;
        let body = self.used - (header + RESERVE);
        let noted = header - (start + RESERVE);
        let place = start + wrapper + noted;
        if wrapper < RESERVE {
            let noted_moved = move_bytes(buf, start + RESERVE, start + wrapper, noted);
            put_header(buf, place, code, body);
            let body_moved = move_bytes(buf, header + RESERVE, place + inner, body);
            put_header(buf, start, WRAPPER, noted + inner + body);
            return body_moved + noted_moved;
        }
        let body_moved = move_bytes(buf, header + RESERVE, place + inner, body);
        put_header(buf, place, code, body);
        let noted_moved = move_bytes(buf, start + RESERVE, start + wrapper, noted);
        put_header(buf, start, WRAPPER, noted + inner + body);
        body_moved + noted_moved
    }

    // A container with annotations: the wrapper's length counts the inner header in its final size.
    fn close_annotated(self, buf: &mut [u8]) -> Option<Closing>
        requires { (self.c.start + 2 ≤ self.c.header) × (self.used ≤ length buf.old) }
        ensures { ◌≡◌ {A = Option Closing × List ℕ} (result, buf.new) (closed_on self.c self.used buf.old) }
    {
        let machine::Container { start, header, .. } = self.c;
        let body = self.used - (header + RESERVE);
        let inner = header::encoded_size_of(body);
        let content = header - (start + RESERVE) + inner + body;
        let wrapper = header::encoded_size_of(content);
        let end = start + wrapper + content;
        if buf.len() < end {
            return None;
        }
        let moved = self.lay_wrapped(buf, inner, wrapper);
        clear(buf, end, self.used);
        Some(Closing { used: end, moved })
    }
}

// The container that ends at `used`, with its headers in their final form: the used length on return, and how many bytes moved. Freed bytes become zero.
// None, and the buffer as it was, where the container does not fit or the result would pass the buffer.
pub fn close(buf: &mut [u8], used: usize, c: machine::Container) -> Option<Closing>
    ensures { ◌≡◌ {A = Option Closing × List ℕ} (result, buf.new) (closed_on c used buf.old) }
{
    if !(place::container_fits(c, used) & (used <= buf.len())) {
        return None;
    }
    let ending = Ending { c, used };
    if c.header == c.start {
        return ending.close_plain(buf);
    }
    ending.close_annotated(buf)
}

// The bytes from `start` up to `used` become zero: whether they lie in the buffer, and else nothing alters. A yes or no, since no value stands beside it.
pub fn abandon(buf: &mut [u8], used: usize, start: usize) -> bool
    ensures { ◌≡◌ {A = Bool × List ℕ} (result, buf.new) (abandoned_on used start buf.old) }
{
    if !((start <= used) & (used <= buf.len())) {
        return false;
    }
    clear(buf, start, used);
    true
}

// The wrapper's reserve, the annotations and the header's reserve.
fn open_annotated(buf: &mut [u8], at: usize, annotations: &[u8]) -> Option<usize>
    ensures { ◌≡◌ {A = Option ℕ × List ℕ} (result, buf.new)
        (placed buf.old at (0 ∷ 0 ∷ (annotation_bytes (sids_of annotations.now) ++ (0 ∷ 0 ∷ [])))) }
{
    if !buffer::has_room(buf.len(), at, 2 * RESERVE) {
        return None;
    }
    let noted = annotations::write_before(buf, at + RESERVE, annotations, RESERVE)?;
    let header = at + RESERVE + noted;
    clear(buf, at, at + RESERVE);
    clear(buf, header, header + RESERVE);
    Some(noted + 2 * RESERVE)
}

// What an opening reserves: two zero bytes; with annotations two zero bytes, the annotations and two more.
pub fn open(buf: &mut [u8], at: usize, annotations: &[u8]) -> Option<usize>
    ensures { ◌≡◌ {A = Option ℕ × List ℕ} (result, buf.new) (placed buf.old at (reserve (sids_of annotations.now))) }
{
    if annotations.is_empty() {
        return buffer::copy(buf, at, &[0; RESERVE]);
    }
    open_annotated(buf, at, annotations)
}
