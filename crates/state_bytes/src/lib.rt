// A writer's state as lent bytes, and the checks by place on them. No State is made: what lies in an array at a computed place would be copied at every call.
// `as` stands where Rust has no `From`: from u32 to usize, and to u32 and u8 of a remainder that fits.
#![tactic(auto)]

ghost use Rattle.std.specs.Prelude.{◌≡◌, false, not, ◌&&◌, ◌||◌, ◌∷◌, [], ◌+◌, ◌-◌, ◌*◌, ◌^◌, ◌≤◌, ◌<◌, eqb, leb, length};
ghost use Rattle.buffer.specs.Laid.{laid, placed};
ghost use Rattle.ion.specs.Value.{list_code, sexp_code, struct_code};
ghost use Rattle.encoding.specs.Headers.{type_byte};
ghost use Rattle.machine.specs.Machine.{most_open, innermost_first, open_containers, in_struct, outer};
ghost use Rattle.machine.specs.Machine.{counted, longest_buffer, container_fits, containers_fit, place_verdict, is_accepted};
ghost use Rattle.machine.specs.Numbers.{verdict_of};
ghost use Rattle.place.specs.Misplaced.{misplaced};
ghost use Rattle.state_bytes.specs.StateBytes.{state_size, four, place_of, container_at, state_of, four_bytes, stored_head, stored_container};
ghost use Rattle.state_bytes.specs.StateBytes.{stored_count, numbers_laid};

use machine::{Container, LIST, LONGEST_BUFFER, MOST_OPEN, Refusal, STRUCT};
use place::{CallKind, PlaceCheck, Standing};

// The head, the record of a container, and the state whole.
const HEAD_SIZE: usize = 8;

const RECORD_SIZE: usize = 13;

pub const STATE_SIZE: usize = HEAD_SIZE + RECORD_SIZE * MOST_OPEN;

// Behind `used`, in the head; behind the start, in a record.
const DEPTH: usize = 4;

const WAITING: usize = 5;

const HEADER: usize = 4;

const CODE: usize = 8;

const MEMBERS: usize = 9;

// From the code on to the record's end.
const CODE_AND_AFTER: usize = RECORD_SIZE - CODE;

// More containers than a state that fits can have.
const UNFIT_DEPTH: usize = MOST_OPEN + 1;

// The least number that four bytes do not hold.
const FOUR_BYTES: usize = 0x1_0000_0000;

// The bytes of a number.
const NUMBER_SIZE: usize = 4;

fn get_four(st: &[u8; STATE_SIZE], at: usize) -> u32
    requires { at + 4 ≤ state_size }
    ensures { result ≡ four st.now at }
{
    u32::from_le_bytes([st[at], st[at + 1], st[at + 2], st[at + 3]])
}

fn get_container(st: &[u8; STATE_SIZE], i: usize) -> Container
    requires { i < most_open }
    ensures { result ≡ container_at st.now (place_of i) }
{
    let at = HEAD_SIZE + RECORD_SIZE * i;
    Container {
        start: get_four(st, at) as usize,
        header: get_four(st, at + HEADER) as usize,
        code: st[at + CODE],
        members: get_four(st, at + MEMBERS) as usize,
    }
}

// A state as its bytes. A slice of another length spells a state that does not fit, with no byte used: each answer is then that state's, as `state_of` has it.
#[derive(Clone, Copy)]
pub struct StateBytes<'a>(pub &'a [u8]);

impl Standing for StateBytes<'_> {
    ghost state = { λ s. state_of s.0.now };

    fn used(&self) -> usize {
        match self.0.as_array() {
            Some(st) => get_four(st, 0) as usize,
            None => 0,
        }
    }

    fn depth(&self) -> usize {
        match self.0.as_array::<STATE_SIZE>() {
            Some(st) => usize::from(st[DEPTH]),
            None => UNFIT_DEPTH,
        }
    }

    fn waits(&self) -> bool {
        match self.0.as_array::<STATE_SIZE>() {
            Some(st) => st[WAITING] != 0,
            None => false,
        }
    }

    fn container(&self, i: usize) -> Container {
        let Some(st) = self.0.as_array() else {
            return Container::EMPTY;
        };
        if MOST_OPEN <= i {
            return Container::EMPTY;
        }
        get_container(st, i)
    }
}

// Whether it is a container's type code. With the high and the low four bits exchanged these are neighbours, so that one comparison does for three.
fn is_code(code: u8) -> bool
    ensures { result ≡ (eqb code (type_byte list_code) || (eqb code (type_byte sexp_code) || eqb code (type_byte struct_code))) }
{
    let exchanged = code / 16 + code % 16 * 16;
    (LIST / 16 <= exchanged) & (exchanged <= STRUCT / 16)
}

// Whether the container i fits, with what follows it starting at `limit`. Every call comes by here, and `place::container_fits` takes more steps: it subtracts,
// since its numbers may be of 64 bits. Here they come from four bytes each, and no sum wraps.
fn container_fits(st: &[u8; STATE_SIZE], i: usize, limit: usize) -> bool
    requires { i < most_open }
    ensures { result ≡ container_fits limit (container_at st.now (place_of i)) }
{
    let at = HEAD_SIZE + RECORD_SIZE * i;
    let start = get_four(st, at) as usize;
    let header = get_four(st, at + HEADER) as usize;
    let members = get_four(st, at + MEMBERS) as usize;
    if limit < header + 2 + members {
        return false;
    }
    if (header != start) & (header < start + 4) {
        return false;
    }
    is_code(st[at + CODE])
}

// From the innermost container outwards: each has to end before the next begins. By place: the records lie in bytes.
// Beside the generic one of place for speed, as container_fits.
fn containers_fit(st: &[u8; STATE_SIZE], used: usize, depth: usize) -> bool
    requires { depth ≤ most_open }
    ensures { result ≡ containers_fit used (innermost_first (state_of st.now).containers depth) }
{
    let mut limit = used;
    for i in (0..depth).rev() {
        if !container_fits(st, i, limit) {
            return false;
        }
        limit = get_four(st, HEAD_SIZE + RECORD_SIZE * i) as usize;
    }
    true
}

// Whether the container below `depth` is a struct. At depth 0 the byte that is read is the highest of the used length, which is 0 in a buffer that is
// not too long; of another state it says nothing. Beside the generic one of place for speed, as container_fits.
fn innermost_is_struct(st: &[u8; STATE_SIZE], depth: usize) -> bool
    requires { depth ≤ most_open }
    ensures { let s = state_of st.now in (s.used ≤ longest_buffer → result ≡ in_struct (innermost_first s.containers depth)) }
{
    st[HEAD_SIZE + RECORD_SIZE * depth - CODE_AND_AFTER] == STRUCT
}

// Whether none of the lines 1 to 3 fails. Beside `place::check` for speed: it need not say which line fails.
#[inline(always)]
fn passes(st: &[u8; STATE_SIZE], room: usize, call: CallKind) -> bool
    ensures { result ≡ is_accepted (place_verdict (state_of st.now) room (misplaced call (state_of st.now))) }
{
    let used = get_four(st, 0) as usize;
    let depth = usize::from(st[DEPTH]);
    if (MOST_OPEN < depth) | (LONGEST_BUFFER < room) | (room < used) {
        return false;
    }
    let inside = innermost_is_struct(st, depth);
    let waits = st[WAITING] != 0;
    if (waits & !inside) | call.is_misplaced(depth != 0, inside, waits) {
        return false;
    }
    containers_fit(st, used, depth)
}

// The first of the lines 1 to 3 that fails. Most calls pass: that is asked first, and which line fails only where it is no.
#[inline(always)]
pub fn check(st: &[u8], room: usize, call: CallKind) -> Result<(), Refusal>
    ensures { verdict_of result ≡ place_verdict (state_of st.now) room (misplaced call (state_of st.now)) }
{
    match st.as_array() {
        Some(st) if passes(st, room, call) => Ok(()),
        // Said, so that the compiler knows of a call that passes how long the slice is and how many containers are open.
        _ => match place::check(&StateBytes(st), room, call) {
            Ok(()) => unreachable!(),
            refused => refused,
        },
    }
}

impl PlaceCheck for StateBytes<'_> {
    #[inline(always)]
    fn check(&self, room: usize, call: CallKind) -> Result<(), Refusal> {
        check(self.0, room, call)
    }
}

// A number in four bytes; its higher ones are left out.
fn four_bytes(n: usize) -> [u8; NUMBER_SIZE]
    ensures { result ≡ four_bytes n }
{
    ((n % FOUR_BYTES) as u32).to_le_bytes()
}

fn put_four(st: &mut [u8; STATE_SIZE], at: usize, n: usize)
    requires { at + 4 ≤ state_size }
    ensures { st.new ≡ laid st.old at (four_bytes n) }
{
    st[at..at + NUMBER_SIZE].copy_from_slice(&four_bytes(n));
}

// Used, depth and waiting are stored.
pub fn store(st: &mut [u8], used: usize, depth: usize, waiting: bool)
    ensures { st.new ≡ stored_head used depth waiting st.old }
{
    let Some(st) = st.as_mut_array() else {
        return;
    };
    put_four(st, 0, used);
    st[DEPTH] = (depth % 256) as u8;
    st[WAITING] = u8::from(waiting);
}

// The container i is stored.
pub fn store_container(st: &mut [u8], i: usize, c: Container)
    ensures { st.new ≡ stored_container i c st.old }
{
    let Some(st) = st.as_mut_array() else {
        return;
    };
    if MOST_OPEN <= i {
        return;
    }
    let at = HEAD_SIZE + RECORD_SIZE * i;
    put_four(st, at, c.start);
    put_four(st, at + HEADER, c.header);
    st[at + CODE] = c.code;
    put_four(st, at + MEMBERS, c.members);
}

// The innermost of `depth` containers has one member more; with none open nothing alters.
pub fn count(st: &mut [u8], depth: usize)
    ensures { let b = st.old in st.new ≡ stored_count depth (counted (state_of b).containers depth) b }
{
    let Some(st) = st.as_mut_array() else {
        return;
    };
    if (depth == 0) | (MOST_OPEN < depth) {
        return;
    }
    let at = HEAD_SIZE + RECORD_SIZE * (depth - 1) + MEMBERS;
    let members = get_four(st, at);
    put_four(st, at, members as usize + 1);
}

// The numbers that a closing answers, in a slice that is lent for them; each only where the slice holds it whole.
pub fn answer(lent: &mut [u8], size: usize, members: usize, moved: usize)
    ensures { lent.new ≡ numbers_laid 0 (size ∷ members ∷ moved ∷ []) lent.old }
{
    buffer::copy(lent, 0, &four_bytes(size));
    buffer::copy(lent, NUMBER_SIZE, &four_bytes(members));
    buffer::copy(lent, 2 * NUMBER_SIZE, &four_bytes(moved));
}
