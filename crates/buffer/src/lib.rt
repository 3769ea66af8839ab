// Bytes laid into a lent buffer. Each function that puts bytes tests its room itself: it puts all of them and answers how many these are, or puts none.
// In this crate and those above it, buffer and place are two parameters: the caller lends its buffer for each call, and a struct of both would
// be made and taken apart in each.
#![tactic(auto)]

ghost use Rattle.std.specs.Prelude.{◌≡◌, List, [], ◌∷◌, ℕ, Option, ◌+◌, leb};
ghost use Rattle.buffer.specs.Laid.{placed};

// Whether `count` bytes from `at` on lie within `room`. The sum may be more than a word holds.
pub fn has_room(room: usize, at: usize, count: usize) -> bool
    ensures { result ≡ leb (at + count) room }
{
    if room < at {
        return false;
    }
    count <= room - at
}

// One byte at `at`.
#[tactic(auto, using(crate::proofs::Laid::laid_or_full))]
pub fn put(buf: &mut [u8], at: usize, byte: u8) -> Option<usize>
    ensures { ◌≡◌ {A = Option ℕ × List ℕ} (result, buf.new) (placed buf.old at (byte ∷ [])) }
{
    if buf.len() <= at {
        return None;
    }
    buf[at] = byte;
    Some(1)
}

// The bytes of `src`, from `at` on.
#[tactic(auto, using(crate::proofs::Laid::laid_or_full))]
pub fn copy(buf: &mut [u8], at: usize, src: &[u8]) -> Option<usize>
    ensures { ◌≡◌ {A = Option ℕ × List ℕ} (result, buf.new) (placed buf.old at src.now) }
{
    if !has_room(buf.len(), at, src.len()) {
        return None;
    }
    // The library's copy_from_slice becomes a call of memmove, which scripts/no-copies takes for a copy of the state.
    for (i, byte) in src.iter().enumerate() {
        buf[at + i] = *byte;
    }
    Some(src.len())
}
