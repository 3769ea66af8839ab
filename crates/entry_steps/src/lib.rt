// What the entry points share: a call that stores the head of the state alone, and a scalar of any type at the end of the used bytes.
// The laws in proofs/ say what an entry point answers and leaves, by what the call said.
#![tactic(auto)]

ghost use Rattle.std.specs.Prelude.{◌≡◌, ℕ, List};
ghost use Rattle.encoding.specs.Argument.{write_string};
ghost use Rattle.annotations.specs.Sids.{sids_of};
ghost use Rattle.machine.specs.Call.{write};
ghost use Rattle.state_bytes.specs.StateBytes.{stored_head, entered};
ghost use Rattle.entry_steps.specs.Entries.{answered_as, stepped_as, written_as};

use machine::Refusal;
use state_bytes::StateBytes;
use steps::Head;
use values::WriteAsIon;

// The head is stored; the records stay.
pub fn store(state: &mut [u8], head: Head)
    ensures { state.new ≡ stored_head head.used head.depth head.waiting state.old }
{
    state_bytes::store(state, head.used, head.depth, head.waiting);
}

// A call that stores the head alone.
pub fn stepped(state: &mut [u8], step: Result<Head, Refusal>) -> Result<(), Refusal>
    ensures { (b : List ℕ) → answered_as result state.new b ≡ stepped_as step state.old b }
{
    store(state, step?);
    Ok(())
}

// A scalar that was put is a member of the container that it lies in.
#[inline(always)]
fn written(state: &mut [u8], step: Result<Head, Refusal>) -> Result<(), Refusal>
    ensures { (b : List ℕ) → answered_as result state.new b ≡ written_as step state.old b }
{
    let head = step?;
    state_bytes::count(state, head.depth);
    store(state, head);
    Ok(())
}

// A scalar with its annotations.
pub fn write<V: WriteAsIon>(
    state: &mut [u8],
    buf: &mut [u8],
    annotations: &[u8],
    value: V,
) -> Result<(), Refusal>
    ensures { answered_as result state.new buf.new ≡ entered (write (sids_of annotations.now) (V.argument value)) state.old buf.old }
{
    let step = steps::write(&StateBytes(state), buf, annotations, value);
    written(state, step)
}

// A string with its annotations: its bytes are tested behind the checks of its place.
pub fn write_string(
    state: &mut [u8],
    buf: &mut [u8],
    annotations: &[u8],
    bytes: &[u8],
) -> Result<(), Refusal>
    ensures { answered_as result state.new buf.new ≡ entered (write (sids_of annotations.now) (write_string bytes.now)) state.old buf.old }
{
    let step = steps::write_string(&StateBytes(state), buf, annotations, bytes);
    written(state, step)
}
