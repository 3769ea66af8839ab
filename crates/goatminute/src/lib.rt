// The entry points for a host, whole: here those for the stream, and those of the crates below handed on.
// The state is lent as bytes, which crate state_bytes describes.
// Each answers 0 for an accepted call, or the refusal's number, since C takes no `Result`. A refused call leaves what is lent as it was,
// but for a start, which leaves the empty state.
#![tactic(auto)]

ghost use Rattle.std.specs.Prelude.{◌≡◌, length};
ghost use Rattle.machine.specs.Machine.{finished_length};
ghost use Rattle.state_bytes.specs.StateBytes.{state_of, entered};
ghost use Rattle.entry_steps.specs.Entries.{entered_as, answered_as, start_entered};
ghost use Rattle.entry_numbers.specs.EntryCall.{gm_version_marker, gm_empty, call_of};

pub use entry_containers::{
    gm_abandon, gm_close, gm_field_name, gm_open_list, gm_open_sexp, gm_open_struct,
};
pub use entry_scalars::{
    gm_write_bool, gm_write_f32, gm_write_f64, gm_write_i64, gm_write_null, gm_write_symbol,
    gm_write_timestamp,
};
pub use entry_slices::{
    gm_write_blob, gm_write_clob, gm_write_decimal, gm_write_int, gm_write_string,
};
use machine::{LONGEST_BUFFER, Refusal};
pub use state_bytes::STATE_SIZE;
use state_bytes::StateBytes;

fn start(state: &mut [u8], buf: &mut [u8]) -> Result<(), Refusal>
    ensures { answered_as result state.new buf.new ≡ start_entered state.old buf.old }
{
    // Line 1 comes first: a buffer that is too long is refused for that, whatever the state's length.
    if state.len() != STATE_SIZE {
        if LONGEST_BUFFER < buf.len() {
            return Err(Refusal::BufferTooLong);
        }
        return Err(Refusal::StateUnfit);
    }
    state.fill(0);
    let used = steps::start(buf)?;
    state_bytes::store(state, used, 0, false);
    Ok(())
}

// A start: the empty state over a lent buffer that begins with a version marker.
pub fn gm_start(state: &mut [u8], buf: &mut [u8]) -> u8
    ensures { entered_as result state.new buf.new ≡ start_entered state.old buf.old }
{
    entry_numbers::answered(start(state, buf))
}

// A version marker, at the place of the call.
pub fn gm_version_marker(state: &mut [u8], buf: &mut [u8]) -> u8
    ensures { entered_as result state.new buf.new
        ≡ entered (call_of gm_version_marker) state.old buf.old }
{
    let step = steps::version_marker(&StateBytes(state), buf);
    entry_numbers::answered(entry_steps::stepped(state, step))
}

// An emptying: the used length becomes zero, and no byte of the buffer alters.
pub fn gm_empty(state: &mut [u8], buf: &[u8]) -> u8
    ensures { entered_as result state.new buf.now
        ≡ entered (call_of gm_empty) state.old buf.now }
{
    let step = steps::empty(&StateBytes(state), buf);
    entry_numbers::answered(entry_steps::stepped(state, step))
}

// A taking: how many bytes from the buffer's front are finished.
pub fn gm_finished(state: &[u8], buf: &[u8]) -> usize
    ensures { result ≡ finished_length (state_of state.now) (length buf.now) }
{
    place::finished_length(&StateBytes(state), buf.len())
}
