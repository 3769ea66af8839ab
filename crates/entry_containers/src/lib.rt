// The entry points for names and containers: numbers and byte slices in, state and buffer lent.
// Each answers 0 for an accepted call, or the refusal's number, since C takes no `Result`. A refused call leaves what is lent as it was.
// State, buffer and annotations are parameters apart, as C hands them.
#![tactic(auto)]

ghost use Rattle.std.specs.Prelude.{◌≡◌};
ghost use Rattle.annotations.specs.Sids.{sids_of};
ghost use Rattle.machine.specs.Call.{opening, closing};
ghost use Rattle.steps.specs.Kinds.{kind_of};
ghost use Rattle.state_bytes.specs.StateBytes.{entered, answered};
ghost use Rattle.entry_steps.specs.Entries.{entered_as, answered_as};
ghost use Rattle.entry_numbers.specs.EntryCall.{gm_field_name, gm_open_list, gm_open_sexp, gm_open_struct, gm_close, gm_abandon, call_of};

use machine::Refusal;
use state_bytes::StateBytes;
use steps::ContainerType;

// A field name: its sid as a VarUInt.
pub fn gm_field_name(state: &mut [u8], buf: &mut [u8], sid: u64) -> u8
    ensures { entered_as result state.new buf.new
        ≡ entered (call_of (gm_field_name sid)) state.old buf.old }
{
    let step = steps::field_name(&StateBytes(state), buf, sid);
    entry_numbers::answered(entry_steps::stepped(state, step))
}

// An opening: it reserves two bytes for its header, and with annotations two more for the wrapper's before them.
fn open(
    state: &mut [u8],
    buf: &mut [u8],
    annotations: &[u8],
    kind: ContainerType,
) -> Result<(), Refusal>
    ensures { answered_as result state.new buf.new
        ≡ entered (opening (sids_of annotations.now) (kind_of kind)) state.old buf.old }
{
    let opened = steps::open(&StateBytes(state), buf, annotations, kind)?;
    state_bytes::store_container(state, opened.head.depth - 1, opened.container);
    entry_steps::store(state, opened.head);
    Ok(())
}

pub fn gm_open_list(state: &mut [u8], buf: &mut [u8], annotations: &[u8]) -> u8
    ensures { entered_as result state.new buf.new
        ≡ entered (call_of (gm_open_list annotations.now)) state.old buf.old }
{
    entry_numbers::answered(open(state, buf, annotations, ContainerType::List))
}

pub fn gm_open_sexp(state: &mut [u8], buf: &mut [u8], annotations: &[u8]) -> u8
    ensures { entered_as result state.new buf.new
        ≡ entered (call_of (gm_open_sexp annotations.now)) state.old buf.old }
{
    entry_numbers::answered(open(state, buf, annotations, ContainerType::Sexp))
}

pub fn gm_open_struct(state: &mut [u8], buf: &mut [u8], annotations: &[u8]) -> u8
    ensures { entered_as result state.new buf.new
        ≡ entered (call_of (gm_open_struct annotations.now)) state.old buf.old }
{
    entry_numbers::answered(open(state, buf, annotations, ContainerType::Struct))
}

fn close(state: &mut [u8], buf: &mut [u8], closed: &mut [u8]) -> Result<(), Refusal>
    ensures call { answered_as result state.new buf.new ≡ entered closing state.old buf.old }
    ensures figures { closed.new ≡ answered state.old buf.old closed.old }
{
    let close = steps::close(&StateBytes(state), buf)?;
    state_bytes::answer(closed, close.size, close.members, close.moved);
    state_bytes::count(state, close.head.depth);
    entry_steps::store(state, close.head);
    Ok(())
}

// A closing: the header, and the wrapper's, in their final form. What it answers of the container, in four bytes each, least significant first:
// how many bytes it takes, how many members it has, and how many bytes moved. It answers in the slice `closed`, as far as that holds the numbers whole.
// The container is then a member of the one that it lies in.
pub fn gm_close(state: &mut [u8], buf: &mut [u8], closed: &mut [u8]) -> u8
    ensures { (entered_as result state.new buf.new ≡ entered (call_of gm_close) state.old buf.old)
        × (closed.new ≡ answered state.old buf.old closed.old) }
{
    entry_numbers::answered(close(state, buf, closed))
}

// An abandonment: the innermost container's bytes are given back, and a name before it waits again.
pub fn gm_abandon(state: &mut [u8], buf: &mut [u8]) -> u8
    ensures { entered_as result state.new buf.new
        ≡ entered (call_of gm_abandon) state.old buf.old }
{
    let step = steps::abandon(&StateBytes(state), buf);
    entry_numbers::answered(entry_steps::stepped(state, step))
}
