// The writer: its calls over a state by value and a lent buffer. Those that write a scalar are crate value_writer's, handed on.
// Each is crate steps' call, and answers with the next state.
#![tactic(auto)]

ghost use Rattle.std.specs.Prelude.{◌≡◌, ℕ, List};
ghost use Rattle.machine.specs.Machine.{config, run};
ghost use Rattle.machine.specs.Numbers.{outcome_of, closed_outcome};
ghost use Rattle.machine.specs.Call.{name, opening, closing, abandonment, version_marker, emptying};
ghost use Rattle.annotations.specs.Sids.{sids_of};
ghost use Rattle.steps.specs.Heads.{stepped};
ghost use Rattle.steps.specs.Kinds.{kind_of};
ghost use Rattle.steps.specs.Start.{start_run, taken_from};

use machine::{Closed, Refusal, Refused, State};
pub use steps::ContainerType;
use steps::Head;
pub use value_writer::{
    write, write_blob, write_bool, write_clob, write_decimal, write_f32, write_f32_bits, write_f64,
    write_f64_bits, write_i64, write_int, write_null, write_string, write_symbol, write_timestamp,
};

// A start: an empty state over a lent buffer that begins with a version marker.
pub fn start(buf: &mut [u8]) -> Result<State, Refused>
    ensures { outcome_of result buf.new ≡ start_run buf.old }
{
    let used = steps::start(buf).map_err(|why| steps::refused(State::empty(0), why))?;
    Ok(State::empty(used))
}

// A call that alters the head alone: the next state.
fn stepped(s: State, step: Result<Head, Refusal>) -> Result<State, Refused>
    ensures { (b : List ℕ) → outcome_of result b ≡ stepped step s b }
{
    let head = step.map_err(|why| steps::refused(s, why))?;
    Ok(steps::with_head(s, head))
}

// A field name: its sid as a VarUInt.
pub fn field_name(s: State, buf: &mut [u8], sid: u64) -> Result<State, Refused>
    ensures { outcome_of result buf.new ≡ run (name sid) (config s buf.old) }
{
    stepped(s, steps::field_name(&s, buf, sid))
}

// An opening: it reserves two bytes for its header, and with annotations two more for the wrapper's before them.
pub fn open(
    s: State,
    buf: &mut [u8],
    annotations: &[u8],
    kind: ContainerType,
) -> Result<State, Refused>
    ensures { outcome_of result buf.new ≡ run (opening (sids_of annotations.now) (kind_of kind)) (config s buf.old) }
{
    let opened = steps::open(&s, buf, annotations, kind).map_err(|why| steps::refused(s, why))?;
    let mut next = s;
    next.containers[opened.head.depth - 1] = opened.container;
    Ok(steps::with_head(next, opened.head))
}

// A closing: the header, and the wrapper's, in their final form. The container is then a member of the one that it lies in.
pub fn close(s: State, buf: &mut [u8]) -> Result<Closed, Refused>
    ensures { closed_outcome result buf.new ≡ run closing (config s buf.old) }
{
    let closed = steps::close(&s, buf).map_err(|why| steps::refused(s, why))?;
    Ok(Closed {
        state: steps::with_head(steps::counted(s, closed.head.depth), closed.head),
        size: closed.size,
        members: closed.members,
        moved: closed.moved,
    })
}

// An abandonment: the innermost container's bytes are given back, and a name before it waits again.
pub fn abandon(s: State, buf: &mut [u8]) -> Result<State, Refused>
    ensures { outcome_of result buf.new ≡ run abandonment (config s buf.old) }
{
    stepped(s, steps::abandon(&s, buf))
}

// A version marker: E0 01 00 EA, at the place of the call.
pub fn version_marker(s: State, buf: &mut [u8]) -> Result<State, Refused>
    ensures { outcome_of result buf.new ≡ run version_marker (config s buf.old) }
{
    stepped(s, steps::version_marker(&s, buf))
}

// An emptying: the used length becomes zero, and no byte alters.
pub fn empty(s: State, buf: &[u8]) -> Result<State, Refused>
    ensures { outcome_of result buf.now ≡ run emptying (config s buf.now) }
{
    stepped(s, steps::empty(&s, buf))
}

// A taking: the finished bytes, as a part of the lent buffer.
pub fn finished<'a>(s: State, buf: &'a [u8]) -> &'a [u8]
    ensures { result.now ≡ taken_from s buf.now }
{
    let n = place::finished_length(&s, buf.len());
    &buf[..n]
}
