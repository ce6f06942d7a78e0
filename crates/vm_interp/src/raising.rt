//! What is raised in a test's state.

ghost use Rattle.std.specs.Prelude.{◌≡◌};
ghost use Rattle.jvm_model.specs.State as states;
ghost use Rattle.vm_interp.specs.{Abs.abs, Turns.MakesPart, Driving.throw_part};

use crate::state::State;
use crate::step_outcome::StepOutcome;
use et_base::NoMemory;
use jvm_model::{EntryKind, Head, Kind, Stage, Value};
use vm_mem::Memory;

/// Raises a throwable into the top entry, or hands it to the driver where no entry is left.
pub fn raise_into(state: &mut State, thrown: Value)
    ensures { abs state.new ≡ states.raise thrown (abs state.old) }
{
    match state.frames.kind() {
        EntryKind::Absent => {
            state.raised = None;
            state.stage = thrown_at(state.stage, thrown);
        }
        EntryKind::InMethod => state.raised = Some(thrown),
        EntryKind::InClass { .. } => state.raised = Some(thrown),
    }
}

/// The stage after a throwable came out of what a stage called or made: the first one decides.
fn thrown_at(stage: Stage, thrown: Value) -> Stage
    ensures { result ≡ states.thrown_at stage thrown }
{
    match stage {
        Stage::First => Stage::Last {
            thrown: Some(thrown),
        },
        Stage::Made { .. } => Stage::Last {
            thrown: Some(thrown),
        },
        Stage::Built { .. } => Stage::Last {
            thrown: Some(thrown),
        },
        Stage::SetUp { .. } => Stage::Last {
            thrown: Some(thrown),
        },
        Stage::Called {
            object,
            thrown: first,
        } => Stage::Called {
            object,
            thrown: or_first(first, thrown),
        },
        Stage::Last { thrown: first } => Stage::Last {
            thrown: or_first(first, thrown),
        },
    }
}

fn or_first(first: Option<Value>, thrown: Value) -> Option<Value>
    ensures { result ≡ states.or_first first thrown }
{
    match first {
        None => Some(thrown),
        Some(value) => Some(value),
    }
}

/// Makes a new throwable of a class, without a message, and raises it. It counts 3, the 1 of the step among them. Over,
/// with nothing made, where fewer units are left.
#[tactic(auto, unfolding(jvm_model::specs::Throwing::throws))]
pub fn throw_new<M: Memory>(
    state: &mut State,
    memory: &mut M,
    class: u32,
    left: &mut u64,
) -> Result<StepOutcome, NoMemory>
    ensures made { MakesPart (throw_part class) M.program M.world M.follows
        memory.old memory.new state.old left.old result state.new left.new }
{
    if *left < 3 {
        return Ok(StepOutcome::OutOfBudget);
    }
    let object = memory.make(Head {
        kind: Kind::Class(class),
        length: 0,
    })?;
    raise_into(state, Value::Obj(object));
    *left -= 3;
    Ok(StepOutcome::Running)
}
