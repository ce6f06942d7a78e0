//! How a test is judged.

ghost use Rattle.std.specs.Prelude.{◌≡◌, List, ℕ};
ghost use Rattle.jvm_model.specs.{Access.spend, View.counted, World.World};
ghost use Rattle.jvm_model.specs.Driver as driver;
ghost use Rattle.jvm_model.specs.State as states;
ghost use Rattle.vm_interp.specs.declared.state.State.{State};
ghost use Rattle.vm_interp.specs.Turns.{IsFit, MakesPart, step_outcome};
ghost use Rattle.vm_interp.specs.Driving.{judge_part, judge_value_part};

use crate::state::State;
use crate::step_outcome::StepOutcome;
use et_base::{NoMemory, Units};
use jvm_model::{ASSERTION_ERROR, Cause, MESSAGE, Program, Value, Verdict};
use std::alloc::Global;
use vm_mem::Memory;
use vm_tables::Tables;

/// Judges a test by the first throwable that came out of what it called: Failed by an AssertionError or a class below it,
/// Error by any other, Passed where there is none. It reads the throwable's head and message, and counts 1 and the
/// message's units. Over where fewer are left.
#[tactic(auto, unfolding(jvm_model::specs::Driver::judge))]
pub fn judge<M: Memory>(
    alloc: Global,
    state: &State,
    memory: &mut M,
    tables: &Tables,
    thrown: Option<Value>,
    left: &mut u64,
) -> Result<StepOutcome, NoMemory>
    requires fit { IsFit (judge_part thrown) tables.now M.program M.world memory.old state.now }
    ensures made { MakesPart (judge_part thrown) M.program M.world M.follows
        memory.old memory.new state.now left.old result state.now left.new }
{
    match thrown {
        Some(value) => judge_value(alloc, state, memory, tables, value, left),
        None => {
            if *left == 0 {
                return Ok(StepOutcome::OutOfBudget);
            }
            *left -= 1;
            Ok(StepOutcome::Done(Verdict::Passed))
        }
    }
}

/// The same by this throwable.
fn judge_value<M: Memory>(
    alloc: Global,
    state: &State,
    memory: &mut M,
    tables: &Tables,
    thrown: Value,
    left: &mut u64,
) -> Result<StepOutcome, NoMemory>
    requires fit { IsFit (judge_value_part thrown)
        tables.now M.program M.world memory.old state.now }
    ensures made { MakesPart (judge_value_part thrown) M.program M.world M.follows
        memory.old memory.new state.now left.old result state.now left.new }
{
    let object = match thrown {
        Value::Obj(object) => object,
        Value::Null | Value::Int(_) | Value::Long(_) | Value::Lit(_) => unreachable!(),
    };
    let p = tables.program();
    let class = memory.head(object)?.kind.class();
    match memory.get_field(object, MESSAGE)? {
        Value::Null => {
            if *left == 0 {
                return Ok(StepOutcome::OutOfBudget);
            }
            *left -= 1;
            Ok(StepOutcome::Done(verdict_of(p, class, None)))
        }
        Value::Lit(number) => {
            let text = Units::from_slice(alloc, p.literal(number))?;
            Ok(judge_text(p, class, text, left))
        }
        Value::Obj(message) => {
            let text = Units::from_slice(alloc, memory.get_text(message)?.as_slice())?;
            Ok(judge_text(p, class, text, left))
        }
        Value::Int(_) | Value::Long(_) => unreachable!(),
    }
}

/// The same by the class of a throwable and its message.
fn judge_text(p: &Program, class: u32, text: Units, left: &mut u64) -> StepOutcome
    ensures { (s : State) (w : World) →
        counted (spend 1 (driver.judged_text p.now s.own.output class text)) w left.old
        ≡ step_outcome result s w left.new }
{
    let cost = text.len() as u64;
    if *left == 0 || *left - 1 < cost {
        return StepOutcome::OutOfBudget;
    }
    *left -= 1;
    *left -= cost;
    StepOutcome::Done(verdict_of(p, class, Some(text)))
}

/// The verdict by the class of a throwable, with its message where there is one.
fn verdict_of(p: &Program, class: u32, message: Option<Units>) -> Verdict
    ensures { (output : List ℕ) →
        driver.judged p.now output class message ≡ states.ended result output }
{
    let cause = Cause { class, message };
    if p.is_below(class, ASSERTION_ERROR) {
        Verdict::Failed(cause)
    } else {
        Verdict::Error(cause)
    }
}
