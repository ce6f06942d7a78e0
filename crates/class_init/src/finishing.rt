//! A step on the initialisation entry at the top.

ghost use Rattle.std.specs.Prelude.{◌≡◌, ◌≤◌, ◌-◌, map, false};
ghost use Rattle.jvm_model.specs.{declared.state.EntryKind.TheVariants.InClass, Initialise.row_finish};
ghost use Rattle.vm_tables.specs.Starts.{part_of};
ghost use Rattle.vm_mem.specs.Refines.{IsReady, Makes};
ghost use Rattle.class_init.specs.Starting.{leave_row, look_row};

use crate::starting::{begin_part, start};
use et_base::NoMemory;
use jvm_model::{EntryKind, InitState, NO_CLASS_DEF_FOUND_ERROR, Next, Program};
use vm_frames::FrameStack;
use vm_mem::Memory;
use vm_tables::{Part, Tables};

/// Makes a step on the initialisation entry at the top (JVMS 5.5). While `<clinit>` wasn't entered it looks at the
/// superclass and then at the default interfaces, trivial ones left aside, up to the first that is Idle, which is begun,
/// or Erroneous, which faults with NoClassDefFoundError; where there is none, `<clinit>` is entered, or the entry says
/// that there is none to enter. After that the class is Done and the entry is popped: Leave where no entry is left.
///
/// It counts 1, and 1 for each default interface that was looked at, and the cost of the frame of `<clinit>`. A fault
/// counts the interfaces alone. Over, with nothing written, where fewer units are left.
#[tactic(auto, unfolding(jvm_model::specs::Initialise::row_finish))]
pub fn finish<M: Memory>(
    stack: &mut FrameStack,
    memory: &mut M,
    tables: &Tables,
    left: &mut u64,
) -> Result<Next, NoMemory>
    requires row { IsReady row_finish tables.now M.program M.world memory.old stack.old }
    ensures made { Makes row_finish M.program M.world M.follows memory.old memory.new stack.old
        left.old result stack.new left.new }
{
    match stack.kind() {
        EntryKind::InClass { entered: false } => {
            let parts = tables.parts(stack.number());
            let spare = *left;
            look(stack, memory, tables.program(), parts, spare, left)
        }
        EntryKind::InClass { entered: true } => leave(stack, memory, left),
        EntryKind::Absent => unreachable!(),
        EntryKind::InMethod => unreachable!(),
    }
}

/// The class is Done, and its entry is popped.
fn leave<M: Memory>(
    stack: &mut FrameStack,
    memory: &mut M,
    left: &mut u64,
) -> Result<Next, NoMemory>
    requires row { IsReady leave_row (M.program memory.old) M.program M.world memory.old stack.old }
    ensures made { Makes leave_row M.program M.world M.follows memory.old memory.new stack.old
        left.old result stack.new left.new }
{
    if *left == 0 {
        return Ok(Next::Over);
    }
    memory.put_init(stack.number(), InitState::Done)?;
    stack.pop();
    *left -= 1;
    match stack.kind() {
        EntryKind::Absent => Ok(Next::Leave),
        EntryKind::InMethod => Ok(Next::Go),
        EntryKind::InClass { .. } => Ok(Next::Go),
    }
}

/// Looks at the states of these parts up to the first that is Idle or Erroneous. The price of those that were looked at
/// before is off `spare` already.
#[tactic(auto, using(crate::proofs::Starts::start_there, crate::proofs::Starts::start_touches))]
fn look<M: Memory>(
    stack: &mut FrameStack,
    memory: &mut M,
    p: &Program,
    parts: &[Part],
    spare: u64,
    left: &mut u64,
) -> Result<Next, NoMemory>
    requires kind { stack.old.top.kind ≡ InClass false }
    requires spare { spare ≤ left.old }
    requires row { IsReady (look_row (map part_of parts.now) (left.old - spare)) p.now M.program
        M.world memory.old stack.old }
    ensures made { Makes (look_row (map part_of parts.now) (left.old - spare)) M.program M.world
        M.follows memory.old memory.new stack.old left.old result stack.new left.new }
{
    let Some((part, rest)) = parts.split_first() else {
        return start(stack, p, spare, left);
    };
    let state = memory.get_init(part.class)?;
    if spare < part.price {
        return Ok(Next::Over);
    }
    let spare = spare - part.price;
    match state {
        InitState::Idle => begin_part(stack, memory, part.class, spare, left),
        InitState::Running => look(stack, memory, p, rest, spare, left),
        InitState::Done => look(stack, memory, p, rest, spare, left),
        InitState::Erroneous => {
            *left = spare;
            Ok(Next::Fault {
                class: NO_CLASS_DEF_FOUND_ERROR,
            })
        }
    }
}
