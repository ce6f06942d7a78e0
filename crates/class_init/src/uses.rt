//! The use of a class.

ghost use Rattle.std.specs.Prelude.{◌≡◌, ◌≢◌, IfOk};
ghost use Rattle.class_init.specs.Uses.{IsUsable, MakesUse};

use et_base::NoMemory;
use jvm_model::{InitState, NO_CLASS_DEF_FOUND_ERROR, STACK_OVERFLOW_ERROR};
use vm_frames::{FrameStack, PushFault};
use vm_mem::Memory;
use vm_tables::Tables;

/// How the use of a class goes on. `Ready` says that the instruction goes on, `Begun` that an initialisation entry was
/// pushed and the instruction is to be tried again once it's gone, `Fault` that the step throws by itself a new
/// throwable of this class, and `Over` that no unit is left for the step.
#[derive(Clone, Copy, PartialEq, Eq)]
pub enum Use {
    Ready,
    Begun,
    Fault { class: u32 },
    Over,
}

/// Begins the initialisation of a class or interface that an instruction uses, where none was begun (JVMS 5.5): it is
/// Running then, and its initialisation entry is on top. An Erroneous one faults with NoClassDefFoundError, a full list
/// of entries with StackOverflowError. One that is trivial is Ready without a touch. Only Begun counts the 1 of the step.
#[inline(always)]
#[tactic(auto, unfolding(jvm_model::specs::Rows::begin))]
pub fn begin_use<M: Memory>(
    stack: &mut FrameStack,
    memory: &mut M,
    tables: &Tables,
    class: u32,
    left: &mut u64,
) -> Result<Use, NoMemory>
    requires safe { IsUsable class tables.now M.program M.world memory.old stack.old }
    ensures made { MakesUse class M.program M.world M.follows memory.old memory.new
        stack.old left.old result stack.new left.new }
    ensures entries { IfOk result (λ u. u ≢ Use.Begun → stack.new ≡ stack.old) }
{
    if tables.is_trivial(class) {
        return Ok(Use::Ready);
    }
    match memory.get_init(class)? {
        InitState::Running | InitState::Done => return Ok(Use::Ready),
        InitState::Erroneous => {
            return Ok(Use::Fault {
                class: NO_CLASS_DEF_FOUND_ERROR,
            });
        }
        InitState::Idle => {}
    }
    if stack.is_full() {
        return Ok(Use::Fault {
            class: STACK_OVERFLOW_ERROR,
        });
    }
    if *left == 0 {
        return Ok(Use::Over);
    }
    memory.put_init(class, InitState::Running)?;
    match stack.push_init(class) {
        Ok(()) => {}
        Err(PushFault::Deep) => unreachable!(),
        Err(PushFault::NoMemory) => return Err(NoMemory {}),
    }
    *left -= 1;
    Ok(Use::Begun)
}
