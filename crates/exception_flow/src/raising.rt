//! A throwable is raised into a frame.

ghost use Rattle.std.specs.Prelude.{◌≡◌};
ghost use Rattle.jvm_model.specs.declared.state.EntryKind.TheVariants.{InMethod};
ghost use Rattle.vm_mem.specs.Refines.{IsReady, Makes};
ghost use Rattle.exception_flow.specs.Raise.{raise_row};

use crate::handlers::handler_of;
use et_base::NoMemory;
use jvm_model::{NULL_POINTER_EXCEPTION, Next, Program, Value};
use vm_frames::FrameStack;
use vm_mem::Memory;

/// Raises a throwable into the method frame at the top (JVMS 2.10). It goes on at the handler's place with the throwable
/// as the one operand, or the frame is popped and the throwable is to be raised into the entry below. It reads the head
/// of the throwable, and counts 1. Over, with nothing done, where no unit is left.
#[tactic(auto, unfolding(jvm_model::specs::Raising::row_raise))]
pub fn raise<M: Memory>(
    stack: &mut FrameStack,
    memory: &mut M,
    p: &Program,
    thrown: Value,
    left: &mut u64,
) -> Result<Next, NoMemory>
    requires frame { stack.old.top.kind ≡ InMethod }
    requires row { IsReady (raise_row thrown) p.now M.program M.world memory.old stack.old }
    ensures made { Makes (raise_row thrown) M.program M.world M.follows memory.old memory.new
        stack.old left.old result stack.new left.new }
{
    let object = match thrown {
        Value::Obj(object) => object,
        Value::Null => {
            return Ok(Next::Fault {
                class: NULL_POINTER_EXCEPTION,
            });
        }
        Value::Int(_) => unreachable!(),
        Value::Long(_) => unreachable!(),
        Value::Lit(_) => unreachable!(),
    };
    if *left == 0 {
        return Ok(Next::Over);
    }
    let head = memory.head(object)?;
    *left -= 1;
    match handler_of(p, stack.number(), stack.pc(), head.kind.class()) {
        None => {
            stack.pop();
            Ok(Next::Raise(thrown))
        }
        Some(at) => {
            stack.clear_stack();
            stack.push_value(thrown);
            stack.set_pc(at);
            Ok(Next::Go)
        }
    }
}
