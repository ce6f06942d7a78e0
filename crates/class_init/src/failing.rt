//! A throwable is raised into an initialisation entry.

ghost use Rattle.std.specs.Prelude.{◌≡◌};
ghost use Rattle.jvm_model.specs.Initialise as initialise;
ghost use Rattle.vm_mem.specs.Refines.{IsReady, Makes};
ghost use Rattle.class_init.specs.Starting.{fail_row};

use et_base::NoMemory;
use jvm_model::{
    ERROR, EXCEPTION_IN_INITIALIZER_ERROR, EntryKind, Head, InitState, Kind,
    NULL_POINTER_EXCEPTION, Next, Program, Value,
};
use vm_frames::FrameStack;
use vm_mem::Memory;

/// Raises a throwable into the initialisation entry at the top (JVMS 5.5): the class is Erroneous, the entry is popped,
/// and the throwable is to be raised into the entry below. It reads the head of the throwable, and counts 1. Where
/// `<clinit>` was entered and the throwable is no Error, a new ExceptionInInitializerError is raised in its place, which
/// counts 2 more. Over, with nothing written, where fewer units are left.
#[tactic(auto, unfolding(jvm_model::specs::Initialise::row_fail))]
pub fn fail<M: Memory>(
    stack: &mut FrameStack,
    memory: &mut M,
    p: &Program,
    thrown: Value,
    left: &mut u64,
) -> Result<Next, NoMemory>
    requires row { IsReady (fail_row thrown) p.now M.program M.world memory.old stack.old }
    ensures made { Makes (fail_row thrown) M.program M.world M.follows memory.old memory.new
        stack.old left.old result stack.new left.new }
{
    let object = match thrown {
        Value::Obj(object) => object,
        Value::Null => {
            return Ok(Next::Fault {
                class: NULL_POINTER_EXCEPTION,
            });
        }
        Value::Int(_) => unreachable!(),
        Value::Long(_) => unreachable!(),
        Value::Lit(_) => unreachable!(),
    };
    let head = memory.head(object)?;
    let class = stack.number();
    if was_entered(stack.kind()) && !p.is_below(head.kind.class(), ERROR) {
        if *left < 3 {
            return Ok(Next::Over);
        }
        memory.put_init(class, InitState::Erroneous)?;
        let made = memory.make(Head {
            kind: Kind::Class(EXCEPTION_IN_INITIALIZER_ERROR),
            length: 0,
        })?;
        stack.pop();
        *left -= 3;
        return Ok(Next::Raise(Value::Obj(made)));
    }
    if *left == 0 {
        return Ok(Next::Over);
    }
    memory.put_init(class, InitState::Erroneous)?;
    stack.pop();
    *left -= 1;
    Ok(Next::Raise(thrown))
}

/// Whether an entry is that of a class whose `<clinit>` was entered, or that has none to enter.
fn was_entered(kind: EntryKind) -> bool
    ensures { result ≡ initialise.was_entered kind }
{
    match kind {
        EntryKind::InClass { entered } => entered,
        EntryKind::Absent | EntryKind::InMethod => false,
    }
}
