//! What a class's initialisation begins: that of a part of it, or its `<clinit>`.

ghost use Rattle.std.specs.Prelude.{◌≡◌, ◌≤◌, ◌-◌, IfOk, IsSome, false};
ghost use Rattle.jvm_model.specs.{declared.state.EntryKind.TheVariants.InClass, Classes.class_at, Classes.method_at, World.World};
ghost use Rattle.vm_mem.specs.Refines.{IsReady, Refines, Makes};
ghost use Rattle.class_init.specs.Starting.{begin_row, start_row, enter_row, HasStart};

use et_base::NoMemory;
use jvm_model::{InitState, Next, Program, STACK_OVERFLOW_ERROR};
use vm_frames::{FrameStack, PushFault};
use vm_mem::Memory;

/// Begins the initialisation of a part that is Idle. A full list of entries faults with StackOverflowError.
pub fn begin_part<M: Memory>(
    stack: &mut FrameStack,
    memory: &mut M,
    class: u32,
    spare: u64,
    left: &mut u64,
) -> Result<Next, NoMemory>
    requires spare { spare ≤ left.old }
    requires row { IsReady (begin_row class (left.old - spare)) (M.program memory.old) M.program
        M.world memory.old stack.old }
    ensures made { Makes (begin_row class (left.old - spare)) M.program M.world M.follows memory.old
        memory.new stack.old left.old result stack.new left.new }
{
    if stack.is_full() {
        *left = spare;
        return Ok(Next::Fault {
            class: STACK_OVERFLOW_ERROR,
        });
    }
    if spare == 0 {
        return Ok(Next::Over);
    }
    memory.put_init(class, InitState::Running)?;
    match stack.push_init(class) {
        Ok(()) => {}
        Err(PushFault::Deep) => unreachable!(),
        Err(PushFault::NoMemory) => return Err(NoMemory {}),
    }
    *left = spare - 1;
    Ok(Next::Go)
}

/// Enters the `<clinit>` of the class of the entry at the top, or notes that there is none to enter. A full list of
/// entries faults with StackOverflowError.
pub fn start(
    stack: &mut FrameStack,
    p: &Program,
    spare: u64,
    left: &mut u64,
) -> Result<Next, NoMemory>
    requires kind { stack.old.top.kind ≡ InClass false }
    requires spare { spare ≤ left.old }
    requires start { HasStart p.now (class_at p.now stack.old.top.number).initialiser }
    ensures { IfOk result (λ x. (w : World) → Refines (start_row (left.old - spare))
        p.now w stack.old left.old x stack.new w left.new) }
{
    match initialiser(p, stack.number()) {
        Some(method) => enter(stack, p, method, spare, left),
        None => {
            if spare == 0 {
                return Ok(Next::Over);
            }
            stack.set_entered();
            *left = spare - 1;
            Ok(Next::Go)
        }
    }
}

/// The `<clinit>` of a class or interface.
fn initialiser(p: &Program, class: u32) -> Option<u32>
    ensures { result ≡ (class_at p.now class).initialiser }
{
    match p.class(class) {
        None => None,
        Some(record) => record.initialiser,
    }
}

/// Enters a `<clinit>`.
fn enter(
    stack: &mut FrameStack,
    p: &Program,
    method: u32,
    spare: u64,
    left: &mut u64,
) -> Result<Next, NoMemory>
    requires kind { stack.old.top.kind ≡ InClass false }
    requires spare { spare ≤ left.old }
    requires code { IsSome (method_at p.now method).body }
    ensures { IfOk result (λ x. (w : World) → Refines (enter_row method (left.old - spare))
        p.now w stack.old left.old x stack.new w left.new) }
{
    let Some(record) = p.method(method) else {
        unreachable!()
    };
    let Some(body) = &record.body else {
        unreachable!()
    };
    if stack.is_full() {
        *left = spare;
        return Ok(Next::Fault {
            class: STACK_OVERFLOW_ERROR,
        });
    }
    let cost = u64::from(body.max_stack) + u64::from(body.max_locals) + 1;
    if spare < cost {
        return Ok(Next::Over);
    }
    stack.set_entered();
    match stack.push(method, body.max_locals, None) {
        Ok(()) => {}
        Err(PushFault::Deep) => unreachable!(),
        Err(PushFault::NoMemory) => return Err(NoMemory {}),
    }
    *left = spare - cost;
    Ok(Next::Go)
}
