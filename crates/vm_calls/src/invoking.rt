//! The four invoke forms (JVMS 6.5).
#![tactic(auto, unfolding(jvm_model::specs::RowsCalls::row_calls))]

ghost use Rattle.std.specs.Prelude.{◌≡◌, ◌≢◌, ◌<◌, IfOk, length};
ghost use Rattle.jvm_model.specs.{Classes.method_at, World.World, RowsCalls.argument_count};
ghost use Rattle.class_init.specs.Uses.{IsUsable, MakesUse};
ghost use Rattle.jvm_model.specs.declared.instr.Instr.TheVariants as form;
ghost use Rattle.vm_mem.specs.Refines.{IsReady, Makes, Refines};
ghost use Rattle.vm_calls.specs.Calls.{call_row, kind_row, object_row};

use crate::entering::{enter_choice, enter_method};
use crate::selections::Selections;
use class_init::{Use, begin_use};
use et_base::NoMemory;
use jvm_model::{Instr, Kind, NULL_POINTER_EXCEPTION, Next, Value};
use vm_frames::FrameStack;
use vm_mem::Memory;
use vm_tables::Tables;

/// Makes the step of an invoke form. A method with code gets its frame, which costs its greatest depth and its locals
/// besides the 1 of the step; a built-in method is still to run, over the operands as they are, and nothing is counted.
/// Both answer Enter. Where the step throws it counts nothing, and it answers Over where its cost is above the units left.
/// The only error is want of memory.
pub fn call<M: Memory>(
    stack: &mut FrameStack,
    memory: &mut M,
    tables: &Tables,
    selections: &mut Selections,
    form: &Instr,
    left: &mut u64,
) -> Result<Next, NoMemory>
    requires selections { selections.old ≡ tables.now }
    requires row { IsReady (call_row form.now) tables.now M.program M.world memory.old stack.old }
    ensures made { Makes (call_row form.now) M.program M.world M.follows
        memory.old memory.new stack.old left.old result stack.new left.new }
    ensures kept { selections.new ≡ selections.old }
{
    match form {
        Instr::InvokeStatic { method } => invoke_static(stack, memory, tables, *method, left),
        Instr::InvokeVirtual { method, .. } => {
            invoke_on_object(stack, memory, tables, selections, None, *method, left)
        }
        Instr::InvokeInterface { named, method } => {
            let interface = Some(*named);
            invoke_on_object(stack, memory, tables, selections, interface, *method, left)
        }
        Instr::InvokeSpecial { named, method } => invoke_special(
            stack, memory, tables, selections, *named, *method, left,
        ),
        _ => unreachable!(),
    }
}

/// Uses the class that declares a static method and enters the method.
#[inline(always)]
#[tactic(auto, using(crate::proofs::Entered::calls_touches, crate::proofs::Entered::calls_there), unfolding(jvm_model::specs::RowsCalls::row_calls))]
pub fn invoke_static<M: Memory>(
    stack: &mut FrameStack,
    memory: &mut M,
    tables: &Tables,
    method: u32,
    left: &mut u64,
) -> Result<Next, NoMemory>
    requires row { IsReady (call_row (form.InvokeStatic method))
        tables.now M.program M.world memory.old stack.old }
    ensures made { Makes (call_row (form.InvokeStatic method)) M.program M.world M.follows
        memory.old memory.new stack.old left.old result stack.new left.new }
{
    match begin_method_use(stack, memory, tables, method, left)? {
        Use::Ready => {
            let arguments = tables.arguments(method);
            enter_method(stack, tables, method, arguments, left)
        }
        Use::Begun => Ok(Next::Go),
        Use::Fault { class } => Ok(Next::Fault { class }),
        Use::Over => Ok(Next::Over),
    }
}

/// Begins the initialisation of the class of a method, where none was begun. A class without an initialisation state is told
/// by the method's own entry in the tables.
#[inline(always)]
#[tactic(auto, unfolding(jvm_model::specs::Rows::begin))]
fn begin_method_use<M: Memory>(
    stack: &mut FrameStack,
    memory: &mut M,
    tables: &Tables,
    method: u32,
    left: &mut u64,
) -> Result<Use, NoMemory>
    requires safe { IsUsable (method_at tables.now method).class
        tables.now M.program M.world memory.old stack.old }
    ensures made { MakesUse (method_at tables.now method).class M.program M.world M.follows
        memory.old memory.new stack.old left.old result stack.new left.new }
    ensures entries { IfOk result (λ u. u ≢ Use.Begun → stack.new ≡ stack.old) }
{
    if let Some(call_descriptor) = tables.call_descriptor(method) {
        if call_descriptor.is_trivial {
            return Ok(Use::Ready);
        }
    }
    begin_use(
        stack,
        memory,
        tables,
        tables.program().method_class(method),
        left,
    )
}

/// Enters the method that is selected on an instance of a kind.
#[inline(always)]
fn enter_selected(
    stack: &mut FrameStack,
    tables: &Tables,
    selections: &mut Selections,
    interface: Option<u32>,
    method: u32,
    kind: Kind,
    left: &mut u64,
) -> Result<Next, NoMemory>
    requires selections { selections.old ≡ tables.now }
    requires arguments { argument_count tables.now method < length stack.old.top.stack }
    requires few { argument_count tables.now method < 65535 }
    ensures meets { IfOk result (λ x. (w : World) → Refines (kind_row interface method kind)
        tables.now w stack.old left.old x stack.new w left.new) }
    ensures kept { selections.new ≡ selections.old }
{
    let choice = selections.dispatch(tables, interface, method, kind.class())?;
    enter_choice(stack, tables, choice, tables.arguments(method) + 1, left)
}

/// Calls the method that is selected by the class of the object below the arguments (`invokevirtual`, and `invokeinterface`
/// with the interface that it names): a private method is the one that is named; another is the first of its name and
/// descriptor upwards, or a default method. Null throws, and an object whose class doesn't implement the interface throws
/// IncompatibleClassChangeError, unless the method is private. It reads the object's head.
#[inline(always)]
#[tactic(auto, using(crate::proofs::Entered::selected_touches, crate::proofs::Entered::object_there))]
pub fn invoke_on_object<M: Memory>(
    stack: &mut FrameStack,
    memory: &mut M,
    tables: &Tables,
    selections: &mut Selections,
    interface: Option<u32>,
    method: u32,
    left: &mut u64,
) -> Result<Next, NoMemory>
    requires selections { selections.old ≡ tables.now }
    requires row { IsReady (object_row interface method)
        tables.now M.program M.world memory.old stack.old }
    ensures made { Makes (object_row interface method) M.program M.world M.follows
        memory.old memory.new stack.old left.old result stack.new left.new }
    ensures kept { selections.new ≡ selections.old }
{
    match stack.operand(tables.arguments(method)) {
        Value::Obj(object) => {
            let head = memory.head(object)?;
            enter_selected(
                stack, tables, selections, interface, method, head.kind, left,
            )
        }
        Value::Lit(literal) => {
            let kind = Kind::of_constant(literal);
            enter_selected(stack, tables, selections, interface, method, kind, left)
        }
        Value::Null => Ok(Next::Fault {
            class: NULL_POINTER_EXCEPTION,
        }),
        Value::Int(_) => unreachable!(),
        Value::Long(_) => unreachable!(),
    }
}

/// Calls a method without regard to the object's class: `<init>` is the one that is named; another is looked for from the
/// named class upwards, or from the direct superclass of the current class where the named one is an ancestor of it. Null
/// throws. It touches nothing.
#[inline(always)]
#[tactic(auto, using(crate::proofs::Entered::selected_touches, crate::proofs::Entered::reference_there), unfolding(jvm_model::specs::RowsCalls::row_calls))]
pub fn invoke_special<M: Memory>(
    stack: &mut FrameStack,
    memory: &mut M,
    tables: &Tables,
    selections: &mut Selections,
    named: Kind,
    method: u32,
    left: &mut u64,
) -> Result<Next, NoMemory>
    requires selections { selections.old ≡ tables.now }
    requires row { IsReady (call_row (form.InvokeSpecial named method))
        tables.now M.program M.world memory.old stack.old }
    ensures made { Makes (call_row (form.InvokeSpecial named method)) M.program M.world M.follows
        memory.old memory.new stack.old left.old result stack.new left.new }
    ensures kept { selections.new ≡ selections.old }
{
    let arguments = tables.arguments(method);
    match stack.operand(arguments) {
        Value::Obj(_) | Value::Lit(_) => {
            let current = tables.program().method_class(stack.number());
            let choice = selections.dispatch_special(tables, current, named, method)?;
            enter_choice(stack, tables, choice, arguments + 1, left)
        }
        Value::Null => Ok(Next::Fault {
            class: NULL_POINTER_EXCEPTION,
        }),
        Value::Int(_) => unreachable!(),
        Value::Long(_) => unreachable!(),
    }
}
