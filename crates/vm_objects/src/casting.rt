//! Tests of what an object is an instance of. At run time an array implements no interface.
#![tactic(auto, unfolding(jvm_model::specs::RowsCasts::row_casts))]

ghost use Rattle.std.specs.Prelude.{◌≡◌, ◌<◌, ◌-◌, ◌∷◌, [], IfOk, OnOk, cond, pos, true, false};
ghost use Rattle.jvm_model.specs.declared.instr.Instr.TheVariants as form;
ghost use Rattle.jvm_model.specs.declared.{outcome.Next.Next, values.Value.TheVariants.Int};
ghost use Rattle.jvm_model.specs.declared.values.Location.TheVariants as place;
ghost use Rattle.jvm_model.specs.{World.at, Access.read_of, View.Exists, Builtin.class_cast_exception, Entries.with_stack, Entries.with_place};
ghost use Rattle.jvm_model.specs.{Kinds.kind_fits, Rows.constant_kind};
ghost use Rattle.vm_frames.specs.Stack.{HasRoom};
ghost use Rattle.vm_mem.specs.{Refines.IsReady, Refines.IsNext, Refines.Makes, Trace.Extends};
ghost use Rattle.vm_objects.specs.Forms.{cast_row};

use et_base::NoMemory;
use jvm_model::{CLASS_CAST_EXCEPTION, Instr, Kind, Next, Value};
use vm_frames::FrameStack;
use vm_mem::Memory;
use vm_tables::Tables;

/// Makes the step of `checkcast` or `instanceof`, with the byte place of the next instruction. It reads the head of an
/// object and costs 1; a cast of what isn't of the type throws a ClassCastException, which counts nothing.
///
/// It answers Over where no unit is left. The only error is want of memory.
pub fn casts<M: Memory>(
    stack: &mut FrameStack,
    memory: &mut M,
    tables: &Tables,
    form: &Instr,
    next: u32,
    left: &mut u64,
) -> Result<Next, NoMemory>
    requires row { IsReady (cast_row form.now) tables.now M.program M.world memory.old stack.old }
    requires place { IsNext tables.now stack.old next }
    ensures made { Makes (cast_row form.now) M.program M.world M.follows memory.old memory.new
        stack.old left.old result stack.new left.new }
{
    match form {
        Instr::CheckCast { kind } => check_cast(stack, memory, tables, *kind, next, left),
        Instr::InstanceOf { kind } => instance_of(stack, memory, tables, *kind, next, left),
        _ => unreachable!(),
    }
}

/// Leaves null or an object of the type on top; another throws (`checkcast`).
#[inline(always)]
pub fn check_cast<M: Memory>(
    stack: &mut FrameStack,
    memory: &mut M,
    tables: &Tables,
    kind: Kind,
    next: u32,
    left: &mut u64,
) -> Result<Next, NoMemory>
    requires row { IsReady (cast_row (form.CheckCast kind)) tables.now M.program M.world memory.old
        stack.old }
    requires place { IsNext tables.now stack.old next }
    ensures made { Makes (cast_row (form.CheckCast kind)) M.program M.world M.follows memory.old
        memory.new stack.old left.old result stack.new left.new }
{
    if *left == 0 {
        return Ok(Next::Over);
    }
    match stack.pop_value() {
        Value::Null => {
            stack.push_value(Value::Null);
            stack.set_pc(next);
            *left -= 1;
            Ok(Next::Go)
        }
        Value::Lit(n) => {
            let fits = constant_fits(tables, n, kind);
            Ok(keep_if(fits, stack, Value::Lit(n), next, left))
        }
        Value::Obj(object) => {
            let fits = object_fits(memory, tables, object, kind)?;
            Ok(keep_if(fits, stack, Value::Obj(object), next, left))
        }
        Value::Int(_) | Value::Long(_) => unreachable!(),
    }
}

// What was cast is put back and the step goes on, if it is of the type; else the step throws.
#[inline(always)]
fn keep_if(fits: bool, stack: &mut FrameStack, v: Value, next: u32, left: &mut u64) -> Next
    requires room { HasRoom 1 stack.old }
    requires units { 0 < left.old }
    ensures kept { fits ≡ true → (result ≡ Next.Go)
        × (stack.new ≡ with_place (with_stack stack.old (v ∷ stack.old.top.stack)) next)
        × (left.new ≡ left.old - 1) }
    ensures thrown { fits ≡ false → (result ≡ Next.Fault class_cast_exception)
        × (stack.new ≡ stack.old) × (left.new ≡ left.old) }
{
    if !fits {
        return Next::Fault {
            class: CLASS_CAST_EXCEPTION,
        };
    }
    stack.push_value(v);
    stack.set_pc(next);
    *left -= 1;
    Next::Go
}

/// Takes a reference and puts 1 if it is an object of the type, else 0; null is of none (`instanceof`).
#[inline(always)]
pub fn instance_of<M: Memory>(
    stack: &mut FrameStack,
    memory: &mut M,
    tables: &Tables,
    kind: Kind,
    next: u32,
    left: &mut u64,
) -> Result<Next, NoMemory>
    requires row { IsReady (cast_row (form.InstanceOf kind)) tables.now M.program M.world memory.old
        stack.old }
    requires place { IsNext tables.now stack.old next }
    ensures made { Makes (cast_row (form.InstanceOf kind)) M.program M.world M.follows memory.old
        memory.new stack.old left.old result stack.new left.new }
{
    if *left == 0 {
        return Ok(Next::Over);
    }
    let holds = match stack.pop_value() {
        Value::Null => false,
        Value::Lit(n) => constant_fits(tables, n, kind),
        Value::Obj(object) => object_fits(memory, tables, object, kind)?,
        Value::Int(_) | Value::Long(_) => unreachable!(),
    };
    put_truth(holds, stack, next, left);
    Ok(Next::Go)
}

// The answer of a test is put on top, and the step goes on.
#[inline(always)]
fn put_truth(holds: bool, stack: &mut FrameStack, next: u32, left: &mut u64)
    requires room { HasRoom 1 stack.old }
    requires units { 0 < left.old }
    ensures put { stack.new ≡ with_place
        (with_stack stack.old (Int (cond holds (pos 1) (pos 0)) ∷ stack.old.top.stack)) next }
    ensures counted { left.new ≡ left.old - 1 }
{
    stack.push_int(i32::from(holds));
    stack.set_pc(next);
    *left -= 1;
}

// Whether an object is of a type. It reads the object's head. The call is cold: where it wasn't, the loop over instructions
// kept the rest of its code in memory, and each instruction was a sixth slower.
#[cold]
#[inline(never)]
fn object_fits<M: Memory>(
    memory: &mut M,
    tables: &Tables,
    object: u64,
    kind: Kind,
) -> Result<bool, NoMemory>
    requires { Exists (M.world memory.old) (place.Head object) }
    ensures gives { IfOk result (λ b. b
        ≡ kind_fits tables.now (at (M.world memory.old) (place.Head object)).kind kind) }
    ensures of { M.program memory.new ≡ M.program memory.old }
    ensures kept { OnOk result (M.world memory.new ≡ M.world memory.old) }
    ensures told { OnOk result (Extends M.follows memory.old memory.new
        (read_of (place.Head object) (at (M.world memory.old) (place.Head object)) ∷ [])) }
{
    let head = memory.head(object)?;
    Ok(tables.kind_fits(head.kind, kind))
}

// Whether what a constant stands for is of a type.
#[cold]
#[inline(never)]
fn constant_fits(tables: &Tables, n: u32, kind: Kind) -> bool
    ensures { result ≡ kind_fits tables.now (constant_kind n) kind }
{
    tables.kind_fits(Kind::of_constant(n), kind)
}
