//! New arrays of arrays.

ghost use Rattle.std.specs.Prelude.{◌≡◌, ◌≤◌, ◌<◌, ℕ, List, IfOk, OnOk, IfSome, length, drop};
ghost use Rattle.jvm_model.specs.declared.instr.Instr.TheVariants as form;
ghost use Rattle.jvm_model.specs.declared.{program.Program.Program as Numbered, values.Kind.Kind as Sort, values.Touch.Touch};
ghost use Rattle.jvm_model.specs.Entries.{Entries, with_stack};
ghost use Rattle.jvm_model.specs.RowsCreate as create;
ghost use Rattle.jvm_model.specs.View.{IsSafe, Any, counted, ended, touched};
ghost use Rattle.vm_frames.specs.Stack.{HasRoom};
ghost use Rattle.vm_mem.specs.{Refines.IsReady, Refines.IsNext, Refines.Makes, Trace.Trace};
ghost use Rattle.vm_objects.specs.{Forms.create_row, Nests.nested_row, Nests.taken, Nests.HasInts};

use crate::creation::count_of;
use et_base::NoMemory;
use jvm_model::{Head, Kind, NEGATIVE_ARRAY_SIZE_EXCEPTION, Next, Value};
use vm_frames::FrameStack;
use vm_mem::Memory;

/// The most dimensions of an array (JVMS 4.4.1).
const DIMENSION_LIMIT: usize = 255;

/// Takes a length for each of so many dimensions, that of the innermost on top, and puts a new array on top whose
/// elements are new arrays, down to the innermost of these dimensions; those have the default value of their type
/// (`multianewarray`). It writes each array's head and its elements' default values, and then each element that holds
/// an array.
///
/// It costs 1, and 1 and the length for each array, at most 2^64 - 1 in all. A negative length throws a
/// NegativeArraySizeException, which counts nothing. It answers Over where the cost is above the units left. The only
/// error is want of memory.
#[tactic(auto, unfolding(jvm_model::specs::RowsCreate::row_create))]
pub fn multi_new_array<M: Memory>(
    stack: &mut FrameStack,
    memory: &mut M,
    kind: Kind,
    dims: u8,
    next: u32,
    left: &mut u64,
) -> Result<Next, NoMemory>
    requires row { IsReady (create_row (form.MultiNewArray kind dims)) (M.program memory.old)
        M.program M.world memory.old stack.old }
    requires place { IsNext (M.program memory.old) stack.old next }
    ensures made { Makes (create_row (form.MultiNewArray kind dims)) M.program M.world M.follows
        memory.old memory.new stack.old left.old result stack.new left.new }
{
    if *left == 0 {
        return Ok(Next::Over);
    }
    let mut lengths = [0; DIMENSION_LIMIT];
    match take_lengths(stack, dims, DIMENSION_LIMIT, false, &mut lengths) {
        Some(start) => put_nested(stack, memory, kind, &lengths[start..], next, left),
        None => Ok(Next::Fault {
            class: NEGATIVE_ARRAY_SIZE_EXCEPTION,
        }),
    }
}

// Takes so many lengths, the innermost one first, into the list before those that were taken, which begin at `start`. The
// answer is where they begin then, outer first; None where one is negative.
fn take_lengths(
    stack: &mut FrameStack,
    dims: u8,
    start: usize,
    negative: bool,
    lengths: &mut [u32; DIMENSION_LIMIT],
) -> Option<usize>
    requires operands { HasInts dims stack.old.top.stack }
    requires enough { dims ≤ start }
    requires within { start ≤ length lengths.old }
    ensures same { (p : Numbered) (k : Sort) (s : Entries) →
        create.sized p k s dims stack.old.top.stack negative (drop start lengths.old)
        ≡ taken p k s stack.new.top.stack lengths.new result }
    ensures within { IfSome result (λ i. i ≤ length lengths.new) }
    ensures kept { stack.new ≡ with_stack stack.old stack.new.top.stack }
    ensures room { HasRoom 1 stack.old → HasRoom 1 stack.new }
    ensures made { 0 < dims → HasRoom 1 stack.new }
{
    if dims == 0 {
        if negative {
            return None;
        }
        return Some(start);
    }
    match count_of(stack.pop_int()) {
        Some(n) => {
            lengths[start - 1] = n;
            take_lengths(stack, dims - 1, start - 1, negative, lengths)
        }
        None => take_lengths(stack, dims - 1, start, true, lengths),
    }
}

// Puts a new array of arrays of these lengths on top, outer first.
#[tactic(auto, using(jvm_model::proofs::Binds::counted_bind, jvm_model::proofs::Binds::touched_bind, jvm_model::proofs::Binds::safe_begins))]
fn put_nested<M: Memory>(
    stack: &mut FrameStack,
    memory: &mut M,
    kind: Kind,
    lengths: &[u32],
    next: u32,
    left: &mut u64,
) -> Result<Next, NoMemory>
    requires row { IsReady (nested_row kind lengths.now) (M.program memory.old) M.program M.world
        memory.old stack.old }
    requires room { HasRoom 1 stack.old }
    requires place { IsNext (M.program memory.old) stack.old next }
    ensures made { Makes (nested_row kind lengths.now) M.program M.world M.follows memory.old
        memory.new stack.old left.old result stack.new left.new }
{
    let Some((length, inner)) = lengths.split_first() else {
        unreachable!()
    };
    let cost = nest_cost(*length, inner);
    if *left <= cost {
        return Ok(Next::Over);
    }
    let object = nest(memory, kind, *length, inner)?;
    stack.push_value(Value::Obj(object));
    stack.set_pc(next);
    *left = *left - 1 - cost;
    Ok(Next::Go)
}

// What arrays of arrays of these lengths cost, outer first: 1 and the length for each array, at most 2^64 - 2.
#[tactic(auto, using(crate::proofs::Costs::one_more), unfolding(jvm_model::specs::RowsCreate::nest_cost))]
fn nest_cost(length: u32, inner: &[u32]) -> u64
    ensures { result ≡ create.nest_cost length inner.now }
{
    let own = 1 + u64::from(length);
    let Some((next, rest)) = inner.split_first() else {
        return own;
    };
    let below = u64::from(length).saturating_mul(nest_cost(*next, rest));
    below.saturating_add(own).min(u64::MAX - 1)
}

// Makes an array of arrays of these lengths, outer first, and answers the outer one.
#[cycle(nest)]
#[tactic(auto, unfolding(jvm_model::specs::RowsCreate::nest))]
fn nest<M: Memory>(memory: &mut M, kind: Kind, length: u32, inner: &[u32]) -> Result<u64, NoMemory>
    requires safe { IsSafe Any (create.nest (M.program memory.old) kind length inner.now)
        (M.world memory.old) }
    ensures meets { IfOk result (λ o. (left : ℕ) → counted
        (create.nest (M.program memory.old) kind length inner.now) (M.world memory.old) left
        ≡ ended o (M.world memory.new) left) }
    ensures told { OnOk result ((h : Trace) (ts : List Touch) → M.follows memory.old h ts
        → M.follows memory.new h (touched (create.nest (M.program memory.old) kind length inner.now)
        (M.world memory.old) ts)) }
    ensures of { M.program memory.new ≡ M.program memory.old }
{
    let object = memory.make(Head { kind, length })?;
    if let Some((next, rest)) = inner.split_first() {
        fill(memory, object, length, kind.element(), *next, rest)?;
    }
    Ok(object)
}

// Gives each element of an array of so many an array of arrays of these lengths.
#[cycle(nest)]
fn fill<M: Memory>(
    memory: &mut M,
    object: u64,
    count: u32,
    kind: Kind,
    length: u32,
    inner: &[u32],
) -> Result<(), NoMemory>
    requires safe { IsSafe Any (create.children count 0 object
        (create.nest (M.program memory.old) kind length inner.now)) (M.world memory.old) }
    ensures meets { OnOk result ((left : ℕ) → counted (create.children count 0 object
        (create.nest (M.program memory.old) kind length inner.now)) (M.world memory.old) left
        ≡ ended object (M.world memory.new) left) }
    ensures told { OnOk result ((h : Trace) (ts : List Touch) → M.follows memory.old h ts
        → M.follows memory.new h (touched (create.children count 0 object
        (create.nest (M.program memory.old) kind length inner.now)) (M.world memory.old) ts)) }
    ensures of { M.program memory.new ≡ M.program memory.old }
{
    for i in 0..count {
        let child = nest(memory, kind, length, inner)?;
        memory.put_elem(object, i, Value::Obj(child))?;
    }
    Ok(())
}
