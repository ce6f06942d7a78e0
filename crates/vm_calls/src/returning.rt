//! Returns (JVMS 6.5).

ghost use Rattle.std.specs.Prelude.{◌≡◌, ◌<◌, ◌∷◌, [], drop, get_or, length};
ghost use Rattle.jvm_model.specs.{declared.values.Value.TheVariants.Null, World.World, Entries.with_stack, Narrow.narrow};
ghost use Rattle.jvm_model.specs.declared.instr.Instr.TheVariants as form;
ghost use Rattle.vm_mem.specs.Refines.{IsReady, Makes, Refines};
ghost use Rattle.vm_calls.specs.Calls.{HasRoomBelow, hands_row, return_row};

use et_base::NoMemory;
use et_base::letters::INT;
use jvm_model::{EntryKind, Next, Sort};
use vm_frames::FrameStack;
use vm_mem::Memory;
use vm_tables::Tables;

/// Returns from the method at the top: its entry is popped, and a value, narrowed to the type that the method returns, goes to
/// the frame below, which goes on after its call. An initialisation entry below takes no value. It answers Leave where no
/// entry is left, counts 1 and touches nothing; Over, with the entries as before, where no unit is left.
#[inline(always)]
#[tactic(auto, using(crate::proofs::Returned::return_touches, crate::proofs::Returned::value_there, crate::proofs::Returned::value_handed, crate::proofs::Returned::none_handed))]
pub fn give_back<M: Memory>(
    stack: &mut FrameStack,
    memory: &mut M,
    tables: &Tables,
    of: Option<Sort>,
    left: &mut u64,
) -> Result<Next, NoMemory>
    requires row { IsReady (return_row (form.Return of))
        tables.now M.program M.world memory.old stack.old }
    requires room { HasRoomBelow stack.old }
    ensures made { Makes (return_row (form.Return of)) M.program M.world M.follows
        memory.old memory.new stack.old left.old result stack.new left.new }
{
    match of {
        None => Ok(hand_nothing(stack, tables, left)),
        Some(_) => {
            let unit = tables.return_unit(stack.number());
            Ok(hand_top(stack, tables, unit, left))
        }
    }
}

/// Pops the entry at the top, and the one below goes on.
#[inline(always)]
#[tactic(auto, unfolding(jvm_model::specs::RowsReturn::hands_on))]
fn hand_nothing(stack: &mut FrameStack, tables: &Tables, left: &mut u64) -> Next
    ensures { (w : World) → Refines (hands_row []) tables.now w stack.old left.old result stack.new w left.new }
{
    if *left == 0 {
        return Next::Over;
    }
    *left -= 1;
    stack.pop();
    match stack.kind() {
        EntryKind::Absent => Next::Leave,
        EntryKind::InMethod => {
            let next = tables.next_place(stack.number(), stack.pc());
            stack.set_pc(next);
            Next::Go
        }
        EntryKind::InClass { .. } => Next::Go,
    }
}

/// Pops the entry at the top, and its top operand, narrowed to a type by the first unit of its descriptor, goes to the one
/// below.
#[inline(always)]
#[tactic(auto, unfolding(jvm_model::specs::RowsReturn::hands_on))]
fn hand_top(stack: &mut FrameStack, tables: &Tables, unit: u16, left: &mut u64) -> Next
    requires operand { 0 < length stack.old.top.stack }
    requires room { HasRoomBelow stack.old }
    ensures { (w : World)
        → Refines (hands_row (narrow unit (get_or stack.old.top.stack 0 Null) ∷ []))
        tables.now w stack.old left.old result stack.new w left.new }
{
    if *left == 0 {
        return Next::Over;
    }
    *left -= 1;
    match stack.kind_below() {
        EntryKind::Absent => {
            stack.pop();
            Next::Leave
        }
        EntryKind::InMethod => {
            narrow_top(stack, unit);
            stack.pop_to_caller();
            let next = tables.next_place(stack.number(), stack.pc());
            stack.set_pc(next);
            Next::Go
        }
        EntryKind::InClass { .. } => {
            stack.pop();
            Next::Go
        }
    }
}

/// Narrows the top operand to a type by the first unit of its descriptor. Where that is an int the operand isn't looked at.
#[inline(always)]
#[tactic(auto, using(crate::proofs::Returned::int_kept))]
fn narrow_top(stack: &mut FrameStack, unit: u16)
    requires { 0 < length stack.old.top.stack }
    ensures { stack.new ≡ with_stack stack.old
        (narrow unit (get_or stack.old.top.stack 0 Null) ∷ drop 1 stack.old.top.stack) }
{
    if unit != INT {
        let v = stack.pop_value();
        stack.push_value(v.narrow(unit));
    }
}
