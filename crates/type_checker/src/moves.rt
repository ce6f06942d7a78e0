//! The sides of moves of the stack, constants, arithmetic, loads and stores.

ghost use Rattle.std.specs.Prelude.{◌≡◌, ◌∷◌, ◌++◌, [], IfOk, OnOk, map, slice_index_or, ◌+◌};
ghost use Rattle.type_checker.specs.Steps.{with_taken};
ghost use Rattle.type_frames.specs.declared.vtype.VType.TheVariants as types;
ghost use Rattle.type_frames.specs.declared.stack_effect.OperandConstraint.TheVariants as wants;
ghost use Rattle.type_frames.specs.StackEffect.{const_type, convert_sides, inc_sides, int_type, load_sides, long_need, long_type, number_need, number_type, place_of, plain, reading, second_need, setting, store_sides};

use crate::build::{
    is_half, place_of, push_int, push_long, push_long_type, push_moved, push_number,
    push_number_type, push_two,
};
use crate::frame_type::FrameType;
use et_base::{Items, NoMemory};
use jvm_model::{Conv, Op, Program, STRING, Sort, Value};
use std::alloc::Global;
use type_frames::OperandConstraint::Fits;
use type_frames::{
    LocalUpdate, OperandConstraint, Reading, StackEffect, VType, copy_type, object_of,
};

/// What a move takes off the stack: one place, or two from this one on, which are a long or two values of one place each.
pub(crate) enum Taken {
    Single,
    Pair(usize),
}

fn push_taken(
    needs: &mut Items<OperandConstraint>,
    frame: &FrameType,
    taken: &[Taken],
) -> Result<(), NoMemory>
    ensures { OnOk result (needs.new ≡ with_taken frame.now needs.old taken.now) }
{
    let Some((first, rest)) = taken.split_first() else {
        return Ok(());
    };
    match first {
        Taken::Single => needs.push(OperandConstraint::One)?,
        Taken::Pair(place) => push_two(needs, is_half(frame, *place))?,
    }
    push_taken(needs, frame, rest)
}

/// A move of the stack: takes these places off, and gives the types of those of this order, top first.
pub(crate) fn shuffle(
    alloc: Global,
    effect: &mut StackEffect,
    frame: &FrameType,
    taken: &[Taken],
    order: &[usize],
) -> Result<(), NoMemory>
    requires { effect.old ≡ plain [] [] }
    ensures { OnOk result (effect.new ≡
        plain (with_taken frame.now [] taken.now) (map (λ n. place_of frame.now n) order.now)) }
{
    push_taken(&mut effect.takes, frame, taken)?;
    push_moved(alloc, &mut effect.gives, frame, order)
}

pub(crate) fn push_constant(
    alloc: Global,
    types: &mut Items<VType>,
    program: &Program,
    value: &Value,
) -> Result<(), NoMemory>
    ensures { OnOk result (types.new ≡ types.old ++ const_type program.now value.now) }
{
    match value {
        Value::Int(_) => types.push(VType::Int),
        Value::Long(_) => push_long_type(types),
        Value::Null => types.push(VType::Null),
        Value::Lit(_) => types.push(object_of(alloc, program, STRING)?),
        Value::Obj(_) => types.push(VType::Top),
    }
}

// Appends the needs of the second operand: an int for a shift of longs too.
fn push_second(needs: &mut Items<OperandConstraint>, op: &Op, wide: bool) -> Result<(), NoMemory>
    ensures { OnOk result (needs.new ≡ needs.old ++ second_need op.now wide) }
{
    match op {
        Op::Shl | Op::Shr | Op::Ushr => push_int(needs),
        Op::Add | Op::Sub | Op::Mul | Op::Div | Op::Rem | Op::And | Op::Or | Op::Xor => push_number(
            needs, wide,
        ),
    }
}

pub(crate) fn binary(effect: &mut StackEffect, op: &Op, wide: bool) -> Result<(), NoMemory>
    requires { effect.old ≡ plain [] [] }
    ensures { OnOk result (effect.new ≡
        plain (second_need op.now wide ++ number_need wide) (number_type wide)) }
{
    push_second(&mut effect.takes, op, wide)?;
    push_number(&mut effect.takes, wide)?;
    push_number_type(&mut effect.gives, wide)
}

/// From a whole number of one width to one of another.
pub(crate) fn number(effect: &mut StackEffect, from: bool, to: bool) -> Result<(), NoMemory>
    requires { effect.old ≡ plain [] [] }
    ensures { OnOk result (effect.new ≡ plain (number_need from) (number_type to)) }
{
    push_number(&mut effect.takes, from)?;
    push_number_type(&mut effect.gives, to)
}

pub(crate) fn conversion(effect: &mut StackEffect, to: &Conv) -> Result<(), NoMemory>
    requires { effect.old ≡ plain [] [] }
    ensures { OnOk result (effect.new ≡ convert_sides to.now) }
{
    match to {
        Conv::I2l => number(effect, false, true),
        Conv::L2i => number(effect, true, false),
        Conv::I2b | Conv::I2c | Conv::I2s => number(effect, false, false),
    }
}

pub(crate) fn comparison(effect: &mut StackEffect) -> Result<(), NoMemory>
    requires { effect.old ≡ plain [] [] }
    ensures { OnOk result (effect.new ≡ plain (long_need ++ long_need) int_type) }
{
    push_long(&mut effect.takes)?;
    push_long(&mut effect.takes)?;
    effect.gives.push(VType::Int)
}

fn local_of(alloc: Global, frame: &FrameType, local: u16) -> Result<VType, NoMemory>
    ensures { IfOk result (λ t. t ≡ slice_index_or frame.now.locals local types.Top) }
{
    match frame.locals.get(local as usize) {
        None => Ok(VType::Top),
        Some(t) => copy_type(alloc, t),
    }
}

/// Asks this of a local.
pub(crate) fn read(
    reads: &mut Items<Reading>,
    local: u16,
    need: OperandConstraint,
) -> Result<(), NoMemory>
    ensures { OnOk result (reads.new ≡ reads.old ++ reading local need ∷ []) }
{
    reads.push(Reading {
        local: u32::from(local),
        need,
    })
}

fn load_long(effect: &mut StackEffect, local: u16) -> Result<(), NoMemory>
    requires { effect.old ≡ plain [] [] }
    ensures { OnOk result (effect.new ≡
        record (plain [] long_type)
        { reads = reading local (wants.Fits types.Long) ∷ reading (local + 1) wants.Half ∷ [] }) }
{
    push_long_type(&mut effect.gives)?;
    read(&mut effect.reads, local, Fits(VType::Long))?;
    effect.reads.push(Reading {
        local: u32::from(local) + 1,
        need: OperandConstraint::Half,
    })
}

pub(crate) fn load(
    alloc: Global,
    effect: &mut StackEffect,
    frame: &FrameType,
    of: &Sort,
    local: u16,
) -> Result<(), NoMemory>
    requires { effect.old ≡ plain [] [] }
    ensures { OnOk result (effect.new ≡ load_sides frame.now of.now local) }
{
    match of {
        Sort::Int => {
            effect.gives.push(VType::Int)?;
            read(&mut effect.reads, local, Fits(VType::Int))
        }
        Sort::Long => load_long(effect, local),
        Sort::Ref => {
            effect.gives.push(local_of(alloc, frame, local)?)?;
            read(&mut effect.reads, local, OperandConstraint::Ref)
        }
    }
}

// Sets a local.
fn set(sets: &mut Items<LocalUpdate>, local: u16, to: VType) -> Result<(), NoMemory>
    ensures { OnOk result (sets.new ≡ sets.old ++ setting local to ∷ []) }
{
    sets.push(LocalUpdate {
        local: u32::from(local),
        to,
    })
}

fn store_long(effect: &mut StackEffect, local: u16) -> Result<(), NoMemory>
    requires { effect.old ≡ plain [] [] }
    ensures { OnOk result (effect.new ≡
        record (plain long_need [])
        { sets = setting (local + 1) types.Top ∷ setting local types.Long ∷ [] }) }
{
    push_long(&mut effect.takes)?;
    effect.sets.push(LocalUpdate {
        local: u32::from(local) + 1,
        to: VType::Top,
    })?;
    set(&mut effect.sets, local, VType::Long)
}

pub(crate) fn store(
    alloc: Global,
    effect: &mut StackEffect,
    frame: &FrameType,
    of: &Sort,
    local: u16,
) -> Result<(), NoMemory>
    requires { effect.old ≡ plain [] [] }
    ensures { OnOk result (effect.new ≡ store_sides frame.now of.now local) }
{
    match of {
        Sort::Int => {
            push_int(&mut effect.takes)?;
            set(&mut effect.sets, local, VType::Int)
        }
        Sort::Long => store_long(effect, local),
        Sort::Ref => {
            effect.takes.push(OperandConstraint::Ref)?;
            set(&mut effect.sets, local, place_of(alloc, frame, 0)?)
        }
    }
}
