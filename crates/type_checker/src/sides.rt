//! What each instruction needs and leaves.

ghost use Rattle.std.specs.Prelude.{◌≡◌, IfOk, OnOk, []};
ghost use Rattle.type_frames.specs.StackEffect.{plain, sides};

use crate::build::{is_half, nothing, push_int, push_needs, push_two};
use crate::context::Context;
use crate::frame_type::FrameType;
use crate::moves::Taken::{Pair, Single};
use crate::{members, moves};
use et_base::NoMemory;
use jvm_model::{Instr, Program};
use std::alloc::Global;
use type_frames::OperandConstraint::Fits;
use type_frames::{OperandConstraint, StackEffect, VType};

/// The sides of an instruction at a place, with the frame before it.
pub(crate) fn sides(
    alloc: Global,
    program: &Program,
    context: &Context,
    pc: u32,
    frame: &FrameType,
    form: &Instr,
) -> Result<StackEffect, NoMemory>
    ensures { IfOk result (λ s. s ≡ sides program.now context.now pc frame.now form.now) }
{
    let mut effect = nothing(alloc);
    add_sides(alloc, &mut effect, program, context, pc, frame, form)?;
    Ok(effect)
}

#[tactic(auto, unfolding(type_frames::specs::StackEffect::sides))]
fn add_sides(
    alloc: Global,
    effect: &mut StackEffect,
    program: &Program,
    context: &Context,
    pc: u32,
    frame: &FrameType,
    form: &Instr,
) -> Result<(), NoMemory>
    requires { effect.old ≡ plain [] [] }
    ensures { OnOk result (effect.new ≡ sides program.now context.now pc frame.now form.now) }
{
    match form {
        Instr::Nop => Ok(()),
        Instr::Const(v) => moves::push_constant(alloc, &mut effect.gives, program, v),
        Instr::Load { of, local } => moves::load(alloc, effect, frame, of, *local),
        Instr::Store { of, local } => moves::store(alloc, effect, frame, of, *local),
        Instr::ArrayLoad { of } => members::array_load(alloc, effect, program, frame, of),
        Instr::ArrayStore { of } => members::array_store(alloc, effect, program, of),
        Instr::Pop => effect.takes.push(OperandConstraint::One),
        Instr::Pop2 => push_two(&mut effect.takes, is_half(frame, 0)),
        Instr::Dup => moves::shuffle(alloc, effect, frame, &[Single], &[0, 0]),
        Instr::DupX1 => moves::shuffle(alloc, effect, frame, &[Single, Single], &[0, 1, 0]),
        Instr::DupX2 => moves::shuffle(alloc, effect, frame, &[Single, Pair(1)], &[0, 1, 2, 0]),
        Instr::Dup2 => moves::shuffle(alloc, effect, frame, &[Pair(0)], &[0, 1, 0, 1]),
        Instr::Dup2X1 => moves::shuffle(alloc, effect, frame, &[Pair(0), Single], &[0, 1, 2, 0, 1]),
        Instr::Dup2X2 => moves::shuffle(
            alloc,
            effect,
            frame,
            &[Pair(0), Pair(2)],
            &[0, 1, 2, 3, 0, 1],
        ),
        Instr::Swap => moves::shuffle(alloc, effect, frame, &[Single, Single], &[1, 0]),
        Instr::Binary { op, wide } => moves::binary(effect, op, *wide),
        Instr::Neg { wide } => moves::number(effect, *wide, *wide),
        Instr::Inc { local, by: _ } => moves::read(&mut effect.reads, *local, Fits(VType::Int)),
        Instr::Convert { to } => moves::conversion(effect, to),
        Instr::Compare => moves::comparison(effect),
        Instr::IfZero { test: _, to: _ } => push_int(&mut effect.takes),
        Instr::IfInts { test: _, to: _ } => members::push_ints(&mut effect.takes, 2),
        Instr::IfRefs { same: _, to: _ } => members::references(effect, frame),
        Instr::IfNull { null: _, to: _ } => members::reference(effect, frame),
        Instr::Goto { to: _ } => {
            effect.falls = false;
            Ok(())
        }
        Instr::Table {
            low: _,
            targets: _,
            other: _,
        } => members::jump(effect),
        Instr::Lookup { pairs: _, other: _ } => members::jump(effect),
        Instr::Return { of } => members::give_back(alloc, effect, context, frame, of),
        Instr::GetStatic { field } => members::get_static(alloc, effect, program, *field),
        Instr::PutStatic { field } => push_needs(
            alloc,
            &mut effect.takes,
            program.field_descriptor(*field),
        ),
        Instr::GetField { named, field } => members::get_field(
            alloc, effect, program, *named, *field,
        ),
        Instr::PutField { named, field } => members::put_field(
            alloc, effect, program, context, frame, *named, *field,
        ),
        Instr::InvokeVirtual { named, method } => members::call_virtual(
            alloc, effect, program, named, *method,
        ),
        Instr::InvokeSpecial { named, method } => members::call_special(
            alloc, effect, program, context, frame, named, *method,
        ),
        Instr::InvokeStatic { method } => members::call(alloc, effect, program, *method),
        Instr::InvokeInterface { named, method } => members::call_interface(
            alloc, effect, program, *named, *method,
        ),
        Instr::New { class: _ } => members::create(effect, frame, pc),
        Instr::NewArray { kind } => members::new_array(alloc, effect, program, kind),
        Instr::MultiNewArray { kind, dims } => members::new_arrays(
            alloc, effect, program, kind, *dims,
        ),
        Instr::ArrayLength => members::array_length(effect),
        Instr::Throw => members::throw(alloc, effect, program),
        Instr::CheckCast { kind } => members::cast(alloc, effect, program, kind),
        Instr::InstanceOf { kind: _ } => members::instance_of(alloc, effect, program),
        Instr::Monitor => members::reference(effect, frame),
    }
}
