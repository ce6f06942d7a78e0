//! The frame after an instruction.

ghost use Rattle.std.specs.Prelude.{◌≡◌, ◌++◌, drop, length, reverse, slice_index_or, slice_set, IfOk, OnOk, map, ◌<◌};
ghost use Rattle.type_frames.specs.Frames.{slots_of};
ghost use Rattle.type_frames.specs.declared.vtype.VType.TheVariants as types;
ghost use Rattle.type_frames.specs.Rules as rules;

use crate::context::Context;
use crate::frame_type::FrameType;
use et_base::{Items, NoMemory};
use std::alloc::Global;
use type_frames::{Frame, LocalUpdate, StackEffect, Substitution, VType, copy_type, padded, same};

fn turn_one(
    alloc: Global,
    xs: &mut Vec<VType>,
    index: usize,
    from: &VType,
    to: &VType,
) -> Result<(), NoMemory>
    requires { index < length xs.old.items }
    ensures { OnOk result (xs.new.items ≡
        slice_set xs.old.items index
        (rules.turned_one from.now to.now (slice_index_or xs.old.items index types.Top))) }
{
    if same(&xs[index], from) {
        xs[index] = copy_type(alloc, to)?;
    }
    Ok(())
}

fn turn_each(alloc: Global, xs: &mut Vec<VType>, from: &VType, to: &VType) -> Result<(), NoMemory>
    ensures { OnOk result (xs.new.items ≡ map (rules.turned_one from.now to.now) xs.old.items) }
{
    for i in 0..xs.len() {
        turn_one(alloc, xs, i, from, to)?;
    }
    Ok(())
}

fn turn_all(alloc: Global, xs: &mut Vec<VType>, turn: &Substitution) -> Result<(), NoMemory>
    ensures { OnOk result (xs.new.items ≡ rules.turned turn.now xs.old.items) }
{
    match turn {
        Substitution::Keep => Ok(()),
        Substitution::All { from, to } => turn_each(alloc, xs, from, to),
    }
}

fn cut_long(xs: &mut Vec<VType>, local: usize)
    ensures { xs.new.items ≡ rules.cut_long xs.old.items local }
{
    if local > 0 && local - 1 < xs.len() {
        if same(&xs[local - 1], &VType::Long) {
            xs[local - 1] = VType::Top;
        }
    }
}

fn set_one(alloc: Global, xs: &mut Vec<VType>, setting: &LocalUpdate) -> Result<(), NoMemory>
    ensures { OnOk result (xs.new.items ≡ rules.set_one xs.old.items setting.now) }
{
    let n = setting.local as usize;
    let to = copy_type(alloc, &setting.to)?;
    cut_long(xs, n);
    if n < xs.len() {
        xs[n] = to;
    }
    Ok(())
}

fn set_all(alloc: Global, xs: &mut Vec<VType>, sets: &[LocalUpdate]) -> Result<(), NoMemory>
    ensures { OnOk result (xs.new.items ≡ rules.set_all xs.old.items sets.now) }
{
    if let Some((s, rest)) = sets.split_first() {
        set_one(alloc, xs, s)?;
        set_all(alloc, xs, rest)?;
    }
    Ok(())
}

// Takes places off the stack.
#[tactic(auto, using(crate::proofs::Stacks::reverse_rest))]
fn take_off(stack: &mut Vec<VType>, count: usize)
    ensures { reverse stack.new.items ≡ drop count (reverse stack.old.items) }
{
    let depth = stack.len();
    stack.truncate(depth.saturating_sub(count));
}

// Puts types onto the stack, the first one on top.
fn push_all(alloc: Global, stack: &mut Vec<VType>, gives: &[VType]) -> Result<(), NoMemory>
    ensures { OnOk result (reverse stack.new.items ≡ gives.now ++ reverse stack.old.items) }
{
    if let Some((t, rest)) = gives.split_last() {
        stack.push(copy_type(alloc, t)?)?;
        push_all(alloc, stack, rest)?;
    }
    Ok(())
}

fn flag_after(turn: &Substitution, flag: bool) -> bool
    ensures { result ≡ rules.flag_after turn.now flag }
{
    match turn {
        Substitution::Keep => flag,
        Substitution::All { from, to: _ } => !same(from, &VType::UninitThis) && flag,
    }
}

#[tactic(auto, using(crate::proofs::Stacks::reverse_turned))]
fn turn_stack(alloc: Global, stack: &mut Vec<VType>, turn: &Substitution) -> Result<(), NoMemory>
    ensures { OnOk result (reverse stack.new.items ≡
        rules.turned turn.now (reverse stack.old.items)) }
{
    turn_all(alloc, stack, turn)
}

fn stack_after(alloc: Global, stack: &mut Vec<VType>, effect: &StackEffect) -> Result<(), NoMemory>
    ensures { OnOk result (reverse stack.new.items ≡
        effect.now.gives ++
        rules.turned effect.now.turn (drop (length effect.now.takes) (reverse stack.old.items))) }
{
    take_off(stack, effect.takes.len());
    turn_stack(alloc, stack, &effect.turn)?;
    push_all(alloc, stack, effect.gives.as_slice())
}

fn locals_after(
    alloc: Global,
    locals: &mut Vec<VType>,
    effect: &StackEffect,
) -> Result<(), NoMemory>
    ensures { OnOk result (locals.new.items ≡
        rules.set_all (rules.turned effect.now.turn locals.old.items) effect.now.sets) }
{
    turn_all(alloc, locals, &effect.turn)?;
    set_all(alloc, locals, effect.sets.as_slice())
}

/// The frame after an instruction with these sides.
pub(crate) fn after(
    alloc: Global,
    frame: FrameType,
    effect: &StackEffect,
) -> Result<FrameType, NoMemory>
    ensures { IfOk result (λ g. g ≡ rules.after frame effect.now) }
{
    let FrameType {
        mut locals,
        mut stack,
        flag,
    } = frame;
    locals_after(alloc, &mut locals, effect)?;
    stack_after(alloc, &mut stack, effect)?;
    Ok(FrameType {
        locals,
        stack,
        flag: flag_after(&effect.turn, flag),
    })
}

// The same types.
fn copy_types(alloc: Global, types: &[VType]) -> Result<Vec<VType>, NoMemory>
    ensures { IfOk result (λ v. v.items ≡ types.now) }
{
    let mut copies = Vec::new(alloc);
    for t in types {
        copies.push(copy_type(alloc, t)?)?;
    }
    Ok(copies)
}

/// The frame of the descriptor.
pub(crate) fn opening(alloc: Global, context: &Context) -> Result<FrameType, NoMemory>
    ensures { IfOk result (λ g. g ≡ rules.opening context.now) }
{
    let args = Items::from_vec(copy_types(alloc, context.args.as_slice())?);
    let locals = padded(args, context.body.max_locals)?.into_vec();
    Ok(FrameType {
        locals,
        stack: Vec::new(alloc),
        flag: context.starts,
    })
}

/// A given frame as one that goes on.
pub(crate) fn frame_type_of(alloc: Global, given: &Frame) -> Result<FrameType, NoMemory>
    ensures { IfOk result (λ f. f ≡ slots_of given.now) }
{
    Ok(FrameType {
        locals: copy_types(alloc, given.locals.as_slice())?,
        stack: copy_types(alloc, given.stack.as_slice())?,
        flag: given.flag,
    })
}
