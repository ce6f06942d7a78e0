//! The rules of the check, each by itself (JVMS 4.10.1).

ghost use Rattle.std.specs.Prelude.{◌≡◌, List, [], ◌∷◌, ◌++◌, drop, length, map, reverse, slice_get, slice_set, slice_index_or, IfOk, OnOk, not, ◌&&◌, ◌||◌, Some, None, Option, ◌+◌, ◌<◌, nat_lt};
ghost use Rattle.type_frames.specs.{Descriptors.name_of, Frames.slots_of, Environment.leads};
ghost use Rattle.jvm_model.specs.declared.program.Placed.{Placed};
ghost use Rattle.type_frames.specs.declared.vtype.VType.TheVariants as types;
ghost use Rattle.type_frames.specs.Rules as rules;

use crate::after::opening;
use crate::build::is_raw;
use crate::context::{Context, given_at, made_at};
use crate::frame_type::FrameType;
use et_base::NoMemory;
use et_base::letters::{ARRAY, BOOLEAN, BYTE};
use jvm_model::{Handler, Instr, Placed, Program, THROWABLE};
use std::alloc::Global;
use type_frames::{
    Frame, LocalUpdate, OperandConstraint, Reading, StackEffect, VType, assignable,
    object_assignable, same,
};

fn is_ref(vtype: &VType) -> bool
    ensures { result ≡ rules.is_ref vtype.now }
{
    match vtype {
        VType::Null | VType::Object(_) => true,
        _ => is_raw(vtype),
    }
}

fn is_one(vtype: &VType) -> bool
    ensures { result ≡ rules.is_one vtype.now }
{
    match vtype {
        VType::Int => true,
        _ => is_ref(vtype),
    }
}

fn is_small_name(name: &[u16]) -> bool
    ensures { result ≡ rules.is_small (types.Object name.now) }
{
    match name {
        [u, w] => *u == ARRAY && (*w == BYTE || *w == BOOLEAN),
        _ => false,
    }
}

fn is_small(vtype: &VType) -> bool
    ensures { result ≡ rules.is_small vtype.now }
{
    match vtype {
        VType::Null => true,
        VType::Object(name) => is_small_name(name.as_slice()),
        _ => false,
    }
}

fn is_array(vtype: &VType) -> bool
    ensures { result ≡ rules.is_any_array vtype.now }
{
    match vtype {
        VType::Null => true,
        VType::Object(name) => match name.as_slice().first() {
            None => false,
            Some(u) => *u == ARRAY,
        },
        _ => false,
    }
}

fn meets(program: &Program, need: &OperandConstraint, vtype: &VType) -> bool
    ensures { result ≡ rules.meets program.now need.now vtype.now }
{
    match need {
        OperandConstraint::Fits(u) => assignable(program, vtype, u),
        OperandConstraint::One => is_one(vtype),
        OperandConstraint::Half => same(vtype, &VType::Top),
        OperandConstraint::Ref => is_ref(vtype),
        OperandConstraint::Raw => is_raw(vtype),
        OperandConstraint::Small => is_small(vtype),
        OperandConstraint::Array => is_array(vtype),
        OperandConstraint::Never => false,
    }
}

fn meet_all(program: &Program, needs: &[OperandConstraint], stack: &[VType]) -> bool
    ensures { result ≡ rules.meet_all program.now needs.now (reverse stack.now) }
{
    match needs.split_first() {
        None => true,
        Some((n, ns)) => match stack.split_last() {
            None => true,
            Some((t, ts)) => meets(program, n, t) && meet_all(program, ns, ts),
        },
    }
}

fn is_read(program: &Program, most: u16, locals: &[VType], reading: &Reading) -> bool
    ensures { result ≡ rules.is_read program.now most locals.now reading.now }
{
    if reading.local >= u32::from(most) {
        return false;
    }
    match locals.get(reading.local as usize) {
        None => meets(program, &reading.need, &VType::Top),
        Some(t) => meets(program, &reading.need, t),
    }
}

fn all_read(program: &Program, most: u16, locals: &[VType], reads: &[Reading]) -> bool
    ensures { result ≡ rules.all_read program.now most locals.now reads.now }
{
    match reads.split_first() {
        None => true,
        Some((r, rest)) => is_read(program, most, locals, r)
            && all_read(program, most, locals, rest),
    }
}

fn can_set(most: u16, sets: &[LocalUpdate]) -> bool
    ensures { result ≡ rules.can_set most sets.now }
{
    match sets.split_first() {
        None => true,
        Some((s, rest)) => s.local < u32::from(most) && can_set(most, rest),
    }
}

// Types that are assignable one by one.
#[tactic(auto, using(crate::proofs::Fitting::fit_all_lengths))]
fn fit_all(program: &Program, xs: &[VType], ys: &[VType]) -> bool
    ensures { result ≡ rules.fit_all program.now xs.now ys.now }
{
    if xs.len() != ys.len() {
        return false;
    }
    for i in 0..xs.len() {
        if !assignable(program, &xs[i], &ys[i]) {
            return false;
        }
    }
    true
}

#[tactic(auto, using(crate::proofs::Fitting::fit_all_reverse))]
fn fit_stack(program: &Program, xs: &[VType], ys: &[VType]) -> bool
    ensures { result ≡ rules.fit_all program.now (reverse xs.now) (reverse ys.now) }
{
    fit_all(program, xs, ys)
}

// An object alone on the stack.
#[tactic(auto, using(crate::proofs::Fitting::fit_alone))]
fn fits_alone(program: &Program, name: &[u16], stack: &[VType]) -> bool
    ensures { result ≡ rules.fit_all program.now (types.Object name.now ∷ []) (reverse stack.now) }
{
    match stack {
        [t] => object_assignable(program, name, t),
        _ => false,
    }
}

fn is_made(context: &Context, vtype: &VType) -> bool
    ensures { result ≡ rules.is_made context.now vtype.now }
{
    match vtype {
        VType::Uninit { pc } => made_at(context, *pc).is_some(),
        _ => true,
    }
}

fn all_made(context: &Context, types: &[VType]) -> bool
    ensures { result ≡ rules.all_made context.now types.now }
{
    types.iter().all(|t| is_made(context, t))
}

fn is_sound(context: &Context, given: &Frame) -> bool
    ensures { result ≡ rules.is_sound context.now given.now }
{
    let locals = given.locals.as_slice();
    let stack = given.stack.as_slice();
    locals.len() <= context.body.max_locals as usize
        && (stack.len() <= context.body.max_stack as usize
            && (all_made(context, locals) && all_made(context, stack)))
}

fn slots_fit(program: &Program, frame: &FrameType, given: &Frame) -> bool
    ensures { result ≡ rules.slots_fit program.now frame.now (slots_of given.now) }
{
    fit_all(program, &frame.locals, given.locals.as_slice())
        && (fit_stack(program, &frame.stack, given.stack.as_slice()) && (!frame.flag || given.flag))
}

/// Whether what is given at a place, if something is, takes a frame.
pub(crate) fn fits_at(program: &Program, context: &Context, frame: &FrameType, pc: u32) -> bool
    ensures { result ≡ rules.fits_at program.now context.now frame.now pc }
{
    match given_at(context, pc) {
        None => true,
        Some(g) => is_sound(context, g) && slots_fit(program, frame, g),
    }
}

fn fits_targets(program: &Program, context: &Context, frame: &FrameType, targets: &[u32]) -> bool
    ensures { result ≡ rules.fits_targets program.now context.now frame.now targets.now }
{
    targets.iter().all(|k| fits_at(program, context, frame, *k))
}

fn fits_pairs(program: &Program, context: &Context, frame: &FrameType, pairs: &[(i32, u32)]) -> bool
    ensures { result ≡
        rules.fits_targets program.now context.now frame.now (map (λ x. x.1) pairs.now) }
{
    pairs
        .iter()
        .map(|x| x.1)
        .all(|k| fits_at(program, context, frame, k))
}

fn fits_leads(program: &Program, context: &Context, frame: &FrameType, form: &Instr) -> bool
    ensures { result ≡ rules.fits_targets program.now context.now frame.now (leads form.now) }
{
    match form {
        Instr::IfZero { test: _, to }
        | Instr::IfInts { test: _, to }
        | Instr::IfRefs { same: _, to }
        | Instr::IfNull { null: _, to }
        | Instr::Goto { to } => fits_at(program, context, frame, *to),
        Instr::Table {
            low: _,
            targets,
            other,
        } => {
            fits_at(program, context, frame, *other)
                && fits_targets(program, context, frame, targets.as_slice())
        }
        Instr::Lookup { pairs, other } => fits_at(program, context, frame, *other)
            && fits_pairs(program, context, frame, pairs.as_slice()),
        _ => true,
    }
}

// Whether a handler's frame takes the locals, with what is caught alone on the stack.
fn takes_caught(program: &Program, frame: &FrameType, handler: &Handler, given: &Frame) -> bool
    ensures { result ≡ rules.slots_fit program.now
        (rules.thrown program.now frame.now handler.now) (slots_of given.now) }
{
    fit_all(program, &frame.locals, given.locals.as_slice())
        && (fits_alone(
            program,
            caught_name(program, handler),
            given.stack.as_slice(),
        ) && (!frame.flag || given.flag))
}

fn caught_name<'a>(program: &'a Program, handler: &Handler) -> &'a [u16]
    ensures { result.now ≡ name_of program.now (rules.caught handler.now) }
{
    match handler.catches {
        None => program.class_name(THROWABLE),
        Some(class) => program.class_name(class),
    }
}

fn handles(
    program: &Program,
    context: &Context,
    pc: u32,
    frame: &FrameType,
    handler: &Handler,
) -> bool
    ensures { result ≡ rules.handles program.now context.now pc frame.now handler.now }
{
    if !(handler.from <= pc && pc < handler.to) {
        return true;
    }
    if context.body.max_stack == 0 || (context.starts && frame.flag) {
        return false;
    }
    match given_at(context, handler.at) {
        None => true,
        Some(g) => is_sound(context, g) && takes_caught(program, frame, handler, g),
    }
}

/// Whether handlers take what may be thrown.
pub(crate) fn is_handled(
    program: &Program,
    context: &Context,
    placed: &Placed,
    frame: &FrameType,
) -> bool
    ensures { result ≡ rules.rule_9 program.now context.now placed.now frame.now }
{
    context
        .body
        .handlers
        .as_slice()
        .iter()
        .all(|h| handles(program, context, placed.pc, frame, h))
}

/// Whether the stack has enough places, and doesn't grow past its end.
#[tactic(auto, using(crate::proofs::Stacks::length_reverse))]
pub(crate) fn has_room(context: &Context, frame: &FrameType, effect: &StackEffect) -> bool
    ensures { result ≡ rules.rule_1 context.now frame.now effect.now }
{
    let depth = frame.stack.len();
    let taken = effect.takes.len();
    if taken > depth {
        return false;
    }
    let room = context.body.max_stack as usize;
    let given = effect.gives.len();
    given <= room && depth - taken <= room - given
}

/// Whether the operands are of the types needed.
pub(crate) fn takes_operands(program: &Program, frame: &FrameType, effect: &StackEffect) -> bool
    ensures { result ≡ rules.rule_2 program.now frame.now effect.now }
{
    meet_all(program, effect.takes.as_slice(), &frame.stack)
}

/// Whether the locals are there, and of the types needed.
pub(crate) fn takes_locals(
    program: &Program,
    context: &Context,
    frame: &FrameType,
    effect: &StackEffect,
) -> bool
    ensures { result ≡ rules.rule_3 program.now context.now frame.now effect.now }
{
    let most = context.body.max_locals;
    all_read(program, most, &frame.locals, effect.reads.as_slice())
        && can_set(most, effect.sets.as_slice())
}

fn fits_next(program: &Program, context: &Context, after: &FrameType, index: usize) -> bool
    requires { index < length context.now.body.code }
    ensures { result ≡ rules.fits_next program.now context.now after.now
        (slice_get context.now.body.code (index + 1)) }
{
    match context.body.code.as_slice().get(index + 1) {
        None => true,
        Some(x) => fits_at(program, context, after, x.pc),
    }
}

/// The part of `Rule::Targets` on what comes after: what stands then is assignable to what is given where control goes.
pub(crate) fn leads_on(
    program: &Program,
    context: &Context,
    index: usize,
    placed: &Placed,
    after: &FrameType,
    falls: bool,
) -> bool
    requires { index < length context.now.body.code }
    ensures { result ≡
        (rules.fits_targets program.now context.now after.now (leads placed.now.form) &&
        (not falls || rules.fits_next program.now context.now after.now
        (slice_get context.now.body.code (index + 1)))) }
{
    fits_leads(program, context, after, &placed.form)
        && (!falls || fits_next(program, context, after, index))
}

/// The part of `Rule::Targets` on the first instruction: what is given there takes the descriptor's frame.
pub(crate) fn is_entered(
    alloc: Global,
    program: &Program,
    context: &Context,
    index: usize,
    pc: u32,
) -> Result<bool, NoMemory>
    ensures { IfOk result (λ b. b ≡ rules.is_entered program.now context.now index pc) }
{
    if index == 0 {
        let first = opening(alloc, context)?;
        return Ok(fits_at(program, context, &first, pc));
    }
    Ok(true)
}

/// Whether control doesn't pass the end of the code.
pub(crate) fn stays_within(context: &Context, index: usize, falls: bool) -> bool
    requires { index < length context.now.body.code }
    ensures { result ≡ (not falls || nat_lt (index + 1) (length context.now.body.code)) }
{
    let count = context.body.code.len();
    !falls || index + 1 < count
}

/// Whether the arguments are within the locals.
pub(crate) fn holds_arguments(context: &Context, index: usize) -> bool
    ensures { result ≡ rules.rule_10 context.now index }
{
    index > 0 || context.args.len() <= context.body.max_locals as usize
}
