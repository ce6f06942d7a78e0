//! One instruction judged, with the frame before it.

ghost use Rattle.std.specs.Prelude.{◌≡◌, ◌<◌, IfOk, Some, length, map, option_map, slice_get};
ghost use Rattle.jvm_model.specs.declared.program.Placed.{Placed};
ghost use Rattle.type_frames.specs.{Rules.first_broken, Rules.test, Typing.fault_of, Typing.taken_at};
ghost use Rattle.type_checker.specs.Steps.{breach, number_of, IsJudged, IsStep, IsTurned};

use crate::after::{after, frame_type_of};
use crate::context::{Context, given_at, is_target};
use crate::frame_type::FrameType;
use crate::rule::Rule;
use crate::rules::{
    has_room, holds_arguments, is_entered, is_handled, leads_on, stays_within, takes_locals,
    takes_operands,
};
use crate::sides::sides;
use et_base::{Items, NoMemory};
use jvm_model::{Placed, Program};
use std::alloc::Global;
use type_frames::{CheckFault, StackEffect};

/// How the walk over a method goes on after an instruction: this is the lowest rule that it breaks, none where there is no
/// frame before it, or this frame goes on, if control does.
#[derive(Drop)]
pub(crate) enum Turned {
    Broken { rule: Option<Rule> },
    On { next: Option<FrameType> },
}

/// How the walk goes on, a broken rule or a missing frame as a fault that names class, method and place.
#[derive(Drop)]
pub(crate) enum Step {
    Faulty { fault: CheckFault },
    Onward { next: Option<FrameType> },
}

// The first rule that isn't kept, of rules with whether each is.
fn first_broken(rules: &[(Rule, bool)]) -> Option<Rule>
    ensures { option_map number_of result ≡
        first_broken (map (λ x. test (number_of x.0) x.1) rules.now) }
{
    match rules.split_first() {
        None => None,
        Some(((rule, kept), rest)) => {
            if *kept {
                first_broken(rest)
            } else {
                Some(*rule)
            }
        }
    }
}

// The frame is used up.
#[tactic(auto, unfolding(type_frames::specs::Rules::broken))]
fn broken(
    alloc: Global,
    program: &Program,
    context: &Context,
    index: usize,
    placed: &Placed,
    frame: FrameType,
    effect: &StackEffect,
) -> Result<Turned, NoMemory>
    requires { index < length context.now.body.code }
    ensures { IfOk result (IsJudged program.now context.now index placed.now frame effect.now) }
{
    let has_room = has_room(context, &frame, effect);
    let takes_operands = takes_operands(program, &frame, effect);
    let takes_locals = takes_locals(program, context, &frame, effect);
    let is_handled = is_handled(program, context, placed, &frame);
    let is_entered = is_entered(alloc, program, context, index, placed.pc)?;
    let next = after(alloc, frame, effect)?;
    let fits_targets = is_entered && leads_on(program, context, index, placed, &next, effect.falls);
    let rules = [
        (Rule::StackRoom, has_room),
        (Rule::Operands, takes_operands),
        (Rule::Locals, takes_locals),
        (Rule::Targets, fits_targets),
        (Rule::End, stays_within(context, index, effect.falls)),
        (Rule::Return, effect.returns_well),
        (Rule::Initialised, effect.starts_well),
        (Rule::Handlers, is_handled),
        (Rule::Arguments, holds_arguments(context, index)),
        (Rule::Calls, effect.calls_well),
    ];
    match first_broken(&rules) {
        Some(rule) => Ok(Turned::Broken { rule: Some(rule) }),
        None if effect.falls => Ok(Turned::On { next: Some(next) }),
        None => Ok(Turned::On { next: None }),
    }
}

fn judge(
    alloc: Global,
    program: &Program,
    context: &Context,
    index: usize,
    placed: &Placed,
    frame: FrameType,
) -> Result<Turned, NoMemory>
    requires { index < length context.now.body.code }
    ensures { IfOk result (IsTurned program.now context.now index placed.now (Some frame)) }
{
    let effect = sides(alloc, program, context, placed.pc, &frame, &placed.form)?;
    broken(alloc, program, context, index, placed, frame, &effect)
}

// Takes the frame given at the place, or the one that came in.
fn turned_at(
    alloc: Global,
    program: &Program,
    context: &Context,
    index: usize,
    placed: &Placed,
    running: Option<FrameType>,
) -> Result<Turned, NoMemory>
    requires { index < length context.now.body.code }
    ensures { IfOk result (λ t.
        IsTurned program.now context.now index placed.now
        (taken_at context.now placed.now.pc running) t) }
{
    if let Some(given) = given_at(context, placed.pc) {
        let frame = frame_type_of(alloc, given)?;
        return judge(alloc, program, context, index, placed, frame);
    }
    if is_target(context, placed.pc) {
        return Ok(Turned::Broken { rule: None });
    }
    match running {
        None => Ok(Turned::Broken { rule: None }),
        Some(frame) => judge(alloc, program, context, index, placed, frame),
    }
}

/// What is wrong at a place: no frame, or the rule that is broken.
pub(crate) fn fault(
    alloc: Global,
    name: &[u16],
    method: u32,
    pc: u32,
    broken: Option<Rule>,
) -> Result<CheckFault, NoMemory>
    ensures { IfOk result (λ c. fault_of name.now method pc (Some (breach broken)) ≡ Some c) }
{
    let class = Items::from_slice(alloc, name)?;
    Ok(match broken {
        None => CheckFault::NoFrame { class, method, pc },
        Some(rule) => CheckFault::Rule {
            class,
            method,
            pc,
            rule: rule.number(),
        },
    })
}

fn named_step(
    alloc: Global,
    program: &Program,
    context: &Context,
    name: &[u16],
    method: u32,
    index: usize,
    placed: &Placed,
    running: Option<FrameType>,
) -> Result<Step, NoMemory>
    requires { index < length context.now.body.code }
    ensures { IfOk result (λ t.
        IsStep program.now context.now name.now method index placed.now
        (taken_at context.now placed.now.pc running) t) }
{
    match turned_at(alloc, program, context, index, placed, running)? {
        Turned::Broken { rule } => Ok(Step::Faulty {
            fault: fault(alloc, name, method, placed.pc, rule)?,
        }),
        Turned::On { next } => Ok(Step::Onward { next }),
    }
}

/// The step at the instruction of this index.
pub(crate) fn step_at(
    alloc: Global,
    program: &Program,
    context: &Context,
    name: &[u16],
    method: u32,
    index: usize,
    running: Option<FrameType>,
) -> Result<Step, NoMemory>
    requires { index < length context.now.body.code }
    ensures { IfOk result (λ t.
        (x : Placed) → slice_get context.now.body.code index ≡ Some x →
        IsStep program.now context.now name.now method index x
        (taken_at context.now x.pc running) t) }
{
    let placed = &context.body.code.as_slice()[index];
    named_step(
        alloc, program, context, name, method, index, placed, running,
    )
}
