//! What the rules look at of a method, found at once.

ghost use Rattle.std.specs.Prelude.{◌≡◌, ◌++◌, IfOk, OnOk, MatchOption, Some, None, map, flat_map};
ghost use Rattle.type_frames.specs.Environment.{class_made, environment_of, given_at, is_target, leads, made_at, targets, Environment};
ghost use Rattle.jvm_model.specs.Descriptors.{return_type};
ghost use Rattle.type_frames.specs.{Descriptors.types_of, Frames.spread, Given.entry_types};
ghost use Rattle.type_frames.specs.Given as maps;

use et_base::{Items, NoMemory};
use jvm_model::{Body, Instr, MethodRec, Placed, Program, return_type};
use std::alloc::Global;
use std::marker::Model;
use type_frames::{
    Frame, Places, VType, code_places, entry_types, is_constructor, push_types, spread,
};

/// A method with its given frames, and where its instructions, frames and targets are. Contracts see it as its
/// environment.
#[derive(Drop)]
pub(crate) struct Context<'a> {
    pub class: u32,
    pub starts: bool,
    pub args: Items<VType>,
    pub result: Items<VType>,
    pub body: &'a Body,
    pub given: &'a [Frame],
    marks: Marks,
}

// Where a method's instructions, given frames and targets are.
#[derive(Drop)]
struct Marks {
    code: Places,
    frames: Places,
    targets: Places,
}

impl<'a> Model for Context<'a> {
    ghost use Rattle.std.specs.Prelude.{◌≡◌, map};
    ghost use Rattle.type_frames.specs.Environment as environments;
    ghost use Rattle.type_frames.specs.Given as maps;

    ghost Value = { environments.Environment };

    ghost view = { λ e. record { class = e.class; starts = e.starts; args = e.args; result = e.result; body = e.body.now; given = e.given.now } };

    ghost invariant = { λ e. (e.marks.code ≡ maps.places e.body.now.code) × (e.marks.frames ≡ map (λ g. g.pc) e.given.now) × (e.marks.targets ≡ environments.targets e.body.now) };
}

// The places of given frames.
fn frame_places(alloc: Global, frames: &[Frame]) -> Result<Vec<u32>, NoMemory>
    ensures { IfOk result (λ v. v.items ≡ map (λ g. g.pc) frames.now) }
{
    let mut places = Vec::new(alloc);
    for g in frames {
        places.push(g.pc)?;
    }
    Ok(places)
}

// Appends the places that an instruction may go to besides the next one.
fn push_leads(places: &mut Vec<u32>, form: &Instr) -> Result<(), NoMemory>
    ensures { OnOk result (places.new.items ≡ places.old.items ++ leads form.now) }
{
    match form {
        Instr::IfZero { test: _, to }
        | Instr::IfInts { test: _, to }
        | Instr::IfRefs { same: _, to }
        | Instr::IfNull { null: _, to }
        | Instr::Goto { to } => places.push(*to)?,
        Instr::Table {
            low: _,
            targets,
            other,
        } => {
            places.push(*other)?;
            places.extend_from_slice(targets.as_slice())?;
        }
        Instr::Lookup { pairs, other } => {
            places.push(*other)?;
            push_seconds(places, pairs.as_slice())?;
        }
        _ => {}
    }
    Ok(())
}

fn push_seconds(places: &mut Vec<u32>, pairs: &[(i32, u32)]) -> Result<(), NoMemory>
    ensures { OnOk result (places.new.items ≡ places.old.items ++ map (λ x. x.1) pairs.now) }
{
    for pair in pairs {
        places.push(pair.1)?;
    }
    Ok(())
}

// The places that a branch or a handler leads to.
fn body_targets(alloc: Global, body: &Body) -> Result<Vec<u32>, NoMemory>
    ensures { IfOk result (λ v. v.items ≡ targets body.now) }
{
    let mut places = branch_targets(alloc, body.code.as_slice())?;
    for h in body.handlers.as_slice() {
        places.push(h.at)?;
    }
    Ok(places)
}

fn branch_targets(alloc: Global, code: &[Placed]) -> Result<Vec<u32>, NoMemory>
    ensures { IfOk result (λ v. v.items ≡ flat_map (λ x. leads x.form) code.now) }
{
    let mut places = Vec::new(alloc);
    for x in code {
        push_leads(&mut places, &x.form)?;
    }
    Ok(places)
}

fn marks_of(alloc: Global, body: &Body, given: &[Frame]) -> Result<Marks, NoMemory>
    ensures code { IfOk result (λ m. m.code ≡ maps.places body.now.code) }
    ensures frames { IfOk result (λ m. m.frames ≡ map (λ g. g.pc) given.now) }
    ensures targets { IfOk result (λ m. m.targets ≡ targets body.now) }
{
    let bound = body.length as usize;
    let code = Places::new(alloc, bound, code_places(alloc, body.code.as_slice())?)?;
    let frames = Places::new(alloc, bound, frame_places(alloc, given)?)?;
    Ok(Marks {
        code,
        frames,
        targets: Places::new(alloc, bound, body_targets(alloc, body)?)?,
    })
}

// The places of the locals that a method begins with.
fn argument_types(
    alloc: Global,
    program: &Program,
    method: &MethodRec,
) -> Result<Items<VType>, NoMemory>
    ensures { IfOk result (λ ts. ts ≡ spread (entry_types program.now method.now)) }
{
    spread(alloc, entry_types(alloc, program, method)?.as_slice())
}

// The type that a method returns, none for void.
fn result_types(alloc: Global, method: &MethodRec) -> Result<Items<VType>, NoMemory>
    ensures { IfOk result (λ ts. ts ≡ types_of (return_type method.now.descriptor)) }
{
    let mut types = Items::new(alloc);
    push_types(alloc, &mut types, return_type(method.descriptor.as_slice()))?;
    Ok(types)
}

/// The context of a method with this code and these given frames.
pub(crate) fn context_of<'a>(
    alloc: Global,
    program: &Program,
    method: &MethodRec,
    body: &'a Body,
    given: &'a [Frame],
) -> Result<Context<'a>, NoMemory>
    ensures { IfOk result (λ e. e ≡ environment_of program.now method.now body.now given.now) }
{
    let marks = marks_of(alloc, body, given)?;
    let args = argument_types(alloc, program, method)?;
    Ok(Context {
        class: method.class,
        starts: is_constructor(method),
        args,
        result: result_types(alloc, method)?,
        body,
        given,
        marks,
    })
}

/// The frame that is given at a place.
#[tactic(auto, unfolding(type_frames::specs::Environment::given_at))]
pub(crate) fn given_at<'a>(context: &'a Context, pc: u32) -> Option<&'a Frame>
    ensures { MatchOption result (given_at context.now pc ≡ None)
        (λ g. given_at context.now pc ≡ Some g.now) }
{
    match context.marks.frames.find(u64::from(pc)) {
        None => None,
        Some(index) => context.given.get(index),
    }
}

/// The class that the `new` at a place names, if there is one.
#[tactic(auto, unfolding(type_frames::specs::Environment::made_at))]
pub(crate) fn made_at(context: &Context, pc: u32) -> Option<u32>
    ensures { result ≡ made_at context.now pc }
{
    match context.marks.code.find(u64::from(pc)) {
        None => None,
        Some(index) => match context.body.code.as_slice().get(index) {
            None => None,
            Some(x) => class_made(x),
        },
    }
}

fn class_made(placed: &Placed) -> Option<u32>
    ensures { result ≡ class_made (Some placed.now) }
{
    match placed.form {
        Instr::New { class } => Some(class),
        _ => None,
    }
}

/// Whether a branch or a handler leads to a place.
#[tactic(auto, unfolding(type_frames::specs::Environment::is_target))]
pub(crate) fn is_target(context: &Context, pc: u32) -> bool
    ensures { result ≡ is_target context.now pc }
{
    context.marks.targets.find(u64::from(pc)).is_some()
}
