//! The first fault of a method's code.

ghost use Rattle.std.specs.Prelude.{◌≡◌, IfOk, length};
ghost use Rattle.type_frames.specs.Given as maps;
ghost use Rattle.type_frames.specs.Typing.{code_fault, method_fault};

use crate::after::opening;
use crate::context::{Context, context_of};
use crate::judge::{Step, fault, step_at};
use crate::rule::Rule;
use et_base::{Items, NoMemory};
use jvm_model::{MethodRec, Program};
use std::alloc::Global;
use type_frames::{CheckFault, Frame};

fn code_length(context: &Context) -> usize
    ensures { result ≡ length context.now.body.code }
{
    context.body.code.len()
}

// From the first instruction on, with the frame that goes on from each.
fn code_fault(
    alloc: Global,
    program: &Program,
    context: &Context,
    name: &[u16],
    method: u32,
) -> Result<Option<CheckFault>, NoMemory>
    ensures { IfOk result (λ o.
        o ≡ code_fault program.now name.now method context.now 0 context.now.body.code) }
{
    let count = code_length(context);
    let mut running = Some(opening(alloc, context)?);
    for k in 0..count {
        match step_at(alloc, program, context, name, method, k, running)? {
            Step::Faulty { fault } => return Ok(Some(fault)),
            Step::Onward { next } => running = next,
        }
    }
    Ok(None)
}

/// The first fault of a method, which has this number in its class file, with the frames that its stack map gives.
#[tactic(auto, unfolding(type_frames::specs::Typing::method_fault))]
pub(crate) fn method_fault(
    alloc: Global,
    program: &Program,
    name: &[u16],
    number: u32,
    method: &MethodRec,
    given: &Option<Items<Frame>>,
) -> Result<Option<CheckFault>, NoMemory>
    requires { given.now ≡ maps.given_frames program.now method.now }
    ensures { IfOk result (λ o. o ≡ method_fault program.now name.now number method.now) }
{
    let Some(body) = &method.body else {
        return Ok(None);
    };
    let Some(given) = given else {
        return Ok(Some(fault(alloc, name, number, 0, Some(Rule::StackMap))?));
    };
    let context = context_of(alloc, program, method, body, given.as_slice())?;
    code_fault(alloc, program, &context, name, number)
}
