//! The types that a descriptor names (JVMS 4.3).

ghost use Rattle.std.specs.Prelude.{◌≡◌, false, IfNone, IfOk, IfSome, length};
ghost use Rattle.jvm_model.specs.{Descriptors.parameters, Descriptors.return_type, Scanning.type_length, Scanning.SplitsType, Scanning.EndsTypes};

use et_base::letters::{ARRAY, CLASS, CLOSE, SEMICOLON};
use et_base::{Items, NoMemory, Units};
use std::alloc::Global;

// The units of the first type of a text, or all of them where it is cut.
fn type_length(units: &[u16]) -> usize
    ensures { result ≡ type_length false units.now }
{
    let mut in_name = false;
    for (n, u) in units.iter().enumerate() {
        if in_name {
            if *u == SEMICOLON {
                return n + 1;
            }
        } else if *u == CLASS {
            in_name = true;
        } else if *u != ARRAY {
            return n + 1;
        }
    }
    units.len()
}

// The first type of a text whose parameters haven't ended, and what comes after it.
#[tactic(auto, using(crate::proofs::DescriptorLemmas::type_within))]
fn split_type(units: &[u16]) -> Option<(&[u16], &[u16])>
    ensures found { IfSome result (λ x. SplitsType units.now x.0.now x.1.now) }
    ensures ended { IfNone result (EndsTypes units.now) }
{
    let (u, _) = units.split_first()?;
    if *u == CLOSE {
        return None;
    }
    Some(units.split_at(type_length(units)))
}

/// The descriptors of a method's parameter types.
#[tactic(auto, unfolding(crate::specs::Descriptors::parameters))]
pub fn parameters(alloc: Global, descriptor: &[u16]) -> Result<Items<Units>, NoMemory>
    ensures { IfOk result (λ texts. texts ≡ parameters descriptor.now) }
{
    let mut texts = Items::new(alloc);
    let Some((_, units)) = descriptor.split_first() else {
        return Ok(texts);
    };
    let mut rest = units;
    while let Some((text, others)) = split_type(rest) {
        texts.push(Items::from_slice(alloc, text)?)?;
        rest = others;
    }
    Ok(texts)
}

/// How many parameters a method has: a long is one.
#[tactic(auto, unfolding(crate::specs::Descriptors::parameters))]
pub fn parameter_count(descriptor: &[u16]) -> usize
    ensures { result ≡ length (parameters descriptor.now) }
{
    let Some((_, units)) = descriptor.split_first() else {
        return 0;
    };
    let mut count = 0usize;
    let mut rest = units;
    while let Some((_, others)) = split_type(rest) {
        count += 1;
        rest = others;
    }
    count
}

/// The descriptor of what a method returns, V of nothing.
#[tactic(auto, unfolding(crate::specs::Descriptors::return_type))]
pub fn return_type(descriptor: &[u16]) -> &[u16]
    ensures { result.now ≡ return_type descriptor.now }
{
    let Some((_, units)) = descriptor.split_first() else {
        return descriptor;
    };
    let mut rest = units;
    while let Some((_, others)) = split_type(rest) {
        rest = others;
    }
    match rest.split_first() {
        None => rest,
        Some((_, returned)) => returned,
    }
}
