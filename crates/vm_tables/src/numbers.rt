//! The numbers of a method's instructions and the places after them, by byte place.

ghost use Rattle.std.specs.Prelude.{◌≡◌, ◌<◌, IfOk, Some, drop, length};
ghost use Rattle.jvm_model.specs.Classes as classes;
ghost use Rattle.jvm_model.specs.Linked.{IsBody};
ghost use Rattle.vm_tables.specs.Numbers.{ArePlaces, AreNexts, next_of};

use et_base::{Items, NoMemory};
use jvm_model::Body;
use std::alloc::Global;

/// For each byte place of a code, 1 and the number of the instruction that begins there, or 0.
pub fn numbers_of(alloc: Global, body: &Body) -> Result<Items<u16>, NoMemory>
    requires { IsBody body.now }
    ensures places { IfOk result (λ numbers. ArePlaces (Some body.now) numbers) }
    ensures long { IfOk result (λ numbers. length numbers ≡ body.now.length) }
{
    let mut numbers = vec![in alloc; 0u16; body.length as usize]?;
    for (i, placed) in body.code.as_slice().iter().enumerate() {
        numbers[placed.pc as usize] = i as u16 + 1;
    }
    Ok(Items::from_vec(numbers))
}

/// The place of the instruction of this number, or the code's length behind the last one.
fn place_of(body: &Body, number: usize) -> u16
    requires { IsBody body.now }
    ensures { result ≡ classes.place_after (drop number body.now.code) body.now.length }
{
    match body.code.get(number) {
        None => body.length as u16,
        Some(placed) => placed.pc as u16,
    }
}

/// The place of the instruction after the one that begins at this place, or the place itself where none begins.
fn next_of(body: &Body, numbers: &[u16], pc: u16) -> u16
    requires body { IsBody body.now }
    requires numbers { ArePlaces (Some body.now) numbers.now }
    requires within { pc < length numbers.now }
    ensures { result ≡ next_of (Some body.now) pc }
{
    match numbers[pc as usize] {
        0 => pc,
        number => place_of(body, number as usize),
    }
}

/// For each byte place of a code the place of the instruction after the one that begins there, or the place itself.
pub fn nexts_of(alloc: Global, body: &Body, numbers: &[u16]) -> Result<Items<u16>, NoMemory>
    requires body { IsBody body.now }
    requires numbers { ArePlaces (Some body.now) numbers.now }
    requires long { length numbers.now ≡ body.now.length }
    ensures { IfOk result (λ nexts. AreNexts (Some body.now) nexts) }
{
    let mut nexts = Items::with_capacity(alloc, numbers.len())?;
    for pc in 0..body.length as u16 {
        nexts.push(next_of(body, numbers, pc))?;
    }
    Ok(nexts)
}
