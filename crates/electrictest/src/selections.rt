//! The tests that a word names.

ghost use Rattle.std.specs.Prelude.{◌≡◌, ◌<◌, ◌≤◌, All, length, position, IfOk, IfErr, IfSome};
ghost use Rattle.std.specs.{List.range_with_len, Str.bytes_eq};
ghost use Rattle.electrictest.specs.{Records.Gives, Commands.IsNameRefusal, Selections.IsTestOf};
ghost use Rattle.electrictest.specs.Selections as selection;

use crate::status::{InputFault, Status};
use et_base::{Items, NoMemory, Text};
use jvm_model::Names;
use std::alloc::Global;

// The first place of a name.
fn place_of(names: &[Text], name: &[u8]) -> Option<usize>
    ensures place { result ≡ position (bytes_eq name.now) names.now }
    ensures within { IfSome result (λ place. place < length names.now) }
{
    for place in 0..names.len() {
        if name == names[place].as_slice() {
            return Some(place);
        }
    }
    None
}

// The number of the test of this name.
fn test_of(alloc: Global, names: &Names, name: &[u8]) -> Result<u32, Status>
    requires few { length names.now.tests ≤ 1024 }
    ensures gives { Gives (λ t. t) result (selection.test_of names.now name.now) }
    ensures test { IfOk result (IsTestOf names.now) }
    ensures proper { IfErr result IsNameRefusal }
{
    match place_of(names.tests.as_slice(), name) {
        Some(place) => Ok(place as u32 + 1),
        None => {
            let name = Text::from_slice(alloc, name)?;
            Err(Status::Input(InputFault::NoTest { name }))
        }
    }
}

/// The tests that an order names, as they stand there. `NoTest` names the first that is no test.
#[tactic(auto, unfolding(crate::specs::Selections::ordered))]
pub fn ordered(alloc: Global, names: &Names, word: &[u8]) -> Result<Items<u32>, Status>
    requires few { length names.now.tests ≤ 1024 }
    ensures gives { Gives (λ ts. ts) result (selection.ordered names.now word.now) }
    ensures tests { IfOk result (All (IsTestOf names.now)) }
    ensures proper { IfErr result IsNameRefusal }
{
    let mut tests = Items::new(alloc);
    for name in word.split(|b| *b == b',') {
        let test = test_of(alloc, names, name)?;
        tests.push(test)?;
    }
    Ok(tests)
}

/// The whole suite, in order.
pub fn all_tests(alloc: Global, count: u32) -> Result<Items<u32>, NoMemory>
    requires few { count ≤ 1024 }
    ensures all { IfOk result (λ ts. ts ≡ range_with_len 1 count) }
    ensures each { IfOk result (All (λ t. (0 < t) × (t ≤ count))) }
{
    let mut tests = Items::new(alloc);
    for index in 0..count {
        tests.push(index + 1)?;
    }
    Ok(tests)
}

/// The tests that a selection names; `all` is the whole suite. `NoTest` names the first that is no test.
#[tactic(auto, unfolding(crate::specs::Selections::ordered, crate::specs::Selections::selected))]
pub fn selected(alloc: Global, names: &Names, word: &[u8]) -> Result<Items<u32>, Status>
    requires few { length names.now.tests ≤ 1024 }
    ensures gives { Gives (λ ts. ts) result (selection.selected names.now word.now) }
    ensures tests { IfOk result (All (IsTestOf names.now)) }
    ensures proper { IfErr result IsNameRefusal }
{
    if word == b"all".as_slice() {
        let tests = all_tests(alloc, names.tests.len() as u32)?;
        Ok(tests)
    } else {
        ordered(alloc, names, word)
    }
}
