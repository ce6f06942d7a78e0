//! The tests of a suite's lines.

ghost use Rattle.std.specs.Prelude.{◌≡◌, ◌≤◌, [], is_some, length};
ghost use Rattle.jvm_model.specs.{RowsCreate.is_bare, Driver.no_arguments, Driver.plain_method_in};
ghost use Rattle.jvm_model.specs.Lookup as lookup;
ghost use Rattle.jvm_model.specs.Linked as linked;
ghost use Rattle.class_link.specs.Answers.{Gives};
ghost use Rattle.class_link.specs.Faults as faults;
ghost use Rattle.class_link.specs.Link as links;

use crate::fault::LinkFault;
use crate::lines::TestLine;
use crate::link_environment::LinkEnvironment;
use et_base::Items;
use jvm_model::{BUILTIN_COUNT, INIT, NO_ARGUMENTS, Program, TestEntry};
use member_lookup::declared_upwards;
use std::alloc::Global;

// The method has this name and `()V`.
fn is_method(p: &Program, name: &[u16], method: u32) -> bool
    ensures { result ≡ lookup.is_method p.now name.now no_arguments method }
{
    p.method_name(method) == name && p.method_descriptor(method) == &NO_ARGUMENTS[..]
}

fn test_method(p: &Program, class: u32, name: &[u16]) -> Option<u32>
    ensures { result ≡ linked.test_method p.now class name.now }
{
    declared_upwards(p, class, name, &NO_ARGUMENTS)
}

// One of these methods is an instance method of this name and `()V`.
fn has_plain_method(p: &Program, name: &[u16], methods: &[u32]) -> bool
    ensures { result ≡ is_some (plain_method_in p.now name.now methods.now) }
{
    for method in methods {
        if !p.is_static_method(*method) && is_method(p, name, *method) {
            return true;
        }
    }
    false
}

// The class can have no instances.
fn is_bare(p: &Program, class: u32) -> bool
    ensures { result ≡ is_bare p.now class }
{
    p.is_abstract(class) || p.is_interface(class)
}

fn holds_tests(p: &Program, class: u32) -> bool
    ensures { result ≡ faults.holds_tests p.now class }
{
    BUILTIN_COUNT <= class && !is_bare(p, class)
}

fn is_test_method(p: &Program, class: u32, method: u32) -> bool
    ensures { result ≡ faults.is_test_method p.now class method }
{
    p.has_code(method)
        && (p.is_static_method(method) || has_plain_method(p, &INIT, p.class_methods(class)))
}

fn entry_with(budget: u64, line: &TestLine, class: u32, method: u32) -> TestEntry
    ensures { result ≡ faults.entry_with budget line.now class method }
{
    TestEntry {
        class,
        method,
        clock: line.clock,
        seed: line.seed,
        budget,
    }
}

fn test_in(p: &Program, budget: u64, line: &TestLine, class: u32) -> Option<TestEntry>
    ensures { result ≡ faults.test_in p.now budget line.now class }
{
    if !holds_tests(p, class) {
        return None;
    }
    match test_method(p, class, line.method.as_slice()) {
        Some(method) if is_test_method(p, class, method) => Some(entry_with(
            budget, line, class, method,
        )),
        _ => None,
    }
}

/// The test of a line, if it is one: the first method of the name with `()V` from the class upwards (this project's).
#[tactic(auto, unfolding(crate::specs::Faults::test_entry))]
pub(crate) fn test_entry(
    setting: &LinkEnvironment,
    budget: u64,
    line: &TestLine,
) -> Option<TestEntry>
    ensures { result ≡ faults.test_entry setting.now budget line.now }
{
    match setting.names.number(line.class.as_slice()) {
        None => None,
        Some(class) => test_in(&setting.program, budget, line, class),
    }
}

/// The tests of a suite's lines, or the first line that names none, by its number from 1.
pub(crate) fn tests_of(
    alloc: Global,
    setting: &LinkEnvironment,
    budget: u64,
    lines: &[TestLine],
) -> Result<Items<TestEntry>, LinkFault>
    requires { length lines.now ≤ 1024 }
    ensures { Gives (λ tests. tests) result (links.tests_of setting.now budget [] lines.now) }
{
    let mut tests = Items::new(alloc);
    for line in lines {
        let Some(test) = test_entry(setting, budget, line) else {
            return Err(LinkFault::NotATest {
                test: tests.len() as u32 + 1,
            });
        };
        tests.push(test)?;
    }
    Ok(tests)
}
