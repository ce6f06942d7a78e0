//! From a suite's text and class files to its checked program.

ghost use Rattle.std.specs.Prelude.{◌≡◌, ◌≤◌, ◌<◌, ◌+◌, IfOk, IfErr, length, map};
ghost use Rattle.jvm_model.specs.Builtin.{builtin_count};
ghost use Rattle.class_link.specs.Link.{AreLines};
ghost use Rattle.type_frames.specs.Typing.{IsTyped};
ghost use Rattle.suite_load.specs.Loading as loading;
ghost use Rattle.suite_load.specs.LoadAnswers.{Checks, IsProper, check_answer};

use crate::load_fault::LoadFault;
use crate::suite_text::{FileLine, SuiteText, TestLine, Why};
use class_link::{LinkFault, TestLines, link};
use class_reader::ClassFile;
use et_base::{Items, NoMemory, Units};
use std::alloc::Global;
use type_checker::check;
use type_frames::{CheckFault, Checked};

fn line_of(alloc: Global, test: &TestLine) -> Result<class_link::TestLine, NoMemory>
    ensures { IfOk result (λ made. made ≡ loading.line_of test.now) }
{
    Ok(class_link::TestLine {
        class: Units::from_slice(alloc, test.class.as_slice())?,
        method: Units::from_slice(alloc, test.method.as_slice())?,
        clock: test.clock,
        seed: test.seed,
    })
}

fn tests_of(alloc: Global, tests: &[TestLine]) -> Result<Items<class_link::TestLine>, NoMemory>
    ensures { IfOk result (λ made. made ≡ map loading.line_of tests.now) }
{
    let mut made = Items::new(alloc);
    for test in tests {
        made.push(line_of(alloc, test)?)?;
    }
    Ok(made)
}

fn files_of(alloc: Global, files: &[FileLine]) -> Result<Items<(Units, Units)>, NoMemory>
    ensures { IfOk result (λ made. made ≡ map (λ f. (f.name, f.content)) files.now) }
{
    let mut made = Items::new(alloc);
    for file in files {
        let name = Units::from_slice(alloc, file.name.as_slice())?;
        let content = Units::from_slice(alloc, file.content.as_slice())?;
        made.push((name, content))?;
    }
    Ok(made)
}

/// What a suite text says beside its class lines.
pub fn lines_of(alloc: Global, suite: &SuiteText) -> Result<TestLines, NoMemory>
    ensures { IfOk result (λ made. made ≡ loading.lines_of suite.now) }
{
    Ok(TestLines {
        budget: suite.budget,
        tests: tests_of(alloc, suite.tests.as_slice())?,
        files: files_of(alloc, suite.files.as_slice())?,
    })
}

// The number of the line of a test.
fn line_number(suite: &SuiteText, test: u32) -> u32
    ensures { result ≡ loading.line_number suite.now test }
{
    match suite.tests.as_slice().get(test.saturating_sub(1) as usize) {
        Some(line) => line.line,
        None => 0,
    }
}

// How a fault of linking is answered.
fn link_fault(suite: &SuiteText, fault: LinkFault) -> LoadFault
    ensures named { result ≡ loading.link_fault suite.now fault }
    ensures proper { IsProper (λ _. ⊥) result }
{
    match fault {
        LinkFault::NotATest { test } => LoadFault::Suite {
            line: line_number(suite, test),
            why: Why::NotATest,
        },
        LinkFault::NoMemory => LoadFault::NoMemory,
        fault => LoadFault::Link { fault },
    }
}

// How a fault of the check is answered.
fn check_fault(fault: CheckFault) -> LoadFault
    ensures named { result ≡ check_answer fault }
    ensures proper { IsProper (λ _. ⊥) result }
{
    match fault {
        CheckFault::NoMemory => LoadFault::NoMemory,
        fault => LoadFault::Check { fault },
    }
}

/// The checked program of a suite text and its class files.
pub fn program_of(
    alloc: Global,
    suite: &SuiteText,
    classes: &[ClassFile],
) -> Result<Checked, LoadFault>
    requires few { length classes.now ≤ 1024 }
    requires lines { AreLines (loading.lines_of suite.now) }
    ensures gives { Checks suite.now classes.now result }
    ensures proper { IfErr result (IsProper (λ _. ⊥)) }
    ensures typed { IfOk result IsTyped }
    ensures count { IfOk result (λ p. length p.tests ≡ length suite.now.tests) }
    ensures classes { IfOk result (λ p. length p.classes ≡ builtin_count + length classes.now) }
{
    let lines = lines_of(alloc, suite)?;
    let program = match link(alloc, classes, &lines) {
        Ok(program) => program,
        Err(fault) => return Err(link_fault(suite, fault)),
    };
    match check(alloc, program) {
        Ok(checked) => Ok(checked),
        Err(fault) => Err(check_fault(fault)),
    }
}
