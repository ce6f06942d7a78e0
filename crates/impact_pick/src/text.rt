//! The text that names the tests to run again.
//!
//! Each `push_` function appends to a text; after a refusal part of it may stand there.

ghost use Rattle.std.specs.Prelude.{◌≡◌, ◌++◌, true, IfOk, IfSome, OnOk};
ghost use Rattle.std.specs.List.{flat_map};
ghost use Rattle.dep_record.specs.DepsText as names_of;
ghost use Rattle.dep_record.specs.RecordText.{numbers_text, more_numbers};
ghost use Rattle.impact_pick.specs.Form.{fits_prints};
ghost use Rattle.impact_pick.specs.ImpactText as line;

use crate::picking::{changed, impact};
use et_base::{NoMemory, Text, push_decimal};
use jvm_model::Names;
use order_law::{Prints, Record};
use std::alloc::Global;
use type_frames::Checked;

// Appends numbers, with a comma before each.
fn push_more(out: &mut Text, numbers: &[u32]) -> Result<(), NoMemory>
    ensures { OnOk result (out.new ≡ out.old ++ more_numbers numbers.now) }
{
    for number in numbers {
        out.push(b',')?;
        push_decimal(out, *number as u64)?;
    }
    Ok(())
}

// Appends the numbers of class files, joined by commas, or that there are none.
fn push_files(out: &mut Text, files: &[u32]) -> Result<(), NoMemory>
    ensures { OnOk result (out.new ≡ out.old ++ line.files_text files.now) }
{
    match files {
        [] => out.push(b'-'),
        [first, rest @ ..] => {
            push_decimal(out, *first as u64)?;
            push_more(out, rest)
        }
    }
}

// Appends the name of a test.
fn push_name(out: &mut Text, names: &Names, test: u32) -> Result<(), NoMemory>
    ensures { OnOk result (out.new ≡ out.old ++ names_of.test_name names.now test) }
{
    match names.tests.get(test.saturating_sub(1) as usize) {
        Some(name) => out.extend_from_slice(name.as_slice()),
        None => Ok(()),
    }
}

// Appends the line of a test that is run again.
fn push_again(out: &mut Text, names: &Names, test: u32) -> Result<(), NoMemory>
    ensures { OnOk result (out.new ≡ out.old ++ line.again_line names.now test) }
{
    out.extend_from_slice(b"again ")?;
    push_name(out, names, test)?;
    out.push(b'\n')
}

// Appends the lines of all tests that are run again.
fn push_tests(out: &mut Text, names: &Names, tests: &[u32]) -> Result<(), NoMemory>
    ensures { OnOk result (out.new ≡ out.old ++ flat_map (line.again_line names.now) tests.now) }
{
    for test in tests {
        push_again(out, names, *test)?;
    }
    Ok(())
}

fn text_on(alloc: Global, names: &Names, files: &[u32], tests: &[u32]) -> Result<Text, NoMemory>
    ensures { IfOk result (λ text. text ≡ line.text_on names.now files.now tests.now) }
{
    let mut out = Text::new(alloc);
    out.extend_from_slice(b"electric-impact 1\nchanged ")?;
    push_files(&mut out, files)?;
    out.push(b'\n')?;
    push_tests(&mut out, names, tests)?;
    out.extend_from_slice(b"end\n")?;
    Ok(out)
}

/// The text on the class files that aren't those of a version 2 record, and on the tests that are run again, where tests have
/// these names. There are as many sums as the record has class files.
///
/// # Errors
///
/// `NoMemory` where an allocation is refused.
#[tactic(auto, unfolding(crate::specs::ImpactText::impact_text))]
pub fn impact_text(
    alloc: Global,
    names: &Names,
    r: &Record,
    p: &Checked,
    prints: &Prints,
) -> Result<Text, NoMemory>
    requires fits { fits_prints r.now.more prints.now ≡ true }
    ensures { IfOk result (λ text.
        IfSome r.now.more (λ m. text ≡ line.impact_text names.now m p.now prints.now)) }
{
    let files = changed(alloc, r, prints)?;
    let tests = impact(alloc, r, p, prints)?;
    text_on(alloc, names, files.as_slice(), tests.as_slice())
}
