//! The names that reports print.

ghost use Rattle.std.specs.Prelude.{◌≡◌, IfOk, map};
ghost use Rattle.et_base.specs.Quotes.{name_of};
ghost use Rattle.suite_load.specs.Loading as loading;

use crate::suite_text::{SuiteText, TestLine};
use et_base::{Items, NoMemory, Text, name_text};
use jvm_model::{ClassRec, FieldRec, Names, Program};
use std::alloc::Global;

fn test_names(alloc: Global, tests: &[TestLine]) -> Result<Items<Text>, NoMemory>
    ensures { IfOk result (λ made. made ≡ map (λ x. x.name) tests.now) }
{
    let mut made = Items::new(alloc);
    for test in tests {
        made.push(Text::from_slice(alloc, test.name.as_slice())?)?;
    }
    Ok(made)
}

fn class_names(alloc: Global, classes: &[ClassRec]) -> Result<Items<Text>, NoMemory>
    ensures { IfOk result (λ made. made ≡ map (λ c. name_of c.name) classes.now) }
{
    let mut made = Items::new(alloc);
    for class in classes {
        made.push(name_text(alloc, &class.name)?)?;
    }
    Ok(made)
}

fn field_names(alloc: Global, fields: &[FieldRec]) -> Result<Items<Text>, NoMemory>
    ensures { IfOk result (λ made. made ≡ map (λ f. name_of f.name) fields.now) }
{
    let mut made = Items::new(alloc);
    for field in fields {
        made.push(name_text(alloc, &field.name)?)?;
    }
    Ok(made)
}

/// The names of tests as the suite text has them, and of classes and fields with dots.
pub fn names_in(alloc: Global, suite: &SuiteText, p: &Program) -> Result<Names, NoMemory>
    ensures { IfOk result (λ made. made ≡ loading.names_in suite.now p.now) }
{
    Ok(Names {
        tests: test_names(alloc, suite.tests.as_slice())?,
        classes: class_names(alloc, p.classes.as_slice())?,
        fields: field_names(alloc, p.fields.as_slice())?,
    })
}
