//! What a suite text says, and why a text is none.

ghost use Rattle.std.specs.Prelude.{◌≡◌};
ghost use Rattle.suite_load.specs.declared.suite_text.SuiteRefusal.TheVariants as refusals;

use et_base::{Items, NoMemory, Text, Units};

/// What a suite text says, each list in the order of the text.
#[derive(Drop)]
pub struct SuiteText {
    /// The units that a test may take.
    pub budget: u64,
    /// The class files, by their depot names.
    pub classes: Items<Text>,
    /// The files that stand when a test begins.
    pub files: Items<FileLine>,
    /// The tests.
    pub tests: Items<TestLine>,
}

/// A file that stands when a test begins.
#[derive(Drop)]
pub struct FileLine {
    /// Its name.
    pub name: Units,
    /// What it contains.
    pub content: Units,
}

/// A test.
#[derive(Drop)]
pub struct TestLine {
    /// The number of its line, from 1.
    pub line: u32,
    /// Its name as the text gives it: class and method with dots.
    pub name: Text,
    /// The class by its internal name (JVMS 4.2.1), with `/` between its parts.
    pub class: Units,
    /// The method's name.
    pub method: Units,
    /// The clock that the test starts with.
    pub clock: i64,
    /// The seed of its random numbers.
    pub seed: u64,
}

/// What is wrong with a line. Of several that hold, the one that stands first here is named.
#[derive(Clone, Copy, Debug, PartialEq, Eq)]
pub enum Why {
    /// The first line isn't the header.
    Header,
    /// The line or its line feed is missing, a byte is no printable ASCII, the first word is unknown, the number of fields is wrong, or
    /// the line follows the end.
    Form,
    /// The line stands after one that has to follow it, or is a second header or budget.
    Order,
    /// A name isn't in its form.
    Name,
    /// A number isn't in its form or range, or a backslash is followed by neither `n` nor a backslash.
    Number,
    /// The name stands already in a line of this kind.
    Twice,
    /// There are 1,024 lines of this kind before it.
    TooMany,
    /// The line names no test of the suite's classes. Reading the text alone never answers this.
    NotATest,
}

/// Why a suite text isn't read.
#[derive(Clone, Copy, Debug, PartialEq, Eq)]
pub enum SuiteRefusal {
    /// The first faulty line, by its number from 1, and what is wrong with it.
    Suite { line: u32, why: Why },
    /// An allocation was refused.
    NoMemory,
}

impl From<NoMemory> for SuiteRefusal {
    ghost from_gives = { λ _ e. e ≡ refusals.NoMemory };

    fn from(_refused: NoMemory) -> SuiteRefusal {
        SuiteRefusal::NoMemory
    }
}
