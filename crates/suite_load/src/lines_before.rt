//! The good lines before a line.

ghost use Rattle.std.specs.Prelude.{◌≡◌, ◌+◌, ◌^◌, ◌<◌, ◌==◌, ◌||◌, [], ◌∷◌, ◌++◌, length, IfOk, IsOk, OnOk};
ghost use Rattle.suite_load.specs.SuiteForm as form;
ghost use Rattle.suite_load.specs.{Reading.Names, Summary.classes_with, Summary.files_with, Summary.tests_with};

use crate::name_set::NameSet;
use crate::suite_line::SuiteLine;
use crate::suite_text::{SuiteRefusal, Why};
use et_base::NoMemory;
use std::alloc::Global;
use std::marker::Model;

// The places of lines.
const HEADER: u8 = 0;

pub const BUDGET: u8 = 1;

pub const CLASS: u8 = 2;

pub const FILE: u8 = 3;

pub const TEST: u8 = 4;

const END: u8 = 5;

/// The good lines so far, and what the next one is judged by. Contracts see the list of lines.
#[derive(Drop)]
pub struct LinesBefore {
    lines: Vec<SuiteLine>,
    last: u8,
    ended: bool,
    classes: NameSet,
    files: NameSet,
    tests: NameSet,
}

impl Model for LinesBefore {
    ghost use Rattle.std.specs.Prelude.{List};
    ghost use Rattle.suite_load.specs.declared.suite_line.SuiteLine.{SuiteLine};
    ghost use Rattle.suite_load.specs.Summary.{IsSummary};

    ghost Value = { List SuiteLine };

    ghost view = { λ b. b.lines.items };

    ghost invariant = { λ b. IsSummary b.lines.items b.last b.ended b.classes b.files b.tests };
}

impl LinesBefore {
    /// No lines. It takes no memory.
    pub fn new(alloc: Global) -> LinesBefore
        ensures { result ≡ [] }
    {
        LinesBefore {
            lines: Vec::new(alloc),
            last: 0,
            ended: false,
            classes: NameSet::new(alloc),
            files: NameSet::new(alloc),
            tests: NameSet::new(alloc),
        }
    }

    /// Whether there are no lines.
    pub fn is_empty(&self) -> bool
        ensures { result ≡ (length self.now == 0) }
    {
        self.lines.is_empty()
    }

    /// Whether no line has a place after this one.
    pub fn is_in_order(&self, place: u8) -> bool
        ensures { result ≡ form.is_in_order self.now place }
    {
        self.last <= place
    }

    /// Whether the end is among the lines.
    pub fn is_ended(&self) -> bool
        ensures { result ≡ form.is_ended self.now }
    {
        self.ended
    }

    /// The names of class files.
    pub fn classes(&self) -> &NameSet
        ensures { result.now ≡ form.class_names self.now }
    {
        &self.classes
    }

    /// The names of files.
    pub fn files(&self) -> &NameSet
        ensures { result.now ≡ form.file_names self.now }
    {
        &self.files
    }

    /// The names of tests.
    pub fn tests(&self) -> &NameSet
        ensures { result.now ≡ form.test_names self.now }
    {
        &self.tests
    }

    /// The number of the next line, from 1. The limits of a suite text are met long before there is no such number.
    pub fn number(&self) -> Result<u32, NoMemory>
        ensures number { IfOk result (λ n. n ≡ length self.now + 1) }
        ensures fits { length self.now + 1 < 2 ^ 32 → IsOk result }
    {
        match u32::try_from(self.lines.len() + 1) {
            Ok(number) => Ok(number),
            Err(_) => Err(NoMemory {}),
        }
    }

    /// That this is wrong with the next line.
    pub fn fault(&self, why: Why) -> SuiteRefusal
        ensures named { Names result (form.fault self.now why) }
        ensures fits { length self.now + 1 < 2 ^ 32 → result ≡ form.fault self.now why }
    {
        match self.number() {
            Ok(line) => SuiteRefusal::Suite { line, why },
            Err(_) => SuiteRefusal::NoMemory,
        }
    }

    /// The lines with one more, whose name doesn't stand in a line of its kind.
    pub fn with(mut self, alloc: Global, line: SuiteLine) -> Result<LinesBefore, NoMemory>
        requires { form.IsNew self line }
        ensures { IfOk result (λ b. b ≡ self ++ line ∷ []) }
    {
        self.last = self.last.max(place_of(&line));
        self.ended = is_ended_by(self.ended, &line);
        add_line(
            alloc,
            line,
            &mut self.lines,
            &mut self.classes,
            &mut self.files,
            &mut self.tests,
        )?;
        Ok(self)
    }

    /// The lines themselves.
    pub fn into_lines(self) -> Vec<SuiteLine>
        ensures { result.items ≡ self }
    {
        let LinesBefore {
            lines,
            last: _,
            ended: _,
            classes: _,
            files: _,
            tests: _,
        } = self;
        lines
    }
}

// The place of a line in the order of lines.
fn place_of(line: &SuiteLine) -> u8
    ensures { result ≡ form.place_of line.now }
{
    match line {
        SuiteLine::Header => HEADER,
        SuiteLine::Budget(_) => BUDGET,
        SuiteLine::Class(_) => CLASS,
        SuiteLine::File(_, _) => FILE,
        SuiteLine::Test(_) => TEST,
        SuiteLine::End => END,
    }
}

// Whether the end stands, with this line.
fn is_ended_by(ended: bool, line: &SuiteLine) -> bool
    ensures { result ≡ (ended || form.is_end line.now) }
{
    ended || place_of(line) == END
}

// Adds the name that a line gives, which isn't among those of its kind.
fn note_name(
    alloc: Global,
    line: &SuiteLine,
    classes: &mut NameSet,
    files: &mut NameSet,
    tests: &mut NameSet,
) -> Result<(), NoMemory>
    requires { form.IsNewAmong classes.old files.old tests.old line.now }
    ensures classes { OnOk result (classes.new ≡ classes_with classes.old line.now) }
    ensures files { OnOk result (files.new ≡ files_with files.old line.now) }
    ensures tests { OnOk result (tests.new ≡ tests_with tests.old line.now) }
{
    match line {
        SuiteLine::Class(name) => classes.insert(alloc, name.as_slice()),
        SuiteLine::File(name, _) => files.insert(alloc, name.as_slice()),
        SuiteLine::Test(test) => tests.insert(alloc, test.name.as_slice()),
        _ => Ok(()),
    }
}

// Adds a line, and the name that it gives, which isn't among those of its kind.
fn add_line(
    alloc: Global,
    line: SuiteLine,
    lines: &mut Vec<SuiteLine>,
    classes: &mut NameSet,
    files: &mut NameSet,
    tests: &mut NameSet,
) -> Result<(), NoMemory>
    requires { form.IsNewAmong classes.old files.old tests.old line }
    ensures lines { OnOk result (lines.new.items ≡ lines.old.items ++ line ∷ []) }
    ensures classes { OnOk result (classes.new ≡ classes_with classes.old line) }
    ensures files { OnOk result (files.new ≡ files_with files.old line) }
    ensures tests { OnOk result (tests.new ≡ tests_with tests.old line) }
{
    note_name(alloc, &line, classes, files, tests)?;
    lines.push(line)?;
    Ok(())
}
