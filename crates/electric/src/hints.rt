//! What standard error says of a refusal: which word isn't understood, and what is accepted in its place.

use dep_record::number_up_to;
use electrictest::{InputFault, Status};
use et_base::{NoMemory, Text, push_quoted_bytes};
use std::alloc::Global;
use suite_load::is_depot_name;

// What stands at a place of a command.
#[derive(Clone, Copy)]
enum Place {
    Suite,
    Record,
    Kept,
    Workers,
    Tests,
    Names,
}

impl Place {
    // Whether a word may stand here.
    fn takes(self, word: &[u8]) -> bool {
        match self {
            Place::Suite | Place::Kept => is_depot_name(word),
            Place::Record => word == b"-".as_slice() || is_depot_name(word),
            Place::Workers => is_count(16, word),
            Place::Tests => is_count(1024, word),
            Place::Names => true,
        }
    }

    // What may stand here.
    fn told(self) -> &'static [u8] {
        match self {
            Place::Suite => b"the name of a suite text in this folder, as s or suites/s",
            Place::Record => b"the name of a record in this folder, or - in `run SUITE - 1 all`",
            Place::Kept => b"the name of a record in this folder",
            Place::Workers => b"a number of workers, 1 to 16",
            Place::Tests => b"a number of tests, 1 to 1024",
            Place::Names => b"names of tests joined by commas, or where tests are selected `all`",
        }
    }
}

// A command, the places behind it, and the word that may stand last; an empty one where there is none.
struct Form {
    command: &'static [u8],
    places: &'static [Place],
    last: &'static [u8],
    shown: &'static [u8],
}

const FORMS: [Form; 10] = [
    Form {
        command: b"run",
        places: &[Place::Suite, Place::Record, Place::Workers, Place::Names],
        last: b"log",
        shown: b"run SUITE - 1 all, run SUITE RECORD N SEL or run SUITE RECORD N SEL log",
    },
    Form {
        command: b"detect",
        places: &[Place::Suite],
        last: b"",
        shown: b"detect SUITE",
    },
    Form {
        command: b"deps",
        places: &[Place::Suite],
        last: b"json",
        shown: b"deps SUITE or deps SUITE json",
    },
    Form {
        command: b"order",
        places: &[Place::Suite, Place::Record, Place::Names],
        last: b"",
        shown: b"order SUITE RECORD ORDER",
    },
    Form {
        command: b"plan",
        places: &[Place::Suite, Place::Record, Place::Workers, Place::Names],
        last: b"",
        shown: b"plan SUITE RECORD N SEL",
    },
    Form {
        command: b"impact",
        places: &[Place::Suite, Place::Kept],
        last: b"",
        shown: b"impact SUITE RECORD",
    },
    Form {
        command: b"cones",
        places: &[Place::Suite, Place::Kept, Place::Workers, Place::Names],
        last: b"",
        shown: b"cones SUITE RECORD N SEL",
    },
    Form {
        command: b"manifest",
        places: &[Place::Suite, Place::Kept],
        last: b"",
        shown: b"manifest SUITE RECORD",
    },
    Form {
        command: b"quiet",
        places: &[Place::Suite],
        last: b"",
        shown: b"quiet SUITE",
    },
    Form {
        command: b"gen",
        places: &[Place::Tests, Place::Workers],
        last: b"",
        shown: b"gen K N",
    },
];

impl Form {
    // Whether a word may stand at this place, counted from 0 behind the command.
    fn takes(&self, at: usize, word: &[u8]) -> bool {
        match self.places.get(at) {
            Some(place) => place.takes(word),
            None => at == self.places.len() && !self.last.is_empty() && word == self.last,
        }
    }

    // How many of the words behind the command are understood.
    fn understood(&self, words: &[Text]) -> usize {
        for at in 0..words.len() {
            if !self.takes(at, words[at].as_slice()) {
                return at;
            }
        }
        words.len()
    }

    // Appends what may stand at this place.
    fn push_accepted(&self, out: &mut Text, at: usize) -> Result<(), NoMemory> {
        match self.places.get(at) {
            Some(place) => out.extend_from_slice(place.told()),
            None if at == self.places.len() && !self.last.is_empty() => {
                out.extend_from_slice(self.last)?;
                out.extend_from_slice(b" or nothing")
            }
            None => out.extend_from_slice(b"nothing more"),
        }?;
        out.extend_from_slice(b"; the form is ")?;
        out.extend_from_slice(self.shown)
    }
}

// Whether a word is a number from 1 to this one.
fn is_count(most: u64, word: &[u8]) -> bool {
    match number_up_to(most, word) {
        Some(count) => 0 < count,
        None => false,
    }
}

// Appends which word of a command isn't understood, or that one is missing.
fn push_odd_word(out: &mut Text, form: &Form, words: &[Text]) -> Result<(), NoMemory> {
    let at = form.understood(words);
    match words.get(at) {
        Some(word) => {
            push_quoted_bytes(out, word.as_slice())?;
            out.extend_from_slice(b" isn't understood there; accepted is ")?;
        }
        None => out.extend_from_slice(b"a word is missing; next stands ")?,
    }
    form.push_accepted(out, at)
}

// Appends that a word is no command.
fn push_no_command(out: &mut Text, word: &[u8]) -> Result<(), NoMemory> {
    push_quoted_bytes(out, word)?;
    out.extend_from_slice(b" is no command; the commands are eager")?;
    for form in FORMS.iter() {
        out.push(b' ')?;
        out.extend_from_slice(form.command)?;
    }
    Ok(())
}

// Appends why the words of a command have no form.
fn push_command_hint(out: &mut Text, command: &[u8], rest: &[Text]) -> Result<(), NoMemory> {
    match FORMS.iter().find(|form| form.command == command) {
        Some(form) => push_odd_word(out, form, rest),
        None => push_no_command(out, command),
    }
}

// Whether a command has an eager form.
fn has_eager_form(command: &[u8]) -> bool {
    [b"run".as_slice(), b"detect", b"deps", b"order", b"plan"]
        .iter()
        .any(|name| *name == command)
}

// Appends why words behind `eager` have no form.
fn push_eager_hint(out: &mut Text, words: &[Text]) -> Result<(), NoMemory> {
    match words.split_first() {
        Some((command, rest)) if has_eager_form(command.as_slice()) => {
            push_command_hint(out, command.as_slice(), rest)
        }
        _ => out.extend_from_slice(
            b"behind eager stands a form of run, detect, deps, order or plan",
        ),
    }
}

// Appends why words have no form.
fn push_words_hint(out: &mut Text, words: &[Text]) -> Result<(), NoMemory> {
    match words.split_first() {
        None => out.extend_from_slice(b"no command is given, or a word isn't UTF-8"),
        Some((command, rest)) if command.as_slice() == b"eager".as_slice() => {
            push_eager_hint(out, rest)
        }
        Some((command, rest)) => push_command_hint(out, command.as_slice(), rest),
    }
}

// What helps with a record of another suite; `impact` judges it by the suite text alone.
fn foreign_hint(words: &[Text]) -> &'static [u8] {
    let is_impact = match words.first() {
        Some(command) => command.as_slice() == b"impact".as_slice(),
        None => false,
    };
    if is_impact {
        b"the suite text changed since, so each test is to be run: run detect"
    } else {
        b"the classes changed since, or only one of suite and record is eager: run detect, or impact"
    }
}

// What helps with a refused input, where its fault line doesn't tell.
fn input_hint(words: &[Text], fault: &InputFault) -> &'static [u8] {
    match fault {
        InputFault::NeedsRecord => {
            b"`run SUITE - 1 all` alone goes without a record; `electric detect SUITE >RECORD` makes one"
        }
        InputFault::RecordForeign { .. } => foreign_hint(words),
        InputFault::RecordOld => {
            b"a record of version 1 doesn't say what each test reaches: run detect again"
        }
        InputFault::Record { .. } => {
            b"the file isn't a record of this suite: `electric detect SUITE >RECORD` makes one"
        }
        _ => b"",
    }
}

// Appends what helps with this status.
fn push_hint(out: &mut Text, words: &[Text], status: &Status) -> Result<(), NoMemory> {
    match status {
        Status::Words => push_words_hint(out, words),
        Status::Input(fault) => out.extend_from_slice(input_hint(words, fault)),
        Status::NoMemory => out.extend_from_slice(b"memory was refused, and nothing written"),
        Status::Sink => out.extend_from_slice(b"standard output failed"),
        Status::Done | Status::NotPassed | Status::Depot { .. } | Status::Over(_) => Ok(()),
    }
}

/// A line for standard error on how words ended, with its line feed; empty where nothing helps beside the fault line.
pub fn hint(alloc: Global, words: &[Text], status: &Status) -> Result<Text, NoMemory> {
    let mut told = Text::new(alloc);
    push_hint(&mut told, words, status)?;
    let mut out = Text::new(alloc);
    if !told.as_slice().is_empty() {
        out.extend_from_slice(b"hint: ")?;
        out.extend_from_slice(told.as_slice())?;
        out.extend_from_slice(b"; see electric --help\n")?;
    }
    Ok(out)
}
