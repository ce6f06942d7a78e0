//! The program `electric`: the words of the command line, the files of the current folder and
//! standard output.
//!
//! Begin with `main`, which hands the words to `answer` over a `FolderDepot` and a `StdSink`, and then
//! has `delivered` hand on what is gathered for it.
//! `answer`, over any depot and sink, hands them to `electrictest`'s `electric` as they came, and
//! has the `served`, `taken` and `ends` of that call (`docs/CLAIMS.md`): of the folder, for whichever
//! files agree with what its reads answered. `exit_code` is the status's code. `main` has no clause.
//!
//! - `heard.rt` is a sink that keeps the fault line that goes through it; contracts see the sink
//!   behind it alone.
//! - `gathered.rt` is a sink that hands many lines on as one; it shows what the sink behind it took
//!   with what is still gathered.
//! - `hints.rt` says on standard error which word isn't understood, and what is accepted there.
//! - `progress.rt` is a gate that tells a terminal on standard error how many tests were begun.
//!
//! Neither of these two is part of a promise, and standard output stays what is proved of it, byte for byte.
//! The files beside `src` (`args`, `data`, `stdout`) are what the gate runs the program on, and
//! what it has to write.
#![tactic(auto)]

ghost use Rattle.std.specs.Prelude.{◌≡◌, ◌⊎◌, ◌<◌, [], None, IfSome, option_map};
ghost use Rattle.std.specs.Process.{exit_status};
ghost use Rattle.outside.specs.Counts.{Rose};
ghost use Rattle.electrictest.specs.declared.status.Status.TheVariants as ends;
ghost use Rattle.electrictest.specs.{Commands.Writes, Codes.code_of};
ghost use Rattle.electric.specs.{Answers.Answers, Answers.word_text, Answers.words_text, Gathered.HandedOn};

mod gathered;
mod heard;
mod hints;
mod progress;

use crate::gathered::Gathered;
use crate::heard::Heard;
use crate::hints::hint;
use crate::progress::Progress;
use electrictest::{Status, electric, written};
use et_base::{Items, Text};
use outside::{Depot, FolderDepot, Gate, Sink, StdSink, Steps};
use std::alloc::Global;
use std::env;
use std::io::{ErrorKind, IsTerminal, Print, Write};
use std::marker::Brand;
use std::process::ExitCode;
use std::sync::Wait;
use std::sync::ledger::{Blank, Ledger};
use std::thread::Threads;

type Folder<'a> = FolderDepot<'a, HostRuntime>;

type Output<'a> = Heard<Gathered<StdSink<'a, HostRuntime>>>;

const HELP: &[u8] = b"electric runs the tests of a suite of Java class files.

  electric run SUITE - 1 all            run the whole suite and write its report
  electric detect SUITE                 run the whole suite and write the record of its dependences
  electric deps SUITE                   run the whole suite and write its dependences; with json behind it, as JSON
  electric order SUITE RECORD ORDER     run the tests of ORDER in that order
  electric run SUITE RECORD N SEL       run a selection, with the tests that it needs, on N workers
  electric run SUITE RECORD N SEL log   the same, and write who ran what behind the report
  electric plan SUITE RECORD N SEL      write the chains of a selection and the loads of N workers
  electric impact SUITE RECORD          write which class files changed since the record, and the tests to run again
  electric cones SUITE RECORD N SEL     run each selected test alone after those that it needs, on N workers
  electric manifest SUITE RECORD        write what becomes of each test without one of those that it reads from
  electric quiet SUITE                  write the classes whose initialisers only set constants
  electric eager FORM                   run, detect, deps, order or plan, as above, with these constants set from the start
  electric gen K N                      run a generated suite of K tests on N workers and write its summary
  electric --help                       write this text
  electric --version                    write the version

SUITE is the name of a suite text in the current folder; the class files that it names lie beside it. RECORD is the name of
the suite's record; impact takes the one from before class files changed. ORDER and SEL are names of tests joined by
commas; SEL may be `all`. N is 1 to 16, and K 1 to 1024.

The exit status is 0 where the text was written and each test that ran passed, 1 where it was written and a test did
not pass, 2 for words in no form, 3 for a refused suite, record or order, 4 for want of memory, 5 where a file could
not be read, 6 where standard output failed, and 7 where a test or the suite passed its number of units.

docs/USAGE.md in the program's repository says more.
";

const VERSION: &[u8] = b"electric 0.1.0\n";

// The words of the command line, without the program's own name. Where one isn't UTF-8 there are none, which is no
// form of a command.
fn words(rt: &HostRuntime) -> Result<Items<Text>, Status> {
    let alloc = rt.alloc();
    let mut words = Items::new(alloc);
    let mut args = match env::args(rt) {
        Ok(args) => args,
        Err(error) => {
            return match error.kind() {
                ErrorKind::OutOfMemory => Err(Status::NoMemory),
                _ => Ok(words),
            };
        }
    };
    let _program = args.next();
    for arg in args {
        let mut word = Text::new(alloc);
        word.extend_from_slice(arg.as_bytes())?;
        words.push(word)?;
    }
    Ok(words)
}

// The text of `--help` or `--version`.
fn text_of(word: &[u8]) -> Option<&'static [u8]>
    ensures { option_map (λ text. text.now) result ≡ word_text word.now }
{
    if word == b"--help".as_slice() {
        Some(HELP)
    } else if word == b"--version".as_slice() {
        Some(VERSION)
    } else {
        None
    }
}

// The text of `--help` or `--version`, where it stands alone.
fn fixed_text(words: &[Text]) -> Option<&'static [u8]>
    ensures { option_map (λ text. text.now) result ≡ words_text words.now }
{
    match words {
        [word] => text_of(word.as_slice()),
        _ => None,
    }
}

// Answers the words on a sink: `--help` and `--version` by their texts, and others over a depot.
fn answer<R, D, S, G, L>(
    rt: &R,
    alloc: Global,
    words: &[Text],
    depot: &mut D,
    sink: &mut S,
    gate: &G,
    blank: Blank,
) -> Status
where
    R: Threads + Wait + Sync,
    D: Depot,
    S: Sink,
    G: Gate + Sync,
    L: Ledger,
    requires name { blank.name ≡ L.name }
    requires parts { blank.parts ≡ L.parts }
    requires some { 0 < blank.parts }
    ensures fixed { IfSome (words_text words.now) (λ text.
        Writes text ends.Done result (S.shown sink.old) (S.shown sink.new)) }
    ensures served { let depot_now = D.shown depot.new in words_text words.now ≡ None →
        Answers words.now result (D.shown depot.old) depot_now (S.shown sink.old) (S.shown sink.new) }
{
    match fixed_text(words) {
        Some(text) => written(sink, text, Status::Done),
        None => {
            let mut steps = Steps::<L>::new(blank);
            electric(rt, alloc, words, depot, sink, gate, &mut steps)
        }
    }
}

// Hands on what is gathered. The status stands where that succeeds, and is `Sink` where the sink failed.
fn delivered<S: Sink + Drop>(sink: &mut Gathered<S>, status: Status) -> Status
    ensures handed { HandedOn
        (S.shown sink.old.sink) (S.shown sink.new.sink) sink.old.bytes sink.new.bytes }
    ensures ends { let faults = (S.shown sink.new.sink).faults in
        ((result ≡ status) × (sink.new.bytes ≡ []))
        ⊎ ((result ≡ ends.Sink) × Rose (S.shown sink.old.sink).faults faults) }
{
    match sink.flush() {
        Ok(()) => status,
        Err(_) => Status::Sink,
    }
}

// The exit code of a status.
fn exit_code(status: &Status) -> ExitCode
    ensures { exit_status result ≡ code_of status.now }
{
    ExitCode::from(status.code())
}

// Says on standard error what a refusal was, where standard output isn't a terminal, and what helps with it. Nothing depends
// on whether that succeeds.
fn explain(rt: &HostRuntime, words: &[Text], line: &[u8], status: &Status) {
    let mut errors = rt.stderr();
    if !rt.stdout().is_terminal() {
        let _told = errors.write_all(line);
    }
    if let Ok(text) = hint(rt.alloc(), words, status) {
        let _told = errors.write_all(text.as_slice());
    }
}

fn main(rt: HostRuntime) -> ExitCode {
    let alloc = rt.alloc();
    let words = match words(&rt) {
        Ok(words) => words,
        Err(status) => return exit_code(&status),
    };
    let words = words.as_slice();
    let mut sink = Heard::new(alloc, Gathered::new(alloc, StdSink::new(&rt)));
    let status = match String::from_str(alloc, ".") {
        Ok(folder) => answer::<HostRuntime, Folder<'_>, Output<'_>, Progress<'_>, Brand>(
            &rt,
            alloc,
            words,
            &mut FolderDepot::new(&rt, alloc, folder),
            &mut sink,
            &Progress::new(&rt),
            Blank::new(1),
        ),
        Err(_) => Status::NoMemory,
    };
    let (mut output, line) = sink.into_parts();
    let status = delivered(&mut output, status);
    explain(&rt, words, line.as_slice(), &status);
    exit_code(&status)
}
