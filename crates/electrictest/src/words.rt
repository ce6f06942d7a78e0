//! What the words of a command line ask for.

ghost use Rattle.std.specs.Prelude.{◌≡◌, ◌≤◌, ◌<◌, Ok, IfSome};
ghost use Rattle.electrictest.specs.Words as words_ask;

use dep_record::number_up_to;
use et_base::Text;
use suite_load::is_depot_name;

/// What is asked for.
#[derive(Clone, Copy, PartialEq, Eq)]
pub enum Command {
    /// `run SUITE - 1 all`: the whole suite, in order on one heap.
    Whole,
    /// `run SUITE RECORD N SEL`, with `log` or without: a selection's closure on so many workers.
    Run { workers: u32, log: bool },
    /// `detect SUITE`: the record of the suite's own run.
    Detect,
    /// `deps SUITE`, with `json` or without: the dependencies of that run.
    Deps { json: bool },
    /// `order SUITE RECORD ORDER`: the listed tests, in that order on one heap.
    Order,
    /// `plan SUITE RECORD N SEL`: the chains of a selection and the loads of so many workers.
    Plan { workers: u32 },
    /// `impact SUITE RECORD`: the tests that changed class files concern.
    Impact,
    /// `cones SUITE RECORD N SEL`: each selected test alone after what it needs, on so many workers.
    Cones { workers: u32 },
    /// `manifest SUITE RECORD`: what becomes of each test without one of its writers.
    Manifest,
    /// `gen K N`: a generated suite of so many tests on so many workers.
    Gen { tests: u32, workers: u32 },
    /// `quiet SUITE`: the classes of the suite whose initialisers can be taken out.
    Quiet,
}

/// Why words ask for nothing.
#[derive(Clone, Copy, Debug, PartialEq, Eq)]
pub enum WordsFault {
    /// They are in no form.
    NoForm,
    /// They name no record where one is needed.
    NeedsRecord,
}

/// The most workers, and the most generated tests.
const MOST_WORKERS: u64 = 16;

const MOST_TESTS: u64 = 1024;

// A count from 1 up to this.
fn count_up_to(most: u64, word: &[u8]) -> Option<u32>
    requires { most ≤ 1024 }
    ensures count { result ≡ words_ask.count_up_to most word.now }
    ensures positive { IfSome result (λ n. 0 < n) }
    ensures within { IfSome result (λ n. n ≤ most) }
{
    let count = number_up_to(most, word)?;
    if count == 0 { None } else { Some(count as u32) }
}

// What is asked for with a record, which may be missing.
fn with_record(kept: &[u8], command: Command) -> Result<Command, WordsFault>
    ensures asks { result ≡ words_ask.with_record kept.now command }
    ensures workers { words_ask.HasWorkers (Ok command) → words_ask.HasWorkers result }
{
    if kept == b"-".as_slice() {
        Err(WordsFault::NeedsRecord)
    } else if is_depot_name(kept) {
        Ok(command)
    } else {
        Err(WordsFault::NoForm)
    }
}

// Whether these are the words of a run without a record: that of the whole suite, by one worker.
fn is_whole(kept: &[u8], workers: u32, selection: &[u8], log: bool) -> bool
    ensures { result ≡ words_ask.is_whole kept.now workers selection.now log }
{
    kept == b"-".as_slice() && workers == 1 && selection == b"all".as_slice() && !log
}

// A run, and whether a log is asked for.
fn run_of(kept: &[u8], workers: u32, selection: &[u8], log: bool) -> Result<Command, WordsFault>
    requires { 0 < workers }
    ensures asks { result ≡ words_ask.run_of kept.now selection.now log workers }
    ensures workers { words_ask.HasWorkers result }
{
    if is_whole(kept, workers, selection, log) {
        Ok(Command::Whole)
    } else {
        with_record(kept, Command::Run { workers, log })
    }
}

// Whether these words are this command and the name of a suite.
fn is_of_suite(word: &[u8], command: &[u8], suite: &[u8]) -> bool
    ensures { result ≡ words_ask.is_of_suite word.now command.now suite.now }
{
    word == command && is_depot_name(suite)
}

// `detect SUITE`, `deps SUITE`, or `quiet SUITE`.
fn two_words(a: &[u8], b: &[u8]) -> Result<Command, WordsFault>
    ensures asks { result ≡ words_ask.two_words a.now b.now }
    ensures workers { words_ask.HasWorkers result }
{
    if is_of_suite(a, b"detect", b) {
        Ok(Command::Detect)
    } else if is_of_suite(a, b"deps", b) {
        Ok(Command::Deps { json: false })
    } else if is_of_suite(a, b"quiet", b) {
        Ok(Command::Quiet)
    } else {
        Err(WordsFault::NoForm)
    }
}

// `gen K N`.
fn gen_of(b: &[u8], c: &[u8]) -> Result<Command, WordsFault>
    ensures asks { result ≡ words_ask.gen_of b.now c.now }
    ensures workers { words_ask.HasWorkers result }
{
    let Some(tests) = count_up_to(MOST_TESTS, b) else {
        return Err(WordsFault::NoForm);
    };
    match count_up_to(MOST_WORKERS, c) {
        Some(workers) => Ok(Command::Gen { tests, workers }),
        None => Err(WordsFault::NoForm),
    }
}

// `deps SUITE json`, `impact SUITE RECORD`, `manifest SUITE RECORD`, or `gen K N`.
fn three_words(a: &[u8], b: &[u8], c: &[u8]) -> Result<Command, WordsFault>
    ensures asks { result ≡ words_ask.three_words a.now b.now c.now }
    ensures workers { words_ask.HasWorkers result }
{
    if is_of_suite(a, b"deps", b) && c == b"json".as_slice() {
        Ok(Command::Deps { json: true })
    } else if is_of_suite(a, b"impact", b) && is_depot_name(c) {
        Ok(Command::Impact)
    } else if is_of_suite(a, b"manifest", b) && is_depot_name(c) {
        Ok(Command::Manifest)
    } else if a == b"gen".as_slice() {
        gen_of(b, c)
    } else {
        Err(WordsFault::NoForm)
    }
}

// `order SUITE RECORD ORDER`.
fn four_words(a: &[u8], b: &[u8], c: &[u8]) -> Result<Command, WordsFault>
    ensures asks { result ≡ words_ask.four_words a.now b.now c.now }
    ensures workers { words_ask.HasWorkers result }
{
    if is_of_suite(a, b"order", b) {
        with_record(c, Command::Order)
    } else {
        Err(WordsFault::NoForm)
    }
}

// `plan SUITE RECORD N SEL`, where the first word is that.
fn plan_of(c: &[u8], d: &[u8]) -> Result<Command, WordsFault>
    ensures asks { result ≡ words_ask.plan_in c.now d.now }
    ensures workers { words_ask.HasWorkers result }
{
    match count_up_to(MOST_WORKERS, d) {
        Some(workers) => with_record(c, Command::Plan { workers }),
        None => Err(WordsFault::NoForm),
    }
}

// `cones SUITE RECORD N SEL`, where the first word is that.
fn cones_in(c: &[u8], d: &[u8]) -> Result<Command, WordsFault>
    ensures asks { result ≡ words_ask.cones_in c.now d.now }
    ensures workers { words_ask.HasWorkers result }
{
    match count_up_to(MOST_WORKERS, d) {
        Some(workers) if is_depot_name(c) => Ok(Command::Cones { workers }),
        _ => Err(WordsFault::NoForm),
    }
}

// `run SUITE RECORD N SEL`, where the first word is that, with `log` behind it or without.
fn run_in(c: &[u8], d: &[u8], e: &[u8], log: bool) -> Result<Command, WordsFault>
    ensures asks { result ≡ words_ask.run_in c.now d.now e.now log }
    ensures workers { words_ask.HasWorkers result }
{
    match count_up_to(MOST_WORKERS, d) {
        Some(workers) => run_of(c, workers, e, log),
        None => Err(WordsFault::NoForm),
    }
}

// `plan SUITE RECORD N SEL`, `cones SUITE RECORD N SEL`, or `run SUITE RECORD N SEL`.
fn five_words(a: &[u8], b: &[u8], c: &[u8], d: &[u8], e: &[u8]) -> Result<Command, WordsFault>
    ensures asks { result ≡ words_ask.five_words a.now b.now c.now d.now e.now }
    ensures workers { words_ask.HasWorkers result }
{
    if is_of_suite(a, b"plan", b) {
        plan_of(c, d)
    } else if is_of_suite(a, b"cones", b) {
        cones_in(c, d)
    } else if is_of_suite(a, b"run", b) {
        run_in(c, d, e, false)
    } else {
        Err(WordsFault::NoForm)
    }
}

// `run SUITE RECORD N SEL log`.
fn six_words(
    a: &[u8],
    b: &[u8],
    c: &[u8],
    d: &[u8],
    e: &[u8],
    f: &[u8],
) -> Result<Command, WordsFault>
    ensures asks { result ≡ words_ask.six_words a.now b.now c.now d.now e.now f.now }
    ensures workers { words_ask.HasWorkers result }
{
    if is_of_suite(a, b"run", b) && f == b"log".as_slice() {
        run_in(c, d, e, true)
    } else {
        Err(WordsFault::NoForm)
    }
}

// What the words of a form ask for.
#[tactic(auto, unfolding(crate::specs::Words::form_of))]
fn form_of(words: &[Text]) -> Result<Command, WordsFault>
    ensures asks { result ≡ words_ask.form_of words.now }
    ensures workers { words_ask.HasWorkers result }
{
    match words {
        [a, b] => two_words(a.as_slice(), b.as_slice()),
        [a, b, c] => three_words(a.as_slice(), b.as_slice(), c.as_slice()),
        [a, b, c, _] => four_words(a.as_slice(), b.as_slice(), c.as_slice()),
        [a, b, c, d, e] => five_words(
            a.as_slice(),
            b.as_slice(),
            c.as_slice(),
            d.as_slice(),
            e.as_slice(),
        ),
        [a, b, c, d, e, f] => six_words(
            a.as_slice(),
            b.as_slice(),
            c.as_slice(),
            d.as_slice(),
            e.as_slice(),
            f.as_slice(),
        ),
        _ => Err(WordsFault::NoForm),
    }
}

/// Whether `eager` stands before the words of a form.
pub fn is_eager(words: &[Text]) -> bool
    ensures { result ≡ words_ask.is_eager words.now }
{
    match words {
        [] => false,
        [word, ..] => word.as_slice() == b"eager".as_slice(),
    }
}

/// The words of the form itself.
pub fn form_words(words: &[Text]) -> &[Text]
    ensures { result.now ≡ words_ask.form_words words.now }
{
    if is_eager(words) { &words[1..] } else { words }
}

// Whether there is an eager form of a command: those that run the tests of a suite have one, and a plan of them.
fn has_eager(command: Command) -> bool
    ensures { result ≡ words_ask.has_eager command }
{
    match command {
        Command::Whole
        | Command::Run { .. }
        | Command::Detect
        | Command::Deps { .. }
        | Command::Order
        | Command::Plan { .. } => true,
        _ => false,
    }
}

// Whether a command waits for threads.
fn waits(command: Command) -> bool
    ensures { result ≡ words_ask.waits command }
{
    match command {
        Command::Run { .. } | Command::Cones { .. } | Command::Gen { .. } => true,
        _ => false,
    }
}

// What is asked for, where it has an eager form.
fn eager_of(asking: Result<Command, WordsFault>) -> Result<Command, WordsFault>
    requires { words_ask.HasWorkers asking }
    ensures asks { result ≡ words_ask.only words_ask.has_eager asking }
    ensures workers { words_ask.HasWorkers result }
{
    match asking {
        Ok(command) if has_eager(command) => Ok(command),
        Ok(_) => Err(WordsFault::NoForm),
        Err(fault) => Err(fault),
    }
}

/// What the words ask for.
pub fn command_of(words: &[Text]) -> Result<Command, WordsFault>
    ensures asks { result ≡ words_ask.command_of words.now }
    ensures workers { words_ask.HasWorkers result }
{
    let form = form_of(form_words(words));
    if is_eager(words) {
        eager_of(form)
    } else {
        form
    }
}

/// Of what is asked for, what is served without threads.
pub fn plain_of(asking: Result<Command, WordsFault>) -> Result<Command, WordsFault>
    requires { words_ask.HasWorkers asking }
    ensures plain { result ≡ words_ask.plain_of asking }
    ensures served { words_ask.IsServed result }
    ensures workers { words_ask.HasWorkers result }
{
    match asking {
        Ok(command) if waits(command) => Err(WordsFault::NoForm),
        Ok(command) => Ok(command),
        Err(fault) => Err(fault),
    }
}
