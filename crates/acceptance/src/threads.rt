//! Workers in threads, and a board on one thread.

ghost use Rattle.std.specs.Prelude.{◌≡◌, ◌<◌, ◌≤◌, ◌∷◌, [], length, IfOk, IfSome};
ghost use Rattle.worker_pool.specs.Plans.{HaveTests};

use crate::asking::{File, depot, sink, words};
use crate::files::{COUNTER_CLASS, COUNTER_SUITE, P_CLASS, PAIRS_RECORD, PAIRS_SUITE};
use crate::turns::Turns;
use electrictest::{Status, electric};
use et_base::{Items, NoMemory, Text};
use order_law::Chains;
use outside::{Depot, OpenGate, Sink, Steps};
use run_core::{Core, Refused, RunName};
use schedule_plan::{Share, WorkPlan};
use std::alloc::Global;
use std::marker::Brand;
use std::sync::Wait;
use std::sync::ledger::{Blank, Ledger};
use std::test::Fail;
use std::thread::Threads;
use suite_load::{Loaded, load};
use test_run::{Machine, Piece};
use type_frames::Checked;
use verdict_board::Board;
use vm_heap::RegionMemory;
use worker_pool::{run_plan, work_plan};

const COUNTER_FILES: [File; 2] = [(b"s", COUNTER_SUITE), (b"Counter.class", &COUNTER_CLASS)];

const PAIRS_FILES: [File; 4] = [
    (b"s", PAIRS_SUITE),
    (b"r", PAIRS_RECORD),
    (b"Counter.class", &COUNTER_CLASS),
    (b"P.class", &P_CLASS),
];

const RUN_ON_TWO: [&[u8]; 6] = [b"run", b"s", b"r", b"2", b"all", b"log"];

const CONES_ON_TWO: [&[u8]; 5] = [b"cones", b"s", b"r", b"2", b"Counter.set,P.read"];

const CONES_BEGIN: &[u8] = b"electric-cones 1\nselected 2 ran 2\n";

// The program of a suite that has two tests.
fn of_two_tests(loaded: Loaded) -> Option<Checked>
    ensures { IfSome result (λ p. length p.tests ≡ 2) }
{
    let checked = loaded.checked;
    if checked.program().tests.len() == 2 {
        Some(checked)
    } else {
        None
    }
}

// The program of a counter and its two tests, if it is loaded.
fn counter(alloc: Global) -> Result<Option<Checked>, NoMemory>
    ensures { IfOk result (λ o. IfSome o (λ p. length p.tests ≡ 2)) }
{
    let mut depot = depot(alloc, &COUNTER_FILES, &[])?;
    let name = Text::from_slice(alloc, b"s")?;
    Ok(match load(alloc, &mut depot, &name) {
        Ok(loaded) => of_two_tests(loaded),
        Err(_) => None,
    })
}

// A chain of each of the two tests.
#[tactic(auto, unfolding(order_law::specs::RecordForm::are_chains))]
fn two_chains(alloc: Global) -> Result<Chains, NoMemory>
    ensures { IfOk result (λ c. c.lists ≡ (1 ∷ []) ∷ (2 ∷ []) ∷ []) }
{
    let mut lists = Items::new(alloc);
    lists.push(Items::from_slice(alloc, &[1])?)?;
    lists.push(Items::from_slice(alloc, &[2])?)?;
    Ok(Chains { lists })
}

// The second worker holds nothing, so it runs what it steals.
fn one_share(alloc: Global) -> Result<WorkPlan, NoMemory>
    ensures { IfOk result (λ w. length w.shares ≡ 2) }
{
    let mut shares = Items::new(alloc);
    shares.push(Share {
        chains: Items::from_slice(alloc, &[0, 1])?,
        load: 0,
    })?;
    shares.push(Share {
        chains: Items::new(alloc),
        load: 0,
    })?;
    Ok(WorkPlan { shares })
}

// Whether a plan is run to its end, on a ledger of its own.
fn is_run_on<R: Threads + Wait + Sync, L: Ledger>(
    rt: &R,
    alloc: Global,
    p: &Checked,
    chains: &Chains,
    plan: &WorkPlan,
    gate: &Turns,
    blank: Blank,
) -> bool
    requires name { blank.name ≡ L.name }
    requires parts { blank.parts ≡ L.parts }
    requires some { 0 < blank.parts }
    requires tests { HaveTests p.now chains.now.lists }
    requires workers { 0 < length plan.now.shares }
{
    let mut steps = Steps::<L>::new(blank);
    run_plan(rt, alloc, p, chains, plan, gate, &mut steps).is_ok()
}

// Whether a plan is run to its end.
fn is_run<R: Threads + Wait + Sync>(
    rt: &R,
    alloc: Global,
    p: &Checked,
    chains: &Chains,
    plan: &WorkPlan,
    gate: &Turns,
) -> bool
    requires tests { HaveTests p.now chains.now.lists }
    requires workers { 0 < length plan.now.shares }
{
    is_run_on::<R, Brand>(rt, alloc, p, chains, plan, gate, Blank::new(1))
}

// Whether two workers run two tests, where the first holds the chains of both.
fn is_shared<R: Threads + Wait + Sync>(
    rt: &R,
    alloc: Global,
    p: &Checked,
    gate: &Turns,
) -> Result<bool, NoMemory>
    requires { length p.now.tests ≡ 2 }
{
    let chains = two_chains(alloc)?;
    let plan = one_share(alloc)?;
    Ok(is_run(rt, alloc, p, &chains, &plan, gate))
}

// Whether two workers run the tests of the counter, where the first holds the chains of both.
fn is_counted<R: Threads + Wait + Sync>(
    rt: &R,
    alloc: Global,
    gate: &Turns,
) -> Result<bool, NoMemory> {
    match counter(alloc)? {
        Some(p) => is_shared(rt, alloc, &p, gate),
        None => Ok(false),
    }
}

#[test]
fn a_worker_steals_while_another_is_held(rt: HostRuntime) -> Result<(), Fail> {
    let gate = Turns::new(1, 2);
    assert!(rt; is_counted(&rt, rt.alloc(), &gate)?);
    assert_eq!(rt; gate.passed(), 2);
    assert_eq!(rt; gate.number(2), 1);
    assert!(rt; gate.worker(1) != gate.worker(2));
    Ok(())
}

// A plan for so many workers, of which the first holds the second chain and the last the first one.
fn far_shares(alloc: Global, workers: u32) -> Result<WorkPlan, NoMemory> {
    let mut shares = Items::new(alloc);
    for place in 0..workers {
        let mut chains = Items::new(alloc);
        if place == 0 {
            chains.push(1)?;
        }
        if place + 1 == workers {
            chains.push(0)?;
        }
        shares.push(Share { chains, load: 0 })?;
    }
    Ok(WorkPlan { shares })
}

// Whether both tests are posted where the workers have ended, before the caller runs what they left.
fn is_all_posted<R: Threads + Wait + Sync>(
    rt: &R,
    alloc: Global,
    p: &Checked,
    workers: u32,
) -> Result<bool, NoMemory>
    requires { length p.now.tests ≡ 2 }
{
    let chains = two_chains(alloc)?;
    let plan = far_shares(alloc, workers)?;
    let core = work_plan(rt, alloc, p, &chains, &plan, &OpenGate::new())?;
    Ok(core.is_complete())
}

// Whether so many workers leave nothing of the counter's tests.
fn is_nothing_left<R: Threads + Wait + Sync>(
    rt: &R,
    alloc: Global,
    workers: u32,
) -> Result<bool, NoMemory> {
    match counter(alloc)? {
        Some(p) => is_all_posted(rt, alloc, &p, workers),
        None => Ok(false),
    }
}

#[test]
fn workers_leave_nothing(rt: HostRuntime) -> Result<(), Fail> {
    for workers in [1, 4, 16] {
        assert!(rt; is_nothing_left(&rt, rt.alloc(), workers)?);
    }
    Ok(())
}

// Where a line stands in a text for the first time, and how often it does.
fn found(text: &[u8], line: &[u8]) -> (usize, usize) {
    let mut first = text.len();
    let mut times = 0usize;
    for at in 0..text.len() {
        if text[at..].starts_with(line) {
            first = first.min(at);
            times = times.saturating_add(1);
        }
    }
    (first, times)
}

// Where the post of a test stands in a log, by the worker that entered it, if it stands there once.
fn place_of(alloc: Global, log: &[u8], gate: &Turns, test: u32) -> Result<Option<usize>, NoMemory> {
    let line = format!(in alloc; "\npost {} {test}\n", gate.worker(test))?;
    let (at, times) = found(log, line.as_bytes());
    Ok(if times == 1 { Some(at) } else { None })
}

// Whether the post of a test stands in a log once, and before each one that must come later by what was let pass.
fn is_placed(alloc: Global, log: &[u8], gate: &Turns, test: u32) -> Result<bool, NoMemory> {
    let place = place_of(alloc, log, gate, test)?;
    let mut right = place.is_some();
    for other in 1..5 {
        let later = place_of(alloc, log, gate, other)?;
        right = right && (place < later || !gate.is_posted_before(test, other));
    }
    Ok(right)
}

// Whether the posts of a log are those of the four entries, each once, in an order that the entries allow.
fn is_log_of(alloc: Global, log: &[u8], gate: &Turns) -> Result<bool, NoMemory> {
    let mut right = found(log, b"\npost ").1 == 4;
    for test in 1..5 {
        right = right && is_placed(alloc, log, gate, test)?;
    }
    Ok(right)
}

// Answers the words on a ledger of its own.
fn electric_on<R: Threads + Wait + Sync, D: Depot, S: Sink, L: Ledger>(
    rt: &R,
    alloc: Global,
    words: &[Text],
    depot: &mut D,
    sink: &mut S,
    gate: &Turns,
    blank: Blank,
) -> Status
    requires name { blank.name ≡ L.name }
    requires parts { blank.parts ≡ L.parts }
    requires some { 0 < blank.parts }
{
    let mut steps = Steps::<L>::new(blank);
    electric(rt, alloc, words, depot, sink, gate, &mut steps)
}

/// Answers the words; what its ledger counts is dropped.
pub fn status_of<R: Threads + Wait + Sync, D: Depot, S: Sink>(
    rt: &R,
    alloc: Global,
    words: &[Text],
    depot: &mut D,
    sink: &mut S,
    gate: &Turns,
) -> Status {
    electric_on::<R, D, S, Brand>(rt, alloc, words, depot, sink, gate, Blank::new(1))
}

// Whether a run of the four tests is answered, and its log is that of what the gate let pass.
fn has_its_log<R: Threads + Wait + Sync>(
    rt: &R,
    alloc: Global,
    gate: &Turns,
) -> Result<bool, NoMemory> {
    let words = words(alloc, &RUN_ON_TWO)?;
    let mut depot = depot(alloc, &PAIRS_FILES, &[])?;
    let mut sink = sink(alloc, 1000, 1000, &[])?;
    let status = status_of(rt, alloc, words.as_slice(), &mut depot, &mut sink, gate);
    Ok(status.code() == 0 && is_log_of(alloc, sink.held(), gate)?)
}

#[test]
fn a_log_is_that_of_the_threads(rt: HostRuntime) -> Result<(), Fail> {
    for (held, awaited, before) in [(1, 4, 3), (3, 2, 1)] {
        let gate = Turns::new(held, awaited);
        assert!(rt; has_its_log(&rt, rt.alloc(), &gate)?);
        assert!(rt; gate.is_posted_before(before, held));
    }
    Ok(())
}

// Whether the cones of two tests that need no other are answered.
fn are_coned<R: Threads + Wait + Sync>(
    rt: &R,
    alloc: Global,
    gate: &Turns,
) -> Result<bool, NoMemory> {
    let words = words(alloc, &CONES_ON_TWO)?;
    let mut depot = depot(alloc, &PAIRS_FILES, &[])?;
    let mut sink = sink(alloc, 1000, 1000, &[])?;
    let status = status_of(rt, alloc, words.as_slice(), &mut depot, &mut sink, gate);
    Ok(status.code() == 0 && sink.held().starts_with(CONES_BEGIN))
}

#[test]
fn a_cone_is_run_while_another_is_held(rt: HostRuntime) -> Result<(), Fail> {
    for (held, awaited) in [(1, 3), (3, 1)] {
        let gate = Turns::new(held, awaited);
        assert!(rt; are_coned(&rt, rt.alloc(), &gate)?);
        assert_eq!(rt; gate.passed(), 2);
        assert!(rt; gate.number(awaited) < gate.number(held));
    }
    Ok(())
}

// What a test gives on a fresh machine of a worker, on a ledger of its own.
fn piece_on<L: Ledger>(
    alloc: Global,
    p: &Checked,
    worker: u32,
    test: u32,
    blank: Blank,
) -> Result<Option<Piece>, NoMemory>
    requires name { blank.name ≡ L.name }
    requires parts { blank.parts ≡ L.parts }
    requires some { 0 < blank.parts }
    requires test { (0 < test) × (test ≤ length p.now.tests) }
    ensures { IfOk result (λ o. IfSome o (λ x. (x.program ≡ p.now) × (x.worker ≡ worker))) }
{
    let memory = RegionMemory::opening(alloc, p.program())?;
    let mut machine = Machine::new(alloc, p, worker, memory)?;
    let mut steps = Steps::<L>::new(blank);
    let given = machine.run_test(test, &mut steps);
    drop(machine);
    match given {
        Ok(piece) => Ok(Some(piece)),
        Err(_) => Ok(None),
    }
}

// What a test gives on a fresh machine of a worker.
fn piece_of(alloc: Global, p: &Checked, worker: u32, test: u32) -> Result<Option<Piece>, NoMemory>
    requires test { (0 < test) × (test ≤ length p.now.tests) }
    ensures { IfOk result (λ o. IfSome o (λ x. (x.program ≡ p.now) × (x.worker ≡ worker))) }
{
    piece_on::<Brand>(alloc, p, worker, test, Blank::new(1))
}

// What two workers post: the second one its test before it has claimed the chain of it, the first one its own, and the
// second one its test once more.
#[derive(Drop)]
struct Pieces {
    early: Piece,
    first: Piece,
    second: Piece,
}

// The pieces of two tests, if each gives one.
fn pieces_of(alloc: Global, p: &Checked) -> Result<Option<Pieces>, NoMemory>
    requires { length p.now.tests ≡ 2 }
    ensures { IfOk result (λ o. IfSome o (λ x. (x.early.program ≡ p.now) × (x.early.worker ≡ 2)
        × (x.first.program ≡ p.now) × (x.first.worker ≡ 1)
        × (x.second.program ≡ p.now) × (x.second.worker ≡ 2))) }
{
    let Some(early) = piece_of(alloc, p, 2, 2)? else {
        return Ok(None);
    };
    let Some(first) = piece_of(alloc, p, 1, 1)? else {
        return Ok(None);
    };
    let Some(second) = piece_of(alloc, p, 2, 2)? else {
        return Ok(None);
    };
    Ok(Some(Pieces {
        early,
        first,
        second,
    }))
}

// What the board of a run answers two workers in turn; whether it is that of a plain list of claims and posts.
fn answers_in_turn<N: RunName, R: Wait>(rt: &R, core: Core, pieces: Pieces) -> bool
    requires run { (core.program ≡ N.program) × (core.chains ≡ N.chains)
        × (core.workers ≡ N.workers) }
    requires chains { length N.chains ≡ 2 }
    requires workers { N.workers ≡ 2 }
    requires pieces { (pieces.early.program ≡ N.program) × (pieces.early.worker ≡ 2)
        × (pieces.first.program ≡ N.program) × (pieces.first.worker ≡ 1)
        × (pieces.second.program ≡ N.program) × (pieces.second.worker ≡ 2) }
{
    let Pieces {
        early,
        first,
        second,
    } = pieces;
    let board = Board::<N>::new(core);
    let claimed = board.claim(rt, 1, 1).is_ok();
    let taken = board.claim(rt, 2, 1) == Err(Refused::Taken { by: 1 });
    let in_hand = board.claim(rt, 1, 2) == Err(Refused::InHand { chain: 1 });
    let idle = match board.post(rt, early) {
        Ok(()) => false,
        Err(rejected) => rejected.why == Refused::Idle,
    };
    let other = board.claim(rt, 2, 2).is_ok();
    let posted = board.post(rt, first).is_ok() && !board.is_complete(rt);
    let last = board.post(rt, second).is_ok() && board.is_complete(rt);
    claimed && taken && in_hand && idle && other && posted && last
}

// Whether the board of a run of two chains by two workers answers as its core does.
fn is_answered<R: Wait>(rt: &R, alloc: Global, p: &Checked) -> Result<bool, NoMemory>
    requires { length p.now.tests ≡ 2 }
{
    let Some(pieces) = pieces_of(alloc, p)? else {
        return Ok(false);
    };
    let core = Core::new(alloc, p.program(), two_chains(alloc)?, 2)?;
    Ok(answers_in_turn::<Brand, R>(rt, core, pieces))
}

// Whether the board of a run of the counter answers as its core does.
fn board_answers<R: Wait>(rt: &R, alloc: Global) -> Result<bool, NoMemory> {
    match counter(alloc)? {
        Some(p) => is_answered(rt, alloc, &p),
        None => Ok(false),
    }
}

#[test]
fn a_board_hands_on_the_answers_of_its_core(rt: HostRuntime) -> Result<(), Fail> {
    assert!(rt; board_answers(&rt, rt.alloc())?);
    Ok(())
}
