//! The cones of selected tests on workers.

ghost use Rattle.std.specs.Prelude.{◌≡◌, ◌+◌, ◌<◌, ◌≤◌, ◌^◌, All, length, get_or, slice_set, sum_by, vec_len, None, IfOk, IfErr, IfSome};
ghost use Rattle.jvm_model.specs.Suite.{opening};
ghost use Rattle.order_law.specs.{Conflicts.Member, Plan.Ascending};
ghost use Rattle.dep_graph.specs.Graphs.{GoUp};
ghost use Rattle.test_run.specs.Running.{IsTest};
ghost use Rattle.cone_run.specs.{Books.posted_units, Runs.IsListFault};
ghost use Rattle.cone_run.specs.Cones.{AreCones, AreConesOf, IsCone, IsConeFault, IsConeOf, IsConeSuite, cone_units};

use crate::book::{Book, BookName};
use crate::jobs::ConeJobs;
use crate::runs::run_alone;
use dep_graph::Graph;
use et_base::{Items, NoMemory};
use job_pool::{Slot, fresh_machine, slots_of, work_all};
use outside::{Gate, Steps};
use selection_close::close;
use std::alloc::Global;
use std::marker::Brand;
use std::sync::ledger::Ledger;
use std::sync::{Mutex, Wait};
use std::thread::Threads;
use test_run::{Machine, Piece, RunFault};
use type_frames::Checked;
use vm_heap::RegionMemory;

/// The cone of each test of a selection. The only error is want of memory.
fn cones_of(alloc: Global, g: &Graph, sel: &[u32]) -> Result<Items<Items<u32>>, NoMemory>
    ensures { IfOk result (AreCones g.now sel.now) }
{
    let mut lists = Items::new(alloc);
    for index in 0..sel.len() {
        lists.push(close(alloc, g, &[sel[index]])?)?;
    }
    Ok(lists)
}

/// Each `workers`-th of so many numbers, from one on. The only error is want of memory.
fn share_of(alloc: Global, numbers: u32, workers: u32, from: u32) -> Result<Items<u32>, NoMemory>
    requires { 0 < workers }
    ensures { IfOk result (λ l. length l < 2 ^ 32) }
{
    let mut share = Items::new(alloc);
    for number in 0..numbers {
        if number % workers == from {
            share.push(number)?;
        }
    }
    Ok(share)
}

/// So many numbers, dealt round to workers. The only error is want of memory.
fn deal(alloc: Global, numbers: u32, workers: u32) -> Result<Items<Items<u32>>, NoMemory>
    requires { 0 < workers }
    ensures many { IfOk result (λ shares. length shares ≡ workers) }
    ensures short { IfOk result (All (λ l. length l < 2 ^ 32)) }
{
    let mut shares = Items::new(alloc);
    for worker in 0..workers {
        shares.push(share_of(alloc, numbers, workers, worker)?)?;
    }
    Ok(shares)
}

/// The piece at a place, taken out.
fn taken(pieces: &mut Vec<Option<Piece>>, place: usize) -> Option<Piece>
    requires { place < length pieces.old.items }
    ensures piece { result ≡ get_or pieces.old.items place None }
    ensures left { pieces.new.items ≡ slice_set pieces.old.items place None }
{
    pieces[place].take()
}

/// The piece of a cone: the one that was posted, else that of a run on this machine.
fn piece_of<N: BookName, G: Gate, L: Ledger>(
    gate: &G,
    machine: &mut Machine<'_, RegionMemory>,
    place: usize,
    list: &[u32],
    posted: Option<Piece>,
    steps: &mut Steps<L>,
) -> Result<Piece, RunFault>
    requires program { machine.old.program ≡ N.program }
    requires suite { IsConeSuite N.program N.edges N.selected }
    requires place { place < length N.selected }
    requires cone { IsCone N.edges (get_or N.selected place 0) list.now }
    requires posted { IfSome posted (IsConeOf N.program N.edges (get_or N.selected place 0)) }
    ensures piece { IfOk result (IsConeOf N.program N.edges (get_or N.selected place 0)) }
    ensures units { IfOk result (λ x. steps.new + posted_units N.program posted
        ≡ steps.old + cone_units N.program x.list) }
    ensures fault { IfErr result (IsListFault N.program list.now steps.old steps.new) }
    ensures same { machine.new.program ≡ machine.old.program }
{
    match posted {
        Some(piece) => {
            let _outcome = piece.outcome();
            Ok(piece)
        }
        None => Ok(run_alone(gate, machine, 1, list, steps)?.piece),
    }
}

/// The pieces of all cones: those of a book, and the others are run on this machine. It counts the units of all.
///
/// `OverBudget` comes exactly where some cone gives nothing, and names the test that passes its budget in the first such one.
fn finish<N: BookName, G: Gate, L: Ledger>(
    alloc: Global,
    gate: &G,
    machine: &mut Machine<'_, RegionMemory>,
    cones: &[Items<u32>],
    book: Book<N>,
    steps: &mut Steps<L>,
) -> Result<Items<Piece>, RunFault>
    requires program { machine.old.program ≡ N.program }
    requires suite { IsConeSuite N.program N.edges N.selected }
    requires cones { AreCones N.edges N.selected cones.now }
    ensures pieces { IfOk result (AreConesOf N.program N.edges N.selected) }
    ensures units { IfOk result (λ xs. steps.new
        ≡ steps.old + sum_by (λ x. cone_units N.program x.list) xs) }
    ensures fault { IfErr result
        (IsConeFault N.program N.edges (λ t. Member t N.selected)) }
{
    let (pieces, units) = book.into_pieces();
    let mut pieces = pieces;
    steps.spend(units);
    let mut all = Items::new(alloc);
    for place in 0..cones.len() {
        let posted = taken(&mut pieces, place);
        let list = cones[place].as_slice();
        all.push(piece_of::<N, G, L>(gate, machine, place, list, posted, steps)?)?;
    }
    Ok(all)
}

/// The machine of the last of these workers, or a fresh one where there is none. The only error is want of memory.
fn machine_of<'p, N: BookName>(
    alloc: Global,
    p: &'p Checked,
    slots: Vec<Slot<'p, N>>,
) -> Result<Machine<'p, RegionMemory>, NoMemory>
    requires program { p.now ≡ N.program }
    ensures { IfOk result (λ m. m.program ≡ N.program) }
{
    let mut slots = slots;
    match slots.pop() {
        Some(slot) => Ok(slot.into_machine()),
        None => fresh_machine(alloc, p, 1),
    }
}

/// Lets workers take the cones and post their pieces in a book, and answers the machine of one of them. The only error is
/// want of memory.
fn post_cones<'p, N: BookName + Send + Sync, R: Threads + Wait + Sync, G: Gate + Sync>(
    rt: &R,
    alloc: Global,
    p: &'p Checked,
    cones: &[Items<u32>],
    shares: &[Items<u32>],
    gate: &G,
    book: &Mutex<Book<N>>,
) -> Result<Machine<'p, RegionMemory>, NoMemory>
    requires program { p.now ≡ N.program }
    requires suite { IsConeSuite N.program N.edges N.selected }
    requires cones { AreCones N.edges N.selected cones.now }
    requires workers { (length shares.now ≡ N.workers) × (N.workers < 2 ^ 32) }
    requires short { All (λ l. length l < 2 ^ 32) shares.now }
    ensures { IfOk result (λ m. m.program ≡ N.program) }
{
    let mut slots = slots_of::<N>(alloc, p, shares)?;
    let jobs = ConeJobs::<N>::new(book, cones);
    work_all(rt, &jobs, gate, slots.as_mut_slice());
    machine_of::<N>(alloc, p, slots)
}

/// Lets workers take the cones, and runs on a machine of one of them what is left after the join.
fn run_cones<N: BookName + Send + Sync, R: Threads + Wait + Sync, G: Gate + Sync, L: Ledger>(
    rt: &R,
    alloc: Global,
    p: &Checked,
    g: &Graph,
    sel: &[u32],
    shares: &[Items<u32>],
    gate: &G,
    steps: &mut Steps<L>,
) -> Result<Items<Piece>, RunFault>
    requires program { p.now ≡ N.program }
    requires edges { g.now ≡ N.edges }
    requires selected { sel.now ≡ N.selected }
    requires suite { IsConeSuite N.program N.edges N.selected }
    requires workers { (length shares.now ≡ N.workers) × (N.workers < 2 ^ 32) }
    requires short { All (λ l. length l < 2 ^ 32) shares.now }
    ensures pieces { IfOk result (AreConesOf N.program N.edges N.selected) }
    ensures units { IfOk result (λ xs. steps.new
        ≡ steps.old + sum_by (λ x. cone_units N.program x.list) xs) }
    ensures fault { IfErr result
        (IsConeFault N.program N.edges (λ t. Member t N.selected)) }
{
    let lists = cones_of(alloc, g, sel)?;
    let cones = lists.as_slice();
    let book = Mutex::new(Book::<N>::new(alloc, sel.len())?);
    let mut machine = post_cones::<N, R, G>(rt, alloc, p, cones, shares, gate, &book)?;
    let pieces = finish(alloc, gate, &mut machine, cones, book.into_inner(), steps);
    drop(machine);
    pieces
}

/// Runs the cone of each selected test on a machine that was set back, on so many workers. Each test has a piece: its list is
/// the cone, and its outcome what the test gives at the end of it. The gate is called before each test of a cone. It counts
/// the units of all tests of all cones.
///
/// # Errors
///
/// `OverBudget` exactly where a selected test's cone gives nothing: the test that passes its budget in the cone of the
/// least such one. `NoMemory` where an allocation is refused.
pub fn cones<R: Threads + Wait + Sync, G: Gate + Sync, L: Ledger>(
    rt: &R,
    alloc: Global,
    p: &Checked,
    g: &Graph,
    sel: &[u32],
    n: u32,
    gate: &G,
    steps: &mut Steps<L>,
) -> Result<Items<Piece>, RunFault>
    requires record { GoUp (length p.now.tests) g.now }
    requires tests { All (IsTest p.now) sel.now }
    requires once { Ascending sel.now }
    requires workers { (0 < n) × (n ≤ 16) }
    ensures cones { IfOk result (AreConesOf p.now g.now sel.now) }
    ensures units { IfOk result (λ xs. steps.new
        ≡ steps.old + sum_by (λ x. cone_units p.now x.list) xs) }
    ensures short { IfOk result (All (λ x. length x.list ≤ 1024)) }
    ensures fault { IfErr result (IsConeFault p.now g.now (λ t. Member t sel.now)) }
{
    let _program = p.program();
    let shares = deal(alloc, sel.len() as u32, n)?;
    run_cones::<Brand, R, G, L>(rt, alloc, p, g, sel, shares.as_slice(), gate, steps)
}
