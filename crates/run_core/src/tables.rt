//! What a history gives: who has which chain, and how many tests of it are posted.

ghost use Rattle.std.specs.Prelude.{◌≡◌, ◌<◌, ◌≤◌, ◌-◌, ◌^◌, ◌↔◌, ◌++◌, ◌∷◌, [], length, map, replicate, vec_len, vec_capacity, IsTrue, IfOk, MatchOption};
ghost use Rattle.run_core.specs.Kept.{row, row_at, hand_of, rows_after, hands_after, AreDone, IsFull, IsHeld, MayEnter};
ghost use Rattle.run_core.specs.Run.{most_events};

use crate::events::Event;
use et_base::{Items, NoMemory};
use std::alloc::Global;

/// A chain: who claimed it (0: nobody), how many of its tests are posted, and how many it has.
#[derive(Clone, Copy, PartialEq, Eq)]
pub struct Row {
    pub by: u32,
    pub done: u32,
    pub size: u32,
}

/// A chain that a worker has in hand, by its number from 1, and the next test of it.
#[derive(Clone, Copy, PartialEq, Eq)]
pub struct Open {
    pub chain: u32,
    pub test: u32,
}

/// How many events a history of these chains has at most: a claim of each chain and a post of each test.
pub fn count_events(chains: &[Items<u32>]) -> usize
    requires { most_events chains.now < 2 ^ 32 }
    ensures { result ≡ most_events chains.now }
{
    let mut events = 0;
    for chain in chains {
        events += chain.len() + 1;
    }
    events
}

/// A row for each chain, claimed by nobody. The only error is want of memory.
pub fn empty_rows(alloc: Global, chains: &[Items<u32>]) -> Result<Vec<Row>, NoMemory>
    requires { most_events chains.now < 2 ^ 32 }
    ensures { IfOk result (λ rows. rows.items ≡ map (λ c. row 0 0 (length c)) chains.now) }
{
    let mut rows = Vec::new(alloc);
    for chain in chains {
        rows.push(Row {
            by: 0,
            done: 0,
            size: chain.len() as u32,
        })?;
    }
    Ok(rows)
}

/// For each worker no chain in hand. The only error is want of memory.
pub fn empty_hands(alloc: Global, workers: u32) -> Result<Vec<u32>, NoMemory>
    ensures { IfOk result (λ hands. hands.items ≡ replicate workers 0) }
{
    Ok(Vec::from_elem(alloc, 0, workers as usize)?)
}

/// The worker's chain in hand with its next test; none where it has none, or all its tests are posted.
pub fn open_of(
    chains: &Items<Items<u32>>,
    rows: &Vec<Row>,
    hands: &Vec<u32>,
    worker: u32,
) -> Option<Open>
    requires worker { (0 < worker) × (worker ≤ length hands.now.items) }
    requires fit { hand_of hands.now.items worker ≤ length chains.now }
    requires many { length rows.now.items ≡ length chains.now }
    ensures { MatchOption result
        (IsFull chains.now rows.now.items (hand_of hands.now.items worker))
        (λ x. IsHeld chains.now rows.now.items (hand_of hands.now.items worker) x) }
{
    let chain = hands[worker as usize - 1];
    if chain == 0 {
        return None;
    }
    let place = chain as usize - 1;
    let tests = chains.as_slice()[place].as_slice();
    let done = rows[place].done as usize;
    if done < tests.len() {
        Some(Open {
            chain,
            test: tests[done],
        })
    } else {
        None
    }
}

/// Who claimed a chain; 0 where nobody did.
pub fn claimer_of(rows: &Vec<Row>, chain: u32) -> u32
    requires { (0 < chain) × (chain ≤ length rows.now.items) }
    ensures { result ≡ (row_at rows.now.items (chain - 1)).by }
{
    rows[chain as usize - 1].by
}

/// Whether all tests of each chain are posted.
pub fn all_done(rows: &Vec<Row>) -> bool
    ensures { IsTrue result ↔ AreDone rows.now.items }
{
    rows.iter().all(|row| row.done == row.size)
}

/// Enters an event that may follow.
pub fn enter(rows: &mut Vec<Row>, hands: &mut Vec<u32>, event: &Event)
    requires { MayEnter rows.old.items hands.old.items event.now }
    ensures rows { rows.new.items ≡ rows_after rows.old.items hands.old.items event.now }
    ensures hands { hands.new.items ≡ hands_after hands.old.items event.now }
{
    match event {
        Event::Claim { worker, chain } => {
            rows[*chain as usize - 1].by = *worker;
            hands[*worker as usize - 1] = *chain;
        }
        Event::Post(piece) => {
            let place = hands[piece.worker() as usize - 1] as usize - 1;
            let row = rows[place];
            rows[place].done = row.done + 1;
        }
    }
}

/// Appends an event where there is room.
pub fn push_event(history: &mut Vec<Event>, event: Event)
    requires { vec_len history.old < vec_capacity history.old }
    ensures items { history.new.items ≡ history.old.items ++ event ∷ [] }
    ensures room { vec_capacity history.old ≤ vec_capacity history.new }
{
    match history.push(event) {
        Ok(()) => {}
        Err(_) => unreachable!(),
    }
}
