//! A gate that decides which of two workers goes first, and notes whom it let pass.

use outside::Gate;
use std::sync::atomic::{AtomicU64, Ordering};
use std::thread;

/// Holds the entry of one test until another was let pass, for so many turns at most. It numbers the entries as it lets
/// them pass, from 1, and notes the worker and the number of each of the tests 1 to 4.
#[derive(Drop)]
pub struct Turns {
    held: u32,
    awaited: u32,
    passed: AtomicU64,
    workers: [AtomicU64; 5],
    numbers: [AtomicU64; 5],
}

fn none_yet() -> [AtomicU64; 5] {
    [
        AtomicU64::new(0),
        AtomicU64::new(0),
        AtomicU64::new(0),
        AtomicU64::new(0),
        AtomicU64::new(0),
    ]
}

fn noted(notes: &[AtomicU64; 5], test: u32) -> u64 {
    notes
        .get(test as usize)
        .map_or(0, |note| note.load(Ordering::SeqCst))
}

impl Turns {
    /// A gate that holds the entry of `held` until `awaited` was let pass.
    pub fn new(held: u32, awaited: u32) -> Turns {
        Turns {
            held,
            awaited,
            passed: AtomicU64::new(0),
            workers: none_yet(),
            numbers: none_yet(),
        }
    }

    /// How many entries it let pass.
    pub fn passed(&self) -> u64 {
        self.passed.load(Ordering::SeqCst)
    }

    /// The worker that entered a test, or 0.
    pub fn worker(&self, test: u32) -> u64 {
        noted(&self.workers, test)
    }

    /// The number of a test's entry, or 0.
    pub fn number(&self, test: u32) -> u64 {
        noted(&self.numbers, test)
    }

    /// Whether a test was posted before another by what was let pass: its worker went on to one more test, no later than
    /// the other was entered.
    pub fn is_posted_before(&self, test: u32, other: u32) -> bool {
        (1..5).any(|next| {
            self.worker(next) == self.worker(test)
                && self.number(test) < self.number(next)
                && self.number(next) <= self.number(other)
        })
    }
}

impl Gate for Turns {
    fn enter(&self, worker: u32, test: u32) {
        if test == self.held {
            for _ in 0..100_000_000u32 {
                if self.number(self.awaited) != 0 {
                    break;
                }
                thread::yield_now();
            }
        }
        let number = self.passed.fetch_add(1, Ordering::SeqCst).wrapping_add(1);
        let at = test as usize;
        if at < 5 {
            self.workers[at].store(u64::from(worker), Ordering::SeqCst);
            self.numbers[at].store(number, Ordering::SeqCst);
        }
    }
}
