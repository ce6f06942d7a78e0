//! A core behind one lock.
//!
//! Begin with `run_core`: each call of a board but the last takes the lock and makes one call of
//! the core. All of the code is `lib.rt`.
//!
//! - `Board::claim` and `Board::post` claim a chain and post a piece, or refuse: the reason names
//!   only chains and workers of the run.
//! - `Board::into_core` gives the core back, and takes no lock.
//!
//! Of a value under a lock nothing is known but what its type keeps. So a `Board` is generic in a
//! `RunName`, and that program, chains and workers are this run's are ghost fields of what it
//! holds. That its history is legal is the core's own invariant. The calls of what it holds have the
//! core's clauses; which events it has, no clause of a board says.
#![tactic(auto)]

ghost use Rattle.std.specs.Prelude.{◌≡◌, ◌↔◌, ◌<◌, ◌≤◌, length, IsTrue, IfErr};
ghost use Rattle.run_core.specs.declared.events.Event.TheVariants.{Claim, Post};
ghost use Rattle.run_core.specs.{Refusal.IsStep, Refusal.Names, Run.IsComplete};

use run_core::{Core, Event, Refused, Rejected, RunName};
use std::marker::PhantomData;
use std::sync::{Mutex, Wait};
use test_run::Piece;

/// A core of the program, chains and workers of `N`.
#[derive(Drop)]
struct Held<N: RunName> {
    core: Core,
    of: PhantomData<N>,
    ghost program: { core.program ≡ N.program },
    ghost chains: { core.chains ≡ N.chains },
    ghost workers: { core.workers ≡ N.workers },
}

impl<N: RunName> Held<N> {
    fn claim(&mut self, worker: u32, chain: u32) -> Result<(), Rejected>
        requires worker { (0 < worker) × (worker ≤ N.workers) }
        requires chain { (0 < chain) × (chain ≤ length N.chains) }
        ensures step { IsStep self.old.core (Claim worker chain) self.new.core result }
        ensures names { IfErr result (λ r. Names (length N.chains) N.workers r.why) }
    {
        self.core.step(Event::Claim { worker, chain })
    }

    fn post(&mut self, piece: Piece) -> Result<(), Rejected>
        requires program { piece.program ≡ N.program }
        requires worker { (0 < piece.worker) × (piece.worker ≤ N.workers) }
        ensures step { IsStep self.old.core (Post piece) self.new.core result }
        ensures names { IfErr result (λ r. Names (length N.chains) N.workers r.why) }
    {
        self.core.step(Event::Post(piece))
    }

    fn is_complete(&self) -> bool
        ensures { IsTrue result ↔ IsComplete self.now.core }
    {
        self.core.is_complete()
    }
}

/// A core of the program, chains and workers of `N` behind one lock. Each call but the last takes the lock and makes one
/// call of the core. None takes memory.
#[derive(Drop)]
pub struct Board<N: RunName> {
    held: Mutex<Held<N>>,
}

impl<N: RunName> Board<N> {
    /// A board with this core.
    pub fn new(core: Core) -> Board<N>
        requires program { core.program ≡ N.program }
        requires chains { core.chains ≡ N.chains }
        requires workers { core.workers ≡ N.workers }
    {
        Board {
            held: Mutex::new(Held {
                core,
                of: PhantomData,
            }),
        }
    }

    /// Claims a chain for a worker, or says why it can't be: the answer of the core. Both are numbered from 1.
    pub fn claim<R: Wait>(&self, rt: &R, worker: u32, chain: u32) -> Result<(), Refused>
        requires worker { (0 < worker) × (worker ≤ N.workers) }
        requires chain { (0 < chain) × (chain ≤ length N.chains) }
        ensures { IfErr result (λ why. Names (length N.chains) N.workers why) }
    {
        match self.held.lock(rt).claim(worker, chain) {
            Ok(()) => Ok(()),
            Err(rejected) => Err(rejected.why),
        }
    }

    /// Posts what a worker's test gave, or hands it back with why it can't be: the answer of the core.
    pub fn post<R: Wait>(&self, rt: &R, piece: Piece) -> Result<(), Rejected>
        requires program { piece.program ≡ N.program }
        requires worker { (0 < piece.worker) × (piece.worker ≤ N.workers) }
        ensures { IfErr result (λ r. Names (length N.chains) N.workers r.why) }
    {
        self.held.lock(rt).post(piece)
    }

    /// Whether each test of the chains is posted: the answer of the core.
    pub fn is_complete<R: Wait>(&self, rt: &R) -> bool {
        self.held.lock(rt).is_complete()
    }

    /// The core. It takes no lock.
    pub fn into_core(self) -> Core
        ensures program { result.program ≡ N.program }
        ensures chains { result.chains ≡ N.chains }
        ensures workers { result.workers ≡ N.workers }
    {
        let Held { core, of: _ } = self.held.into_inner();
        core
    }
}
