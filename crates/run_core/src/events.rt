//! What workers do, and why it may be refused.

use std::marker::Brand;
use test_run::{Piece, PoolName};

/// What a worker does: it claims a chain, or posts what its last test gave. Workers and chains are numbered from 1.
#[derive(Drop)]
pub enum Event {
    Claim { worker: u32, chain: u32 },
    Post(Piece),
}

/// Why an event may not follow a history. The first that applies is answered.
#[derive(Clone, Copy, Debug, PartialEq, Eq)]
pub enum Refused {
    /// A claim, where a test of a chain that the worker claimed isn't posted: this chain.
    InHand { chain: u32 },
    /// A claim of a chain that this worker claimed before.
    Taken { by: u32 },
    /// A post, where all tests of the worker's chains are posted.
    Idle,
    /// A post of another test than the next one of the worker's chain, which is this.
    NotNext { awaited: u32 },
    /// A post after another list than the worker's earlier posts: the first place, from 0, at which the two lists with
    /// the posted test differ.
    OtherList { at: u32 },
}

/// An event that was refused, handed back.
#[derive(Drop)]
pub struct Rejected {
    pub why: Refused,
    pub event: Event,
}

/// Which run it is, for contracts: its pool's program and number of workers, and its chains.
pub trait RunName: PoolName {
    ghost use Rattle.std.specs.Prelude.{ℕ, List};

    ghost chains: { List (List ℕ) };
}

impl RunName for Brand {
    ghost use Rattle.std.specs.Prelude.{[]};

    ghost chains = { [] };
}
