//! The rule of the deque: what is kept of the chains in it and of what each pass has seen.

ghost use Rattle.std.specs.Prelude.{◌≡◌, [], true, false};

use crossbeam_deque::protocol::{Join, Lesson, Outcome, Protocol, Split};
use std::collections::LinkedList;

/// A chain of tests, by its number.
#[derive(Clone, Copy, PartialEq, Eq)]
pub struct Chain {
    pub number: u32,
}

/// What a pass has seen of its deque; the owner and each thief hold one pass. It stands in contracts alone.
pub struct Seen {
    /// Whether it is the owner's.
    pub owns: bool,
    /// Whether it still takes part: a thief's pass ends as it is joined to the owner's.
    pub live: bool,
    /// Of the owner: how many thieves were made.
    pub made: u64,
    /// Of the owner: how many thieves are out.
    pub out: u64,
    /// The chains that were pushed, in order.
    pub pushed: LinkedList<Chain>,
    /// The positions in the pushed list that it took, in order.
    pub took: LinkedList<u64>,
}

/// The rule: chains are taken in turn, from the front, each once.
pub struct InTurn;

impl Protocol<Chain, Seen> for InTurn {
    ghost use Rattle.std.specs.Prelude.{true, false, []};
    ghost use Rattle.chain_deque.specs.Rule.{seen, Kept};

    ghost holds = { Kept };

    ghost first = { seen true true 0 0 [] [] };

    ghost guest = { seen false false 0 0 [] [] };
}

/// What a push leaves.
pub struct Pushed;

impl Outcome<Chain, Seen> for Pushed {
    ghost use Rattle.chain_deque.specs.Rule.{pushed_more};

    ghost then = { λ v xs w. w ≡ pushed_more v xs };
}

/// What a pop or a steal leaves, and what is known where the deque was empty.
pub struct Took;

impl Outcome<Chain, Seen> for Took {
    ghost use Rattle.chain_deque.specs.Rule.{TookOne, Emptied};

    ghost then = { TookOne };

    ghost empty = { Emptied };
}

/// What making a thief and taking it back leaves.
pub struct Lent;

impl Split<Seen> for Lent {
    ghost use Rattle.chain_deque.specs.Rule.{lent, thief_of};

    ghost left = { lent };

    ghost right = { thief_of };
}

impl Join<Seen> for Lent {
    ghost use Rattle.chain_deque.specs.Rule.{joined, spent};

    ghost both = { joined };

    ghost spent = { spent };
}

/// What the owner learns as it counts the chains that are left.
pub struct Whole;

impl Lesson<Chain, Seen> for Whole {
    ghost use Rattle.chain_deque.specs.Rule.{AllHere};

    ghost fact = { AllHere };
}
