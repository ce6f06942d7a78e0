//! The owner's end of the queue, and a thief's.

ghost use Rattle.std.specs.Prelude.{◌≡◌, ◌<◌, List, [], ◌∷◌, length, true, IfOk, OnErr, MatchOption};
ghost use Rattle.chain_deque.specs.Ends.{OwnerView, ThiefView};
ghost use Rattle.chain_deque.specs.Rule.{seen, pushed_more, lent, thief_of, joined, TookOne, Emptied, AllHere};

use crate::rule::{Chain, InTurn, Lent, Pushed, Seen, Took, Whole};
use crossbeam_deque::{Pass, Steal, Stealer, Worker};
use et_base::NoMemory;
use std::alloc::Global;
use std::marker::Model;
use std::sync::Wait;

type Queue = Worker<Chain, Global, Seen, InTurn>;

type Front = Stealer<Chain, Global, Seen, InTurn>;

/// The end that fills the queue, and then takes from its front beside the thieves.
#[derive(Drop)]
pub struct ChainOwner {
    queue: Queue,
    cap: u32,
}

impl Model for ChainOwner {
    ghost use Rattle.chain_deque.specs.Ends.{OwnerView, owner_view, IsOwner};

    ghost Value = { OwnerView };

    ghost view = { λ s. owner_view s.queue s.cap };

    ghost invariant = { λ s. IsOwner s.queue s.cap };
}

/// An end that takes from the front, on any thread.
#[derive(Drop)]
pub struct Thief {
    front: Front,
    pass: Pass<Chain, Seen>,
}

impl Model for Thief {
    ghost use Rattle.chain_deque.specs.Ends.{ThiefView, thief_view, IsThief};

    ghost Value = { ThiefView };

    ghost view = { λ s. thief_view s.front s.pass };

    ghost invariant = { λ s. IsThief s.front s.pass };
}

impl ChainOwner {
    /// An empty queue with room for `cap` chains in all.
    pub fn new(alloc: Global, cap: u32) -> Result<ChainOwner, NoMemory>
        ensures { IfOk result (λ o. (o.cap ≡ cap) × (o.seen ≡ seen true true 0 0 [] [])) }
    {
        let queue = Queue::fifo_as(alloc, cap as usize)?;
        Ok(ChainOwner { queue, cap })
    }

    /// Puts a chain at the end. It takes no memory and is never refused.
    pub fn push(&mut self, chain: Chain)
        requires room { length self.old.seen.pushed < self.old.cap }
        requires alone { self.old.seen.made ≡ 0 }
        ensures { self.new ≡ record self.old { seen = pushed_more self.old.seen (chain ∷ []) } }
    {
        match self.queue.push_as::<Pushed>(chain) {
            Ok(()) => {}
            Err(_) => unreachable!(),
        }
    }

    /// Makes a thief of this queue. After a refusal the queue is as before.
    pub fn thief(&mut self) -> Result<Thief, NoMemory>
        ensures lent { IfOk result (λ t. (self.new ≡ record self.old { seen = lent self.old.seen })
            × (t ≡ record { deque = self.old.deque; seen = thief_of self.old.seen })) }
        ensures kept { OnErr result (self.new ≡ self.old) }
    {
        let front = self.queue.stealer()?;
        let pass = self.queue.another::<Lent>();
        Ok(Thief { front, pass })
    }

    /// Takes a thief back: what it took counts as the owner's from now on. It takes no memory.
    pub fn rejoin(&mut self, thief: Thief)
        requires { thief.deque ≡ self.old.deque }
        ensures { self.new ≡ record self.old { seen = joined self.old.seen thief.seen } }
    {
        let Thief { front, pass } = thief;
        drop(front);
        self.queue.absorb::<Lent>(pass);
    }

    /// Takes the first chain. None where the queue was found empty: where no thief is out, all chains were taken then. It
    /// takes no memory.
    pub fn pop(&mut self) -> Option<Chain>
        ensures same { self.new ≡ record self.old { seen = self.new.seen } }
        ensures taken { MatchOption result
            ((self.new.seen ≡ self.old.seen) × Emptied self.old.seen)
            (λ chain. TookOne self.old.seen (chain ∷ []) self.new.seen) }
    {
        self.queue.pop_as::<Took>()
    }

    /// How many chains are left. Where no thief is out, they are the pushed ones that were not taken.
    pub fn left(&mut self) -> usize
        ensures same { self.new ≡ self.old }
        ensures left { (chains : List Chain) × (length chains ≡ result) × AllHere self.old.seen chains }
    {
        self.queue.len_as::<Whole>()
    }
}

impl Thief {
    /// Takes the first chain. None where the queue was found empty. It tries again where another takes that chain before it,
    /// and takes no memory.
    pub fn steal<R: Wait>(&mut self, rt: &R) -> Option<Chain>
        ensures same { self.new ≡ record self.old { seen = self.new.seen } }
        ensures taken { MatchOption result
            (self.new.seen ≡ self.old.seen)
            (λ chain. TookOne self.old.seen (chain ∷ []) self.new.seen) }
    {
        for _ in rt.forever() {
            match self.front.steal_as::<Took>(&mut self.pass) {
                Steal::Success(chain) => return Some(chain),
                Steal::Empty => return None,
                Steal::Retry => {}
            }
        }
        unreachable!()
    }
}
