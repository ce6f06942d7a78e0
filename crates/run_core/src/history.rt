//! The core: a legal history.

ghost use Rattle.std.specs.Prelude.{◌≡◌, ◌↔◌, ◌-◌, ◌<◌, ◌≤◌, ◌^◌, [], length, reverse, IsTrue, IfOk, IfErr, MatchOption};
ghost use Rattle.order_law.specs.Plan.{Posted, posts};
ghost use Rattle.run_core.specs.{declared.events.Event.TheVariants.Claim, declared.events.Event.TheVariants.Post, Kept.IsClaimer, Kept.IsSplit};
ghost use Rattle.run_core.specs.Refusal.{HasNone, HasOpen, IsRefused, IsStep, Names};
ghost use Rattle.run_core.specs.Run.{Gave, IsComplete, IsInRange, IsLegal, IsWorker, MayFollow, added, history, most_events};

use crate::events::{Event, Refused, Rejected};
use crate::lists::{ends_with, find_outcome, first_difference, last_list};
use crate::tables::{
    Open, Row, all_done, claimer_of, count_events, empty_hands, empty_rows, enter, open_of,
    push_event,
};
use et_base::NoMemory;
use jvm_model::{Outcome, Program};
use order_law::Chains;
use std::alloc::Global;
use std::marker::Model;
use std::snapshot::Snapshot;
use test_run::Piece;

/// A legal history of a program, chains and a number of workers, with room for all events that may come. Contracts see
/// those three and the events.
#[derive(Drop)]
pub struct Core {
    program: Snapshot<Program>,
    chains: Chains,
    workers: u32,
    rows: Vec<Row>,
    hands: Vec<u32>,
    history: Vec<Event>,
}

impl Model for Core {
    ghost use Rattle.std.specs.Prelude.{vec_capacity};
    ghost use Rattle.run_core.specs.Run.{Run};
    ghost use Rattle.run_core.specs.Kept.{IsKept};

    ghost Value = { Run };

    ghost view = { λ c. record {
      program = c.program.value;
      chains = c.chains.lists;
      workers = c.workers;
      events = c.history.items;
    } };

    ghost invariant = { λ c. IsKept c.program.value c.chains.lists c.workers
        c.rows.items c.hands.items c.history.items (vec_capacity c.history) };
}

impl Core {
    /// The empty history of a program, chains and workers. It takes room for all events. The only error is want of memory.
    pub fn new(alloc: Global, p: &Program, chains: Chains, workers: u32) -> Result<Core, NoMemory>
        requires few { most_events chains.lists < 2 ^ 32 }
        ensures { IfOk result (λ core. core ≡ record {
          program = p.now;
          chains = chains.lists;
          workers = workers;
          events = [];
        }) }
    {
        let events = count_events(chains.lists.as_slice());
        let rows = empty_rows(alloc, chains.lists.as_slice())?;
        let hands = empty_hands(alloc, workers)?;
        let history = Vec::with_capacity(alloc, events)?;
        Ok(Core {
            program: Snapshot::of(p),
            chains,
            workers,
            rows,
            hands,
            history,
        })
    }

    /// The events, in the order in which they came.
    pub fn history(&self) -> &[Event]
        ensures events { result.now ≡ self.now.events }
        ensures legal { IsLegal self.now }
        ensures few { length self.now.events ≤ most_events self.now.chains }
    {
        self.history.as_slice()
    }

    /// What a test gave; none exactly where it isn't posted.
    pub fn outcome(&self, test: u32) -> Option<&Outcome>
        ensures { MatchOption result
            (Posted (history self.now) test → ⊥)
            (λ o. Gave (history self.now) test o.now) }
    {
        find_outcome(&self.history, test)
    }

    /// Whether each test of the chains is posted.
    pub fn is_complete(&self) -> bool
        ensures { IsTrue result ↔ IsComplete self.now }
    {
        all_done(&self.rows)
    }

    /// The number of workers.
    pub fn workers(&self) -> u32
        ensures { result ≡ self.now.workers }
    {
        self.workers
    }

    /// The tests that a worker posted, in order.
    pub fn posts(&self, worker: u32) -> &[u32]
        ensures { result.now ≡ reverse (posts (history self.now) worker) }
    {
        last_list(&self.history, worker)
    }

    /// The chain that a worker has in hand, with its next test; none exactly where all tests of its chains are posted.
    pub fn open(&self, worker: u32) -> Option<Open>
        requires { IsWorker self.now worker }
        ensures { MatchOption result
            (HasNone self.now.chains (history self.now) worker)
            (λ x. (0 < x.chain)
            × HasOpen self.now.chains (history self.now) worker (x.chain - 1) x.test) }
    {
        open_of(&self.chains.lists, &self.rows, &self.hands, worker)
    }

    /// Who claimed a chain; 0 where nobody did.
    fn claimer(&self, chain: u32) -> u32
        requires { (0 < chain) × (chain ≤ length self.now.chains) }
        ensures { IsClaimer (history self.now) (chain - 1) result }
    {
        claimer_of(&self.rows, chain)
    }

    /// The first reason why a claim may not follow.
    #[tactic(auto, using(crate::proofs::Answers::claim_follows, crate::proofs::Answers::claim_taken))]
    fn refusal_of_claim(&self, worker: u32, chain: u32) -> Option<Refused>
        requires { IsInRange self.now (Claim worker chain) }
        ensures { MatchOption result
            (MayFollow self.now (Claim worker chain) × IsSplit (Claim worker chain))
            (λ why. IsRefused self.now.chains (history self.now) (Claim worker chain) why) }
    {
        if let Some(open) = self.open(worker) {
            return Some(Refused::InHand { chain: open.chain });
        }
        let by = self.claimer(chain);
        if by == 0 {
            return None;
        }
        Some(Refused::Taken { by })
    }

    /// The first reason why a post may not follow.
    #[tactic(auto, using(crate::proofs::Answers::post_follows, crate::proofs::Answers::post_differs))]
    fn refusal_of_post(&self, piece: &Piece) -> Option<Refused>
        requires { IsInRange self.now (Post piece.now) }
        ensures { MatchOption result
            (MayFollow self.now (Post piece.now) × IsSplit (Post piece.now))
            (λ why. IsRefused self.now.chains (history self.now) (Post piece.now) why) }
    {
        let _program = &self.program;
        let _outcome = piece.outcome();
        let Some(open) = self.open(piece.worker()) else {
            return Some(Refused::Idle);
        };
        if !ends_with(piece.list(), open.test) {
            return Some(Refused::NotNext { awaited: open.test });
        }
        let before = self.posts(piece.worker());
        let at = first_difference(piece.list(), before, open.test)?;
        Some(Refused::OtherList { at })
    }

    /// The first reason why an event may not follow.
    fn refusal(&self, event: &Event) -> Option<Refused>
        requires { IsInRange self.now event.now }
        ensures refused { MatchOption result
            (MayFollow self.now event.now × IsSplit event.now)
            (λ why. IsRefused self.now.chains (history self.now) event.now why) }
    {
        match event {
            Event::Claim { worker, chain } => self.refusal_of_claim(*worker, *chain),
            Event::Post(piece) => self.refusal_of_post(piece),
        }
    }

    /// Appends an event that may follow.
    fn add(&mut self, event: Event)
        requires range { IsInRange self.old event }
        requires follows { MayFollow self.old event }
        requires split { IsSplit event }
        ensures { self.new ≡ added self.old event }
    {
        enter(&mut self.rows, &mut self.hands, &event);
        push_event(&mut self.history, event);
    }

    /// Appends the event where it may follow, and else hands it back with the first reason why it may not; then nothing
    /// changed. It takes no memory.
    pub fn step(&mut self, event: Event) -> Result<(), Rejected>
        requires { IsInRange self.old event }
        ensures step { IsStep self.old event self.new result }
        ensures names { IfErr result (λ r. Names (length self.old.chains) self.old.workers r.why) }
    {
        let _events = self.history();
        match self.refusal(&event) {
            None => {
                self.add(event);
                Ok(())
            }
            Some(why) => Err(Rejected { why, event }),
        }
    }
}
