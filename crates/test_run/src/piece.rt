//! What a worker hands over after each test.

ghost use Rattle.std.specs.Prelude.{◌≡◌, Some};
ghost use Rattle.jvm_model.specs.Suite.{last_outcome};

use et_base::Items;
use jvm_model::{Outcome, Program};
use std::marker::Model;
use std::snapshot::Snapshot;

/// The outcome of a worker's last test, with the list of tests that ran on its machine, this one at the end. Contracts see
/// the program too.
#[derive(Drop)]
pub struct Piece {
    worker: u32,
    list: Items<u32>,
    outcome: Outcome,
    program: Snapshot<Program>,
}

impl Model for Piece {
    ghost use Rattle.std.specs.Prelude.{◌≡◌, Some};
    ghost use Rattle.jvm_model.specs.Suite.{last_outcome};
    ghost use Rattle.test_run.specs.Running.{Posted};

    ghost Value = { Posted };

    ghost view = { λ x. record {
      program = x.program.value;
      worker = x.worker;
      list = x.list;
      outcome = x.outcome;
    } };

    ghost invariant = { λ x. last_outcome x.program.value x.list ≡ Some x.outcome };
}

impl Piece {
    /// Of a worker and its list, with what the list's last test gives.
    pub fn new(p: &Program, worker: u32, list: Items<u32>, outcome: Outcome) -> Piece
        requires { last_outcome p.now list ≡ Some outcome }
        ensures { result ≡ record {
          program = p.now;
          worker = worker;
          list = list;
          outcome = outcome;
        } }
    {
        Piece {
            worker,
            list,
            outcome,
            program: Snapshot::of(p),
        }
    }

    /// The worker whose machine it is.
    pub fn worker(&self) -> u32
        ensures { result ≡ self.now.worker }
    {
        self.worker
    }

    /// The tests that ran on the machine, in order.
    pub fn list(&self) -> &[u32]
        ensures { result.now ≡ self.now.list }
    {
        self.list.as_slice()
    }

    /// What the last of them gave.
    pub fn outcome(&self) -> &Outcome
        ensures gives { result.now ≡ self.now.outcome }
        ensures last { last_outcome self.now.program self.now.list ≡ Some self.now.outcome }
    {
        &self.outcome
    }

    /// The same, with the piece used up.
    pub fn into_outcome(self) -> Outcome
        ensures gives { result ≡ self.outcome }
        ensures last { last_outcome self.program self.list ≡ Some self.outcome }
    {
        self.outcome
    }
}
