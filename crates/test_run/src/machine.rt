//! A machine that runs tests one after the other on its own memory.

ghost use Rattle.std.specs.Prelude.{◌≡◌, ◌+◌, ◌≤◌, ◌++◌, ◌∷◌, [], All, false, true, Some, IfOk, IfErr, OnOk, OnErr};
ghost use Rattle.jvm_model.specs.State.{test_at};
ghost use Rattle.jvm_model.specs.Suite as suite;
ghost use Rattle.test_run.specs.{Lists.IsListRefused, Lists.RanBefore, Lists.RanList, Lists.RanNext, Outcomes.given_in, Outcomes.TracesOne};
ghost use Rattle.test_run.specs.Running.{IsRefused, IsTest, Stands, least};

use crate::parts::{budget_of, with_last};
use crate::piece::Piece;
use crate::run_fault::RunFault;
use crate::single::run_single;
use check_sound::reach_law;
use et_base::{Items, NoMemory};
use jvm_model::Outcome;
use outside::Steps;
use std::alloc::Global;
use std::marker::Model;
use std::sync::ledger::Ledger;
use type_frames::Checked;
use vm_calls::Selections;
use vm_frames::FrameStack;
use vm_heap::RegionMemory;
use vm_interp::stack_limits;
use vm_mem::Memory;
use vm_tables::Tables;

/// Runs tests of a typed program one after the other on its memory, which stands for the world after them. After a refusal
/// it is spent: it is dropped, or set back.
#[derive(Drop)]
pub struct Machine<'p, M: Memory> {
    checked: &'p Checked,
    tables: Tables<'p>,
    selections: Selections,
    frames: FrameStack,
    worker: u32,
    memory: M,
    list: Items<u32>,
    spent: bool,
    alloc: Global,
}

impl<'p, M: Memory> Model for Machine<'p, M> {
    ghost use Rattle.test_run.specs.Running.{Machined, Keeps};

    ghost Value = { Machined M };

    ghost view = { λ m. record {
      program = m.checked.now;
      worker = m.worker;
      list = m.list;
      memory = m.memory;
      spent = m.spent;
    } };

    ghost invariant = { λ m. Keeps
        M.program M.world m.checked.now m.tables m.selections m.list m.memory m.spent };
}

impl<'p, M: Memory> Machine<'p, M> {
    /// A machine of this number that ran no test, on a memory of the opening world. The only error is want of memory.
    pub fn new(
        alloc: Global,
        p: &'p Checked,
        worker: u32,
        memory: M,
    ) -> Result<Machine<'p, M>, NoMemory>
    where
        M: Drop,
        requires program { M.program memory ≡ p.now }
        requires world { M.world memory ≡ suite.opening p.now }
        ensures { IfOk result (λ m. m ≡ record {
          program = p.now;
          worker = worker;
          list = [];
          memory = memory;
          spent = false;
        }) }
    {
        reach_law();
        let program = p.program();
        stack_limits(program);
        let selections = Selections::new(alloc, program)?;
        let tables = Tables::of(alloc, program)?;
        Ok(Machine {
            checked: p,
            tables,
            selections,
            frames: FrameStack::new(alloc),
            worker,
            memory,
            list: Items::new(alloc),
            spent: false,
            alloc,
        })
    }

    /// The memory.
    pub fn memory(&self) -> &M
        ensures lent { result.now ≡ self.now.memory }
        ensures of { M.program self.now.memory ≡ self.now.program }
        ensures stands { self.now.spent ≡ false →
            Stands M.world self.now.program self.now.list self.now.memory }
    {
        &self.memory
    }

    /// Whether a call was refused.
    pub fn is_spent(&self) -> bool
        ensures { result ≡ self.now.spent }
    {
        self.spent
    }

    /// Runs a test under a number of units that is at most its budget.
    fn run_bounded<L: Ledger>(
        &mut self,
        test: u32,
        budget: u64,
        steps: &mut Steps<L>,
    ) -> Result<Outcome, RunFault>
        requires ready { self.old.spent ≡ false }
        requires test { IsTest self.old.program test }
        requires within { budget ≤ (test_at self.old.program test).budget }
        ensures gives { IfOk result (λ o. suite.one_test
            self.old.program (M.world self.old.memory) test budget
            ≡ given_in self.old.program test (M.world self.old.memory) budget
            (Some o) (M.world self.new.memory)) }
        ensures last { IfOk result (λ o. suite.last_outcome
            self.old.program (self.old.list ++ test ∷ []) ≡ Some o) }
        ensures told { OnOk result (TracesOne
            self.old.program test (M.world self.old.memory) budget
            M.follows self.old.memory self.new.memory) }
        ensures counted { IfOk result (λ o. steps.new ≡ steps.old + o.units) }
        ensures after { OnOk result (self.new ≡ record self.old {
          list = self.old.list ++ test ∷ [];
          memory = self.new.memory;
        }) }
        ensures refused { IfErr result (IsRefused
            self.old.program (M.world self.old.memory) test budget) }
        ensures spent { OnErr result (self.new ≡ record self.old {
          memory = self.new.memory;
          spent = true;
        }) }
        ensures uncounted { OnErr result (steps.new ≡ steps.old) }
    {
        self.spent = true;
        let _program = self.checked.program();
        let given = run_single(
            self.alloc,
            &mut self.memory,
            &self.tables,
            &mut self.selections,
            &mut self.frames,
            test,
            budget,
        )?;
        let Some(outcome) = given else {
            return Err(RunFault::OverBudget { test });
        };
        self.list.push(test)?;
        self.spent = false;
        steps.spend(outcome.units);
        Ok(outcome)
    }

    /// Runs a test after those before it, within its budget and so many units at most. It answers the piece of the
    /// machine's list with this test at its end, and counts the outcome's units.
    ///
    /// `OverBudget` comes exactly where the test's units would pass the smaller of both. After an error the machine is
    /// spent, with its list as before, and nothing is counted.
    pub fn run_within<L: Ledger>(
        &mut self,
        test: u32,
        most: u64,
        steps: &mut Steps<L>,
    ) -> Result<Piece, RunFault>
        requires ready { self.old.spent ≡ false }
        requires test { IsTest self.old.program test }
        ensures gives { IfOk result (λ x. suite.one_test
            self.old.program (M.world self.old.memory) test (least self.old.program test most)
            ≡ given_in self.old.program test (M.world self.old.memory)
            (least self.old.program test most) (Some x.outcome) (M.world self.new.memory)) }
        ensures piece { IfOk result (λ x. x ≡ record {
          program = self.old.program;
          worker = self.old.worker;
          list = self.old.list ++ test ∷ [];
          outcome = x.outcome;
        }) }
        ensures told { OnOk result (TracesOne
            self.old.program test (M.world self.old.memory) (least self.old.program test most)
            M.follows self.old.memory self.new.memory) }
        ensures counted { IfOk result (λ x. steps.new ≡ steps.old + x.outcome.units) }
        ensures after { OnOk result (self.new ≡ record self.old {
          list = self.old.list ++ test ∷ [];
          memory = self.new.memory;
        }) }
        ensures refused { IfErr result (IsRefused
            self.old.program (M.world self.old.memory) test (least self.old.program test most)) }
        ensures spent { OnErr result (self.new ≡ record self.old {
          memory = self.new.memory;
          spent = true;
        }) }
        ensures uncounted { OnErr result (steps.new ≡ steps.old) }
    {
        let copied = with_last(self.alloc, self.list.as_slice(), test);
        let Ok(list) = copied else {
            self.spent = true;
            return Err(RunFault::NoMemory);
        };
        let budget = budget_of(self.checked.program(), test).min(most);
        let outcome = self.run_bounded(test, budget, steps)?;
        Ok(Piece::new(self.checked.program(), self.worker, list, outcome))
    }

    /// Runs a test after those before it, within its budget. It answers the piece of the machine's list with this test at
    /// its end, and counts the outcome's units.
    ///
    /// `OverBudget` comes exactly where the test's units would pass its budget. After an error the machine is spent, with
    /// its list as before, and nothing is counted.
    pub fn run_test<L: Ledger>(
        &mut self,
        test: u32,
        steps: &mut Steps<L>,
    ) -> Result<Piece, RunFault>
        requires ready { self.old.spent ≡ false }
        requires test { IsTest self.old.program test }
        ensures gives { IfOk result (λ x. suite.one_test
            self.old.program (M.world self.old.memory) test (test_at self.old.program test).budget
            ≡ given_in self.old.program test (M.world self.old.memory)
            (test_at self.old.program test).budget (Some x.outcome) (M.world self.new.memory)) }
        ensures piece { IfOk result (λ x. x ≡ record {
          program = self.old.program;
          worker = self.old.worker;
          list = self.old.list ++ test ∷ [];
          outcome = x.outcome;
        }) }
        ensures told { OnOk result (TracesOne
            self.old.program test (M.world self.old.memory) (test_at self.old.program test).budget
            M.follows self.old.memory self.new.memory) }
        ensures counted { IfOk result (λ x. steps.new ≡ steps.old + x.outcome.units) }
        ensures after { OnOk result (self.new ≡ record self.old {
          list = self.old.list ++ test ∷ [];
          memory = self.new.memory;
        }) }
        ensures refused { IfErr result (IsRefused
            self.old.program (M.world self.old.memory) test (test_at self.old.program test).budget) }
        ensures spent { OnErr result (self.new ≡ record self.old {
          memory = self.new.memory;
          spent = true;
        }) }
        ensures uncounted { OnErr result (steps.new ≡ steps.old) }
    {
        let budget = budget_of(self.checked.program(), test);
        self.run_within(test, budget, steps)
    }

    /// Runs a test within its budget, and adds its outcome to those before it.
    fn run_next<L: Ledger>(
        &mut self,
        test: u32,
        outcomes: &mut Items<Outcome>,
        steps: &mut Steps<L>,
    ) -> Result<(), RunFault>
        requires ready { self.old.spent ≡ false }
        requires test { IsTest self.old.program test }
        ensures ran { OnOk result (RanNext M.world M.follows self.old.program
            self.old.memory self.new.memory test outcomes.old outcomes.new steps.old steps.new) }
        ensures after { OnOk result (self.new ≡ record self.old {
          list = self.old.list ++ test ∷ [];
          memory = self.new.memory;
        }) }
        ensures refused { IfErr result (IsRefused
            self.old.program (M.world self.old.memory) test (test_at self.old.program test).budget) }
        ensures before { IfErr result (RanBefore
            self.old.program (M.world self.old.memory) (test ∷ []) steps.old steps.new) }
        ensures spent { OnErr result (self.new ≡ record self.old {
          list = self.new.list;
          memory = self.new.memory;
          spent = true;
        }) }
    {
        let budget = budget_of(self.checked.program(), test);
        let outcome = self.run_bounded(test, budget, steps)?;
        let Ok(()) = outcomes.push(outcome) else {
            self.spent = true;
            return Err(RunFault::NoMemory);
        };
        Ok(())
    }

    /// Runs the tests of a list in order after those before them, each within its own budget, and answers their outcomes.
    /// It counts their units.
    ///
    /// `OverBudget` names the first test whose units would pass its budget. After an error the machine is spent, and the
    /// units of the tests that ended are counted: after `OverBudget` those of the tests before the one that it names.
    pub fn run_list<L: Ledger>(
        &mut self,
        list: &[u32],
        steps: &mut Steps<L>,
    ) -> Result<Items<Outcome>, RunFault>
        requires ready { self.old.spent ≡ false }
        requires tests { All (IsTest self.old.program) list.now }
        ensures ran { IfOk result (λ os. RanList M.world M.follows self.old.program
            self.old.memory self.new.memory list.now os steps.old steps.new) }
        ensures after { OnOk result (self.new ≡ record self.old {
          list = self.old.list ++ list.now;
          memory = self.new.memory;
        }) }
        ensures refused { IfErr result (IsListRefused
            self.old.program (M.world self.old.memory) list.now) }
        ensures before { IfErr result (RanBefore
            self.old.program (M.world self.old.memory) list.now steps.old steps.new) }
        ensures spent { OnErr result (self.new ≡ record self.old {
          list = self.new.list;
          memory = self.new.memory;
          spent = true;
        }) }
    {
        let mut outcomes = Items::new(self.alloc);
        for index in 0..list.len() {
            self.run_next(list[index], &mut outcomes, steps)?;
        }
        Ok(outcomes)
    }
}

impl<'p> Machine<'p, RegionMemory> {
    /// Sets the machine back to the opening world, with no test run, also after a refusal. It takes no memory.
    pub fn reset(&mut self)
        ensures machine { self.new ≡ record self.old {
          list = [];
          memory = self.new.memory;
          spent = false;
        } }
        ensures program { self.new.memory.program ≡ self.old.program }
        ensures world { self.new.memory.world ≡ suite.opening self.old.program }
    {
        reach_law();
        let _program = self.checked.program();
        self.memory.reset();
        self.list = Items::new(self.alloc);
        self.spent = false;
    }
}
