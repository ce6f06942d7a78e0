//! Cones as the jobs of a pool.

ghost use Rattle.cone_run.specs.Cones.{AreCones, IsConeSuite};

use crate::book::{Book, BookName};
use crate::runs::run_alone;
use et_base::Items;
use job_pool::Jobs;
use outside::{Gate, Steps};
use std::marker::Model;
use std::sync::ledger::Ledger;
use std::sync::{Mutex, Wait};
use test_run::Machine;
use vm_heap::RegionMemory;

/// The cones of the selected tests, by the places of these, and the book of them. Contracts see the cones.
#[derive(Drop)]
pub struct ConeJobs<'a, N: BookName> {
    book: &'a Mutex<Book<N>>,
    cones: &'a [Items<u32>],
}

impl<'a, N: BookName> Model for ConeJobs<'a, N> {
    ghost use Rattle.std.specs.Prelude.{ℕ, List};
    ghost use Rattle.cone_run.specs.Cones.{AreCones, IsConeSuite};

    ghost Value = { List (List ℕ) };

    ghost view = { λ j. j.cones.now };

    ghost invariant = { λ j. IsConeSuite N.program N.edges N.selected
        × AreCones N.edges N.selected j.cones.now };
}

impl<'a, N: BookName> ConeJobs<'a, N> {
    /// The cones of a selection as jobs, with their book.
    pub fn new(book: &'a Mutex<Book<N>>, cones: &'a [Items<u32>]) -> ConeJobs<'a, N>
        requires suite { IsConeSuite N.program N.edges N.selected }
        requires cones { AreCones N.edges N.selected cones.now }
    {
        ConeJobs { book, cones }
    }
}

impl<'a, N: BookName> Jobs<N> for ConeJobs<'a, N> {
    fn take<R: Wait, G: Gate, L: Ledger>(
        &self,
        rt: &R,
        gate: &G,
        worker: u32,
        machine: &mut Machine<'_, RegionMemory>,
        number: u32,
        steps: &mut Steps<L>,
    ) -> bool {
        let place = number as usize;
        if place >= self.cones.len() || !self.book.lock(rt).claim(place) {
            return true;
        }
        let list = self.cones[place].as_slice();
        let Ok(run) = run_alone(gate, machine, worker, list, steps) else {
            return false;
        };
        self.book.lock(rt).post(place, run.piece, run.units);
        true
    }
}
