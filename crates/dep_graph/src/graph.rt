//! The graph of a record.

ghost use Rattle.std.specs.Prelude.{◌≡◌, ◌↔◌, IfOk, IsTrue};
ghost use Rattle.order_law.specs.Conflicts.{Before};
ghost use Rattle.dep_graph.specs.Graphs.{GoUp, AreWriters};

use crate::rows::rows_of;
use crate::sets::TestSet;
use crate::sources::sources_of;
use et_base::{Items, NoMemory};
use order_law::{Edge, Record};
use std::alloc::Global;
use std::marker::Model;
use std::snapshot::Snapshot;

/// The graph of a record. Contracts see it as the edges of the record.
#[derive(Drop)]
pub struct Graph {
    rows: Vec<TestSet>,
    sources: Vec<Items<u32>>,
    edges: Snapshot<Items<Edge>>,
}

impl Model for Graph {
    ghost use Rattle.std.specs.Prelude.{List};
    ghost use Rattle.order_law.specs.declared.edges.Edge.{Edge};
    ghost use Rattle.dep_graph.specs.Graphs.{IsKept};

    ghost Value = { List Edge };

    ghost view = { λ g. g.edges.value };

    ghost invariant = { λ g. IsKept g.edges.value g.rows.items g.sources.items };
}

impl Graph {
    /// The graph of a record, of whatever edges.
    pub fn of(alloc: Global, r: &Record) -> Result<Graph, NoMemory>
        ensures { IfOk result (λ g. g ≡ r.now.edges) }
    {
        let tests = r.units.len();
        let rows = rows_of(alloc, tests, r.edges.as_slice())?;
        let sources = sources_of(alloc, tests, r.edges.as_slice())?;
        Ok(Graph {
            rows,
            sources,
            edges: Snapshot::of(&r.edges),
        })
    }

    /// The raw writers of a test, ascending. What is no test of the record has none. Takes no memory.
    pub fn raw_of(&self, t: u32) -> &[u32]
        ensures { AreWriters self.now t result.now }
    {
        match self.sources.get(t as usize) {
            Some(list) => list.as_slice(),
            None => &[],
        }
    }

    /// Whether a test is before another: by edges of any kind, over the whole record. Takes no memory.
    pub fn before(&self, u: u32, t: u32) -> bool
        ensures { IsTrue result ↔ Before self.now u t }
    {
        match self.rows.get(t as usize) {
            Some(row) => row.has(u),
            None => false,
        }
    }

    /// Each edge leads to a later test, and none has a number above 1,024. It does nothing.
    pub fn goes_up(&self)
        ensures { GoUp 1024 self.now }
    {
        let _ = &self.rows;
    }
}
