//! What a detection run found, as plain data: the record of a suite, and what reports show of it.

ghost use Rattle.std.specs.Prelude.{IsTrue};
ghost use Rattle.order_law.specs.RecordForm.{is_record_form, is_reach_form, are_chains};

use crate::edges::Edge;
use et_base::{Items, Text};

/// What a test can depend on besides the record's edges. `settled`: each of its exposed reads is of the static `System.out`,
/// and no code of the suite puts that. `classes`: the classes of the suite that it may reach, by their numbers from 1,
/// ascending.
#[derive(Drop)]
pub struct Reach {
    pub settled: bool,
    pub classes: Items<u32>,
}

/// What version 2 of a record adds: SHA-256 of the suite text and of each class file, and each test's reach.
#[derive(Drop)]
pub struct More {
    pub suite: [u8; 32],
    pub classes: Items<[u8; 32]>,
    pub reach: Items<Reach>,
}

/// A record: the digest of the suite, each test's units, and all edges, by the later test, then the earlier one, then the
/// kind. A version 1 record has no `more`.
#[derive(Drop)]
pub struct Record {
    pub digest: [u8; 32],
    pub units: Items<u64>,
    pub edges: Items<Edge>,
    pub more: Option<More>,
    ghost form: { IsTrue (is_record_form units edges) },
    ghost more_form: { IsTrue (is_reach_form units more) },
}

/// SHA-256 sums of a suite: over the suite text and all class files, each behind its length; of the suite text; of each
/// class file; and over the five bytes `eager` and then what the first is over.
#[derive(Drop)]
pub struct Prints {
    pub digest: [u8; 32],
    pub suite: [u8; 32],
    pub classes: Items<[u8; 32]>,
    pub eager: [u8; 32],
}

/// A location of an edge: its text, and the texts of the reads by which the later test came to its object.
#[derive(Drop)]
pub struct Place {
    pub at: Text,
    pub walk: Items<Text>,
}

/// The first locations of an edge, at most 8.
#[derive(Drop)]
pub struct Shown {
    pub places: Items<Place>,
}

/// Tests by chain: no chain is empty, and no test stands twice.
#[derive(Drop)]
pub struct Chains {
    pub lists: Items<Items<u32>>,
    ghost form: { IsTrue (are_chains lists) },
}
