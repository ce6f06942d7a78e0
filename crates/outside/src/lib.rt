//! The outside that a run reads and writes: depots of files, sinks of text, gates before tests, and
//! counted units.
//!
//! Begin with `specs/Depot.antt` and `specs/Sink.antt`, which say what contracts see of either,
//! then `depot.rt` and `sink.rt`: the traits that folders, standard output and their stand-ins in
//! memory keep.
//!
//! - `Depot::read` gives at most as many bytes as asked, and whichever files the depot may hold, by
//!   all that it told, agree with its answers; `Failed` comes only where its count of faults rose.
//! - `Sink::write` takes bytes from the front of a piece, and none only where its count of faults
//!   rose.
//! - `write_text` has all of a text taken, or the sink took a prefix and its count of faults rose.
//!
//! A count ends at the greatest u64, and `Rose` is also said of one that stands there.
#![tactic(auto)]

mod buffer;
mod counts;
mod depot;
mod files;
mod folder_depot;
mod gate;
mod heard;
mod laws;
mod memory_depot;
mod memory_sink;
mod quiet_depot;
mod quiet_sink;
mod sink;
mod std_sink;
mod steps;
mod texts;

pub use depot::{Depot, DepotRefusal};
pub use folder_depot::FolderDepot;
pub use gate::{Gate, OpenGate};
pub use laws::alike_answers_law;
pub use memory_depot::MemoryDepot;
pub use memory_sink::MemorySink;
pub use quiet_depot::QuietDepot;
pub use quiet_sink::QuietSink;
pub use sink::{Sink, SinkFailed};
pub use std_sink::StdSink;
pub use steps::Steps;
pub use texts::write_text;
