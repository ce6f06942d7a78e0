//! The commands: from the words of a command line, the files of a depot to the text on a sink.
//!
//! Begin with `specs/Commands.antt`, what the top call promises, `specs/Words.antt`, the forms of
//! words, and `specs/Replies.antt`, what answers them; then `threaded.rt`, `commands.rt` and a
//! command's own file, say `quiet_lists.rt`.
//!
//! - `electric` serves every command: what is on the sink by each status is what is defined for
//!   these words, of whichever files the depot may hold by what it told (`served`), and in any
//!   case as `taken` says.
//! - `electric_plain` serves in the same way what needs no threads.
//! - `own_orders_law` and `own_runs_law` say what the suite's own record gives, and the other calls of `laws.rt` what comes
//!   of faults that don't.
//!
//! One enum, `Command`, has all forms of words, and `Ask` is what a call was asked with the words
//! that name what it is about. A command over a loaded suite is a function of its own file that
//! promises `AnswersOver`: what it reports, why it doesn't, and how that ends.
#![tactic(auto)]

mod asks;
mod begins;
mod commands;
mod cone_runs;
mod detections;
mod fault_texts;
mod generated;
mod impacts;
mod laws;
mod loading;
mod logs;
mod manifests;
mod orders;
mod plan_texts;
mod plans;
mod pool_reports;
mod pool_runs;
mod quiet_lists;
mod recorded;
mod reports;
mod running;
mod selections;
mod status;
mod tallies;
mod texts;
mod threaded;
mod wholes;
mod words;

pub use commands::{electric_plain, written};
pub use laws::{
    detected_law, own_orders_law, own_runs_law, quiet_answer_law, quiet_depot_law, quiet_sink_law,
    record_size_law,
};
pub use status::{InputFault, OverFault, Status};
pub use threaded::electric;
