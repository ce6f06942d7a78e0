//! The texts of records, both ways, the reports on dependences, and the sums that name a suite.
//!
//! Begin with `specs/RecordText.antt`, the text of a record, and `specs/RecordReading.antt`, its
//! first faulty line; then `record_text.rt`, `reading.rt` and `report_text.rt`.
//!
//! - `write_record` gives the text of a record, of version 2 where it has `more`.
//! - `read_record` gives what a text says, or `RecordFault` with its first faulty line.
//! - `prints` gives the SHA-256 sums of a suite and of its files.
//! - `text_laws` says that the text of a record in form is read as that record.
//!
//! A fault is a line number only. Each line is judged by its own form and the lines before it, so a
//! `reach` line behind `classes 0` is itself the faulty one.
#![tactic(auto)]

mod cut;
mod hash_text;
mod hashes;
mod laws;
mod line_forms;
mod lines;
mod numbers;
mod reading;
mod record_text;
mod refusal;
mod report_json;
mod report_text;

pub use cut::place_of;
pub use hashes::{add_sized, digest, prints};
pub use laws::text_laws;
pub use line_forms::are_printable;
pub use numbers::number_up_to;
pub use reading::read_record;
pub use record_text::write_record;
pub use refusal::RecordRefusal;
pub use report_json::deps_json;
pub use report_text::deps_text;
