//! The text of a run's history.

ghost use Rattle.std.specs.Prelude.{◌≡◌, ◌++◌, ◌∷◌, [], decimal, OnOk};
ghost use Rattle.run_core.specs.Run.{told, history_of, last_of};
ghost use Rattle.electrictest.specs.Logs.{event_line, log_text};

use et_base::{NoMemory, Text, push_decimal};
use run_core::Event;

// The last test of a list, or 0.
fn last_test(list: &[u32]) -> u32
    ensures { result ≡ last_of list.now }
{
    list.last().copied().unwrap_or(0)
}

// Appends a line of a word, a worker and a number.
fn push_line(out: &mut Text, word: &[u8], worker: u32, number: u32) -> Result<(), NoMemory>
    ensures { OnOk result (out.new
        ≡ out.old ++ (word.now ++ (decimal worker ++ (32 ∷ (decimal number ++ (10 ∷ [])))))) }
{
    out.extend_from_slice(word)?;
    push_decimal(out, worker as u64)?;
    out.push(b' ')?;
    push_decimal(out, number as u64)?;
    out.push(b'\n')
}

// Appends the line of an event; chains are numbered from 1.
fn push_event(out: &mut Text, event: &Event) -> Result<(), NoMemory>
    ensures { OnOk result (out.new ≡ out.old ++ event_line (told event.now)) }
{
    match event {
        Event::Claim { worker, chain } => push_line(out, b"claim ", *worker, (*chain).max(1)),
        Event::Post(piece) => push_line(out, b"post ", piece.worker(), last_test(piece.list())),
    }
}

/// Appends the history of these events, which stand in the order in which they came.
#[tactic(auto, unfolding(crate::specs::Logs::log_text), using(crate::proofs::LogLaws::lines_in_order))]
pub fn push_log(out: &mut Text, events: &[Event]) -> Result<(), NoMemory>
    ensures { OnOk result (out.new ≡ out.old ++ log_text (history_of events.now)) }
{
    out.extend_from_slice(b"log\n")?;
    for event in events {
        push_event(out, event)?;
    }
    out.extend_from_slice(b"end\n")
}
