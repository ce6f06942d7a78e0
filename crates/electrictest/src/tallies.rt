//! The report on a run, of the lines of its tests and the counts of their verdicts.

ghost use Rattle.std.specs.Prelude.{◌≡◌, ◌++◌, ◌∷◌, codes, OnOk, IfOk};
ghost use Rattle.jvm_model.specs.Texts as line;
ghost use Rattle.electrictest.specs.Tallies.{report_text};

use et_base::{NoMemory, Text, push_decimal};
use std::alloc::Global;
use test_run::{Counts, count_line, push_head};

// Appends the number of chains, or `-`.
fn push_chains(out: &mut Text, chains: Option<u64>) -> Result<(), NoMemory>
    ensures { OnOk result (out.new ≡ out.old ++ line.chains_text chains) }
{
    match chains {
        Some(chains) => push_decimal(out, chains),
        None => out.push(b'-'),
    }
}

// Appends the lines before those of the tests of a run.
fn push_run(
    out: &mut Text,
    selected: u64,
    executed: u64,
    chains: Option<u64>,
) -> Result<(), NoMemory>
    ensures { OnOk result (out.new ≡ out.old
        ++ (codes "electric-run 1" ++ (10 ∷ line.head_line selected executed chains))) }
{
    push_head(out, b"electric-run 1", selected, b" executed ", executed)?;
    out.extend_from_slice(b" chains ")?;
    push_chains(out, chains)?;
    out.push(b'\n')
}

/// The report on a run of so many tests, of which so many were selected, in so many chains or in none: by their lines, in suite
/// order, and their counts. The only error is want of memory.
pub fn report_of(
    alloc: Global,
    selected: u64,
    executed: u64,
    chains: Option<u64>,
    lines: &[u8],
    counts: Counts,
) -> Result<Text, NoMemory>
    ensures { IfOk result (λ text. text ≡ report_text selected executed chains lines.now counts) }
{
    let mut text = Text::new(alloc);
    push_run(&mut text, selected, executed, chains)?;
    text.extend_from_slice(lines)?;
    let counted = count_line(alloc, counts.passed, counts.failed, counts.error)?;
    text.extend_from_slice(counted.as_slice())?;
    Ok(text)
}
