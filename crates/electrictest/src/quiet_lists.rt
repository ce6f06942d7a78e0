//! The quiet classes of a suite.

ghost use Rattle.std.specs.Prelude.{◌≡◌, ℕ, Ok};
ghost use Rattle.outside.specs.Depot.{DepotView};
ghost use Rattle.electrictest.specs.{Words.Ask, Commands.AnswersOver};
ghost use Rattle.electrictest.specs.declared.words.Command.TheVariants as command;

use crate::reports::Report;
use crate::status::Status;
use quiet_init::quiet_text;
use std::alloc::Global;
use suite_load::Loaded;

/// The report on the classes of a suite whose initialisers only set constants; it runs no test. The only refusal is want of
/// memory.
pub fn quiet_for(alloc: Global, loaded: &Loaded) -> Result<Report, Status>
    ensures { (a : Ask) (depot : DepotView) (steps : ℕ) → a.command ≡ Ok command.Quiet →
        AnswersOver loaded.now a depot depot steps steps result }
{
    let text = quiet_text(alloc, &loaded.checked)?;
    Ok(Report { text, passed: true })
}
