//! What changed class files concern.

ghost use Rattle.std.specs.Prelude.{◌≡◌, ℕ, Ok};
ghost use Rattle.electrictest.specs.{Commands.AnswersOver};
ghost use Rattle.electrictest.specs.declared.words.Command.TheVariants as command;

use crate::asks::Ask;
use crate::recorded::earlier_record;
use crate::reports::Report;
use crate::status::Status;
use impact_pick::impact_text;
use outside::Depot;
use std::alloc::Global;
use suite_load::Loaded;

/// The class files that aren't those of the record that the words name, and the tests to run again; it runs no test.
///
/// The refusals are those of the record: see `earlier_record`.
pub fn impact_for<D: Depot>(
    alloc: Global,
    loaded: &Loaded,
    ask: &Ask<'_>,
    depot: &mut D,
) -> Result<Report, Status>
    requires asks { ask.now.command ≡ Ok command.Impact }
    ensures { (steps : ℕ) → let depot_now = D.shown depot.new in
        AnswersOver loaded.now ask.now (D.shown depot.old) depot_now steps steps result }
{
    let record = earlier_record(alloc, depot, loaded, ask.record())?;
    let text = impact_text(
        alloc,
        &loaded.names,
        &record,
        &loaded.checked,
        &loaded.prints,
    )?;
    Ok(Report { text, passed: true })
}
