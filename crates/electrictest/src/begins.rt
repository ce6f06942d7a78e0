//! What a command with a record of the suite begins with.

ghost use Rattle.std.specs.Prelude.{◌≡◌, ◌≤◌, ℕ, All, Ok, Err, IfOk, IfErr, IfSome, Some, length};
ghost use Rattle.outside.specs.Depot.{OfHeld, TellsOn};
ghost use Rattle.electrictest.specs.Commands.{AnswersOver, IsNameRefusal};
ghost use Rattle.electrictest.specs.Loads.{IsSuite, NamesTests, begun_by, named_by};
ghost use Rattle.electrictest.specs.{Begun.IsOfSuite, Records.Gives, Records.beginning, Selections.IsTestOf};
ghost use Rattle.schedule_plan.specs.Plans.{HasUnits};
ghost use Rattle.test_run.specs.Running.{IsTest};

use crate::asks::Ask;
use crate::recorded::{Request, begin_with};
use crate::selections::{ordered, selected};
use crate::status::Status;
use crate::words::Command;
use et_base::Items;
use outside::Depot;
use std::alloc::Global;
use suite_load::Loaded;

// The tests that the words name.
fn named(alloc: Global, loaded: &Loaded, ask: &Ask<'_>) -> Result<Items<u32>, Status>
    requires suite { IsSuite loaded.now }
    ensures gives { IfSome (named_by ask.now.command ask.now.words loaded.now)
        (Gives (λ ts. ts) result) }
    ensures tests { IfOk result (All (IsTestOf loaded.now.names)) }
    ensures proper { IfErr result IsNameRefusal }
{
    match ask.command() {
        Ok(Command::Run { .. } | Command::Plan { .. } | Command::Cones { .. }) => {
            selected(alloc, &loaded.names, ask.selection())
        }
        Ok(Command::Order) => ordered(alloc, &loaded.names, ask.order()),
        _ => Ok(Items::new(alloc)),
    }
}

/// The tests that the words name, and the record of the suite that they name.
///
/// `NoTest` comes where a name is of no test; then what the record is refused for: see `begin_with`.
pub fn begin<D: Depot>(
    alloc: Global,
    loaded: &Loaded,
    ask: &Ask<'_>,
    depot: &mut D,
) -> Result<Request, Status>
    requires named { NamesTests ask.now loaded.now }
    requires suite { IsSuite loaded.now }
    ensures told { TellsOn (D.shown depot.old).told (D.shown depot.new).told }
    ensures faults { (D.shown depot.old).faults ≤ (D.shown depot.new).faults }
    ensures begins { IfOk result (λ b. OfHeld (D.shown depot.new).told (λ files.
        begun_by files ask.now loaded.now ≡ Some (Ok (beginning b)))) }
    ensures suite { IfOk result (λ b. IsOfSuite loaded.now (beginning b)) }
    ensures tests { IfOk result (λ b. All (IsTest loaded.now.checked) b.tests) }
    ensures units { IfOk result (λ b. HasUnits b.tests b.record.units) }
    ensures many { IfOk result (λ b. length b.record.units ≡ length loaded.now.checked.tests) }
    ensures refused { (steps : ℕ) → IfErr result (λ s. let depot_now = D.shown depot.new in
        AnswersOver loaded.now ask.now (D.shown depot.old) depot_now steps steps (Err s)) }
{
    let tests = named(alloc, loaded, ask)?;
    let begun = begin_with(alloc, depot, loaded, tests, ask.record())?;
    // It is typed, and so linked.
    let _program = loaded.checked.program();
    Ok(begun)
}
