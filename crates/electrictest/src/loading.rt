//! From words and a depot's files to a checked program.

ghost use Rattle.std.specs.Prelude.{◌≡◌, ◌≤◌, IfOk, IfErr, Ok};
ghost use Rattle.outside.specs.Depot.{OfHeld, TellsOn};
ghost use Rattle.electrictest.specs.{Causes.AsksAny, Commands.ReportEnds, Loads.LoadsFor, Loads.IsSuite, Replies.Unreported};
ghost use Rattle.electrictest.specs.Loads as loads;
ghost use Rattle.electrictest.specs.Words as asked_for;

use crate::asks::Ask;
use crate::status::{InputFault, Status};
use et_base::{NoMemory, Text};
use order_law::Prints;
use outside::Depot;
use quiet_init::quiet;
use std::alloc::Global;
use suite_load::{LoadFault, Loaded, load};

/// How a fault of loading is answered.
pub fn status_of(fault: LoadFault) -> Status
    ensures { result ≡ loads.status_of fault }
{
    match fault {
        LoadFault::Depot { name } => Status::Depot { name },
        LoadFault::Absent { name } => Status::Input(InputFault::Absent { name }),
        LoadFault::TooLarge { name } => Status::Input(InputFault::TooLarge { name }),
        LoadFault::Suite { line, why } => Status::Input(InputFault::Suite { line, why }),
        LoadFault::Class { name, fault } => Status::Input(InputFault::Class { name, fault }),
        LoadFault::Link { fault } => Status::Input(InputFault::Link { fault }),
        LoadFault::Check { fault } => Status::Input(InputFault::Check { fault }),
        LoadFault::NoMemory => Status::NoMemory,
    }
}

// The suite without its quiet initialisers, with the digest of eager forms. The only error is want of memory.
fn quieted(alloc: Global, loaded: Loaded) -> Result<Loaded, NoMemory>
    requires suite { IsSuite loaded }
    ensures quieted { IfOk result (λ l. l ≡ loads.quieted loaded) }
    ensures suite { IfOk result IsSuite }
{
    let Loaded {
        checked,
        names,
        prints,
    } = loaded;
    let program = quiet(alloc, checked)?;
    let digest = prints.eager;
    let prints = Prints { digest, ..prints };
    Ok(Loaded {
        checked: program.checked,
        names,
        prints,
    })
}

// So is a loaded suite where the form is eager.
fn prepared(alloc: Global, eager: bool, loaded: Loaded) -> Result<Loaded, NoMemory>
    requires suite { IsSuite loaded }
    ensures prepared { IfOk result (λ l. Ok l ≡ loads.prepared eager (Ok loaded)) }
    ensures suite { IfOk result IsSuite }
{
    if eager {
        quieted(alloc, loaded)
    } else {
        Ok(loaded)
    }
}

/// The suite that the words name: its checked program, the names that reports print, and its sums; of an eager form without its
/// quiet initialisers.
///
/// `Words` comes exactly where no command is asked for, `NeedsRecord` where one lacks its record; `Input` as the first fault of
/// loading does; `Depot` only where the depot failed.
pub fn load_for<D: Depot>(alloc: Global, ask: &Ask<'_>, depot: &mut D) -> Result<Loaded, Status>
    requires over { asked_for.IsOverSuite ask.now.command }
    ensures told { TellsOn (D.shown depot.old).told (D.shown depot.new).told }
    ensures faults { (D.shown depot.old).faults ≤ (D.shown depot.new).faults }
    ensures loads { IfOk result (λ l. OfHeld (D.shown depot.new).told (λ files.
        LoadsFor files ask.now (Ok l))) }
    ensures refused { IfErr result (λ s. OfHeld (D.shown depot.new).told (λ files.
        Unreported files ask.now s)) }
    ensures suite { IfOk result IsSuite }
    ensures form { IfOk result (λ _. AsksAny ask.now.command) }
    ensures ends { IfErr result (λ s.
        ReportEnds ask.now s (D.shown depot.old) (D.shown depot.new)) }
{
    if let Some(status) = ask.refusal() {
        return Err(status);
    }
    let name = Text::from_slice(alloc, ask.suite())?;
    match load(alloc, depot, &name) {
        Ok(loaded) => Ok(prepared(alloc, ask.is_eager(), loaded)?),
        Err(fault) => Err(status_of(fault)),
    }
}
