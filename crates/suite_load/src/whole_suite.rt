//! Loading of a whole suite.

ghost use Rattle.std.specs.Prelude.{◌≡◌, ◌≤◌, length, IfOk, IfErr, ◌-◌};
ghost use Rattle.jvm_model.specs.Builtin.{builtin_count};
ghost use Rattle.outside.specs.Depot.{FailedAt, OfHeld, TellsOn};
ghost use Rattle.type_frames.specs.Typing.{IsTyped};
ghost use Rattle.suite_load.specs.{Loading.IsRead, LoadAnswers.LoadAnswers, LoadAnswers.IsProper};

use crate::depot_files::{classes_in, suite_in};
use crate::linking::program_of;
use crate::load_fault::LoadFault;
use crate::loaded::Loaded;
use crate::report_names::names_in;
use et_base::Text;
use outside::Depot;
use std::alloc::Global;

/// The checked program of the suite of this name, with the names that reports print and the suite's sums; or the first fault.
///
/// Faults come in this order: the suite text isn't there (`Absent`), is longer than 1 MiB (`TooLarge`) or has a faulty line
/// (`Suite`); a class file, in the suite's order, isn't there, is longer than 1 MiB or with those before it than 64 MiB, or
/// isn't in its grammar (`Class`); the class files don't link (`Link`); a test line names no test (`Suite`); a class breaks a
/// rule of the type checker (`Check`). `Depot` comes where the depot failed at a file, which is named, and `NoMemory` where an allocation was
/// refused. The bytes of a class file are dropped before the next one is read.
pub fn load<D: Depot>(alloc: Global, depot: &mut D, name: &Text) -> Result<Loaded, LoadFault>
    ensures told { TellsOn (D.shown depot.old).told (D.shown depot.new).told }
    ensures faults { (D.shown depot.old).faults ≤ (D.shown depot.new).faults }
    // Which program or fault it is, of whichever files the depot may hold by what it told.
    ensures loads { OfHeld (D.shown depot.new).told (λ files. LoadAnswers files name.now result) }
    // `Depot` names the file of its last read that failed, one that is read of whichever files the depot may hold; want of
    // memory is answered by itself alone, and a line that names no test by its line.
    ensures proper { IfErr result (IsProper (λ read.
        OfHeld (D.shown depot.new).told (λ files. IsRead files name.now read)
        × FailedAt (D.shown depot.old) (D.shown depot.new) read)) }
    // There is a name for each test.
    ensures names { IfOk result (λ l. length l.names.tests ≡ length l.checked.tests) }
    // There is a sum for each class file.
    ensures sums { IfOk result (λ l. length l.prints.classes ≡ length l.checked.classes - builtin_count) }
    // The program is typed.
    ensures typed { IfOk result (λ l. IsTyped l.checked) }
{
    let (suite, mut sums) = suite_in(alloc, depot, name)?;
    let classes = classes_in(alloc, depot, suite.classes.as_slice(), &mut sums)?;
    let checked = program_of(alloc, &suite, classes.as_slice())?;
    let names = names_in(alloc, &suite, checked.program())?;
    Ok(Loaded {
        checked,
        names,
        prints: sums.prints(),
    })
}
