//! A suite's text and its class files, read from a depot.

ghost use Rattle.std.specs.Prelude.{◌≡◌, ◌≤◌, ◌<◌, ◌^◌, ◌+◌, ◌++◌, ◌∷◌, [], drop, length, map, IfOk, OnOk, IfErr};
ghost use Rattle.outside.specs.Depot.{FailedAt, OfHeld, TellsOn};
ghost use Rattle.class_link.specs.Link.{AreLines};
ghost use Rattle.class_reader.specs.Faults.{class_of};
ghost use Rattle.suite_load.specs.{SuiteForm.suite_of, Sums.AreSums, Sums.AreMoreSums};
ghost use Rattle.suite_load.specs.Loading as loading;
ghost use Rattle.et_base.specs.Answers.{Gives};
ghost use Rattle.suite_load.specs.LoadAnswers.{Answers, IsProper, refusal_of, says};

use crate::load_fault::LoadFault;
use crate::print_sums::PrintSums;
use crate::suite_reading::read_suite;
use crate::suite_text::{SuiteRefusal, SuiteText};
use class_reader::{ClassFault, ClassFile, read_class};
use et_base::{Items, Text};
use outside::{Depot, DepotRefusal};
use std::alloc::Global;

/// The most bytes of a suite text and of a class file.
const FILE_LIMIT: u64 = 1_048_576;

/// The most bytes of all class files.
const ALL_LIMIT: u64 = 67_108_864;

// How a refusal of the depot at the file of this name is answered.
fn named(refusal: DepotRefusal, name: Text) -> LoadFault
    ensures { result ≡ refusal_of refusal name }
{
    match refusal {
        DepotRefusal::Absent => LoadFault::Absent { name },
        DepotRefusal::TooLong => LoadFault::TooLarge { name },
        DepotRefusal::Failed => LoadFault::Depot { name },
        DepotRefusal::NoMemory => LoadFault::NoMemory,
    }
}

// The bytes of a file, of which there may be so many.
#[tactic(auto, unfolding(crate::specs::Loading::file_of))]
fn read_file<D: Depot>(
    alloc: Global,
    depot: &mut D,
    name: &Text,
    most: u64,
) -> Result<Text, LoadFault>
    ensures told { TellsOn (D.shown depot.old).told (D.shown depot.new).told }
    ensures faults { (D.shown depot.old).faults ≤ (D.shown depot.new).faults }
    ensures answers { OfHeld (D.shown depot.new).told (λ files.
        Answers result (loading.file_of files most name.now)) }
    ensures proper { IfErr result (IsProper (λ read.
        (read ≡ name.now) × FailedAt (D.shown depot.old) (D.shown depot.new) read)) }
    ensures within { IfOk result (λ bytes. length bytes ≤ most) }
{
    match depot.read(name, most) {
        Ok(bytes) => Ok(Text::from_vec(bytes)),
        Err(refusal) => {
            let name = Text::from_slice(alloc, name.as_slice())?;
            Err(named(refusal, name))
        }
    }
}

// What the bytes of a suite text say.
fn suite_of_bytes(alloc: Global, bytes: &[u8]) -> Result<SuiteText, LoadFault>
    ensures lines { IfOk result (λ suite. AreLines (loading.lines_of suite)) }
    ensures few { IfOk result (λ suite. length suite.classes ≤ 1024) }
    ensures answers { Answers result (loading.suite_answer (suite_of bytes.now)) }
    ensures proper { IfErr result (IsProper (λ _. ⊥)) }
{
    match read_suite(alloc, bytes) {
        Ok(suite) => Ok(suite),
        Err(SuiteRefusal::NoMemory) => Err(LoadFault::NoMemory),
        Err(SuiteRefusal::Suite { line, why }) => Err(LoadFault::Suite { line, why }),
    }
}

/// The suite text of this name, and the sums over its bytes.
#[tactic(auto, unfolding(crate::specs::Loading::suite_in))]
pub fn suite_in<D: Depot>(
    alloc: Global,
    depot: &mut D,
    name: &Text,
) -> Result<(SuiteText, PrintSums), LoadFault>
    ensures told { TellsOn (D.shown depot.old).told (D.shown depot.new).told }
    ensures faults { (D.shown depot.old).faults ≤ (D.shown depot.new).faults }
    ensures lines { IfOk result (λ x. AreLines (loading.lines_of x.0)) }
    ensures few { IfOk result (λ x. length x.0.classes ≤ 1024) }
    ensures answers { OfHeld (D.shown depot.new).told (λ files.
        Gives says (λ x. x.0) result (loading.suite_in files name.now)) }
    ensures sums { IfOk result (λ x. OfHeld (D.shown depot.new).told (λ files.
        AreSums x.1 (loading.bytes_of files name.now) [])) }
    ensures none { IfOk result (λ x. length x.1.classes ≡ 0) }
    ensures proper { IfErr result (IsProper (λ read.
        (read ≡ name.now) × FailedAt (D.shown depot.old) (D.shown depot.new) read)) }
{
    let bytes = read_file(alloc, depot, name, FILE_LIMIT)?;
    let suite = suite_of_bytes(alloc, bytes.as_slice())?;
    Ok((suite, PrintSums::of(alloc, bytes.as_slice())))
}

// How a fault of the class file of this name is answered.
fn class_fault(fault: ClassFault, name: Text) -> LoadFault
    ensures named { result ≡ loading.class_fault name fault }
    ensures proper { IsProper (λ _. ⊥) result }
{
    match fault {
        ClassFault::NoMemory => LoadFault::NoMemory,
        fault => LoadFault::Class { name, fault },
    }
}

// The class file of this name that the bytes spell.
fn class_of_bytes(alloc: Global, bytes: &[u8], name: &Text) -> Result<ClassFile, LoadFault>
    requires { length bytes.now < 2 ^ 32 }
    ensures answers { Answers result (loading.class_answer name.now (class_of bytes.now)) }
    ensures proper { IfErr result (IsProper (λ _. ⊥)) }
{
    match read_class(alloc, bytes) {
        Ok(class) => Ok(class),
        Err(fault) => {
            let name = Text::from_slice(alloc, name.as_slice())?;
            Err(class_fault(fault, name))
        }
    }
}

// How many bytes the next class file may have, where those before it have so many.
fn room_after(read: u64) -> u64
    ensures room { result ≡ loading.room_after read }
    ensures within { result ≤ 1048576 }
{
    FILE_LIMIT.min(ALL_LIMIT.saturating_sub(read))
}

// The class file of this name, and the bytes so far with its own; it is added to the sums.
#[tactic(auto, unfolding(crate::specs::Loading::class_in))]
fn class_in<D: Depot>(
    alloc: Global,
    depot: &mut D,
    read: u64,
    name: &Text,
    sums: &mut PrintSums,
) -> Result<(ClassFile, u64), LoadFault>
    requires { read ≤ 67108864 }
    ensures told { TellsOn (D.shown depot.old).told (D.shown depot.new).told }
    ensures faults { (D.shown depot.old).faults ≤ (D.shown depot.new).faults }
    ensures answers { OfHeld (D.shown depot.new).told (λ files.
        Answers result (loading.class_in files read name.now)) }
    ensures proper { IfErr result (IsProper (λ read.
        (read ≡ name.now) × FailedAt (D.shown depot.old) (D.shown depot.new) read)) }
    ensures within { IfOk result (λ x. x.1 ≤ 67108864) }
    ensures sums { OnOk result (OfHeld (D.shown depot.new).told (λ files.
        AreMoreSums sums.old sums.new (loading.bytes_of files name.now ∷ []))) }
    ensures one_more { OnOk result (length sums.new.classes ≡ length sums.old.classes + 1) }
{
    let bytes = read_file(alloc, depot, name, room_after(read))?;
    let class = class_of_bytes(alloc, bytes.as_slice(), name)?;
    sums.add(bytes.as_slice())?;
    Ok((class, read + bytes.len() as u64))
}

/// The class files of these names, in order; they are added to the sums.
pub fn classes_in<D: Depot>(
    alloc: Global,
    depot: &mut D,
    names: &[Text],
    sums: &mut PrintSums,
) -> Result<Items<ClassFile>, LoadFault>
    ensures told { TellsOn (D.shown depot.old).told (D.shown depot.new).told }
    ensures faults { (D.shown depot.old).faults ≤ (D.shown depot.new).faults }
    ensures count { IfOk result (λ cs. length cs ≡ length names.now) }
    ensures sums { OnOk result (OfHeld (D.shown depot.new).told (λ files.
        AreMoreSums sums.old sums.new (map (loading.bytes_of files) names.now))) }
    ensures as_many { OnOk result
        (length sums.new.classes ≡ length sums.old.classes + length names.now) }
    ensures answers { OfHeld (D.shown depot.new).told (λ files.
        Answers result (loading.classes_in files 0 names.now)) }
    ensures proper { IfErr result (IsProper (λ read.
        OfHeld (D.shown depot.new).told (λ files. loading.IsReadAmong files names.now read)
        × FailedAt (D.shown depot.old) (D.shown depot.new) read)) }
{
    let mut classes = Items::new(alloc);
    let mut read = 0;
    for name in names {
        let (class, now) = class_in(alloc, depot, read, name, sums)?;
        classes.push(class)?;
        read = now;
    }
    Ok(classes)
}
