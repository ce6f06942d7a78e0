//! The laws of generated suites: what a suite of k tests says and is, for each k.
//!
//! Begin with `specs/GeneratedLaw.antt`, the statements, and `specs/GeneratedSuite.antt`, the suite as
//! it is read and linked; `suite_gen` has its text and its class. The crate's calls have no code.
//!
//! - `text_law`: the suite text is read as what it says.
//! - `class_law`: the bytes of the class file are read as its parts.
//! - `read_law`: the files are read so, each within its limit.
//! - `link_law`: what is read links to the generated program.
//! - `typed_law`: the generated program is typed.
//! - `load_law`: so each generated suite loads.
//! - `run_law`: it is detected within its limits, and each test passes (`specs/GeneratedRun.antt`).
//! - `record_law`: of its own record, the units and how many edges of each kind there are
//!   (`specs/GeneratedRecord.antt`).
//! - `chain_law`: its chains are its groups.
#![tactic(auto)]

ghost use Rattle.generated_law.specs.GeneratedLaw.{TextLaw, ClassLaw, ReadLaw, LinkLaw, TypedLaw, LoadLaw};
ghost use Rattle.generated_law.specs.{GeneratedRecord.RecordLaw, GeneratedRecord.ChainLaw, GeneratedRun.RunLaw};

/// The text of each generated suite of at most 1,024 tests is read: a class file and the tests t1, t2, .. of the class Gen.
pub fn text_law()
    ensures { TextLaw }
{}

/// The class file of each generated suite of at most 1,024 tests is read as the generated class (JVMS 4.1).
pub fn class_law()
    ensures { ClassLaw }
{}

/// The files of each generated suite of at most 1,024 tests are read, within the limits of a depot's files.
pub fn read_law()
    ensures { ReadLaw }
{}

/// What is read of each generated suite links to the generated program (JVMS 5.4.3).
pub fn link_law()
    ensures { LinkLaw }
{}

/// The check finds no fault in a generated program (JVMS 4.10.1).
pub fn typed_law()
    ensures { TypedLaw }
{}

/// Each generated suite of at most 1,024 tests loads.
pub fn load_law()
    ensures { LoadLaw }
{}

/// Each generated program of at most 1,024 tests is detected within its limits, and its tests pass, each with this output and
/// these units.
pub fn run_law()
    ensures { RunLaw }
{}

/// The own record of each generated program of at most 1,024 tests has these units of its tests and so many edges of each kind.
pub fn record_law()
    ensures { RecordLaw }
{}

/// By the own record of each generated program of at most 1,024 tests, the chains of all its tests are as many as its groups.
pub fn chain_law()
    ensures { ChainLaw }
{}
