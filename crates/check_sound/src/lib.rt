//! Checked code never gets stuck: each step of a typed state has a row, which meets only what is
//! there, and leaves a typed state or the end of the test over a typed world.
//!
//! Laws about the definitions: the soundness of type checking (JVMS 4.10.1) for the machine. Begin
//! with `specs/StepLaw.antt`, then `specs/TestLaw.antt` and `specs/PaceLaw.antt`.
//!
//! - `step_law`: a step of a typed state of a typed program has a row, and what it leaves is typed.
//! - `reach_law`: the states that a test comes to in a typed world are typed, and so is what it
//!   leaves.
//! - `pace_law`: how much a step and a test touch for their units, and which statics and states.
//!
//! Each is a clause of a function with an empty body, so that callers cite it as any contract. One
//! tree of accesses carries a row's pace, statics and touches; a new row needs its case there.
#![tactic(auto)]

ghost use Rattle.check_sound.specs.PaceLaw.{PaceLaw, StaticsLaw, TouchesLaw, TestPaceLaw, GivenPaceLaw, TestStaticsLaw};
ghost use Rattle.check_sound.specs.ReachLaw.{ReachedLaw, AloneLaw, RoomLaw, ReturnLaw, NativeLaw};
ghost use Rattle.check_sound.specs.{StepLaw.StepLaw, StepLaw.HeadsLaw, TestLaw.TestLaw, TestLaw.OpeningLaw, TestLaw.LeftLaw, TestLaw.ListLaw};

/// What a step of a typed state of a typed program does: it reads and writes only what is there, it has a row, and
/// it leaves a typed state, or a typed world where it ends the test; and it writes the head of no object that stands.
pub fn step_law()
    ensures stays { StepLaw }
    ensures heads { HeadsLaw }
{}

/// What the states have that a test of a typed program comes to, begun in a typed world: each is typed; where no entry
/// is at the top there is none at all; and, where no method has more than 65,535 places for its operands (JVMS 4.7.3),
/// there is room for what the instruction at the top puts there, for a value that it returns and for what a built-in
/// method that it enters answers. The world before the first test is typed. A whole test reads and writes only what is
/// there and isn't stuck, whatever its budget; and each world that a test, or a test of a list, leaves is typed.
pub fn reach_law()
    ensures reached { ReachedLaw }
    ensures alone { AloneLaw }
    ensures room { RoomLaw }
    ensures returned { ReturnLaw }
    ensures answered { NativeLaw }
    ensures opened { OpeningLaw }
    ensures tested { TestLaw }
    ensures left { LeftLaw }
    ensures each { ListLaw }
{}

/// What a step touches and writes, in any state of a linked program. It touches at most four locations for each unit of
/// its cost, where this isn't cut: a multianewarray (JVMS 6.5) whose arrays cost more than a 64-bit number with the 1 of
/// the step is set apart. It writes a static only by a putstatic of it; and it touches a static only by a getstatic or a
/// putstatic of it, and the state of a class only where it uses the class or has an initialisation entry at the top (JVMS
/// 5.5). A whole test whose units are a 64-bit number touches at most four locations for each, and writes only the
/// statics that some code of the program puts.
pub fn pace_law()
    ensures paced { PaceLaw }
    ensures statics { StaticsLaw }
    ensures touched { TouchesLaw }
    ensures whole { TestPaceLaw }
    ensures given { GivenPaceLaw }
    ensures put { TestStaticsLaw }
{}
