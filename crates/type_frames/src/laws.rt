//! Laws of the definitions, each handed out by a function that does nothing.

ghost use Rattle.type_frames.specs.{AssignLaws.ItselfLaw, AssignLaws.ReferenceLaw, AssignLaws.TransitiveLaw, TypedState.StartedLaw};

/// Each type may stand for itself (JVMS 4.10.1.2); an object's, where it is named as a Class entry names one (JVMS 4.4.1).
pub fn itself_law()
    ensures { ItselfLaw }
{}

/// In a linked program what may stand for a type may stand for all that this type may stand for.
pub fn transitive_law()
    ensures { TransitiveLaw }
{}

/// In a linked program `java.lang.Object` and each interface take null and every object and array.
pub fn reference_law()
    ensures { ReferenceLaw }
{}

/// The start state of each test is typed, in each typed world.
pub fn started_law()
    ensures { StartedLaw }
{}
