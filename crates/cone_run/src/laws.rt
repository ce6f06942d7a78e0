//! What a cone is worth.

ghost use Rattle.cone_run.specs.ConeLaw.{ConeLaw, OwnConeLaw};

/// A cone is lawful by edges that lead to later tests, and its test stands last. By the edges of the suite's own record no
/// test of a cone passes its budget, and that test has there the outcome that it has when the whole suite is run in order:
/// verdict, output and units.
pub fn cone_law()
    ensures lawful { ConeLaw }
    ensures own { OwnConeLaw }
{}
