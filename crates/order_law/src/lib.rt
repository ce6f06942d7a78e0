//! The law of order: what two runs that agree on what they read have in common, and which lists of
//! tests give each test its outcome.
//!
//! Begin with `specs/Conflicts.antt` (conflicts and lawful lists), `specs/Histories.antt` (the law)
//! and `specs/Plan.antt` (workers); then `records.rt`. `specs/FrameLaw.antt` is what all rest on.
//!
//! - `lawful_order_law`: in a list that is lawful by a detected suite's own record each test gives
//!   its outcome of the suite's order.
//! - `interleavings_law`: so does each post of a legal history over the chains of a closed set.
//! - `frame_law`: a test does the same in worlds that agree on what it reads before writing it.
//!
//! Each is a clause of a function with an empty body. The computed examples of
//! `proofs/RecordExamples` and `proofs/ListExamples` refuse wrong definitions.
#![tactic(auto)]

ghost use Rattle.order_law.specs.{FrameLaw.FrameLaw, Histories.LawOfOrder, OwnRecord.OwnLaw, OwnRecord.EdgesLaw, OrderFault.LawOfFaults, Walk.WalkLaw};
ghost use Rattle.order_law.specs.Plan.{LawOfInterleavings, OwnInterleavings, LawOfHistories, ChainsApart, FormsApart};
ghost use Rattle.order_law.specs.OwnForm.{UnitsLaw, OrderedLaw, CountedLaw, ReachLaw, PlaceLaw};

mod edges;
mod locations;
mod records;
mod settled;

pub use edges::{Edge, EdgeKind};
pub use locations::same_location;
pub use records::{Chains, More, Place, Prints, Reach, Record, Shown};
pub use settled::{OUT, puts_out};

/// The frame law. Where two worlds, of one program or of two that match, agree on all that a test reads before it writes
/// it, the test does the same in both: outcome, touches, the objects that it makes, and what it leaves at the locations
/// that it writes; and what was the same in both worlds stays the same where it doesn't write.
pub fn frame_law()
    ensures { FrameLaw }
{}

/// The law of order. In every lawful list of a detected suite's tests each test gives the outcome that it gives when the
/// whole suite is run in order: by the edges of the suite's own record, and by any edges that are there exactly where
/// there is a conflict. The edges that the definitions give for any touches are those.
pub fn lawful_order_law()
    ensures own { OwnLaw }
    ensures any { LawOfOrder }
    ensures edges { EdgesLaw }
{}

/// Every interleaving. In every legal history of claims and posts over the chains of a set each post has that outcome, no
/// test is posted twice and none outside the set, a complete history posts the whole set, and what a worker runs next will
/// have that outcome too, so that it meets no budget: by any edges that are there exactly where there is a conflict, and by
/// those of the suite's own record.
pub fn interleavings_law()
    ensures any { LawOfInterleavings }
    ensures own { OwnInterleavings }
{}

/// Legal histories by their rules alone, of whatever record. A chain is claimed once at most, and a test posted once at most;
/// each worker's list is whole chains in the order of its claims, each once, and then the first tests of one more. The
/// chains of a set are apart, as this asks, and so are those of the form that lists of chains have.
pub fn histories_law()
    ensures orderly { LawOfHistories }
    ensures chains { ChainsApart }
    ensures forms { FormsApart }
{}

/// The first fault of a list of tests by the edges of a record. There is one exactly where the list isn't lawful, and then
/// one alone.
pub fn order_fault_law()
    ensures { LawOfFaults }
{}

/// What the record of a program keeps of a record's form: the units of a detected program's tests; of the edges of any
/// touches, their order, the numbers of their tests, and that each counts one location at least and at most as many as the
/// later test touches; the reach of a linked program's test; and the text of a location, of numbers below 2^64 and names
/// of 16-bit units.
pub fn own_form_law()
    ensures units { UnitsLaw }
    ensures ordered { OrderedLaw }
    ensures counted { CountedLaw }
    ensures reach { ReachLaw }
    ensures place { PlaceLaw }
{}

/// The walk to an object. To each object that an earlier test made and of which a test touches something, the test came by
/// one walk of reads, which begins at a static.
pub fn walk_law()
    ensures { WalkLaw }
{}
