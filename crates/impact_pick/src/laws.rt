//! What the tests that aren't picked have in common before and after class files changed.

ghost use Rattle.impact_pick.specs.{Carried.CarriedLaw, ImpactLaw.ImpactLaw, Unpicked.KeptLaw, Unpicked.UnpickedLaw};

/// Tests of two matched programs. A test that is carried over gives the same in both where all tests before it are carried
/// over too, or where it is settled in the one program and no code of the other puts the static `System.out`.
pub fn carried_law()
    ensures { CarriedLaw }
{}

/// What a program's record says. The given classes that some unhit test reaches are closed under what they mention, and
/// none of them has changed; and where a second program matches on them, a test that isn't picked has the same report
/// lines in both.
pub fn unpicked_law()
    ensures kept { KeptLaw }
    ensures lines { UnpickedLaw }
{}

/// What changed class files leave as it was. Of two programs that are linked from the same test lines over as many class
/// files, where equal sums mean equal files: each test that isn't picked by the record of the first one's own run has in
/// the second one's own run the same report lines.
pub fn impact_law()
    ensures { ImpactLaw }
{}
