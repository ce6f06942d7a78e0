//! Tests that reached a changed class file.

ghost use Rattle.std.specs.Prelude.{◌≡◌, ◌≤◌, length, true};
ghost use Rattle.std.specs.List.{list_any, list_all};
ghost use Rattle.impact_pick.specs.Pick as pick;
ghost use Rattle.impact_pick.specs.Form.{are_within};

use order_law::{More, Prints, Reach};

/// Whether a class file, by its number from 1, isn't that of the record.
pub fn is_changed(m: &More, prints: &Prints, class: u32) -> bool
    requires least { 1 ≤ class }
    requires most { class ≤ length m.now.classes }
    requires many { length m.now.classes ≡ length prints.now.classes }
    ensures { result ≡ pick.is_changed m.now prints.now class }
{
    let i = class as usize - 1;
    m.classes.as_slice()[i].as_slice() != prints.classes.as_slice()[i].as_slice()
}

/// Whether a class file that a test reached has changed.
#[tactic(auto, using(std::proofs::lemmas::List::Folds::list_any_more))]
pub fn is_hit(m: &More, prints: &Prints, reach: &Reach) -> bool
    requires within { are_within (length m.now.classes) reach.now.classes ≡ true }
    requires many { length m.now.classes ≡ length prints.now.classes }
    ensures { result ≡ list_any (pick.is_changed m.now prints.now) reach.now.classes }
{
    let mut found = false;
    for class in reach.classes.as_slice() {
        let here = is_changed(m, prints, *class);
        found = found || here;
    }
    found
}
