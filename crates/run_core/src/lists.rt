//! Lists of tests, compared, and what a history says of a worker and of a test.

ghost use Rattle.std.specs.Prelude.{◌≡◌, ◌+◌, ◌<◌, ◌^◌, ◌++◌, ◌∷◌, [], length, true, false, option_copied, MatchOption};
ghost use Rattle.run_core.specs.{Kept.found_outcome, Kept.last_list, Refusal.DifferFirstAt, Refusal.EndsWith, Run.last_of};

use crate::events::Event;
use jvm_model::Outcome;

/// Whether a list ends with a test.
pub fn ends_with(list: &[u32], test: u32) -> bool
    ensures yes { result ≡ true → EndsWith list.now test }
    ensures no { result ≡ false → EndsWith list.now test → ⊥ }
{
    match list.last() {
        None => false,
        Some(last) => *last == test,
    }
}

/// The first place at which a list isn't `before` and then `test`.
pub fn first_difference(list: &[u32], before: &[u32], test: u32) -> Option<u32>
    requires { length before.now + 1 < 2 ^ 32 }
    ensures { MatchOption result
        (list.now ≡ before.now ++ test ∷ [])
        (λ k. DifferFirstAt list.now (before.now ++ test ∷ []) k) }
{
    for k in 0..before.len() + 1 {
        let expected = before.get(k).copied().unwrap_or(test);
        if list.get(k).copied() != Some(expected) {
            return Some(k as u32);
        }
    }
    if list.len() == before.len() + 1 {
        None
    } else {
        Some(before.len() as u32 + 1)
    }
}

/// The last test of a list, and 0 of an empty one.
fn last_of(list: &[u32]) -> u32
    ensures { result ≡ last_of list.now }
{
    match list.last() {
        None => 0,
        Some(last) => *last,
    }
}

/// The list of a worker's last post; an empty one where it posted nothing.
pub fn last_list<'a>(history: &'a Vec<Event>, worker: u32) -> &'a [u32]
    ensures { result.now ≡ last_list worker history.now.items }
{
    for place in (0..history.len()).rev() {
        if let Event::Post(piece) = &history[place] {
            if piece.worker() == worker {
                return piece.list();
            }
        }
    }
    &[]
}

/// The outcome of the last post of a test.
pub fn find_outcome<'a>(history: &'a Vec<Event>, test: u32) -> Option<&'a Outcome>
    ensures { option_copied result ≡ found_outcome test history.now.items }
{
    for place in (0..history.len()).rev() {
        if let Event::Post(piece) = &history[place] {
            if last_of(piece.list()) == test {
                return Some(piece.outcome());
            }
        }
    }
    None
}
