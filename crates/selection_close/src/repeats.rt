//! Tests that stand twice.

ghost use Rattle.std.specs.Prelude.{ℕ, ◌≤◌, ◌↔◌, IsTrue, take, length, MatchOption};
ghost use Rattle.order_law.specs.{Conflicts.Member, Conflicts.Distinct, OrderFault.IsTwice};

/// The test at the least place that repeats an earlier one.
#[tactic(auto, using(crate::proofs::Lists::distinct_next, crate::proofs::Lists::distinct_all, crate::proofs::Lists::twice_at))]
pub fn repeated(list: &[u32]) -> Option<u32>
    ensures { MatchOption result (Distinct list.now) (λ t. IsTwice list.now t) }
{
    for i in 0..list.len() {
        let test = list[i];
        if stands_before(list, i, test) {
            return Some(test);
        }
    }
    None
}

/// Whether a test stands before this place.
#[tactic(auto, using(crate::proofs::Lists::still_none, crate::proofs::Lists::found, crate::proofs::Lists::not_found))]
fn stands_before(list: &[u32], place: usize, test: u32) -> bool
    requires { place ≤ length list.now }
    ensures { IsTrue result ↔ Member test (take place list.now) }
{
    for q in 0..place {
        if list[q] == test {
            return true;
        }
    }
    false
}
