//! Counts of calls and of faults.

ghost use Rattle.std.specs.Prelude.{◌≡◌, ◌≤◌, ◌↔◌, IsTrue, Contains};
ghost use Rattle.outside.specs.Counts.{Rose, raised};

/// One more. A count stays at the greatest u64 once it is there.
pub(crate) fn raise(count: u64) -> u64
    ensures raised { result ≡ raised count }
    ensures rose { Rose count result }
    ensures later { count ≤ result }
{
    count.saturating_add(1)
}

/// Whether the number of a call is in a list.
pub(crate) fn is_listed(calls: &[u64], call: u64) -> bool
    ensures { IsTrue result ↔ Contains calls.now call }
{
    calls.contains(&call)
}
