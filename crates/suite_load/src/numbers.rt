//! Decimal numbers.

ghost use Rattle.std.specs.Prelude.{◌≡◌, ◌≤◌, Some};
ghost use Rattle.suite_load.specs.NumberForms as forms;

use dep_record::number_up_to;

/// The most units that a test may take.
const MOST_BUDGET: u64 = 67_108_864;

/// The units of a budget: a decimal number from 1 to 67,108,864.
#[tactic(auto, unfolding(crate::specs::NumberForms::budget_of))]
pub fn budget_of(bytes: &[u8]) -> Option<u64>
    ensures { result ≡ forms.budget_of bytes.now }
{
    if bytes.first() == Some(&b'0') {
        return None;
    }
    number_up_to(MOST_BUDGET, bytes)
}

// The negative number of a size that isn't 0.
fn negative(size: u64) -> Option<i64>
    requires { size ≤ 9223372036854775808 }
    ensures { result ≡ forms.negative (Some size) }
{
    if size == 0 {
        return None;
    }
    Some(-1 - (size - 1) as i64)
}

/// A signed 64-bit number: decimal, with `-` where it is negative.
#[tactic(auto, unfolding(crate::specs::NumberForms::clock_of))]
pub fn clock_of(bytes: &[u8]) -> Option<i64>
    ensures { result ≡ forms.clock_of bytes.now }
{
    if !bytes.is_empty() && bytes[0] == b'-' {
        return negative(number_up_to(1 << 63, &bytes[1..])?);
    }
    let clock = number_up_to(i64::MAX as u64, bytes)?;
    Some(clock as i64)
}

/// An unsigned 64-bit number.
#[tactic(auto, unfolding(crate::specs::NumberForms::seed_of))]
pub fn seed_of(bytes: &[u8]) -> Option<u64>
    ensures { result ≡ forms.seed_of bytes.now }
{
    number_up_to(u64::MAX, bytes)
}
