//! The numbers among the words.

ghost use Rattle.std.specs.Prelude.{◌≡◌, ◌≤◌, IfSome};
ghost use Rattle.rt_commands.specs.Reading as spec;

use rt_system::number;

/// The greatest limit.
const MOST_LIMIT: u32 = 4_000_000_000;

/// The greatest number that `gen` takes.
const MOST_COUNT: u32 = 10_000;

/// A limit: 1 to 10 digits with a value up to 4,000,000,000.
#[tactic(auto, unfolding(crate::specs::Reading::limit))]
pub fn limit(digits: &[u8]) -> Option<u64>
    ensures { result ≡ spec.limit digits.now }
{
    if digits.len() > 10 {
        return None;
    }
    let limit = number(MOST_LIMIT, digits)?;
    Some(u64::from(limit))
}

/// What `gen` counts: 1 to 5 digits with a value from 1 to 10,000.
#[tactic(auto, unfolding(crate::specs::Reading::count))]
pub fn count(digits: &[u8]) -> Option<u16>
    ensures { result ≡ spec.count digits.now }
{
    if digits.len() > 5 {
        return None;
    }
    let count = number(MOST_COUNT, digits)?;
    if count < 1 {
        return None;
    }
    Some(count as u16)
}
