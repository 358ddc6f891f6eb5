//! The rules and the supervisor side by side.

ghost use Rattle.std.specs.Prelude.{◌≡◌, ◌<◌, ◌≤◌, All, true, length};

use rt_rules::Rules;
use rt_run::Supervisor;
use rt_words::Memory;
use std::alloc::Global;

/// The rules and the supervisor, which have the same data.
#[derive(Drop)]
pub struct Pair {
    pub rules: Rules,
    pub supervisor: Supervisor,
    ghost same: { supervisor ≡ rules },
}

fn is_above_zero(priority: u8) -> bool
    ensures { result ≡ true → 0 < priority }
{
    priority > 0
}

/// Whether there may be tasks of these priorities.
pub fn may_begin(priorities: &[u8]) -> bool
    ensures some { result ≡ true → 1 ≤ length priorities.now }
    ensures few { result ≡ true → length priorities.now ≤ 32 }
    ensures above_zero { result ≡ true → All (λ p. 0 < p) priorities.now }
{
    !priorities.is_empty() && priorities.len() <= 32 && priorities.iter().all(|p| is_above_zero(*p))
}

impl Pair {
    /// Tasks of these priorities, all ready.
    pub fn open(alloc: Global, priorities: &[u8]) -> Result<Pair, Memory>
        requires some { 1 ≤ length priorities.now }
        requires few { length priorities.now ≤ 32 }
        requires above_zero { All (λ p. 0 < p) priorities.now }
    {
        let rules = Rules::new(alloc, priorities)?;
        let supervisor = Supervisor::open(alloc, priorities)?;
        Ok(Pair { rules, supervisor })
    }
}
