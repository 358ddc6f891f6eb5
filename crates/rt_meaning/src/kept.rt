//! The supervisor's rules, with the list of the tasks' conditions kept beside them.

ghost use Rattle.std.specs.Prelude.{◌≡◌, ◌^◌, ◌<◌, ◌≤◌, ◌-◌, ◌+◌, ℕ, All, length, IfOk, IfSome, IsSome};
ghost use Rattle.rt_rules.specs.Roster.{IsTask, InRanges};
ghost use Rattle.rt_rules.specs.Rules as rules;
ghost use Rattle.rt_meaning.specs.Conditions.{conditions, conditions_of};

use rt_rules::{Outcome, Rules, State, Svc, TaskRow};
use rt_words::{List, Memory};
use std::alloc::Global;
use std::marker::Model;

/// Contracts see the rules alone.
#[derive(Drop)]
pub struct KeptRules {
    rules: Rules,
    ends: List<State>,
}

impl Model for KeptRules {
    ghost use Rattle.std.specs.Prelude.{◌≡◌};
    ghost use Rattle.rt_rules.specs.Roster.{Roster, InRanges};
    ghost use Rattle.rt_meaning.specs.Conditions.{conditions};

    ghost Value = { Roster };

    ghost view = { λ k. k.rules };

    ghost invariant = { λ k. InRanges k.rules × (k.ends ≡ conditions k.rules) };
}

impl KeptRules {
    /// The rules at the start.
    pub fn new(alloc: Global, priorities: &[u8]) -> Result<KeptRules, Memory>
        requires some { 1 ≤ length priorities.now }
        requires few { length priorities.now ≤ 32 }
        requires above_zero { All (λ p. 0 < p) priorities.now }
        ensures { IfOk result (λ k. k ≡ rules.start priorities.now) }
    {
        let rules = Rules::new(alloc, priorities)?;
        let ends = conditions_now(alloc, rows_of(&rules))?;
        Ok(KeptRules { rules, ends })
    }

    /// The number of the running task; it takes no memory.
    pub fn running(&self) -> Option<u8>
        ensures value { result ≡ rules.running self.now }
        ensures there { IfSome result (IsTask self.now) }
        ensures ranges { InRanges self.now }
    {
        self.rules.running()
    }

    /// Each task's condition; it takes no memory.
    pub fn ends(&self) -> &List<State>
        ensures { result.now ≡ conditions self.now }
    {
        &self.ends
    }

    /// Takes a tick; it takes no memory.
    pub fn tick(&mut self)
        requires stamp { self.old.stamp < 2 ^ 63 }
        requires clock { self.old.clock < 2 ^ 32 - 1 }
        ensures tick { self.new ≡ rules.tick self.old }
        ensures clock_after { self.new.clock ≡ self.old.clock + 1 }
        ensures stamp_after { self.new.stamp ≤ self.old.stamp + 33 }
    {
        self.rules.tick();
        renew(rows_of(&self.rules), &mut self.ends);
    }

    /// Does a service of the running task; it takes no memory.
    pub fn call(&mut self, service: Svc) -> Outcome
        requires runs { IsSome (rules.running self.old) }
        requires stamp { self.old.stamp < 2 ^ 63 }
        requires clock { self.old.clock < 2 ^ 32 - 1 }
        ensures served { IfSome (rules.running self.old) (λ i. (self.new, result) ≡ rules.serve self.old i service) }
        ensures error { (n : ℕ) → result ≡ Outcome.Error n → self.new ≡ self.old }
    {
        let outcome = self.rules.call(service);
        renew(rows_of(&self.rules), &mut self.ends);
        outcome
    }
}

fn rows_of(rules: &Rules) -> &[TaskRow]
    ensures { result.now ≡ rules.now.tasks }
{
    rules.tasks.as_slice()
}

// The conditions of the tasks.
fn conditions_now(alloc: Global, rows: &[TaskRow]) -> Result<List<State>, Memory>
    ensures { IfOk result (λ ends. ends ≡ conditions_of rows.now) }
{
    let mut ends = List::new(alloc, rows.len())?;
    for row in rows {
        ends.push(row.state)?;
    }
    Ok(ends)
}

// As many conditions become those of the tasks.
fn renew(rows: &[TaskRow], ends: &mut List<State>)
    requires { length ends.old ≡ length rows.now }
    ensures { ends.new ≡ conditions_of rows.now }
{
    for at in 0..rows.len() {
        ends.set(at, rows[at].state);
    }
}
