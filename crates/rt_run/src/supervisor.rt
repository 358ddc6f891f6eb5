ghost use Rattle.std.specs.Prelude.{◌≡◌, ℕ, ◌-◌, ◌^◌, ◌<◌, ◌≤◌, All, length, IfOk, IfSome, IsSome, MatchOption};
ghost use Rattle.rt_rules.specs.Roster.{row, IsTask, InRanges};
ghost use Rattle.rt_rules.specs.First.{IsFirst, HasNone};
ghost use Rattle.rt_rules.specs.Rules as spec;
ghost use Rattle.rt_run.specs.Queue.{IsQueue};

use crate::moves::{follow, join_from, row_of};
use crate::queues::Queues;
use rt_rules::{Outcome, Rules, State, Svc};
use rt_words::Memory;
use std::alloc::Global;
use std::marker::Model;

/// What the supervisor keeps: all that [`Rules`] keeps, and beside it a queue of the ready tasks of each priority, of which it
/// knows at any time the first that isn't empty.
///
/// The ready tasks of a priority stand in its queue by their stamps, the least first. Only [`Supervisor::open`] takes memory.
#[derive(Drop)]
pub struct Supervisor {
    rules: Rules,
    queues: Queues,
}

impl Model for Supervisor {
    ghost use Rattle.rt_rules.specs.Roster.{Roster, InRanges};
    ghost use Rattle.rt_run.specs.Queues.{HasQueues};

    ghost Value = { Roster };

    ghost view = { λ s. s.rules };

    ghost invariant = { λ s. HasQueues s.rules s.rules.stamp s.queues };
}

impl Supervisor {
    /// The start: tasks of these priorities, all ready, which arrived in the order of their numbers; no flag is
    /// set, every facility is free, and no tick was taken.
    pub fn open(alloc: Global, priorities: &[u8]) -> Result<Supervisor, Memory>
        requires some { 1 ≤ length priorities.now }
        requires few { length priorities.now ≤ 32 }
        requires above_zero { All (λ p. 0 < p) priorities.now }
        ensures start { IfOk result (λ s. s ≡ spec.start priorities.now) }
        ensures ranges { IfOk result InRanges }
    {
        let rules = Rules::new(alloc, priorities)?;
        let mut queues = Queues::new(alloc)?;
        join_from(&rules, &mut queues, 0);
        Ok(Supervisor { rules, queues })
    }

    /// The number of the running task: of those that are ready, the one with the least pair of priority and stamp.
    /// `None` exactly where no task is ready. It stands at the head of the first queue that isn't empty, and no other
    /// queue is looked at.
    pub fn running(&self) -> Option<u8>
        ensures value { result ≡ spec.running self.now }
        ensures least { MatchOption result (HasNone spec.is_ready self.now) (IsFirst spec.is_ready self.now) }
        ensures ranges { InRanges self.now }
    {
        self.queues.head()
    }

    /// The numbers of the ready tasks of a priority, the least stamp first.
    pub fn ready(&self, priority: u8) -> &[u8]
        ensures { IsQueue self.now priority result.now }
    {
        self.queues.tasks(priority)
    }

    /// The condition of a task.
    pub fn state(&self, task: u8) -> State
        requires { IsTask self.now task }
        ensures { result ≡ (row self.now task).state }
    {
        row_of(&self.rules, task).state
    }

    /// Takes a tick: the clock rises by 1; the running task, if there is one, arrives anew; then each delay falls
    /// by 1, and tasks whose delay is over arrive in the order of their numbers. It takes no memory.
    pub fn tick(&mut self)
        requires stamp { self.old.stamp < 2 ^ 63 }
        requires clock { self.old.clock < 2 ^ 32 - 1 }
        ensures tick { self.new ≡ spec.tick self.old }
        ensures ranges { InRanges self.new }
    {
        let running = self.running();
        let from = self.rules.next_stamp();
        self.rules.tick_of(running);
        match running {
            Some(task) => follow(&self.rules, &mut self.queues, task, from),
            None => join_from(&self.rules, &mut self.queues, from),
        }
    }

    /// Does a service of the running task. Where the outcome is an error nothing changes. It takes no memory.
    pub fn call(&mut self, svc: Svc) -> Outcome
        requires runs { IsSome (spec.running self.old) }
        requires stamp { self.old.stamp < 2 ^ 63 }
        requires clock { self.old.clock < 2 ^ 32 - 1 }
        ensures served { IfSome (spec.running self.old) (λ i. (self.new, result) ≡ spec.serve self.old i svc) }
        ensures error { (n : ℕ) → result ≡ Outcome.Error n → self.new ≡ self.old }
        ensures ranges { InRanges self.new }
    {
        match self.running() {
            Some(task) => {
                let from = self.rules.next_stamp();
                let outcome = self.rules.serve(task, svc);
                follow(&self.rules, &mut self.queues, task, from);
                outcome
            }
            None => unreachable!(),
        }
    }
}
