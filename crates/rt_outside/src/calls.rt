ghost use Rattle.std.specs.Prelude.{◌≡◌, ◌≤◌};
ghost use Rattle.rt_outside.specs.Calls.{no_calls, next_fails, one_more};

use rt_words::List;
use std::marker::Model;

/// The calls of a form in memory: which of them fail, counted from 1, and how many were made and failed.
/// Both numbers stand still at `u64::MAX`.
#[derive(Drop)]
pub struct CallCount {
    fails: List<u64>,
    made: u64,
    faults: u64,
}

impl Model for CallCount {
    ghost use Rattle.rt_outside.specs.Calls.{Calls};

    ghost Value = { Calls };

    ghost view = { λ c. record { fails = c.fails; made = c.made; faults = c.faults } };
}

impl CallCount {
    /// No call was made yet. `fails` has the numbers of the calls that fail.
    pub fn new(fails: List<u64>) -> CallCount
        ensures { result ≡ no_calls fails }
    {
        CallCount {
            fails,
            made: 0,
            faults: 0,
        }
    }

    /// Counts a call that begins, and says whether it is one of those that fail.
    pub fn begin(&mut self) -> bool
        ensures fails { result ≡ next_fails self.old }
        ensures counted { self.new ≡ record self.old { made = one_more self.old.made } }
    {
        self.made = self.made.saturating_add(1);
        self.fails.as_slice().contains(&self.made)
    }

    /// Counts a failed call.
    pub fn fail(&mut self)
        ensures counted { self.new ≡ record self.old { faults = one_more self.old.faults } }
        ensures later { self.old.faults ≤ self.new.faults }
    {
        self.faults = self.faults.saturating_add(1);
    }

    /// How many calls were made.
    pub fn made(&self) -> u64
        ensures { result ≡ self.now.made }
    {
        self.made
    }

    /// How many calls failed.
    pub fn faults(&self) -> u64
        ensures { result ≡ self.now.faults }
    {
        self.faults
    }
}
