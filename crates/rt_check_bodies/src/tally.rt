//! What has been counted, and the faults that have been noted.

ghost use Rattle.std.specs.Prelude.{◌≡◌, ◌≢◌, ℕ, IfOk, OnOk};
ghost use Rattle.rt_check_faults.specs.declared.fault.CheckFault.TheVariants as kinds;
ghost use Rattle.rt_check_faults.specs.Outcomes.{Outcome, Gives};
ghost use Rattle.rt_check_bodies.specs.Parts as spec;
ghost use Rattle.rt_check_bodies.specs.Parts.{Gave};

use rt_check_faults::CheckFault;
use rt_exprs::small_number;
use rt_modes::Mode;
use rt_tree_nodes::{Local, Rel, Stat, Test, Value};
use rt_words::{List, Memory};

/// The parameters and locals of a procedure so far, in their order, the number of its labels, and the faults that stand in it.
#[derive(Drop)]
pub struct Tally {
    pub locals: List<Local>,
    pub labels: u16,
    pub faults: List<CheckFault>,
}

impl Tally {
    /// Notes a fault.
    pub fn note(&mut self, fault: CheckFault) -> Result<(), Memory>
        ensures { OnOk result (self.new ≡ spec.noted fault self.old) }
    {
        self.faults.push(fault)
    }

    /// Notes a fault; what can't be known is none, and want of memory ends all.
    pub fn note_known(&mut self, fault: CheckFault) -> Result<(), Memory>
        ensures noted { OnOk result (self.new ≡ spec.noted_known fault self.old) }
        ensures ended { OnOk result (fault ≢ kinds.Memory) }
    {
        match fault {
            CheckFault::Memory => Err(Memory),
            CheckFault::Unknown => Ok(()),
            _ => self.note(fault),
        }
    }

    pub fn note_if(&mut self, stands: bool, fault: CheckFault) -> Result<(), Memory>
        ensures { OnOk result (self.new ≡ spec.noted_if stands fault self.old) }
    {
        if stands { self.note(fault) } else { Ok(()) }
    }

    /// One more parameter or local.
    pub fn add_local(&mut self, local: Local) -> Result<(), Memory>
        ensures { OnOk result (self.new ≡ spec.with_local local self.old) }
    {
        self.locals.push(local)
    }

    /// The number of the next parameter or local, where it has 16 bits; a procedure with more is answered as want of memory.
    pub fn next_local(&self) -> Result<u16, Memory>
        ensures { IfOk result (λ n. n ≡ spec.next_local self.now) }
    {
        small_number(self.locals.len())
    }

    /// One more label.
    pub fn add_label(&mut self) -> Result<(), Memory>
        ensures { OnOk result (self.new ≡ spec.with_label self.old) }
    {
        self.labels = behind(self.labels)?;
        Ok(())
    }

    /// The three locals of a loop: the number of the first.
    pub fn add_loop(&mut self) -> Result<u16, Memory>
        ensures { IfOk result (λ k. Gave k self.new (spec.three_locals self.old)) }
    {
        let first = self.next_local()?;
        self.add_local(Local::Loop)?;
        self.add_local(Local::Loop)?;
        self.add_local(Local::Loop)?;
        Ok(first)
    }

    /// What is found, or else `other`, and its fault is noted.
    pub fn found_or<T: Drop>(&mut self, other: T, found: Result<T, CheckFault>) -> Result<T, Memory>
        ensures { (o : Outcome T) → Gives (λ x. x) found o → IfOk result (λ x. Gave x self.new (spec.found_or other o self.old)) }
    {
        match found {
            Ok(x) => Ok(x),
            Err(fault) => {
                self.note_known(fault)?;
                Ok(other)
            }
        }
    }

    pub fn value_or(&mut self, found: Result<Value, CheckFault>) -> Result<Value, Memory>
        ensures { (o : Outcome Value) → Gives (λ x. x) found o → IfOk result (λ x. Gave x self.new (spec.value_or o self.old)) }
    {
        self.found_or(Value::Number(0), found)
    }

    pub fn stat_or(&mut self, found: Result<Stat, CheckFault>) -> Result<Stat, Memory>
        ensures { (o : Outcome Stat) → Gives (λ x. x) found o → IfOk result (λ x. Gave x self.new (spec.stat_or o self.old)) }
    {
        self.found_or(Stat::Call(Value::Number(0)), found)
    }

    /// The same of a RETURN.
    pub fn return_or(&mut self, found: Result<Stat, CheckFault>) -> Result<Stat, Memory>
        ensures { (o : Outcome Stat) → Gives (λ x. x) found o → IfOk result (λ x. Gave x self.new (spec.return_or o self.old)) }
    {
        self.found_or(Stat::Return(None), found)
    }

    pub fn test_or(&mut self, found: Result<Test, CheckFault>) -> Result<Test, Memory>
        ensures { (o : Outcome Test) → Gives (λ x. x) found o → IfOk result (λ x. Gave x self.new (spec.test_or o self.old)) }
    {
        let other = Test::Compare(Rel::Equal, Value::Number(0), Value::Number(0));
        self.found_or(other, found)
    }

    pub fn label_or(&mut self, found: Result<u16, CheckFault>) -> Result<u16, Memory>
        ensures { (o : Outcome ℕ) → Gives (λ x. x) found o → IfOk result (λ x. Gave x self.new (spec.label_or o self.old)) }
    {
        self.found_or(0, found)
    }

    pub fn mode_or(
        &mut self,
        found: Result<Mode, CheckFault>,
    ) -> Result<Result<Mode, CheckFault>, Memory>
        ensures { (o : Outcome Mode) → Gives (λ x. x) found o → IfOk result (λ x. Gave x self.new (spec.mode_or o self.old)) }
    {
        match found {
            Ok(mode) => Ok(Ok(mode)),
            Err(CheckFault::Memory) => Err(Memory),
            Err(fault) => {
                self.note(fault)?;
                Ok(Err(fault))
            }
        }
    }
}

/// The label behind another, where its number has 16 bits; a procedure with more is answered as want of memory.
pub fn behind(label: u16) -> Result<u16, Memory>
    ensures { IfOk result (λ n. n ≡ spec.behind label) }
{
    match label.checked_add(1) {
        Some(next) => Ok(next),
        None => Err(Memory),
    }
}
