//! What was read of a report, up to some line.

ghost use Rattle.std.specs.Prelude.{◌≡◌, ◌≤◌, [], IfOk, IfErr, OnOk};
ghost use Rattle.rt_replay.specs.Reading as spec;
ghost use Rattle.rt_replay.specs.Reading.{Takes, Refuses};
ghost use Rattle.rt_replay.specs.declared.draft.Next.TheVariants as next;

use crate::fault::ReportFault;
use crate::numbers::counted;
use crate::report::{Report, ReportedTask};
use crate::tasks::{is_fault, task};
use rt_words::{List, Memory};
use std::alloc::Global;

/// How many tasks a run may have.
const MOST_TASKS: usize = 32;

/// How many instructions a run may have.
const MOST_INSTRUCTIONS: u64 = 4_000_000_000;

/// How many visible steps a run may have.
const MOST_STEPS: u64 = 8_000_000_000;

/// How many ticks a run may have.
const MOST_TICKS: u64 = 200_000;

/// What stands in the next line.
#[derive(Clone, Copy)]
pub enum Next {
    Status,
    Instructions,
    Steps,
    /// A task, or the number of ticks.
    Tasks,
    /// So many ticks, and then the fault line where there is one.
    Ticks(u32),
    Nothing,
}

/// What was read of a report.
#[derive(Drop)]
pub struct Draft {
    status: u8,
    steps: u64,
    tasks: List<ReportedTask>,
    placements: List<u64>,
    /// The placement of the last tick.
    least: u64,
    next: Next,
}

/// Nothing was read.
pub fn no_draft(alloc: Global) -> Draft
    ensures { result ≡ spec.start }
{
    Draft {
        status: 0,
        steps: 0,
        tasks: List::from_vec(Vec::new(alloc)),
        placements: List::from_vec(Vec::new(alloc)),
        least: 0,
        next: Next::Status,
    }
}

fn is_status(status: u64) -> bool
    ensures { result ≡ spec.is_status status }
{
    status <= 4 || 20 <= status
}

impl Draft {
    fn take_status(&mut self, line: &[u8]) -> bool
        ensures { Takes (spec.take_by next.Status self.old line.now) result self.new }
    {
        match counted(b"STATUS ", 21, line) {
            Some(status) if is_status(status) => {
                self.status = status as u8;
                self.next = Next::Instructions;
                true
            }
            _ => false,
        }
    }

    fn take_instructions(&mut self, line: &[u8]) -> bool
        ensures { Takes (spec.take_by next.Instructions self.old line.now) result self.new }
    {
        if counted(b"INSTRUCTIONS ", MOST_INSTRUCTIONS, line).is_none() {
            return false;
        }
        self.next = Next::Steps;
        true
    }

    fn take_steps(&mut self, line: &[u8]) -> bool
        ensures { Takes (spec.take_by next.Steps self.old line.now) result self.new }
    {
        match counted(b"STEPS ", MOST_STEPS, line) {
            Some(steps) => {
                self.steps = steps;
                self.next = Next::Tasks;
                true
            }
            None => false,
        }
    }

    fn take_ticks(&mut self, line: &[u8]) -> bool
        ensures { Takes (spec.with_task self.old line.now None) result self.new }
    {
        if self.tasks.len() == 0 {
            return false;
        }
        match counted(b"TICKS ", MOST_TICKS, line) {
            Some(ticks) => {
                self.next = Next::Ticks(ticks as u32);
                true
            }
            None => false,
        }
    }

    fn push_task(&mut self, line: &[u8], task: ReportedTask) -> Result<bool, Memory>
        ensures { IfOk result (λ took. Takes (spec.with_task self.old line.now (Some task)) took self.new) }
    {
        if self.tasks.len() >= MOST_TASKS {
            return Ok(false);
        }
        self.tasks.push(task)?;
        Ok(true)
    }

    fn take_task(&mut self, alloc: Global, line: &[u8]) -> Result<bool, Memory>
        ensures { IfOk result (λ took. Takes (spec.take_by next.Tasks self.old line.now) took self.new) }
    {
        match task(alloc, line)? {
            Some(task) => self.push_task(line, task),
            None => Ok(self.take_ticks(line)),
        }
    }

    fn take_tick(&mut self, left: u32, line: &[u8]) -> Result<bool, Memory>
        requires { self.old.steps ≤ 8000000000 }
        ensures { IfOk result (λ took. Takes (spec.take_tick left self.old line.now) took self.new) }
    {
        match counted(b"TICK ", self.steps, line) {
            Some(placement) if self.least <= placement => {
                self.placements.push(placement)?;
                self.least = placement;
                self.next = Next::Ticks(left);
                Ok(true)
            }
            _ => Ok(false),
        }
    }

    fn take_fault(&mut self, line: &[u8]) -> bool
        ensures { Takes (spec.take_fault self.old line.now) result self.new }
    {
        if !is_fault(self.status, line) {
            return false;
        }
        self.next = Next::Nothing;
        true
    }

    /// Takes the line, where it is in its place.
    #[tactic(auto, unfolding(crate::specs::Reading::take_line))]
    fn take_line(&mut self, alloc: Global, line: &[u8]) -> Result<bool, Memory>
        requires { self.old.steps ≤ 8000000000 }
        ensures { IfOk result (λ took. Takes (spec.take_line self.old line.now) took self.new) }
    {
        match self.next {
            Next::Status => Ok(self.take_status(line)),
            Next::Instructions => Ok(self.take_instructions(line)),
            Next::Steps => Ok(self.take_steps(line)),
            Next::Tasks => self.take_task(alloc, line),
            Next::Ticks(0) => Ok(self.take_fault(line)),
            Next::Ticks(left) => self.take_tick(left - 1, line),
            Next::Nothing => Ok(false),
        }
    }

    /// Adds a line to those before it, where it is in its place.
    pub fn add_line(&mut self, alloc: Global, line: &[u8], number: u32) -> Result<(), ReportFault>
        requires { self.old.steps ≤ 8000000000 }
        ensures ok { OnOk result (spec.take_line self.old line.now ≡ Some self.new) }
        ensures bad { IfErr result (λ f. Refuses self.old line.now number f) }
    {
        if self.take_line(alloc, line)? {
            Ok(())
        } else {
            Err(ReportFault::BadReport { line: number })
        }
    }

    /// Whether the report may end here.
    pub fn is_complete(&self) -> bool
        ensures { result ≡ spec.is_complete self.now }
    {
        match self.next {
            Next::Ticks(left) => left == 0 && self.status <= 3,
            Next::Nothing => true,
            Next::Status | Next::Instructions | Next::Steps | Next::Tasks => false,
        }
    }

    /// The report that was read.
    pub fn into_report(self) -> Report
        ensures { result ≡ spec.report_of self }
    {
        let Draft {
            steps,
            tasks,
            placements,
            ..
        } = self;
        Report {
            steps,
            tasks,
            placements,
        }
    }
}
