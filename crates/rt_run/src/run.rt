ghost use Rattle.std.specs.Prelude.{◌≡◌, ◌≤◌, IfOk};
ghost use Rattle.rt_words.specs.Causes.{Rose};
ghost use Rattle.rt_rules.specs.Roster.{row, IsTask};
ghost use Rattle.rt_run.specs.Boundaries.{start};
ghost use Rattle.rt_run.specs.Inputs.{feed};
ghost use Rattle.rt_run.specs.Picture.{Shows};
ghost use Rattle.rt_run.specs.Runs.{Runs};

use crate::machine::{End, Machine};
use crate::supervisor::Supervisor;
use crate::timetable::Timetable;
use rt_image::Image;
use rt_outside::{Sink, Source};
use rt_rules::State;
use rt_system::Ticks;
use rt_tasks::parts_make_one_memory;
use rt_words::Memory;
use std::alloc::Global;
use std::marker::Model;

/// A run of an image under ticks. Contracts see what stands between two instructions: what all tasks share, the tasks, the
/// supervisor's rules, the ticks, the instructions so far and their marks, added up.
#[derive(Drop)]
pub struct Run {
    machine: Machine,
}

impl Model for Run {
    ghost use Rattle.rt_run.specs.Picture.{Standing, standing, IsComplete};

    ghost Value = { Standing };

    ghost view = { λ r. standing r.machine };

    ghost invariant = { λ r. IsComplete r.machine };
}

impl Run {
    /// The start: no instruction was carried out, and no tick taken. All memory that the run needs is taken here; where there
    /// is none, image and ticks are dropped.
    pub fn open(alloc: Global, image: Image, ticks: Ticks) -> Result<Run, Memory>
        ensures { IfOk result (λ r. Shows image r (start image ticks)) }
    {
        parts_make_one_memory();
        let timetable = Timetable::new(alloc, ticks)?;
        let machine = Machine::open(alloc, &image, timetable)?;
        Ok(Run { machine })
    }

    /// Runs up to a limit of instructions, counted from the start. It is the run of the machine over the bytes that the input gives,
    /// and over several calls over all that it gave; where the input tells its bytes, these are the ones. It takes no memory.
    pub fn go<I: Source, O: Sink>(&mut self, input: &mut I, output: &mut O, limit: u64) -> End
        requires limit { limit ≤ 4000000000 }
        requires reach { self.old.count ≤ limit }
        ensures ran { Runs limit result self.old (feed (I.left input.old) (I.ended input.old)) (O.written output.old) self.new (feed (I.left input.new) (I.ended input.new)) (O.written output.new) }
        ensures later { self.old.count ≤ self.new.count }
        ensures few { self.new.count ≤ limit }
        ensures read_failed { result ≡ End.ReadFault → Rose (I.faults input.old) (I.faults input.new) }
        ensures write_failed { result ≡ End.WriteFault → Rose (O.faults output.old) (O.faults output.new) }
        ensures reads_later { I.faults input.old ≤ I.faults input.new }
        ensures writes_later { O.faults output.old ≤ O.faults output.new }
    {
        self.machine.go(input, output, limit)
    }

    /// The instructions carried out so far.
    pub fn instructions(&self) -> u64
        ensures { result ≡ self.now.count }
    {
        self.machine.instructions
    }

    /// The visible steps so far: the marks of the instructions, added up.
    pub fn steps(&self) -> u64
        ensures { result ≡ self.now.marks }
    {
        self.machine.steps
    }

    /// The visible steps at the boundary of each tick that was taken.
    pub fn placements(&self) -> &[u64]
        ensures { result.now ≡ self.now.ticking.placements }
    {
        self.machine.timetable.placements()
    }

    /// The condition of a task.
    pub fn state(&self, task: u8) -> State
        requires { IsTask self.now.rules task }
        ensures { result ≡ (row self.now.rules task).state }
    {
        self.machine.supervisor.state(task)
    }

    /// Lends the supervisor, whose rules are those of the run.
    pub fn supervisor(&self) -> &Supervisor
        ensures { result.now ≡ self.now.rules }
    {
        &self.machine.supervisor
    }
}
