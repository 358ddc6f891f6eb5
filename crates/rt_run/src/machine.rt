// The machine: what all tasks share, the tasks, the supervisor, the ticks and the counts.
ghost use Rattle.std.specs.Prelude.{◌≡◌, ◌<◌, ◌≤◌, ◌+◌, ◌*◌, ◌^◌, ◌-◌, ℕ, true, false, Some, None, length, map, slice_get, slice_set, if◌then◌else◌, IfOk};
ghost use Rattle.rt_words.specs.Causes.{Rose};
ghost use Rattle.rt_image.specs.declared.image.ImageParts.{ImageParts};
ghost use Rattle.rt_image.specs.Ranges.{HasImageRanges};
ghost use Rattle.rt_rules.specs.Roster.{InRanges};
ghost use Rattle.rt_rules.specs.Rules as rules;
ghost use Rattle.rt_tasks.specs.Parts.{EndAt};
ghost use Rattle.rt_run.specs.Inputs.{feed};
ghost use Rattle.rt_run.specs.Boundaries.{State, settle as settle_of, all_ended as all_ended_of};
ghost use Rattle.rt_run.specs.Picture.{HasOpened, IsComplete, Shows, present, standing};
ghost use Rattle.rt_run.specs.Runs.{Runs};
ghost use Rattle.rt_run.specs.Turn.{counts, end_of, Advances, Counted, IsLent, Turns};

use crate::carry::Carried;
use crate::open::{open_supervisor, open_tasks};
use crate::settle::{all_ended, settle};
use crate::stretch::{Stretch, is_done, run_on};
use crate::supervisor::Supervisor;
use crate::timetable::Timetable;
use pdp_core::Kind;
use rt_image::Image;
use rt_outside::{Sink, Source};
use rt_tasks::{Parked, Shared, dispatch, park};
use rt_words::Memory;
use std::alloc::Global;

/// The parts of a run. Between two turns each task is in its place.
#[derive(Drop)]
pub struct Machine {
    pub shared: Shared,
    pub tasks: Vec<Option<Parked>>,
    pub supervisor: Supervisor,
    pub timetable: Timetable,
    pub instructions: u64,
    pub steps: u64,
}

/// How a run ended.
#[derive(Debug, Clone, Copy, PartialEq, Eq)]
pub enum End {
    /// All tasks have ended.
    Ended,
    /// The limit of instructions is reached.
    Limit,
    /// No task is ready, and no tick is left.
    Stalled,
    /// The next instruction of a task faults: the task, the kind and the address. It isn't carried out.
    Fault(u8, Kind, u16),
    /// The console's input failed before a TRAP 1, of which nothing is done.
    ReadFault,
    /// The console's output failed before a TRAP 2, of which nothing is done.
    WriteFault,
}

/// A task after it ran, and what it did.
#[derive(Drop)]
pub struct Ran {
    pub task: Parked,
    pub stretch: Stretch,
}

// Lets a task run for at most so many instructions.
fn lend<I: Source, O: Sink>(
    parked: Parked,
    shared: &mut Shared,
    supervisor: &mut Supervisor,
    task: u8,
    input: &mut I,
    output: &mut O,
    most: u64,
) -> Ran
    requires ends { EndAt shared.old.code shared.old.bytes parked.places }
    requires runs { rules.running supervisor.old ≡ Some task }
    requires ranges { InRanges supervisor.old }
    requires stamp { supervisor.old.stamp < 2 ^ 63 }
    requires clock { supervisor.old.clock < 2 ^ 32 - 1 }
    requires some { 0 < most }
    requires few { most ≤ 4000000000 }
    ensures lent { IsLent task most result.stretch (feed (I.left input.old) (I.ended input.old)) (O.written output.old) shared.old parked supervisor.old (feed (I.left input.new) (I.ended input.new)) (O.written output.new) shared.new result.task supervisor.new }
    ensures counted { Counted result.stretch most }
    ensures read_failed { result.stretch.carried ≡ Carried.ReadFault → Rose (I.faults input.old) (I.faults input.new) }
    ensures write_failed { result.stretch.carried ≡ Carried.WriteFault → Rose (O.faults output.old) (O.faults output.new) }
    ensures reads_later { I.faults input.old ≤ I.faults input.new }
    ensures writes_later { O.faults output.old ≤ O.faults output.new }
{
    let mut running = dispatch(parked, shared);
    let stretch = run_on(&mut running, supervisor, task, input, output, most);
    Ran {
        task: park(running),
        stretch,
    }
}

// Takes a task from its place.
fn take_task(tasks: &mut Vec<Option<Parked>>, n: usize) -> Parked
    requires all_there { tasks.old.items ≡ map (λ t. Some t) (present tasks.old.items) }
    requires there { n < length tasks.old.items }
    ensures task { slice_get (present tasks.old.items) n ≡ Some result }
    ensures left { tasks.new.items ≡ slice_set tasks.old.items n None }
{
    match tasks[n].take() {
        Some(task) => task,
        None => unreachable!(),
    }
}

// Puts a task into its place.
fn put_task(tasks: &mut Vec<Option<Parked>>, n: usize, task: Parked)
    requires { n < length tasks.old.items }
    ensures { tasks.new.items ≡ slice_set tasks.old.items n (Some task) }
{
    tasks[n] = Some(task);
}

// How an instruction of a task that isn't carried out ends the run.
fn ended_by(carried: Carried, task: u8) -> End
    requires { counts carried ≡ false }
    ensures { result ≡ end_of carried task }
{
    match carried {
        Carried::Fault(kind, at) => End::Fault(task, kind, at),
        Carried::ReadFault => End::ReadFault,
        Carried::WriteFault => End::WriteFault,
        Carried::Went | Carried::Served => unreachable!(),
    }
}

impl Machine {
    /// The start of an image, with ticks of which none was taken.
    pub fn open(alloc: Global, image: &Image, timetable: Timetable) -> Result<Machine, Memory>
        requires fresh { timetable.since ≡ 0 }
        requires few { length timetable.gaps ≤ 200000 }
        ensures opened { IfOk result (HasOpened image.now timetable) }
        ensures complete { IfOk result IsComplete }
        ensures ranges { HasImageRanges image.now }
    {
        let _parts = image.parts();
        let tasks = open_tasks(alloc, image)?;
        let supervisor = open_supervisor(alloc, image)?;
        let shared = Shared::open(alloc, image)?;
        Ok(Machine {
            shared,
            tasks,
            supervisor,
            timetable,
            instructions: 0,
            steps: 0,
        })
    }

    // Counts the instructions of a turn, with their marks.
    fn count(&mut self, stretch: Stretch)
        requires few { self.old.instructions + stretch.count ≤ 4000000000 }
        requires since { self.old.timetable.since ≤ self.old.instructions }
        requires steps { self.old.steps ≤ 255 * self.old.instructions }
        requires marks { stretch.marks ≤ 255 * stretch.count }
        ensures { self.new ≡ record self.old { timetable = record { gaps = self.old.timetable.gaps; since = self.old.timetable.since + stretch.count; placements = self.old.timetable.placements }; instructions = self.old.instructions + stretch.count; steps = self.old.steps + stretch.marks } }
    {
        self.instructions += stretch.count;
        self.steps += stretch.marks;
        self.timetable.count(stretch.count);
    }

    /// Lets the running task run for at most so many instructions.
    pub fn turn<I: Source, O: Sink>(
        &mut self,
        task: u8,
        most: u64,
        input: &mut I,
        output: &mut O,
    ) -> Carried
        requires complete { IsComplete self.old }
        requires runs { rules.running self.old.supervisor ≡ Some task }
        requires first { 1 ≤ task }
        requires there { task ≤ length self.old.tasks.items }
        requires some { 0 < most }
        requires few { self.old.instructions + most ≤ 4000000000 }
        requires ranges { InRanges self.old.supervisor }
        ensures complete { IsComplete self.new }
        ensures turned { Turns task most result (standing self.old) (feed (I.left input.old) (I.ended input.old)) (O.written output.old) (standing self.new) (feed (I.left input.new) (I.ended input.new)) (O.written output.new) }
        ensures later { self.old.instructions ≤ self.new.instructions }
        ensures within { self.new.instructions ≤ self.old.instructions + most }
        ensures done { counts result ≡ true → self.old.instructions < self.new.instructions }
        ensures full { result ≡ Carried.Went → self.new.instructions ≡ self.old.instructions + most }
        ensures fewer { counts result ≡ false → self.new.instructions < self.old.instructions + most }
        ensures read_failed { result ≡ Carried.ReadFault → Rose (I.faults input.old) (I.faults input.new) }
        ensures write_failed { result ≡ Carried.WriteFault → Rose (O.faults output.old) (O.faults output.new) }
        ensures reads_later { I.faults input.old ≤ I.faults input.new }
        ensures writes_later { O.faults output.old ≤ O.faults output.new }
    {
        let n = usize::from(task - 1);
        let parked = take_task(&mut self.tasks, n);
        let ran = lend(
            parked,
            &mut self.shared,
            &mut self.supervisor,
            task,
            input,
            output,
            most,
        );
        let Ran {
            task: after,
            stretch,
        } = ran;
        put_task(&mut self.tasks, n, after);
        self.count(stretch);
        stretch.carried
    }

    /// Takes the ticks that are due.
    pub fn settle(&mut self)
        requires complete { IsComplete self.old }
        ensures complete { IsComplete self.new }
        ensures settled { (image : ImageParts) (s : State) → Shows image (standing self.old) s → Shows image (standing self.new) (settle_of s.gaps s) }
        ensures count { self.new.instructions ≡ self.old.instructions }
    {
        let tasks = self.tasks.len() as u8;
        settle(&mut self.supervisor, &mut self.timetable, tasks, self.steps);
    }

    // How the run ended, where no task is ready.
    fn idle_end(&self) -> End
        requires { IsComplete self.now }
        ensures { result ≡ (if all_ended_of self.now.supervisor.tasks then End.Ended else End.Stalled) }
    {
        if all_ended(&self.supervisor, self.tasks.len() as u8) {
            End::Ended
        } else {
            End::Stalled
        }
    }

    // A turn of the running task, and the ticks that are due after it; or the end of the run.
    fn go_on<I: Source, O: Sink>(
        &mut self,
        input: &mut I,
        output: &mut O,
        limit: u64,
    ) -> Option<End>
        requires complete { IsComplete self.old }
        requires limit { limit ≤ 4000000000 }
        requires reach { self.old.instructions ≤ limit }
        ensures complete { IsComplete self.new }
        ensures went { Advances limit result (standing self.old) (feed (I.left input.old) (I.ended input.old)) (O.written output.old) (standing self.new) (feed (I.left input.new) (I.ended input.new)) (O.written output.new) }
        ensures later { self.old.instructions ≤ self.new.instructions }
        ensures few { self.new.instructions ≤ limit }
        ensures counted { result ≡ None → self.old.instructions < self.new.instructions }
        ensures read_failed { result ≡ Some End.ReadFault → Rose (I.faults input.old) (I.faults input.new) }
        ensures write_failed { result ≡ Some End.WriteFault → Rose (O.faults output.old) (O.faults output.new) }
        ensures reads_later { I.faults input.old ≤ I.faults input.new }
        ensures writes_later { O.faults output.old ≤ O.faults output.new }
    {
        let Some(task) = self.supervisor.running() else {
            return Some(self.idle_end());
        };
        if self.instructions == limit {
            return Some(End::Limit);
        }
        let most = self.timetable.room(limit - self.instructions);
        let carried = self.turn(task, most, input, output);
        if is_done(carried) {
            self.settle();
            return None;
        }
        Some(ended_by(carried, task))
    }

    /// Runs up to a limit of instructions, counted from the start. It takes no memory.
    pub fn go<I: Source, O: Sink>(&mut self, input: &mut I, output: &mut O, limit: u64) -> End
        requires complete { IsComplete self.old }
        requires limit { limit ≤ 4000000000 }
        requires reach { self.old.instructions ≤ limit }
        ensures complete { IsComplete self.new }
        ensures ran { Runs limit result (standing self.old) (feed (I.left input.old) (I.ended input.old)) (O.written output.old) (standing self.new) (feed (I.left input.new) (I.ended input.new)) (O.written output.new) }
        ensures later { self.old.instructions ≤ self.new.instructions }
        ensures few { self.new.instructions ≤ limit }
        ensures read_failed { result ≡ End.ReadFault → Rose (I.faults input.old) (I.faults input.new) }
        ensures write_failed { result ≡ End.WriteFault → Rose (O.faults output.old) (O.faults output.new) }
        ensures reads_later { I.faults input.old ≤ I.faults input.new }
        ensures writes_later { O.faults output.old ≤ O.faults output.new }
    {
        self.settle();
        'run: loop {
            if let Some(end) = self.go_on(input, output, limit) {
                return end;
            }
        }
    }
}
