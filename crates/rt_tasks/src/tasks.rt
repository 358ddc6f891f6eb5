ghost use Rattle.std.specs.Prelude.{◌≡◌, ◌-◌, ◌≤◌, length, IfOk};
ghost use Rattle.pdp_code.specs.declared.instruction.Reg.TheVariants.{R0, R1, Sp, Pc};
ghost use Rattle.pdp_core.specs.Execute.{reg, with_reg};
ghost use Rattle.pdp_core.specs.Told.{stop_of};
ghost use Rattle.rt_tasks.specs.Steps.{Steps, KeepsAtFault, AsksByTrap, AnswersTrap};
ghost use Rattle.rt_tasks.specs.Parts.{LieInOrder};
ghost use Rattle.rt_tasks.specs.Start.{IsStart};
ghost use Rattle.rt_tasks.specs.Traps.{mark_of};

use crate::code::mark_at;
use crate::memory::StackBrick;
use crate::shared::Shared;
use crate::start::{own_words, places, registers};
use pdp_core::{Done, Protection, Regs, Stop, carry_on};
use rt_image::Image;
use rt_words::Memory;
use std::alloc::Global;
use std::marker::Model;

/// A task that doesn't run. It owns its registers, its SVC block and its stack brick; contracts see them as a `Task`.
#[derive(Drop)]
pub struct Parked {
    pub(crate) regs: Regs,
    pub(crate) own: StackBrick,
    pub(crate) places: Protection,
}

impl Model for Parked {
    ghost use Rattle.rt_image.specs.Memory.{words_bytes};
    ghost use Rattle.rt_tasks.specs.Parts.{Task, LieInOrder};

    ghost Value = { Task };

    ghost view = { λ p. record { regs = p.regs; own = words_bytes p.own.words.items; places = p.places } };

    ghost invariant = { λ p. LieInOrder (words_bytes p.own.words.items) p.places };
}

impl Parked {
    /// A task of an image at the start, by its number, from 1.
    pub fn open(alloc: Global, image: &Image, task: u8) -> Result<Parked, Memory>
        requires first { 1 ≤ task }
        requires there { task ≤ length image.now.tasks }
        ensures start { IfOk result (IsStart image.now (task - 1)) }
        ensures order { IfOk result (λ t. LieInOrder t.own t.places) }
    {
        let parts = image.parts();
        let n = usize::from(task) - 1;
        let places = places(parts, n);
        let task = &parts.tasks.as_slice()[n];
        let words = own_words(alloc, &task.block, task.stack)?;
        Ok(Parked {
            regs: registers(&places, task.entry),
            own: StackBrick { words },
            places,
        })
    }

    /// R6.
    pub fn stack_pointer(&self) -> u16
        ensures { result ≡ reg self.now.regs Sp }
    {
        self.regs.r[6]
    }
}

/// A task that has ended, with all its parts. Contracts see it as its task.
#[derive(Drop)]
pub struct Finished {
    task: Parked,
}

impl Model for Finished {
    ghost use Rattle.rt_tasks.specs.Parts.{Task};

    ghost Value = { Task };

    ghost view = { λ f. f.task };
}

impl Finished {
    /// The end of a task.
    pub(crate) fn of(task: Parked) -> Finished
        ensures { result ≡ task }
    {
        Finished { task }
    }

    /// R6.
    pub fn stack_pointer(&self) -> u16
        ensures { result ≡ reg self.now.regs Sp }
    {
        self.task.stack_pointer()
    }
}

/// The task that runs. It owns its registers, and alone may use what all tasks share, beside which its block and its brick
/// stand. It is the only memory that code runs over, and it can't be dropped: it is parked or finished.
pub struct Running<'a> {
    pub(crate) regs: Regs,
    pub(crate) shared: &'a mut Shared,
}

impl Running<'_> {
    /// One instruction. A fault leaves all as it was.
    #[inline(always)]
    pub fn step(&mut self) -> Stop
        ensures done { Steps self.old.regs self.old.shared.now result self.new.regs self.new.shared.now }
        ensures fault { KeepsAtFault self.old.regs self.old.shared.now result self.new.regs self.new.shared.now }
        ensures asks { AsksByTrap self.old.regs self.old.shared.now result self.new.regs self.new.shared.now }
        ensures answers { AnswersTrap self.old.regs self.old.shared.now result }
        ensures same_reference { self.new.shared.ghost_name ≡ self.old.shared.ghost_name }
    {
        let mut stop = Stop::Went;
        match self.carry_on(&mut stop) {
            Done::Went => Stop::Went,
            Done::Stopped => stop,
        }
    }

    /// The same, with what stopped it told in a place that is lent; where it went on, that says nothing.
    #[inline(always)]
    pub fn carry_on(&mut self, stop: &mut Stop) -> Done
        ensures done { Steps self.old.regs self.old.shared.now (stop_of result stop.new) self.new.regs self.new.shared.now }
        ensures fault { KeepsAtFault self.old.regs self.old.shared.now (stop_of result stop.new) self.new.regs self.new.shared.now }
        ensures asks { AsksByTrap self.old.regs self.old.shared.now (stop_of result stop.new) self.new.regs self.new.shared.now }
        ensures answers { AnswersTrap self.old.regs self.old.shared.now (stop_of result stop.new) }
        ensures same_reference { self.new.shared.ghost_name ≡ self.old.shared.ghost_name }
    {
        let shared = &mut *self.shared;
        carry_on(&mut self.regs, &mut shared.memory, stop)
    }

    /// The mark of the code word at the program counter; 0 where it is odd or outside the code.
    #[inline(always)]
    pub fn mark(&self) -> u8
        ensures { result ≡ mark_of self.now.shared.now.marks (reg self.now.regs Pc) }
    {
        let shared = &*self.shared;
        mark_at(shared.memory.code.as_slice(), self.regs.r[7])
    }

    /// The program counter.
    #[inline(always)]
    pub fn counter(&self) -> u16
        ensures { result ≡ reg self.now.regs Pc }
    {
        self.regs.r[7]
    }

    /// Sets the program counter, and no other register nor flag.
    pub fn go_back(&mut self, counter: u16)
        ensures regs { self.new.regs ≡ with_reg self.old.regs Pc counter }
        ensures shared { self.new.shared.now ≡ self.old.shared.now }
        ensures same_reference { self.new.shared.ghost_name ≡ self.old.shared.ghost_name }
    {
        self.regs.r[7] = counter;
    }

    /// R0.
    pub fn argument(&self) -> u16
        ensures { result ≡ reg self.now.regs R0 }
    {
        self.regs.r[0]
    }

    /// Sets R0, and no other register nor flag.
    pub fn answer(&mut self, value: u16)
        ensures regs { self.new.regs ≡ with_reg self.old.regs R0 value }
        ensures shared { self.new.shared.now ≡ self.old.shared.now }
        ensures same_reference { self.new.shared.ghost_name ≡ self.old.shared.ghost_name }
    {
        self.regs.r[0] = value;
    }

    /// Sets R1, and no other register nor flag.
    pub fn set_error(&mut self, number: u16)
        ensures regs { self.new.regs ≡ with_reg self.old.regs R1 number }
        ensures shared { self.new.shared.now ≡ self.old.shared.now }
        ensures same_reference { self.new.shared.ghost_name ≡ self.old.shared.ghost_name }
    {
        self.regs.r[1] = number;
    }

    /// R6.
    pub fn stack_pointer(&self) -> u16
        ensures { result ≡ reg self.now.regs Sp }
    {
        self.regs.r[6]
    }
}
