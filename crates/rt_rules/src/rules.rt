ghost use Rattle.std.specs.Prelude.{◌≡◌, ◌⊎◌, ℕ, ◌+◌, ◌-◌, ◌^◌, ◌<◌, ◌≤◌, All, false, length, if◌then◌else◌, Some, None, IfOk, IfSome, IsSome, MatchOption};
ghost use Rattle.rt_rules.specs.Roster.{row, flag_of, owner_of, IsTask, IsNumber, has_ended, IsAlive, IsReady, InRanges};
ghost use Rattle.rt_rules.specs.First.{IsFirst, HasNone};
ghost use Rattle.rt_rules.specs.Rules as spec;
ghost use Rattle.rt_rules.specs.Code.{kind_of, count_task};

use crate::first::{Sought, first_from};
use crate::service::{Outcome, Svc};
use crate::task::{State, TaskRow};
use rt_words::{List, Memory};
use std::alloc::Global;
use std::marker::Model;

// A task secures a facility that it owns, or releases one that it doesn't own.
const WRONG_OWNER: u16 = 4;

// An event or facility has no number from 1 to 32.
const WRONG_NUMBER: u16 = 5;

/// What the supervisor keeps: the tasks 1 and up, the flags of events 1 to 32, the owners of facilities 1 to 32 (0 is
/// free), the number of ticks taken, and the stamp that the next task to arrive or to wait will take.
///
/// At every moment there are 1 to 32 tasks with priorities above 0 and different stamps below the next one,
/// 32 flags, and 32 owners, each 0 or the number of a task that hasn't ended.
#[derive(Drop)]
pub struct Rules {
    pub tasks: List<TaskRow>,
    pub flags: List<bool>,
    pub owners: List<u8>,
    pub clock: u32,
    pub stamp: u64,
}

impl Model for Rules {
    ghost use Rattle.rt_rules.specs.Roster.{Roster, InRanges};

    ghost Value = { Roster };

    ghost view = { λ r. record { tasks = r.tasks; flags = r.flags; owners = r.owners; clock = r.clock; stamp = r.stamp } };

    ghost invariant = { λ r. InRanges (record { tasks = r.tasks; flags = r.flags; owners = r.owners; clock = r.clock; stamp = r.stamp }) };
}

impl Rules {
    /// The start: tasks of these priorities, all ready, which arrived in the order of their numbers; no flag is
    /// set, every facility is free, and no tick was taken.
    pub fn new(alloc: Global, priorities: &[u8]) -> Result<Rules, Memory>
        requires some { 1 ≤ length priorities.now }
        requires few { length priorities.now ≤ 32 }
        requires above_zero { All (λ p. 0 < p) priorities.now }
        ensures start { IfOk result (λ r. r ≡ spec.start priorities.now) }
        ensures ranges { IfOk result InRanges }
    {
        Ok(Rules {
            tasks: arrived(alloc, priorities)?,
            flags: List::from_slice(alloc, &[false; 32])?,
            owners: List::from_slice(alloc, &[0; 32])?,
            clock: 0,
            stamp: priorities.len() as u64,
        })
    }

    /// The number of the running task: of those that are ready, the one with the least pair of priority and stamp.
    /// `None` exactly where no task is ready.
    pub fn running(&self) -> Option<u8>
        ensures value { result ≡ spec.running self.now }
        ensures least { MatchOption result (HasNone spec.is_ready self.now) (IsFirst spec.is_ready self.now) }
        ensures ranges { InRanges self.now }
    {
        self.first(Sought::Ready)
    }

    /// Takes a tick: the clock rises by 1; the running task, if there is one, arrives anew; then each delay falls
    /// by 1, and tasks whose delay is over arrive in the order of their numbers. It takes no memory.
    pub fn tick(&mut self)
        requires stamp { self.old.stamp < 2 ^ 63 }
        requires clock { self.old.clock < 2 ^ 32 - 1 }
        ensures tick { self.new ≡ spec.tick self.old }
        ensures ranges { InRanges self.new }
    {
        let running = self.running();
        self.tick_of(running);
    }

    /// Takes a tick where the caller knows which task runs, as [`Rules::tick`] does. It looks for no task.
    pub fn tick_of(&mut self, running: Option<u8>)
        requires runs { running ≡ spec.running self.old }
        requires stamp { self.old.stamp < 2 ^ 63 }
        requires clock { self.old.clock < 2 ^ 32 - 1 }
        ensures tick { self.new ≡ spec.tick self.old }
        ensures ranges { InRanges self.new }
    {
        self.clock += 1;
        if let Some(task) = running {
            self.arrives(task, State::Ready);
        }
        self.count_down();
    }

    /// Does a service of the running task. Where the outcome is an error nothing changes. It takes no memory.
    pub fn call(&mut self, svc: Svc) -> Outcome
        requires runs { IsSome (spec.running self.old) }
        requires stamp { self.old.stamp < 2 ^ 63 }
        requires clock { self.old.clock < 2 ^ 32 - 1 }
        ensures served { IfSome (spec.running self.old) (λ i. (self.new, result) ≡ spec.serve self.old i svc) }
        ensures error { (n : ℕ) → result ≡ Outcome.Error n → self.new ≡ self.old }
        ensures ranges { InRanges self.new }
    {
        match self.running() {
            Some(task) => self.serve(task, svc),
            None => unreachable!(),
        }
    }

    /// Does a service of the ready task `task`, where the caller knows which task runs, as [`Rules::call`] does it.
    /// Each service is the definition's of that name. It looks for no running task, and takes no memory.
    pub fn serve(&mut self, task: u8, svc: Svc) -> Outcome
        requires ready { IsReady self.old task }
        requires stamp { self.old.stamp < 2 ^ 63 }
        ensures { (self.new, result) ≡ spec.serve self.old task svc }
    {
        match svc {
            Svc::Delay(ticks) => self.delay(task, ticks),
            Svc::Wait(number) => self.wait(task, number),
            Svc::Signal(number) => self.signal(number),
            Svc::Secure(number) => self.secure(task, number),
            Svc::Release(number) => self.release(task, number),
            Svc::Clock => Outcome::Go((self.clock % 65536) as u16),
            Svc::TaskNo => Outcome::Go(u16::from(task)),
            Svc::Gel(error) => self.ends(task, State::Failed(error)),
            Svc::End => self.ends(task, State::Ended),
        }
    }

    /// Lends the tasks' rows, in the order of their numbers.
    pub fn tasks(&self) -> &[TaskRow]
        ensures rows { result.now ≡ self.now.tasks }
        ensures ranges { InRanges self.now }
    {
        self.tasks.as_slice()
    }

    /// The stamp that the next task to arrive or to wait will take.
    pub fn next_stamp(&self) -> u64
        ensures { result ≡ self.now.stamp }
    {
        self.stamp
    }

    fn delay(&mut self, task: u8, ticks: u16) -> Outcome
        requires ready { IsReady self.old task }
        requires stamp { self.old.stamp < 2 ^ 63 }
        ensures { (self.new, result) ≡ spec.delay self.old task ticks }
    {
        if 1 <= ticks && ticks < 32768 {
            self.arrives(task, State::Delayed(ticks));
            Outcome::Waits
        } else {
            self.arrives(task, State::Ready);
            Outcome::Go(0)
        }
    }

    fn wait(&mut self, task: u8, number: u16) -> Outcome
        requires ready { IsReady self.old task }
        requires stamp { self.old.stamp < 2 ^ 63 }
        ensures { (self.new, result) ≡ spec.checked number self.old (spec.wait self.old task number) }
    {
        let Some(event) = numbered(number) else {
            return Outcome::Error(WRONG_NUMBER);
        };
        if self.flag(event) {
            self.set_flag(event, false);
            Outcome::Go(0)
        } else {
            self.arrives(task, State::Event(event));
            Outcome::Waits
        }
    }

    fn signal(&mut self, number: u16) -> Outcome
        requires { self.old.stamp < 2 ^ 63 }
        ensures { (self.new, result) ≡ spec.checked number self.old (spec.signal self.old number) }
    {
        let Some(event) = numbered(number) else {
            return Outcome::Error(WRONG_NUMBER);
        };
        self.raise(event);
        Outcome::Go(0)
    }

    fn secure(&mut self, task: u8, number: u16) -> Outcome
        requires ready { IsReady self.old task }
        requires stamp { self.old.stamp < 2 ^ 63 }
        ensures { (self.new, result) ≡ spec.checked number self.old (spec.secure self.old task number) }
    {
        let Some(facility) = numbered(number) else {
            return Outcome::Error(WRONG_NUMBER);
        };
        let owner = self.owner(facility);
        if owner == task {
            Outcome::Error(WRONG_OWNER)
        } else if owner == 0 {
            self.set_owner(facility, task);
            Outcome::Go(0)
        } else {
            self.arrives(task, State::Facility(facility));
            Outcome::Waits
        }
    }

    fn release(&mut self, task: u8, number: u16) -> Outcome
        requires { self.old.stamp < 2 ^ 63 }
        ensures { (self.new, result) ≡ spec.checked number self.old (spec.release self.old task number) }
    {
        let Some(facility) = numbered(number) else {
            return Outcome::Error(WRONG_NUMBER);
        };
        if self.owner(facility) != task {
            return Outcome::Error(WRONG_OWNER);
        }
        self.give(facility);
        Outcome::Go(0)
    }

    fn ends(&mut self, task: u8, state: State) -> Outcome
        requires ready { IsReady self.old task }
        requires stamp { self.old.stamp < 2 ^ 63 }
        ensures { (self.new, result) ≡ spec.ends self.old task state }
    {
        for facility in 1..33u8 {
            self.give_if_owned(task, facility);
        }
        self.becomes(task, state);
        Outcome::Ends
    }

    // The first waiter of the event is woken, or the event's flag is set.
    fn raise(&mut self, event: u8)
        requires number { IsNumber event }
        requires room { self.old.stamp < 2 ^ 64 - 1 }
        ensures { self.new ≡ spec.raise self.old event }
    {
        match self.first(Sought::Event(event)) {
            Some(waiter) => self.arrives(waiter, State::Ready),
            None => self.set_flag(event, true),
        }
    }

    // The task gives the facility away, if it owns it.
    fn give_if_owned(&mut self, task: u8, facility: u8)
        requires number { IsNumber facility }
        requires room { self.old.stamp < 2 ^ 64 - 1 }
        ensures given { self.new ≡ spec.give_if_owned self.old task facility }
        ensures ranges { InRanges self.old }
    {
        if self.owner(facility) == task {
            self.give(facility);
        }
    }

    // The facility goes to its first waiter, or becomes free.
    fn give(&mut self, facility: u8)
        requires number { IsNumber facility }
        requires room { self.old.stamp < 2 ^ 64 - 1 }
        ensures { self.new ≡ spec.give self.old facility }
    {
        match self.first(Sought::Facility(facility)) {
            Some(waiter) => {
                self.set_owner(facility, waiter);
                self.arrives(waiter, State::Ready);
            }
            None => self.set_owner(facility, 0),
        }
    }

    // Each delay falls by 1, and tasks whose delay is over arrive in the order of their numbers.
    fn count_down(&mut self)
        requires { self.old.stamp < 2 ^ 64 - 33 }
        ensures { self.new ≡ spec.count_down self.old }
    {
        for task in 1..self.tasks.len() as u8 + 1 {
            self.count_task(task);
        }
    }

    // The task's delay, if it has one, falls by 1; where it is over the task arrives.
    fn count_task(&mut self, task: u8)
        requires task { IsTask self.old task }
        requires room { self.old.stamp < 2 ^ 64 - 1 }
        ensures { self.new ≡ count_task self.old task }
    {
        match self.row(task).state {
            State::Delayed(ticks) if ticks <= 1 => self.arrives(task, State::Ready),
            State::Delayed(ticks) => self.becomes(task, State::Delayed(ticks - 1)),
            _ => {}
        }
    }

    // The first of the tasks sought.
    fn first(&self, sought: Sought) -> Option<u8>
        ensures value { result ≡ spec.first (kind_of sought) self.now }
        ensures first { MatchOption result (HasNone (kind_of sought) self.now) (IsFirst (kind_of sought) self.now) }
        ensures ranges { InRanges self.now }
    {
        first_from(sought, self.tasks.as_slice(), 1).map(|(number, _)| number)
    }

    fn row(&self, task: u8) -> TaskRow
        requires { IsTask self.now task }
        ensures { result ≡ row self.now task }
    {
        self.tasks.as_slice()[usize::from(task) - 1]
    }

    // The task comes to this condition, and takes the next stamp.
    fn arrives(&mut self, task: u8, state: State)
        requires task { IsTask self.old task }
        requires alive { has_ended state ≡ false }
        requires room { self.old.stamp < 2 ^ 64 - 1 }
        ensures { self.new ≡ spec.arrives self.old task state }
    {
        let row = self.row(task);
        let stamp = self.stamp;
        self.tasks.set(
            usize::from(task) - 1,
            TaskRow {
                state,
                priority: row.priority,
                stamp,
            },
        );
        self.stamp += 1;
    }

    // The task comes to this condition, and keeps its stamp.
    fn becomes(&mut self, task: u8, state: State)
        requires task { IsTask self.old task }
        requires owns { (n : ℕ) → IsNumber n → owner_of self.old n ≡ task → has_ended state ≡ false }
        ensures { self.new ≡ spec.becomes self.old task state }
    {
        let row = self.row(task);
        self.tasks.set(
            usize::from(task) - 1,
            TaskRow {
                state,
                priority: row.priority,
                stamp: row.stamp,
            },
        );
    }

    fn flag(&self, event: u8) -> bool
        requires { IsNumber event }
        ensures { result ≡ flag_of self.now event }
    {
        self.flags.as_slice()[usize::from(event) - 1]
    }

    fn set_flag(&mut self, event: u8, set: bool)
        requires { IsNumber event }
        ensures { self.new ≡ spec.with_flag self.old event set }
    {
        self.flags.set(usize::from(event) - 1, set);
    }

    fn owner(&self, facility: u8) -> u8
        requires { IsNumber facility }
        ensures owner { result ≡ owner_of self.now facility }
        ensures ranges { InRanges self.now }
    {
        self.owners.as_slice()[usize::from(facility) - 1]
    }

    fn set_owner(&mut self, facility: u8, task: u8)
        requires number { IsNumber facility }
        requires task { (task ≡ 0) ⊎ IsAlive self.old task }
        ensures { self.new ≡ spec.with_owner self.old facility task }
    {
        self.owners.set(usize::from(facility) - 1, task);
    }
}

// Ready tasks of these priorities, which arrived in the order of their numbers.
fn arrived(alloc: Global, priorities: &[u8]) -> Result<List<TaskRow>, Memory>
    ensures { IfOk result (λ rows. rows ≡ spec.rows_from 0 priorities.now) }
{
    let mut rows = List::new(alloc, priorities.len())?;
    for priority in priorities {
        let stamp = rows.len() as u64;
        rows.push(TaskRow {
            state: State::Ready,
            priority: *priority,
            stamp,
        })?;
    }
    Ok(rows)
}

// The number of an event or facility.
fn numbered(number: u16) -> Option<u8>
    ensures value { result ≡ (if spec.is_number number then Some number else None) }
    ensures number { IfSome result IsNumber }
{
    if 1 <= number && number <= 32 {
        Some(number as u8)
    } else {
        None
    }
}
