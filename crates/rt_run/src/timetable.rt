ghost use Rattle.std.specs.Prelude.{◌≡◌, ◌+◌, ◌^◌, ◌<◌, ◌≤◌, ◌∷◌, ◌++◌, [], drop, slice_get, length, IfOk};
ghost use Rattle.rt_run.specs.Ticking.{room_before};

use rt_system::Ticks;
use rt_words::{ListBuilder, Memory};
use std::alloc::Global;
use std::marker::Model;

/// The ticks of a run: the gaps of those that are left, the instructions since the last one, and the placements of those
/// taken, for which there is room from the start.
#[derive(Drop)]
pub struct Timetable {
    ticks: Ticks,
    next: usize,
    since: u64,
    placements: ListBuilder<u64>,
}

impl Model for Timetable {
    ghost use Rattle.std.specs.Prelude.{drop};
    ghost use Rattle.rt_run.specs.Ticking.{Ticking, HasRoom};

    ghost Value = { Ticking };

    ghost view = { λ t. record { gaps = drop t.next t.ticks; since = t.since; placements = t.placements.items } };

    ghost invariant = { λ t. HasRoom t.ticks t.next t.placements.spare };
}

impl Timetable {
    /// The start, which takes the room of all placements.
    pub fn new(alloc: Global, ticks: Ticks) -> Result<Timetable, Memory>
        ensures start { IfOk result (λ t. t ≡ record { gaps = ticks; since = 0; placements = [] }) }
        ensures few { IfOk result (λ t. length t.gaps ≤ 200000) }
    {
        let placements = ListBuilder::new(alloc, ticks.gaps().len())?;
        Ok(Timetable {
            ticks,
            next: 0,
            since: 0,
            placements,
        })
    }

    /// The gap of the next tick.
    pub fn gap(&self) -> Option<u32>
        ensures { result ≡ slice_get self.now.gaps 0 }
    {
        match self.ticks.gaps().get(self.next) {
            Some(gap) => Some(*gap),
            None => None,
        }
    }

    /// The instructions since the last tick, or since the start.
    pub fn since(&self) -> u64
        ensures { result ≡ self.now.since }
    {
        self.since
    }

    /// The placements of the ticks taken.
    pub fn placements(&self) -> &[u64]
        ensures { result.now ≡ self.now.placements }
    {
        self.placements.as_slice()
    }

    /// So many instructions, or those up to the next tick where they are fewer; one where that tick is due.
    pub fn room(&self, most: u64) -> u64
        ensures { result ≡ room_before most (slice_get self.now.gaps 0) self.now.since }
    {
        let Some(gap) = self.gap() else {
            return most;
        };
        let gap = u64::from(gap);
        if gap <= self.since {
            return 1;
        }
        let left = gap - self.since;
        if left < most { left } else { most }
    }

    /// Counts so many instructions.
    pub fn count(&mut self, instructions: u64)
        requires { self.old.since + instructions < 2 ^ 64 }
        ensures { self.new ≡ record self.old { since = self.old.since + instructions } }
    {
        self.since += instructions;
    }

    /// Takes the next tick, at this number of visible steps. It takes no memory.
    pub fn take(&mut self, steps: u64)
        requires { 0 < length self.old.gaps }
        ensures { self.new ≡ record { gaps = drop 1 self.old.gaps; since = 0; placements = self.old.placements ++ steps ∷ [] } }
    {
        self.next += 1;
        self.since = 0;
        self.placements.push(steps).unwrap();
    }
}
