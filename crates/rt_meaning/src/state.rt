//! A source state, which takes steps and ticks.

ghost use Rattle.std.specs.Prelude.{◌≡◌, length};

use crate::begin::{SourceTask, new_tasks, priorities};
use crate::common::Common;
use crate::kept::KeptRules;
use crate::moves::step_task;
use crate::system::Task;
use rt_resolve::{ModuleCode, System, resolve};
use rt_rules::State;
use rt_tree::{Step, TypedModule};
use rt_words::{List, Memory};
use rt_work_state::ModuleStore;
use std::alloc::Global;

/// A source state: the modules of a system, and what the run has come to.
#[derive(Drop)]
pub struct SourceState {
    modules: List<ModuleCode>,
    common: Common,
    tasks: Vec<Task>,
    ghost counted: { length tasks.items ≡ length common.rules.tasks },
}

impl SourceState {
    ghost use Rattle.std.specs.Prelude.{◌≡◌, ◌^◌, ◌<◌, ◌≤◌, ◌-◌, ◌+◌, All, length, IfOk, OnErr, IsSome, Some};
    ghost use Rattle.rt_rules.specs.Rules as rules;
    ghost use Rattle.rt_meaning.specs.Conditions.{conditions};
    ghost use Rattle.rt_meaning.specs.Run as run;
    ghost use Rattle.rt_meaning.specs.Roots as roots;
    ghost use Rattle.rt_resolve.specs.World as world;
    ghost use Rattle.rt_meaning.specs.Source as source;
    ghost use Rattle.rt_meaning.specs.Whole.{beginning};
    ghost use Rattle.rt_resolve.specs.Systems.{IsNumbered};
    ghost use Rattle.rt_resolve.specs.Systems as systems;

    /// The start of a system of these modules: its store has the starts of the data bricks and the strings, and each task is
    /// about to call its root. Bricks that are bound to nothing lead to the supplied procedure 0.
    pub fn start(
        alloc: Global,
        modules: &[TypedModule],
        tasks: &[SourceTask],
    ) -> Result<SourceState, Memory>
        requires few_modules { length modules.now ≤ 64 }
        requires numbered { All IsNumbered modules.now }
        requires some { 1 ≤ length tasks.now }
        requires few { length tasks.now ≤ 32 }
        requires above_zero { All (λ p. 0 < p) (roots.priorities tasks.now) }
        ensures state { IfOk result (λ s. source.state_of s ≡ beginning modules.now tasks.now) }
        ensures world { IfOk result (λ s. source.world_of s ≡ systems.world modules.now) }
    {
        let System { modules, store } = resolve(alloc, modules)?;
        SourceState::of_code(alloc, modules, store, tasks)
    }

    // The start of a system whose modules are resolved.
    fn of_code(
        alloc: Global,
        modules: List<ModuleCode>,
        store: List<ModuleStore>,
        tasks: &[SourceTask],
    ) -> Result<SourceState, Memory>
        requires some { 1 ≤ length tasks.now }
        requires few { length tasks.now ≤ 32 }
        requires above_zero { All (λ p. 0 < p) (roots.priorities tasks.now) }
        ensures state { IfOk result (λ s. source.state_of s ≡ run.start store (roots.roots tasks.now) (roots.priorities tasks.now)) }
        ensures world { IfOk result (λ s. source.world_of s ≡ world.world modules) }
    {
        let priorities = priorities(alloc, tasks)?;
        let rules = KeptRules::new(alloc, priorities.as_slice())?;
        let all = new_tasks(alloc, tasks)?;
        Ok(SourceState {
            modules,
            common: Common {
                rules,
                store,
                taken: 0,
            },
            tasks: all.into_vec(),
        })
    }

    /// The number of the running task; `None` exactly where no task is ready. It takes no memory.
    pub fn running(&self) -> Option<u8>
        ensures { result ≡ rules.running (source.state_of self.now).rules }
    {
        self.common.rules.running()
    }

    /// How many bytes of the console were taken. It takes no memory.
    pub fn taken(&self) -> u64
        ensures { result ≡ (source.state_of self.now).taken }
    {
        self.common.taken
    }

    /// Each task's condition, in the order of the tasks; it takes no memory.
    pub fn ends(&self) -> &List<State>
        ensures { result.now ≡ conditions (source.state_of self.now).rules }
    {
        self.common.rules.ends()
    }

    /// Takes a tick of the rules; it takes no memory.
    pub fn tick(&mut self)
        requires stamp { (source.state_of self.old).rules.stamp < 2 ^ 63 }
        requires clock { (source.state_of self.old).rules.clock < 2 ^ 32 - 1 }
        ensures state { source.state_of self.new ≡ run.tick (source.state_of self.old) }
        ensures world { source.world_of self.new ≡ source.world_of self.old }
        ensures clock_after { (source.state_of self.new).rules.clock ≡ (source.state_of self.old).rules.clock + 1 }
        ensures stamp_after { (source.state_of self.new).rules.stamp ≤ (source.state_of self.old).rules.stamp + 33 }
    {
        self.common.rules.tick();
    }

    /// The next visible step of the running task, and the byte that it puts out. `input` is the next byte of the console, or
    /// `None` where none is left; only the service of RRIN takes it, and gives 4 for `None`. Where there is no memory, or the
    /// count of bytes taken would come to 2^64, the state stays as it was.
    pub fn step(&mut self, alloc: Global, input: Option<u8>) -> Result<(Step, Option<u8>), Memory>
        requires runs { IsSome (rules.running (source.state_of self.old).rules) }
        requires stamp { (source.state_of self.old).rules.stamp < 2 ^ 63 }
        requires clock { (source.state_of self.old).rules.clock < 2 ^ 32 - 1 }
        ensures stepped { IfOk result (λ x. run.one_step (source.world_of self.old) (source.state_of self.old) input ≡ Some (record { state = source.state_of self.new; step = x.0; byte = x.1 })) }
        ensures memory { OnErr result (source.state_of self.new ≡ source.state_of self.old) }
        ensures world { source.world_of self.new ≡ source.world_of self.old }
        ensures clock_after { (source.state_of self.new).rules.clock ≡ (source.state_of self.old).rules.clock }
        ensures stamp_after { (source.state_of self.new).rules.stamp ≤ (source.state_of self.old).rules.stamp + 32 }
    {
        match self.common.rules.running() {
            Some(number) => {
                let task = &mut self.tasks[usize::from(number) - 1];
                let done = step_task(alloc, &self.modules, &mut self.common, task, number, input)?;
                Ok(done)
            }
            None => unreachable!(),
        }
    }
}
