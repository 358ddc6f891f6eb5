//! The source run of a state, for given placements of ticks, console input and number of steps.

ghost use Rattle.std.specs.Prelude.{◌≡◌, ◌+◌, ◌*◌, ◌-◌, ◌^◌, ◌<◌, ◌≤◌, ℕ, All, length, drop, IfOk, true, Some, None, slice_get};
ghost use Rattle.rt_meaning.specs.Roots.{priorities};
ghost use Rattle.rt_meaning.specs.Source as source;
ghost use Rattle.rt_resolve.specs.Systems.{IsNumbered};
ghost use Rattle.rt_meaning.specs.Code as code;
ghost use Rattle.rt_meaning.specs.Runs as run;

use crate::begin::SourceTask;
use crate::state::SourceState;
use rt_tree::TypedModule;
use rt_words::{Bytes, List, Memory};
use std::alloc::Global;

/// What a run has come to: its state, and all that was put out.
#[derive(Drop)]
pub struct Reached {
    pub state: SourceState,
    pub output: Bytes,
}

// Where the ticks end that fall after so many steps, of those from `next` on, where none is left of before.
fn past(placements: &[u64], next: usize, steps: u64) -> usize
    requires { next ≤ length placements.now }
    ensures least { next ≤ result }
    ensures most { result ≤ length placements.now }
    ensures value { (n : ℕ) → run.rise_from steps n (drop next placements.now) ≡ true → result ≡ next + run.ticks_after (drop next placements.now) steps }
    ensures rest { (n : ℕ) → run.rise_from steps n (drop next placements.now) ≡ true → run.rise_from (steps + 1) n (drop result placements.now) ≡ true }
    ensures others { (s : ℕ) → steps < s → run.ticks_after (drop result placements.now) s ≡ run.ticks_after (drop next placements.now) s }
{
    for at in next..placements.len() {
        if placements[at] != steps {
            return at;
        }
    }
    placements.len()
}

// Takes so many ticks.
fn take_ticks(state: &mut SourceState, count: usize)
    requires stamp { (source.state_of state.old).rules.stamp + 33 * count < 2 ^ 63 }
    requires clock { (source.state_of state.old).rules.clock + count < 2 ^ 32 }
    ensures ticks { source.state_of state.new ≡ run.ticks count (source.state_of state.old) }
    ensures world { source.world_of state.new ≡ source.world_of state.old }
    ensures clock_after { (source.state_of state.new).rules.clock ≡ (source.state_of state.old).rules.clock + count }
    ensures stamp_after { (source.state_of state.new).rules.stamp ≤ (source.state_of state.old).rules.stamp + 33 * count }
{
    for _turn in 0..count {
        state.tick();
    }
}

// The next byte of the console, where so many were taken.
fn next_byte(input: &[u8], taken: u64) -> Option<u8>
    ensures { result ≡ slice_get input.now taken }
{
    if taken < input.len() as u64 {
        Some(input[taken as usize])
    } else {
        None
    }
}

// One step, and then so many ticks; false where no task is ready.
fn turn(
    alloc: Global,
    state: &mut SourceState,
    output: &mut Bytes,
    input: &[u8],
    ticks: usize,
) -> Result<bool, Memory>
    requires stamp { (source.state_of state.old).rules.stamp + 33 * (ticks + 1) < 2 ^ 63 }
    requires clock { (source.state_of state.old).rules.clock + ticks < 2 ^ 32 - 1 }
    ensures turn { IfOk result (λ ran. code.reached_if ran state.new output.new ≡ run.then_ticks ticks (run.then_step (source.world_of state.old) input.now (Some (code.reached_at state.old output.old)))) }
    ensures world { source.world_of state.new ≡ source.world_of state.old }
    ensures clock_after { IfOk result (λ ran. ran ≡ true → (source.state_of state.new).rules.clock ≡ (source.state_of state.old).rules.clock + ticks) }
    ensures stamp_after { IfOk result (λ ran. ran ≡ true → (source.state_of state.new).rules.stamp ≤ (source.state_of state.old).rules.stamp + 33 * (ticks + 1)) }
{
    if state.running().is_none() {
        return Ok(false);
    }
    let byte = next_byte(input, state.taken());
    let (_step, put) = state.step(alloc, byte)?;
    if let Some(byte) = put {
        output.push(byte)?;
    }
    take_ticks(state, ticks);
    Ok(true)
}

/// Whether these are the placements of ticks in a run of so many steps: they never fall, and none of them is above.
pub fn are_placements(placements: &[u64], steps: u64) -> bool
    ensures { result ≡ run.are_placements placements.now steps }
{
    let mut least = 0;
    for placement in placements {
        if *placement < least || *placement > steps {
            return false;
        }
        least = *placement;
    }
    true
}

/// The run of so many steps from a state on, with a tick after each of these numbers of steps; `None` exactly where these fall
/// or one of them is above the steps, or before one of the steps no task is ready.
pub fn source_run(
    alloc: Global,
    state: SourceState,
    placements: &[u64],
    input: &[u8],
    steps: u64,
) -> Result<Option<Reached>, Memory>
    requires stamp { (source.state_of state).rules.stamp + 33 * (length placements.now + steps) < 2 ^ 63 }
    requires clock { (source.state_of state).rules.clock + length placements.now < 2 ^ 32 - 1 }
    ensures { IfOk result (λ r. code.reached r ≡ run.source_run (source.world_of state) (source.state_of state) placements.now input.now steps) }
{
    if are_placements(placements, steps) {
        run_from(alloc, state, placements, input, steps)
    } else {
        Ok(None)
    }
}

// The run of so many steps from a state on, with those ticks that fall on the way.
fn run_from(
    alloc: Global,
    state: SourceState,
    placements: &[u64],
    input: &[u8],
    steps: u64,
) -> Result<Option<Reached>, Memory>
    requires rise { run.are_placements placements.now steps ≡ true }
    requires stamp { (source.state_of state).rules.stamp + 33 * (length placements.now + steps) < 2 ^ 63 }
    requires clock { (source.state_of state).rules.clock + length placements.now < 2 ^ 32 - 1 }
    ensures { IfOk result (λ r. code.reached r ≡ run.after (source.world_of state) (source.state_of state) placements.now input.now steps) }
{
    let mut state = state;
    let mut output = List::new(alloc, 0)?;
    let mut next = past(placements, 0, 0);
    take_ticks(&mut state, next);
    for done in 0..steps {
        let end = past(placements, next, done + 1);
        let ticks = end - next;
        next = end;
        if !turn(alloc, &mut state, &mut output, input, ticks)? {
            return Ok(None);
        }
    }
    Ok(Some(Reached { state, output }))
}

/// The run of a system of these modules from its start on: what it comes to is a function of its arguments.
pub fn run_system(
    alloc: Global,
    modules: &[TypedModule],
    tasks: &[SourceTask],
    placements: &[u64],
    input: &[u8],
    steps: u64,
) -> Result<Option<Reached>, Memory>
    requires few_modules { length modules.now ≤ 64 }
    requires numbered { All IsNumbered modules.now }
    requires some { 1 ≤ length tasks.now }
    requires few { length tasks.now ≤ 32 }
    requires above_zero { All (λ p. 0 < p) (priorities tasks.now) }
    requires stamp { 32 + 33 * (length placements.now + steps) < 2 ^ 63 }
    requires clock { length placements.now < 2 ^ 32 - 1 }
    ensures { IfOk result (λ r. code.reached r ≡ run.system_run modules.now tasks.now placements.now input.now steps) }
{
    let state = SourceState::start(alloc, modules, tasks)?;
    source_run(alloc, state, placements, input, steps)
}
