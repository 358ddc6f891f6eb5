//! One visible step of a task that has its invisible work behind it. Where there is no memory nothing is changed.

ghost use Rattle.std.specs.Prelude.{◌≡◌, ◌≢◌, ◌^◌, ◌<◌, ◌+◌, ◌-◌, IfOk, OnOk, OnErr, Ok, Some, None, Option, ◌∷◌, [], true, false};
ghost use Rattle.rt_rules.specs.Rules as rules;
ghost use Rattle.rt_work_state.specs.Stores as stores;
ghost use Rattle.rt_work_state.specs.Items as work;
ghost use Rattle.rt_resolve.specs.World as world;
ghost use Rattle.rt_meaning.specs.Step as step;
ghost use Rattle.rt_meaning.specs.Run as run;
ghost use Rattle.rt_work_state.specs.Nodes as n;
ghost use Rattle.rt_meaning.specs.States as states;

use crate::common::Common;
use crate::system::{Act, Ending, Task, entered, leapt, next_of};
use rt_resolve::ModuleCode;
use rt_rules::{Outcome, Svc};
use rt_tree::{Datum, Location, Proc, Step};
use rt_words::{List, Memory};
use rt_work_state::{
    Item, ModuleStore, Next, Request, Scene, Stack, copy_datum, copy_values, read, read_own, write,
    write_own,
};
use std::alloc::Global;
use std::mem::replace;

/// A visible step, and the byte that it puts out.
type Made = Result<(Step, Option<u8>), Memory>;

// What is read goes on the values.
fn reads(
    alloc: Global,
    store: &List<ModuleStore>,
    task: &mut Task,
    scene: Scene,
    place: &Location,
) -> Made
    ensures made { IfOk result (λ x. x ≡ (Step.Read, None)) }
    ensures ok { OnOk result (states.doing task.new ≡ step.Doing (step.with_todo (states.act task.old.act) (n.items scene.todo) (stores.read store.now task.old.own place.now ∷ scene.values) scene.locals) (states.acts task.old.callers) task.old.own) }
    ensures going { task.new.ended ≡ task.old.ended }
    ensures err { OnErr result (task.new ≡ task.old) }
{
    let value = read(alloc, store, &task.own, place)?;
    let mut scene = scene;
    scene.values.push(value)?;
    task.act.scene = scene;
    Ok((Step::Read, None))
}

// The task goes on with another scene.
fn goes_on(task: &mut Task, scene: Scene, kind: Step) -> Made
    ensures made { result ≡ Ok (kind, None) }
    ensures doing { states.doing task.new ≡ step.Doing (states.with_scene task.old.act scene) (states.acts task.old.callers) task.old.own }
    ensures going { task.new.ended ≡ task.old.ended }
{
    task.act.scene = scene;
    Ok((kind, None))
}

fn write_shared(alloc: Global, common: &mut Common, place: &Location, value: Datum)
    ensures store { common.new.store ≡ stores.write common.old.store place.now value }
    ensures rules { common.new.rules ≡ common.old.rules }
    ensures taken { common.new.taken ≡ common.old.taken }
{
    let store = replace(&mut common.store, List::from_vec(Vec::new(alloc)));
    common.store = write(alloc, store, place, value);
}

// A value is written.
fn writes(alloc: Global, common: &mut Common, task: &mut Task, place: &Location, value: Datum)
    ensures store { common.new.store ≡ stores.write common.old.store place.now value }
    ensures rules { common.new.rules ≡ common.old.rules }
    ensures taken { common.new.taken ≡ common.old.taken }
    ensures own { task.new.own ≡ stores.write_own task.old.own place.now value }
    ensures act { task.new.act ≡ task.old.act }
    ensures callers { task.new.callers ≡ task.old.callers }
    ensures going { task.new.ended ≡ task.old.ended }
{
    match place {
        Location::Own(item) => write_own(&mut task.own, *item, value),
        Location::Shared(_, _) => write_shared(alloc, common, place, value),
    }
}

// A procedure is entered.
fn calls(
    alloc: Global,
    modules: &List<ModuleCode>,
    task: &mut Task,
    scene: Scene,
    f: Proc,
    args: List<Datum>,
) -> Made
    ensures made { IfOk result (λ x. x ≡ (Step.Call, None)) }
    ensures ok { OnOk result (states.doing task.new ≡ step.Doing (step.entered ((world.world modules.now).code f) f args (stores.erl_in task.old.own)) (states.with_scene task.old.act scene ∷ states.acts task.old.callers) task.old.own) }
    ensures going { task.new.ended ≡ task.old.ended }
    ensures err { OnErr result (task.new ≡ task.old) }
{
    let kept = read_own(alloc, &task.own, 0)?;
    let inner = entered(alloc, modules, f, args, kept)?;
    let caller = Act {
        proc: task.act.proc,
        scene,
        kept: copy_datum(alloc, &task.act.kept)?,
    };
    task.callers.push(caller)?;
    task.act = inner;
    Ok((Step::Call, None))
}

// The values of the caller, with the result on them.
fn values_with(
    alloc: Global,
    values: &Stack<Datum>,
    answer: Option<Datum>,
) -> Result<Stack<Datum>, Memory>
    ensures { IfOk result (λ vs. vs ≡ step.on_values answer values.now) }
{
    let mut copy = copy_values(alloc, values)?;
    if let Some(value) = answer {
        copy.push(value)?;
    }
    Ok(copy)
}

// The caller goes on; a task without one has ended.
fn returns(alloc: Global, task: &mut Task, answer: Option<Datum>) -> Made
    requires { task.old.ended ≡ None }
    ensures made { IfOk result (λ x. x ≡ (Step.Return, None)) }
    ensures ok { OnOk result (states.task task.new ≡ step.returned answer (states.acts task.old.callers) task.old.own) }
    ensures err { OnErr result (task.new ≡ task.old) }
{
    match task.callers.top() {
        None => task.ended = Some(Ending::Over),
        Some(caller) => {
            let values = values_with(alloc, &caller.scene.values, answer)?;
            back_to_caller(task, values);
        }
    }
    Ok((Step::Return, None))
}

// The caller goes on with other values.
fn back_to_caller(task: &mut Task, values: Stack<Datum>)
    ensures back { (a : Act) (rest : List Act) → task.old.callers ≡ a ∷ rest → states.doing task.new ≡ step.Doing (step.with_todo (states.act a) (n.items a.scene.todo) values a.scene.locals) (states.acts rest) task.old.own }
    ensures going { task.new.ended ≡ task.old.ended }
{
    if let Some(caller) = task.callers.pop() {
        task.act = caller;
        task.act.scene.values = values;
    }
}

// The task goes on from a label of its procedure.
fn leaps(
    alloc: Global,
    modules: &List<ModuleCode>,
    task: &mut Task,
    locals: List<Datum>,
    label: u16,
) -> Made
    ensures made { IfOk result (λ x. x ≡ (Step.Jump, None)) }
    ensures ok { OnOk result (states.doing task.new ≡ step.Doing (step.with_todo (states.act task.old.act) (step.leapt ((world.world modules.now).code task.old.act.proc) label) [] locals) (states.acts task.old.callers) task.old.own) }
    ensures going { task.new.ended ≡ task.old.ended }
    ensures err { OnErr result (task.new ≡ task.old) }
{
    let todo = leapt(alloc, modules, task.act.proc, label)?;
    task.act.scene = Scene {
        todo,
        values: Stack::new(alloc),
        locals,
    };
    Ok((Step::Jump, None))
}

// ---- services

// The task goes on after a service, with these values and this to be done.
fn settles(task: &mut Task, todo: Stack<Item>, values: Stack<Datum>)
    ensures doing { states.doing task.new ≡ step.Doing (step.with_todo (states.act task.old.act) (n.items todo) values task.old.act.scene.locals) (states.acts task.old.callers) task.old.own }
    ensures going { task.new.ended ≡ task.old.ended }
{
    task.act.scene.todo = todo;
    task.act.scene.values = values;
}

// The service's procedure returns a result.
fn answered(alloc: Global, task: &mut Task, value: u16) -> Result<(), Memory>
    ensures ok { OnOk result (states.doing task.new ≡ step.Doing (step.with_todo (states.act task.old.act) (work.GiveUp ∷ []) (Datum.Word value ∷ []) task.old.act.scene.locals) (states.acts task.old.callers) task.old.own) }
    ensures going { task.new.ended ≡ task.old.ended }
    ensures err { OnErr result (task.new ≡ task.old) }
{
    let mut todo = Stack::new(alloc);
    todo.push(Item::GiveUp)?;
    let mut values = Stack::new(alloc);
    values.push(Datum::Word(value))?;
    settles(task, todo, values);
    Ok(())
}

// A recoverable error is reported, and then the service's procedure goes on.
fn refused(alloc: Global, task: &mut Task, todo: Stack<Item>, error: u16) -> Result<(), Memory>
    ensures ok { OnOk result (states.doing task.new ≡ step.Doing (step.with_todo (states.act task.old.act) (work.Fetch ∷ work.Report error ∷ n.items todo) (Datum.Reference stores.erp ∷ []) task.old.act.scene.locals) (states.acts task.old.callers) task.old.own) }
    ensures going { task.new.ended ≡ task.old.ended }
    ensures err { OnErr result (task.new ≡ task.old) }
{
    let mut todo = todo;
    todo.push(Item::Report(error))?;
    todo.push(Item::Fetch)?;
    let mut values = Stack::new(alloc);
    values.push(Datum::Reference(Location::Own(2)))?;
    settles(task, todo, values);
    Ok(())
}

// Whether a service gives its procedure a result.
fn gives_answer(service: Svc) -> bool
    ensures { result ≡ step.answers (Request.Rules service) }
{
    match service {
        Svc::Clock | Svc::TaskNo => true,
        _ => false,
    }
}

fn ending_of(service: Svc) -> Ending
    ensures { (own : List Datum) → states.ended_as result own ≡ step.ended_by (Request.Rules service) own }
{
    match service {
        Svc::Gel(error) => Ending::Failed(error),
        _ => Ending::Over,
    }
}

// What a service of the supervisor comes to.
fn settled(
    alloc: Global,
    task: &mut Task,
    todo: Stack<Item>,
    service: Svc,
    outcome: Outcome,
) -> Result<(), Memory>
    requires { task.old.ended ≡ None }
    ensures ok { OnOk result (states.task task.new ≡ step.served (Request.Rules service) outcome (n.items todo) (states.act task.old.act) (states.acts task.old.callers) task.old.own) }
    ensures err { OnErr result (task.new ≡ task.old) }
    ensures quiet { OnErr result (states.wants_memory service outcome ≡ true) }
{
    match outcome {
        Outcome::Go(answer) => {
            if gives_answer(service) {
                answered(alloc, task, answer)?;
            } else {
                settles(task, todo, Stack::new(alloc));
            }
            Ok(())
        }
        Outcome::Waits => {
            settles(task, todo, Stack::new(alloc));
            Ok(())
        }
        Outcome::Error(error) => {
            refused(alloc, task, todo, error)?;
            Ok(())
        }
        Outcome::Ends => {
            task.ended = Some(ending_of(service));
            Ok(())
        }
    }
}

// A service of the supervisor.
fn by_rules(
    alloc: Global,
    common: &mut Common,
    task: &mut Task,
    todo: Stack<Item>,
    service: Svc,
    number: u8,
) -> Result<(), Memory>
    requires going { task.old.ended ≡ None }
    requires runs { rules.running common.old.rules ≡ Some number }
    requires stamp { common.old.rules.stamp < 2 ^ 63 }
    requires clock { common.old.rules.clock < 2 ^ 32 - 1 }
    ensures rules { OnOk result (common.new.rules ≡ (rules.serve common.old.rules number service).0) }
    ensures task { OnOk result (states.task task.new ≡ step.served (Request.Rules service) (rules.serve common.old.rules number service).1 (n.items todo) (states.act task.old.act) (states.acts task.old.callers) task.old.own) }
    ensures store { common.new.store ≡ common.old.store }
    ensures taken { common.new.taken ≡ common.old.taken }
    ensures same { OnErr result (common.new.rules ≡ common.old.rules) }
    ensures err { OnErr result (task.new ≡ task.old) }
{
    let outcome = common.rules.call(service);
    settled(alloc, task, todo, service, outcome)
}

// The count of bytes taken with one more, which has to be below 2^64: more are answered as want of memory.
fn one_more(taken: u64) -> Result<u64, Memory>
    ensures { IfOk result (λ n. n ≡ taken + 1) }
{
    match taken.checked_add(1) {
        Some(more) => Ok(more),
        None => Err(Memory),
    }
}

// RRIN takes the next byte of the console; 4 where none is left.
fn takes(
    alloc: Global,
    common: &mut Common,
    task: &mut Task,
    input: Option<u8>,
) -> Result<(), Memory>
    requires { task.old.ended ≡ None }
    ensures task { OnOk result (states.task task.new ≡ step.served Request.Takes (run.take common.old.rules common.old.taken input).outcome [] (states.act task.old.act) (states.acts task.old.callers) task.old.own) }
    ensures taken { OnOk result (common.new.taken ≡ (run.take common.old.rules common.old.taken input).taken) }
    ensures rules { common.new.rules ≡ common.old.rules }
    ensures store { common.new.store ≡ common.old.store }
    ensures err { OnErr result (task.new ≡ task.old) }
    ensures same { OnErr result (common.new.taken ≡ common.old.taken) }
{
    match input {
        Some(byte) => {
            let taken = one_more(common.taken)?;
            answered(alloc, task, u16::from(byte))?;
            common.taken = taken;
            Ok(())
        }
        None => {
            answered(alloc, task, 4)?;
            Ok(())
        }
    }
}

// What a step asks for, and the byte that it puts out.
fn asks(
    alloc: Global,
    common: &mut Common,
    task: &mut Task,
    todo: Stack<Item>,
    request: Request,
    number: u8,
    input: Option<u8>,
) -> Result<Option<u8>, Memory>
    requires going { task.old.ended ≡ None }
    requires runs { rules.running common.old.rules ≡ Some number }
    requires stamp { common.old.rules.stamp < 2 ^ 63 }
    requires clock { common.old.rules.clock < 2 ^ 32 - 1 }
    ensures moves { IfOk result (λ byte. states.served_to common.new task.new byte ≡ states.serves request common.old task.old (n.items todo) number input) }
    ensures same { OnErr result (common.new ≡ common.old) }
    ensures err { OnErr result (task.new ≡ task.old) }
{
    match request {
        Request::Nothing => {
            settles(task, todo, Stack::new(alloc));
            Ok(None)
        }
        Request::Takes => {
            takes(alloc, common, task, input)?;
            Ok(None)
        }
        Request::Puts(byte) => {
            settles(task, todo, Stack::new(alloc));
            Ok(Some(byte))
        }
        Request::Rules(service) => {
            by_rules(alloc, common, task, todo, service, number)?;
            Ok(None)
        }
    }
}

// An error that ends the task.
fn fails(common: &mut Common, task: &mut Task, error: u16, number: u8) -> Made
    requires runs { rules.running common.old.rules ≡ Some number }
    requires stamp { common.old.rules.stamp < 2 ^ 63 }
    requires clock { common.old.rules.clock < 2 ^ 32 - 1 }
    ensures made { result ≡ Ok (Step.Error error, None) }
    ensures rules { common.new.rules ≡ (rules.serve common.old.rules number (Svc.Gel error)).0 }
    ensures store { common.new.store ≡ common.old.store }
    ensures taken { common.new.taken ≡ common.old.taken }
    ensures task { states.task task.new ≡ step.Failed error task.old.own }
{
    let _ = common.rules.call(Svc::Gel(error));
    task.ended = Some(Ending::Failed(error));
    Ok((Step::Error(error), None))
}

/// The next visible step of the running task, which has the invisible work before it done in `scene`; the step and the byte
/// that it puts out.
pub fn make(
    alloc: Global,
    modules: &List<ModuleCode>,
    common: &mut Common,
    task: &mut Task,
    scene: Scene,
    next: Next,
    number: u8,
    input: Option<u8>,
) -> Made
    requires going { task.old.ended ≡ None }
    requires runs { rules.running common.old.rules ≡ Some number }
    requires stamp { common.old.rules.stamp < 2 ^ 63 }
    requires clock { common.old.rules.clock < 2 ^ 32 - 1 }
    ensures moves { IfOk result (λ x. states.moved common.new task.new x ≡ states.moves_by modules.now (states.made next scene) common.old task.old number input) }
    ensures same { OnErr result (common.new ≡ common.old) }
    ensures err { OnErr result (task.new ≡ task.old) }
{
    match next {
        Next::Reads(place) => reads(alloc, &common.store, task, scene, &place),
        Next::Writes(place, value) => {
            writes(alloc, common, task, &place, value);
            goes_on(task, scene, Step::Write)
        }
        Next::Calls(f, args) => calls(alloc, modules, task, scene, f, args),
        Next::Returns(answer) => returns(alloc, task, answer),
        Next::Jumps => goes_on(task, scene, Step::Jump),
        Next::Leaps(label) => leaps(alloc, modules, task, scene.locals, label),
        Next::Asks(request) => {
            let byte = asks(alloc, common, task, scene.todo, request, number, input)?;
            Ok((Step::Service, byte))
        }
        Next::Recovers(_) => goes_on(task, scene, Step::Write),
        Next::Errors(error) => fails(common, task, error, number),
        Next::Lacks => {
            task.ended = Some(Ending::Failed(0));
            Ok((Step::Jump, None))
        }
    }
}

/// The next visible step of the running task.
pub fn step_task(
    alloc: Global,
    modules: &List<ModuleCode>,
    common: &mut Common,
    task: &mut Task,
    number: u8,
    input: Option<u8>,
) -> Made
    requires runs { rules.running common.old.rules ≡ Some number }
    requires stamp { common.old.rules.stamp < 2 ^ 63 }
    requires clock { common.old.rules.clock < 2 ^ 32 - 1 }
    ensures moves { IfOk result (λ x. states.moved common.new task.new x ≡ run.moved (world.world modules.now) (states.task task.old) common.old.store common.old.rules common.old.taken number input) }
    ensures same { OnErr result (common.new ≡ common.old) }
    ensures err { OnErr result (task.new ≡ task.old) }
{
    if task.ended.is_some() {
        return Ok((Step::Jump, None));
    }
    let (scene, next) = next_of(alloc, modules, &task.act)?;
    make(alloc, modules, common, task, scene, next, number, input)
}
