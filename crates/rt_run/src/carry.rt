// One instruction of the running task, with its service.
ghost use Rattle.std.specs.Prelude.{◌≡◌, ◌≢◌, ◌-◌, ◌%◌, ◌^◌, ◌≤◌, ◌<◌, Some, Err, IsErr};
ghost use Rattle.rt_words.specs.Causes.{Rose};
ghost use Rattle.pdp_code.specs.declared.instruction.Reg.TheVariants.{Pc, R0};
ghost use Rattle.pdp_core.specs.Execute.{reg};
ghost use Rattle.rt_rules.specs.Rules as rules;
ghost use Rattle.rt_run.specs.Inputs.{feed};
ghost use Rattle.rt_run.specs.Carrying.{IsServed, IsRead, IsWritten, IsAsked, IsGranted, IsServedBy, IsAnswered, IsCarried, carried_of};

use crate::service::{Answer, answer_of, give, service_of};
use crate::supervisor::Supervisor;
use pdp_core::{Done, Kind, Stop};
use rt_outside::{Next, Sink, Source};
use rt_tasks::Running;

/// What RRIN answers at the end of the input.
const END_OF_INPUT: u16 = 4;

/// How an instruction of the running task ended.
#[derive(Clone, Copy)]
pub enum Carried {
    /// It was carried out, and its task goes on.
    Went,
    /// It was carried out, and the supervisor was asked: another task may run.
    Served,
    /// It faults: nothing is done.
    Fault(Kind, u16),
    /// The console's input failed: nothing is done.
    ReadFault,
    /// The console's output failed: nothing is done.
    WriteFault,
}

/// What the console granted a TRAP.
#[derive(Clone, Copy)]
pub enum Granted {
    /// Nothing, and nothing was wanted.
    Nothing,
    /// The number that the input gave, for TRAP 1.
    Gave(u16),
    /// That the output took the byte, for TRAP 2.
    Took,
}

// The supervisor's service of a TRAP, for its task.
fn call(running: &mut Running, supervisor: &mut Supervisor, task: u8, number: u8)
    requires runs { rules.running supervisor.old ≡ Some task }
    requires stamp { supervisor.old.stamp < 2 ^ 63 }
    requires clock { supervisor.old.clock < 2 ^ 32 - 1 }
    requires no_read { number ≢ 1 }
    requires no_put { number ≢ 2 }
    ensures served { IsServed task number supervisor.old running.old.regs supervisor.new running.new.regs }
    ensures shared { running.new.shared.now ≡ running.old.shared.now }
    ensures same_reference { running.new.shared.ghost_name ≡ running.old.shared.ghost_name }
{
    let svc = service_of(number, running.argument());
    let outcome = supervisor.call(svc);
    give(running, answer_of(svc, outcome));
}

// The console's next byte, for TRAP 1.
fn read<I: Source>(input: &mut I) -> Result<Granted, Carried>
    ensures read { IsRead result (feed (I.left input.old) (I.ended input.old)) (feed (I.left input.new) (I.ended input.new)) }
    ensures failed { IsErr result → Rose (I.faults input.old) (I.faults input.new) }
    ensures later { I.faults input.old ≤ I.faults input.new }
{
    match input.next() {
        Next::Byte(byte) => Ok(Granted::Gave(u16::from(byte))),
        Next::End => Ok(Granted::Gave(END_OF_INPUT)),
        Next::Failed => Err(Carried::ReadFault),
    }
}

// A byte put on the console, for TRAP 2.
fn write<O: Sink>(running: &Running, output: &mut O) -> Result<Granted, Carried>
    ensures written { IsWritten result (O.written output.old) (reg running.now.regs R0 % 256) (O.written output.new) }
    ensures failed { IsErr result → Rose (O.faults output.old) (O.faults output.new) }
    ensures later { O.faults output.old ≤ O.faults output.new }
{
    match output.put((running.argument() % 256) as u8) {
        Ok(()) => Ok(Granted::Took),
        Err(_) => Err(Carried::WriteFault),
    }
}

// Asks the console for what a TRAP wants of it.
#[inline(never)]
fn ask<I: Source, O: Sink>(
    running: &Running,
    number: u8,
    input: &mut I,
    output: &mut O,
) -> Result<Granted, Carried>
    ensures asked { IsAsked result number (feed (I.left input.old) (I.ended input.old)) (O.written output.old) running.now.regs (feed (I.left input.new) (I.ended input.new)) (O.written output.new) }
    ensures read_failed { result ≡ Err Carried.ReadFault → Rose (I.faults input.old) (I.faults input.new) }
    ensures write_failed { result ≡ Err Carried.WriteFault → Rose (O.faults output.old) (O.faults output.new) }
    ensures reads_later { I.faults input.old ≤ I.faults input.new }
    ensures writes_later { O.faults output.old ≤ O.faults output.new }
{
    match number {
        1 => read(input),
        2 => write(running, output),
        _ => Ok(Granted::Nothing),
    }
}

// The service of a TRAP, for which the console granted this.
#[inline(never)]
fn serve(
    running: &mut Running,
    supervisor: &mut Supervisor,
    task: u8,
    number: u8,
    granted: Granted,
) -> Carried
    requires runs { rules.running supervisor.old ≡ Some task }
    requires stamp { supervisor.old.stamp < 2 ^ 63 }
    requires clock { supervisor.old.clock < 2 ^ 32 - 1 }
    requires granted { IsGranted granted number }
    ensures served { IsServedBy result granted task number supervisor.old running.old.regs supervisor.new running.new.regs }
    ensures shared { running.new.shared.now ≡ running.old.shared.now }
    ensures same_reference { running.new.shared.ghost_name ≡ running.old.shared.ghost_name }
{
    match granted {
        Granted::Nothing => {
            call(running, supervisor, task, number);
            Carried::Served
        }
        Granted::Gave(value) => {
            running.answer(value);
            Carried::Went
        }
        Granted::Took => Carried::Went,
    }
}

// What a stop comes to, of an instruction that stood at an address: the service of a TRAP, or that nothing is done. It is told in a place that is lent. A TRAP changes
// the program counter alone, so that its task goes back to it where the console fails.
#[inline(never)]
fn answer_stop<I: Source, O: Sink>(
    running: &mut Running,
    supervisor: &mut Supervisor,
    task: u8,
    input: &mut I,
    output: &mut O,
    stop: Stop,
    at: u16,
    carried: &mut Carried,
)
    requires runs { rules.running supervisor.old ≡ Some task }
    requires stamp { supervisor.old.stamp < 2 ^ 63 }
    requires clock { supervisor.old.clock < 2 ^ 32 - 1 }
    ensures answered { IsAnswered stop carried.new task at (feed (I.left input.old) (I.ended input.old)) (O.written output.old) running.old.regs supervisor.old (feed (I.left input.new) (I.ended input.new)) (O.written output.new) running.new.regs supervisor.new }
    ensures shared { running.new.shared.now ≡ running.old.shared.now }
    ensures read_failed { carried.new ≡ Carried.ReadFault → Rose (I.faults input.old) (I.faults input.new) }
    ensures write_failed { carried.new ≡ Carried.WriteFault → Rose (O.faults output.old) (O.faults output.new) }
    ensures reads_later { I.faults input.old ≤ I.faults input.new }
    ensures writes_later { O.faults output.old ≤ O.faults output.new }
    ensures same_reference { running.new.shared.ghost_name ≡ running.old.shared.ghost_name }
{
    match stop {
        Stop::Went => *carried = Carried::Went,
        Stop::Trap(number) => match ask(running, number, input, output) {
            Ok(granted) => *carried = serve(running, supervisor, task, number, granted),
            Err(refused) => {
                running.go_back(at);
                *carried = refused;
            }
        },
        Stop::Fault(kind, address) => *carried = Carried::Fault(kind, address),
    }
}

/// One instruction of the running task, with its service. What stopped it is put into a place that is lent, and what became of it into
/// another; of one that went on they say nothing, and need not be cleared for each instruction. It takes no memory.
#[inline(always)]
pub fn carry_out<I: Source, O: Sink>(
    running: &mut Running,
    supervisor: &mut Supervisor,
    task: u8,
    input: &mut I,
    output: &mut O,
    stop: &mut Stop,
    carried: &mut Carried,
) -> Done
    requires runs { rules.running supervisor.old ≡ Some task }
    requires stamp { supervisor.old.stamp < 2 ^ 63 }
    requires clock { supervisor.old.clock < 2 ^ 32 - 1 }
    ensures carried { IsCarried (carried_of result carried.new) task (feed (I.left input.old) (I.ended input.old)) (O.written output.old) running.old.regs running.old.shared.now supervisor.old (feed (I.left input.new) (I.ended input.new)) (O.written output.new) running.new.regs running.new.shared.now supervisor.new }
    ensures read_failed { carried_of result carried.new ≡ Carried.ReadFault → Rose (I.faults input.old) (I.faults input.new) }
    ensures write_failed { carried_of result carried.new ≡ Carried.WriteFault → Rose (O.faults output.old) (O.faults output.new) }
    ensures reads_later { I.faults input.old ≤ I.faults input.new }
    ensures writes_later { O.faults output.old ≤ O.faults output.new }
    ensures same_reference { running.new.shared.ghost_name ≡ running.old.shared.ghost_name }
{
    let at = running.counter();
    match running.carry_on(stop) {
        Done::Went => Done::Went,
        Done::Stopped => {
            answer_stop(running, supervisor, task, input, output, *stop, at, carried);
            Done::Stopped
        }
    }
}
