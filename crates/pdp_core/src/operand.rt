// Where operands are, and their values.
ghost use Rattle.std.specs.Prelude.{◌≡◌, ◌≢◌, ◌%◌, ◌<◌, Ok, OnErr, IfOk};
ghost use Rattle.pdp_code.specs.Code.{reg_code};
ghost use Rattle.pdp_code.specs.First.{reg_of, pointer_of, operand_of};
ghost use Rattle.rt_words.specs.Word.{wrap_add as sum_of, wrap_sub as difference_of};
ghost use Rattle.pdp_core.specs.Log.{noted, FetchesWord, ReadsWord, WritesWord, WritesByte};
ghost use Rattle.pdp_core.specs.Accesses.{next_made, after, address_made, load_made, operand_made, store_made};
ghost use Rattle.pdp_core.specs.World.{word_written, byte_written};
ghost use Rattle.pdp_code.specs.Values.{limit};
ghost use Rattle.pdp_core.specs.Execute.{and_then, of_refused, of_memory, goes_on, reg, with_reg, pointer_reg, stride, fetch, load_word, next_word, address, load, operand, store, paired, left};
ghost use Rattle.pdp_core.specs.Kept.{AllButCounter};
ghost use Rattle.pdp_core.specs.Spots.{place_of, placed};

use crate::cpu::{Failure, Kind, Refused, Regs, Spot};
use crate::memory::Bus;
use pdp_code::{Reg, Size, set_low_byte};
use rt_words::{wrap_add, wrap_sub};

/// A register's number.
#[inline(always)]
pub fn index(r: Reg) -> usize
    ensures value { result ≡ reg_code r }
    ensures below { result < 8 }
{
    usize::from(r.number())
}

/// The number of the register of three bits.
#[inline(always)]
fn index_of(n: u16) -> usize
    ensures value { result ≡ reg_code (reg_of (n % 8)) }
    ensures below { result < 8 }
{
    usize::from(n % 0o10)
}

/// The number of a register other than the program counter, as it is.
#[inline(always)]
fn pointer(n: u16) -> u16
    requires { n % 8 ≢ 7 }
    ensures { reg_of (result % 8) ≡ pointer_reg (pointer_of (n % 8)) }
{
    n
}

/// The word of a register of three bits.
#[inline(always)]
pub fn get_at(regs: &Regs, n: u16) -> u16
    ensures { result ≡ reg regs.now (reg_of (n % 8)) }
{
    regs.r[index_of(n)]
}

/// Gives a register of three bits another word.
#[inline(always)]
pub fn set_at(regs: &mut Regs, n: u16, x: u16)
    ensures { regs.new ≡ with_reg regs.old (reg_of (n % 8)) x }
{
    regs.r[index_of(n)] = x;
}

/// A register's word.
#[inline(always)]
pub fn get(regs: &Regs, r: Reg) -> u16
    ensures { result ≡ reg regs.now r }
{
    regs.r[index(r)]
}

/// Gives a register another word.
#[inline(always)]
pub fn set(regs: &mut Regs, r: Reg, x: u16)
    ensures { regs.new ≡ with_reg regs.old r x }
{
    regs.r[index(r)] = x;
}

#[inline(always)]
fn stride_of(size: Size, n: u16) -> u16
    ensures { result ≡ stride size (reg_of (n % 8)) }
{
    match size {
        Size::Word => 2,
        Size::Byte => if index_of(n) < 6 { 1 } else { 2 },
    }
}

/// Why an access fails.
#[inline(always)]
pub fn failure_of(e: Refused) -> Failure
    ensures { result ≡ of_refused e }
{
    match e {
        Refused::Odd(at) => Failure {
            kind: Kind::Odd,
            at,
        },
        Refused::Access(at) => Failure {
            kind: Kind::Access,
            at,
        },
    }
}

#[inline(always)]
fn fetch_at<B: Bus>(bus: &mut B, at: u16) -> Result<u16, Failure>
    ensures value { result ≡ fetch (B.world bus.old) at }
    ensures kept { B.world bus.new ≡ B.world bus.old }
    ensures made { B.accesses bus.new ≡ noted (FetchesWord at) (B.accesses bus.old) }
{
    match bus.fetch(at) {
        Ok(w) => Ok(w),
        Err(e) => Err(failure_of(e)),
    }
}

/// A word of the memory.
#[inline(always)]
pub fn word_at<B: Bus>(bus: &mut B, at: u16) -> Result<u16, Failure>
    ensures value { result ≡ load_word (B.world bus.old) at }
    ensures kept { B.world bus.new ≡ B.world bus.old }
    ensures made { B.accesses bus.new ≡ noted (ReadsWord at) (B.accesses bus.old) }
{
    match bus.read_word(at) {
        Ok(w) => Ok(w),
        Err(e) => Err(failure_of(e)),
    }
}

/// The next word of the instruction.
#[inline(always)]
pub fn next<B: Bus>(bus: &mut B, regs: &mut Regs) -> Result<u16, Failure>
    ensures value { next_word (B.world bus.old) regs.old ≡ paired result regs.new }
    ensures kept { B.world bus.new ≡ B.world bus.old }
    ensures err { OnErr result (regs.new ≡ regs.old) }
    ensures made { B.accesses bus.new ≡ next_made regs.old (B.accesses bus.old) }
{
    let at = get(regs, Reg::Pc);
    let w = fetch_at(bus, at)?;
    set(regs, Reg::Pc, wrap_add(at, 2));
    Ok(w)
}

/// Steps a register up, and gives what it was.
#[inline(always)]
fn step_up(regs: &mut Regs, n: u16, by: u16) -> u16
    ensures value { result ≡ reg regs.old (reg_of (n % 8)) }
    ensures stepped { regs.new ≡ with_reg regs.old (reg_of (n % 8)) (sum_of (reg regs.old (reg_of (n % 8))) by) }
{
    let at = get_at(regs, n);
    set_at(regs, n, wrap_add(at, by));
    at
}

/// What a register is once it is stepped down by the size of an operand.
#[inline(always)]
pub fn stepped_down(regs: &Regs, size: Size, n: u16) -> u16
    ensures { result ≡ difference_of (reg regs.now (reg_of (n % 8))) (stride size (reg_of (n % 8))) }
{
    wrap_sub(get_at(regs, n), stride_of(size, n))
}

/// Steps a register down, and gives what it is then.
#[inline(always)]
fn step_down(regs: &mut Regs, n: u16, by: u16) -> u16
    ensures value { result ≡ difference_of (reg regs.old (reg_of (n % 8))) by }
    ensures stepped { regs.new ≡ with_reg regs.old (reg_of (n % 8)) (difference_of (reg regs.old (reg_of (n % 8))) by) }
{
    let at = wrap_sub(get_at(regs, n), by);
    set_at(regs, n, at);
    at
}

/// The address that stands at a register's word and the next word of the instruction, added.
#[tactic(auto, using(crate::proofs::Undoing::word_given_back))]
#[inline(always)]
fn index_deferred<B: Bus>(bus: &mut B, regs: &mut Regs, n: u16) -> Result<u16, Failure>
    ensures value { and_then (next_word (B.world bus.old) regs.old) (λ x. and_then (load_word (B.world bus.old) (sum_of x.0 (reg x.1 (reg_of (n % 8))))) (λ a. Ok (a, x.1))) ≡ paired result regs.new }
    ensures kept { B.world bus.new ≡ B.world bus.old }
    ensures err { OnErr result (AllButCounter regs.old regs.new) }
    ensures made { B.accesses bus.new ≡ after (next_word (B.world bus.old) regs.old) (λ x. noted (ReadsWord (sum_of x.0 (reg x.1 (reg_of (n % 8)))))) (next_made regs.old (B.accesses bus.old)) }
{
    let x = next(bus, regs)?;
    word_at(bus, wrap_add(x, get_at(regs, n)))
}

/// Where the operand of six bits is: three for its mode, and three for its register.
#[tactic(auto, using(crate::proofs::Undoing::counter_itself))]
#[inline(always)]
pub fn find<B: Bus>(bus: &mut B, size: Size, regs: &mut Regs, n: u16) -> Result<Spot, Failure>
    ensures value { address (B.world bus.old) size regs.old (operand_of n) ≡ placed result regs.new }
    ensures kept { B.world bus.new ≡ B.world bus.old }
    ensures err { OnErr result (AllButCounter regs.old regs.new) }
    ensures made { B.accesses bus.new ≡ address_made (B.world bus.old) regs.old (operand_of n) (B.accesses bus.old) }
{
    match n / 0o10 {
        0 => Ok(Spot::Register(n)),
        1 => Ok(Spot::Memory(get_at(regs, n))),
        2 => if n % 0o10 == 7 {
            let at = get(regs, Reg::Pc);
            let w = next(bus, regs)?;
            Ok(Spot::Code(at, w))
        } else {
            let r = pointer(n);
            Ok(Spot::Memory(step_up(regs, r, stride_of(size, r))))
        },
        3 => if n % 0o10 == 7 {
            Ok(Spot::Memory(next(bus, regs)?))
        } else {
            let r = pointer(n);
            let a = word_at(bus, get_at(regs, r))?;
            step_up(regs, r, 2);
            Ok(Spot::Memory(a))
        },
        4 => Ok(Spot::Memory(step_down(regs, n, stride_of(size, n)))),
        5 => {
            let a = word_at(bus, wrap_sub(get_at(regs, n), 2))?;
            step_down(regs, n, 2);
            Ok(Spot::Memory(a))
        }
        6 => {
            let x = next(bus, regs)?;
            Ok(Spot::Memory(wrap_add(x, get_at(regs, n))))
        }
        _ => Ok(Spot::Memory(index_deferred(bus, regs, n)?)),
    }
}

/// The value at a place.
#[inline(always)]
pub fn load_at<B: Bus>(bus: &mut B, size: Size, regs: &Regs, place: Spot) -> Result<u16, Failure>
    ensures value { result ≡ load (B.world bus.old) size regs.now (place_of place) }
    ensures small { IfOk result (λ x. x < limit size) }
    ensures kept { B.world bus.new ≡ B.world bus.old }
    ensures made { B.accesses bus.new ≡ load_made size (place_of place) (B.accesses bus.old) }
{
    match place {
        Spot::Register(n) => match size {
            Size::Word => Ok(get_at(regs, n)),
            Size::Byte => Ok(get_at(regs, n) % 256),
        },
        Spot::Memory(a) => match size {
            Size::Word => word_at(bus, a),
            Size::Byte => match bus.read_byte(a) {
                Ok(b) => Ok(b as u16),
                Err(e) => Err(failure_of(e)),
            },
        },
        Spot::Code(_, w) => match size {
            Size::Word => Ok(w),
            Size::Byte => Ok(w % 256),
        },
    }
}

/// The value of the operand of six bits.
#[tactic(auto, using(crate::proofs::Undoing::found_given_back))]
#[inline(always)]
pub fn value<B: Bus>(bus: &mut B, size: Size, regs: &mut Regs, n: u16) -> Result<u16, Failure>
    ensures value { operand (B.world bus.old) size regs.old (operand_of n) ≡ paired result regs.new }
    ensures small { IfOk result (λ x. x < limit size) }
    ensures kept { B.world bus.new ≡ B.world bus.old }
    ensures err { OnErr result (AllButCounter regs.old regs.new) }
    ensures made { B.accesses bus.new ≡ operand_made (B.world bus.old) size regs.old (operand_of n) (B.accesses bus.old) }
{
    let kept = get_at(regs, n);
    let place = find(bus, size, regs, n)?;
    match load_at(bus, size, regs, place) {
        Ok(x) => Ok(x),
        Err(failure) => {
            set_at(regs, n, kept);
            Err(failure)
        }
    }
}

/// Writes a word to the memory.
#[inline(always)]
pub fn write_word<B: Bus>(bus: &mut B, regs: &Regs, at: u16, x: u16) -> Result<(), Failure>
    ensures value { and_then (of_memory (word_written (B.world bus.old) at x)) (λ w. goes_on w regs.now) ≡ left result regs.now (B.world bus.new) }
    ensures err { OnErr result (B.world bus.new ≡ B.world bus.old) }
    ensures made { B.accesses bus.new ≡ noted (WritesWord at) (B.accesses bus.old) }
{
    match bus.write_word(at, x) {
        Ok(()) => Ok(()),
        Err(e) => Err(failure_of(e)),
    }
}

#[inline(always)]
fn write_byte<B: Bus>(bus: &mut B, regs: &Regs, at: u16, x: u8) -> Result<(), Failure>
    ensures value { and_then (of_memory (byte_written (B.world bus.old) at x)) (λ w. goes_on w regs.now) ≡ left result regs.now (B.world bus.new) }
    ensures err { OnErr result (B.world bus.new ≡ B.world bus.old) }
    ensures made { B.accesses bus.new ≡ noted (WritesByte at) (B.accesses bus.old) }
{
    match bus.write_byte(at, x) {
        Ok(()) => Ok(()),
        Err(e) => Err(failure_of(e)),
    }
}

/// Puts a word at a place.
#[inline(always)]
pub fn store_word<B: Bus>(bus: &mut B, regs: &mut Regs, place: Spot, x: u16) -> Result<(), Failure>
    ensures value { store (B.world bus.old) Size.Word regs.old (place_of place) x ≡ left result regs.new (B.world bus.new) }
    ensures err { OnErr result (B.world bus.new ≡ B.world bus.old) }
    ensures kept { OnErr result (regs.new ≡ regs.old) }
    ensures made { B.accesses bus.new ≡ store_made Size.Word (place_of place) (B.accesses bus.old) }
{
    match place {
        Spot::Register(n) => {
            set_at(regs, n, x);
            Ok(())
        }
        Spot::Memory(a) | Spot::Code(a, _) => write_word(bus, regs, a, x),
    }
}

/// Puts a byte at a place.
#[inline(always)]
pub fn store_byte<B: Bus>(bus: &mut B, regs: &mut Regs, place: Spot, x: u8) -> Result<(), Failure>
    ensures value { store (B.world bus.old) Size.Byte regs.old (place_of place) x ≡ left result regs.new (B.world bus.new) }
    ensures err { OnErr result (B.world bus.new ≡ B.world bus.old) }
    ensures kept { OnErr result (regs.new ≡ regs.old) }
    ensures made { B.accesses bus.new ≡ store_made Size.Byte (place_of place) (B.accesses bus.old) }
{
    match place {
        Spot::Register(n) => {
            let whole = set_low_byte(get_at(regs, n), x);
            set_at(regs, n, whole);
            Ok(())
        }
        Spot::Memory(a) | Spot::Code(a, _) => write_byte(bus, regs, a, x),
    }
}

/// Puts a word or a byte at a place.
#[inline(always)]
pub fn store_at<B: Bus>(
    bus: &mut B,
    size: Size,
    regs: &mut Regs,
    place: Spot,
    x: u16,
) -> Result<(), Failure>
    requires { x < limit size }
    ensures value { store (B.world bus.old) size regs.old (place_of place) x ≡ left result regs.new (B.world bus.new) }
    ensures err { OnErr result (B.world bus.new ≡ B.world bus.old) }
    ensures kept { OnErr result (regs.new ≡ regs.old) }
    ensures made { B.accesses bus.new ≡ store_made size (place_of place) (B.accesses bus.old) }
{
    match size {
        Size::Word => store_word(bus, regs, place, x),
        Size::Byte => store_byte(bus, regs, place, x as u8),
    }
}
