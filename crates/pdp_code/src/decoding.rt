// Instructions from words.
ghost use Rattle.std.specs.Prelude.{◌≡◌, ◌+◌, ◌≤◌, length, IfSome};
ghost use Rattle.pdp_code.specs.Code.{words_of};
ghost use Rattle.pdp_code.specs.declared.instruction.Instr.{Instr};
ghost use Rattle.pdp_code.specs.Decode.{count, filled, completed, decoded, Begins};

use crate::first::first;
use crate::instruction::{Instr, Operand};

fn count_of(o: Operand) -> usize
    ensures value { result ≡ count o }
    ensures few { result ≤ 1 }
{
    match o {
        Operand::Index(_, _) => 1,
        Operand::IndexDeferred(_, _) => 1,
        Operand::Immediate(_) => 1,
        Operand::Absolute(_) => 1,
        _ => 0,
    }
}

fn fill(o: Operand, words: &[u16], at: usize) -> Option<Operand>
    ensures { result ≡ filled o words.now at }
{
    match o {
        Operand::Index(r, _) => match words.get(at) {
            Some(w) => Some(Operand::Index(r, *w)),
            None => None,
        },
        Operand::IndexDeferred(r, _) => match words.get(at) {
            Some(w) => Some(Operand::IndexDeferred(r, *w)),
            None => None,
        },
        Operand::Immediate(_) => match words.get(at) {
            Some(w) => Some(Operand::Immediate(*w)),
            None => None,
        },
        Operand::Absolute(_) => match words.get(at) {
            Some(w) => Some(Operand::Absolute(*w)),
            None => None,
        },
        _ => Some(o),
    }
}

fn complete(i: Instr, words: &[u16]) -> Option<(Instr, u8)>
    ensures { result ≡ completed i words.now }
{
    match i {
        Instr::Double {
            op,
            size,
            source: s,
            target: d,
        } => {
            let n = count_of(s);
            let source = fill(s, words, 1)?;
            let target = fill(d, words, 1 + n)?;
            Some((
                Instr::Double {
                    op,
                    size,
                    source,
                    target,
                },
                (1 + n + count_of(d)) as u8,
            ))
        }
        Instr::Sum {
            op,
            source: s,
            target: d,
        } => {
            let n = count_of(s);
            let source = fill(s, words, 1)?;
            let target = fill(d, words, 1 + n)?;
            Some((
                Instr::Sum { op, source, target },
                (1 + n + count_of(d)) as u8,
            ))
        }
        Instr::Single(op, size, d) => {
            let target = fill(d, words, 1)?;
            Some((Instr::Single(op, size, target), (1 + count_of(d)) as u8))
        }
        Instr::OnWord(op, d) => {
            let target = fill(d, words, 1)?;
            Some((Instr::OnWord(op, target), (1 + count_of(d)) as u8))
        }
        Instr::OnRegister(op, r, s) => {
            let source = fill(s, words, 1)?;
            Some((Instr::OnRegister(op, r, source), (1 + count_of(s)) as u8))
        }
        Instr::Jump(d) => {
            let target = fill(d, words, 1)?;
            Some((Instr::Jump(target), (1 + count_of(d)) as u8))
        }
        Instr::Call(r, d) => {
            let target = fill(d, words, 1)?;
            Some((Instr::Call(r, target), (1 + count_of(d)) as u8))
        }
        _ => Some((i, 1)),
    }
}

fn find(words: &[u16]) -> Option<(Instr, u8)>
    ensures { result ≡ decoded words.now }
{
    let w = words.get(0)?;
    let i = first(*w)?;
    complete(i, words)
}

/// The instruction that begins these words, and how many of them it has; what follows them doesn't matter. None
/// exactly where no instruction of the table begins them, among them words that end inside an instruction.
pub fn decode(words: &[u16]) -> Option<(Instr, u8)>
    // what is told begins the words, and has so many of them
    ensures found { IfSome result (λ d. Begins d.0 words.now × (d.1 ≡ length (words_of d.0))) }
    // whatever begins the words is told: so nothing does where nothing is told
    ensures every { (i : Instr) → Begins i words.now → result ≡ Some (i, length (words_of i)) }
    ensures lengths { IfSome result (λ d. (1 ≤ d.1) × (d.1 ≤ 3) × (d.1 ≤ length words.now)) }
{
    find(words)
}
