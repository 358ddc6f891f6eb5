// The words of the code with their marks, and where words stand.
ghost use Rattle.std.specs.Prelude.{◌≡◌, ◌+◌, ◌*◌, ◌/◌, ◌%◌, ◌≤◌, length};
ghost use Rattle.rt_tasks.specs.Traps.{mark_of};
ghost use Rattle.rt_tasks.specs.Words.{code_marks};

/// A word of the code, with its mark beside it, so that both are found by one look.
#[derive(Clone, Copy)]
pub struct Marked {
    pub word: u16,
    pub mark: u8,
}

/// Half of an even number. Of an odd one 2,147,483,648 more, which is past all words of a memory: so one test tells that a word's
/// address is even and that the word is there. The host turns 32 bits by one instruction.
#[inline(always)]
pub fn halved(x: u16) -> usize
    ensures { result ≡ x / 2 + x % 2 * 2147483648 }
{
    let x = u32::from(x);
    (x / 2 + x % 2 * 2147483648) as usize
}

/// The mark of the code word at an address.
#[inline(always)]
pub fn mark_at(code: &[Marked], at: u16) -> u8
    requires { length code.now ≤ 28672 }
    ensures { result ≡ mark_of (code_marks code.now) at }
{
    match code.get(halved(at)) {
        Some(word) => word.mark,
        None => 0,
    }
}
