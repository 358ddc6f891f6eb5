//! The line that is put behind the run.

ghost use Rattle.std.specs.Prelude.{◌≡◌, ◌≤◌, ◌++◌, codes, decimal, IfOk};
ghost use Rattle.rt_generated.specs.Texts as spec;

use crate::texts::{put_number, tasks};
use itoa::Buffer;
use rt_words::{Memory, Text};
use std::alloc::Global;

/// The front of the line, with room for the rest.
pub fn begin_line(alloc: Global, n: u16) -> Result<Text, Memory>
    ensures front { IfOk result (λ line. line.items ≡ spec.summary_front n) }
    ensures room { IfOk result (λ line. 41 ≤ line.spare) }
{
    let mut line = Text::new(alloc, 150)?;
    line.push_all(b"GEN ")?;
    put_number(&mut line, n)?;
    line.push_all(b" TASKS ")?;
    put_number(&mut line, tasks(n))?;
    line.push_all(b" STATUS ")?;
    Ok(line)
}

/// Ends the line by a status. It takes no memory.
pub fn end_line(line: &mut Text, status: u8)
    requires { 41 ≤ line.old.spare }
    ensures { line.new.items ≡ line.old.items ++ (decimal status ++ codes "\n") }
{
    let mut digits = Buffer::new();
    line.push_all(digits.format(status).as_bytes()).unwrap();
    line.push_all(b"\n").unwrap();
}
