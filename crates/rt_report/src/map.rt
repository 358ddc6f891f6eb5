//! The text of a map.

ghost use Rattle.std.specs.Prelude.{◌≡◌, ◌++◌, IfOk, OnOk};
ghost use Rattle.rt_report.specs.Maps as spec;

use crate::line::put_line;
use crate::word::Word;
use rt_image::{Map, MapProc, MapTask};
use rt_words::{Memory, Text, octal6};
use std::alloc::Global;

#[tactic(auto, unfolding(crate::specs::Maps::part_line))]
fn put_part(out: &mut Text, word: &[u8], part: (u16, u16)) -> Result<(), Memory>
    ensures { OnOk result (out.new.items ≡ out.old.items ++ spec.part_line word.now part) }
{
    let at = octal6(part.0);
    let words = [Word::Text(&at), Word::Number(u64::from(part.1))];
    put_line(out, Word::Text(word), &words)
}

#[tactic(auto, unfolding(crate::specs::Maps::words_line))]
fn put_task_line<'w>(
    out: &mut Text,
    name: &'w [u8],
    block: &'w [u8],
    stack: &'w [u8],
    words: u16,
    need: u16,
) -> Result<(), Memory>
    ensures { OnOk result (out.new.items ≡ out.old.items ++ spec.words_line name.now block.now stack.now words need) }
{
    let line = [
        Word::Text(name),
        Word::Text(b"BLOCK"),
        Word::Text(block),
        Word::Text(b"STACK"),
        Word::Text(stack),
        Word::Number(u64::from(words)),
        Word::Text(b"NEED"),
        Word::Number(u64::from(need)),
    ];
    put_line(out, Word::Text(b"TASK"), &line)
}

#[tactic(auto, unfolding(crate::specs::Maps::task_line))]
fn put_task(out: &mut Text, task: &MapTask) -> Result<(), Memory>
    ensures { OnOk result (out.new.items ≡ out.old.items ++ spec.task_line task.now) }
{
    let block = octal6(task.block);
    let stack = octal6(task.stack);
    put_task_line(
        out,
        task.name.as_slice(),
        &block,
        &stack,
        task.words,
        task.need,
    )
}

#[tactic(auto, unfolding(crate::specs::Maps::proc_line))]
fn put_proc(out: &mut Text, proc: &MapProc) -> Result<(), Memory>
    ensures { OnOk result (out.new.items ≡ out.old.items ++ spec.proc_line proc.now) }
{
    let at = octal6(proc.at);
    let name = Word::Dotted(proc.title.as_slice(), proc.name.as_slice());
    put_line(out, Word::Text(b"PROC"), &[name, Word::Text(&at)])
}

fn put_tasks(out: &mut Text, tasks: &[MapTask]) -> Result<(), Memory>
    ensures { OnOk result (out.new.items ≡ out.old.items ++ spec.task_lines tasks.now) }
{
    for task in tasks {
        put_task(out, task)?;
    }
    Ok(())
}

fn put_procs(out: &mut Text, procs: &[MapProc]) -> Result<(), Memory>
    ensures { OnOk result (out.new.items ≡ out.old.items ++ spec.proc_lines procs.now) }
{
    for proc in procs {
        put_proc(out, proc)?;
    }
    Ok(())
}

/// The text of a map.
pub fn map_text(alloc: Global, map: &Map) -> Result<Text, Memory>
    ensures { IfOk result (λ text. text.items ≡ spec.map_text map.now) }
{
    let mut out = Text::new(alloc, 0)?;
    put_part(&mut out, b"CODE", map.code)?;
    put_part(&mut out, b"DATA", map.data)?;
    put_tasks(&mut out, map.tasks.as_slice())?;
    put_procs(&mut out, map.procs.as_slice())?;
    Ok(out)
}
