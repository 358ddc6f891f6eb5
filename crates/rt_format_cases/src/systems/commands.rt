//! Words of the cases, and what they ask for.

use crate::texts::push_written;
use crate::told::{empty, tell_count};
use rt_commands::{Command, WordFault, read_words};
use rt_words::{Memory, Text};
use std::alloc::Global;

/// What the words of a case ask for, or that no command has them.
pub fn describe_words(alloc: Global, case: &str, out: &mut Text) -> Result<(), Memory> {
    let mut words = Vec::new(alloc);
    push_words(alloc, case, &mut words)?;
    tell_read(alloc, words.as_slice(), out)
}

/// The words of a case, with a space between each and the next.
fn push_words(alloc: Global, case: &str, words: &mut Vec<String>) -> Result<(), Memory> {
    if case.is_empty() {
        return Ok(());
    }
    for word in case.split(' ') {
        push_word(alloc, word, words)?;
    }
    Ok(())
}

fn push_word(alloc: Global, written: &str, words: &mut Vec<String>) -> Result<(), Memory> {
    let mut word = empty(alloc);
    push_written(written, &mut word)?;
    let word = String::from_utf8_lossy(alloc, word.as_slice())?;
    match words.push(word) {
        Ok(()) => Ok(()),
        Err(_) => Err(Memory),
    }
}

fn tell_read(alloc: Global, words: &[String], out: &mut Text) -> Result<(), Memory> {
    match read_words(alloc, words) {
        Ok(command) => tell_command(&command, out),
        Err(WordFault::NoCommand) => out.push_all(b"no command"),
        Err(WordFault::Memory) => Err(Memory),
    }
}

fn tell_command(command: &Command, out: &mut Text) -> Result<(), Memory> {
    match command {
        Command::Go(system, ticks, limit, name) => {
            tell_files(b"go", &[system.as_slice(), ticks.as_slice()], out)?;
            tell_count(" ", *limit, out)?;
            tell_files(b"", &[name.as_slice()], out)
        }
        Command::Compile(source, object) => {
            tell_files(b"compile", &[source.as_slice(), object.as_slice()], out)
        }
        Command::Link(system, image, map) => {
            let files = [system.as_slice(), image.as_slice(), map.as_slice()];
            tell_files(b"link", &files, out)
        }
        Command::Stacks(system) => tell_files(b"stacks", &[system.as_slice()], out),
        Command::Run(image, ticks, limit, report) => {
            tell_files(b"run", &[image.as_slice(), ticks.as_slice()], out)?;
            tell_count(" ", *limit, out)?;
            tell_files(b"", &[report.as_slice()], out)
        }
        Command::Show(object) => tell_files(b"show", &[object.as_slice()], out),
        Command::Gen(count, name) => {
            out.push_all(b"gen")?;
            tell_count(" ", u64::from(*count), out)?;
            tell_files(b"", &[name.as_slice()], out)
        }
    }
}

/// A word, and files, each between brackets.
fn tell_files(word: &[u8], files: &[&[u8]], out: &mut Text) -> Result<(), Memory> {
    out.push_all(word)?;
    for file in files {
        out.push_all(b" [")?;
        out.push_all(file)?;
        out.push(b']')?;
    }
    Ok(())
}
