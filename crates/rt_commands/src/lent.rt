//! Commands whose words are lent.

ghost use Rattle.std.specs.Prelude.{◌≡◌, codes, IfOk};
ghost use Rattle.std.specs.Str.{bytes_eq};
ghost use Rattle.rt_system.specs.Reading.{Gives};
ghost use Rattle.rt_commands.specs.Reading as spec;

use crate::command::Command;
use crate::numbers::{count, limit};
use rt_system::is_file;
use rt_words::{Bytes, Memory};
use std::alloc::Global;

/// The words of `go` or `run`: two files, a limit, and a third name.
#[derive(Clone, Copy)]
pub struct TimedWords<'a> {
    pub first: &'a str,
    pub second: &'a str,
    pub limit: u64,
    pub last: &'a str,
}

/// The words of a command after the first, in their order, lent from the command line.
#[derive(Clone, Copy)]
pub enum CommandWords<'a> {
    Go(TimedWords<'a>),
    Compile(&'a str, &'a str),
    Link(&'a str, &'a str, &'a str),
    Stacks(&'a str),
    Run(TimedWords<'a>),
    Show(&'a str),
    Gen(u16, &'a str),
}

fn same(a: &str, b: &str) -> bool
    ensures { result ≡ bytes_eq a.now b.now }
{
    a == b
}

fn is_named(word: &str) -> bool
    ensures { result ≡ spec.is_named word.now }
{
    !word.is_empty()
}

/// A word and one more.
#[tactic(auto, unfolding(crate::specs::Reading::with_one))]
pub fn with_one<'a>(word: &str, file: &'a str) -> Option<CommandWords<'a>>
    ensures { Gives spec.said result (spec.with_one word.now file.now) }
{
    if !is_named(file) {
        return None;
    }
    if same(word, "stacks") {
        Some(CommandWords::Stacks(file))
    } else if same(word, "show") {
        Some(CommandWords::Show(file))
    } else {
        None
    }
}

#[tactic(auto, unfolding(crate::specs::Reading::generate))]
fn gen_of<'a>(digits: &str, name: &'a str) -> Option<CommandWords<'a>>
    ensures { Gives spec.said result (spec.generate digits.now name.now) }
{
    let count = count(digits.as_bytes())?;
    if !is_file(name.as_bytes()) {
        return None;
    }
    Some(CommandWords::Gen(count, name))
}

#[tactic(auto, unfolding(crate::specs::Reading::compile))]
fn compile_of<'a>(source: &'a str, object: &'a str) -> Option<CommandWords<'a>>
    ensures { Gives spec.said result (spec.compile source.now object.now) }
{
    if is_named(source) && is_named(object) {
        Some(CommandWords::Compile(source, object))
    } else {
        None
    }
}

/// A word and two more.
#[tactic(auto, unfolding(crate::specs::Reading::with_two))]
pub fn with_two<'a>(word: &str, first: &'a str, second: &'a str) -> Option<CommandWords<'a>>
    ensures { Gives spec.said result (spec.with_two word.now first.now second.now) }
{
    if same(word, "compile") {
        compile_of(first, second)
    } else if same(word, "gen") {
        gen_of(first, second)
    } else {
        None
    }
}

/// A word and three more.
#[tactic(auto, unfolding(crate::specs::Reading::with_three))]
pub fn with_three<'a>(
    word: &str,
    system: &'a str,
    image: &'a str,
    map: &'a str,
) -> Option<CommandWords<'a>>
    ensures { Gives spec.said result (spec.with_three word.now system.now image.now map.now) }
{
    if same(word, "link") && is_named(system) && is_named(image) && is_named(map) {
        Some(CommandWords::Link(system, image, map))
    } else {
        None
    }
}

/// A word and four more.
#[tactic(auto, unfolding(crate::specs::Reading::with_four))]
pub fn with_four<'a>(
    word: &str,
    first: &'a str,
    second: &'a str,
    digits: &str,
    last: &'a str,
) -> Option<CommandWords<'a>>
    ensures { Gives spec.said result (spec.with_four word.now first.now second.now digits.now last.now) }
{
    if !(is_named(first) && is_named(second) && is_named(last)) {
        return None;
    }
    let limit = limit(digits.as_bytes())?;
    let timed = TimedWords {
        first,
        second,
        limit,
        last,
    };
    if same(word, "go") {
        Some(CommandWords::Go(timed))
    } else if same(word, "run") {
        Some(CommandWords::Run(timed))
    } else {
        None
    }
}

fn bytes_of(alloc: Global, word: &str) -> Result<Bytes, Memory>
    ensures { IfOk result (λ bytes. bytes ≡ word.now) }
{
    Bytes::from_slice(alloc, word.as_bytes())
}

impl CommandWords<'_> {
    /// The command with copies of the words.
    pub fn copied(self, alloc: Global) -> Result<Command, Memory>
        ensures { IfOk result (λ command. command ≡ spec.said self.entry) }
    {
        match self {
            CommandWords::Go(timed) => timed.copied_to_go(alloc),
            CommandWords::Compile(source, object) => compile_copied(alloc, source, object),
            CommandWords::Link(system, image, map) => link_copied(alloc, system, image, map),
            CommandWords::Stacks(system) => Ok(Command::Stacks(bytes_of(alloc, system)?)),
            CommandWords::Run(timed) => timed.copied_to_run(alloc),
            CommandWords::Show(object) => Ok(Command::Show(bytes_of(alloc, object)?)),
            CommandWords::Gen(count, name) => Ok(Command::Gen(count, bytes_of(alloc, name)?)),
        }
    }
}

impl TimedWords<'_> {
    fn copied_to_go(self, alloc: Global) -> Result<Command, Memory>
        ensures { IfOk result (λ command. command ≡ spec.go_of self.entry) }
    {
        let first = bytes_of(alloc, self.first)?;
        let second = bytes_of(alloc, self.second)?;
        let last = bytes_of(alloc, self.last)?;
        Ok(Command::Go(first, second, self.limit, last))
    }

    fn copied_to_run(self, alloc: Global) -> Result<Command, Memory>
        ensures { IfOk result (λ command. command ≡ spec.run_of self.entry) }
    {
        let first = bytes_of(alloc, self.first)?;
        let second = bytes_of(alloc, self.second)?;
        let last = bytes_of(alloc, self.last)?;
        Ok(Command::Run(first, second, self.limit, last))
    }
}

fn compile_copied(alloc: Global, source: &str, object: &str) -> Result<Command, Memory>
    ensures { IfOk result (λ command. command ≡ Command.Compile source.now object.now) }
{
    let source = bytes_of(alloc, source)?;
    let object = bytes_of(alloc, object)?;
    Ok(Command::Compile(source, object))
}

fn link_copied(alloc: Global, system: &str, image: &str, map: &str) -> Result<Command, Memory>
    ensures { IfOk result (λ command. command ≡ Command.Link system.now image.now map.now) }
{
    let system = bytes_of(alloc, system)?;
    let image = bytes_of(alloc, image)?;
    let map = bytes_of(alloc, map)?;
    Ok(Command::Link(system, image, map))
}
