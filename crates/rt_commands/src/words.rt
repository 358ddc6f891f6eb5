//! The words of a command line.

ghost use Rattle.std.specs.Prelude.{◌≡◌, ◌⊎◌, Ok, Err, map, string_bytes, IfOk, IfSome, IfNone};
ghost use Rattle.rt_system.specs.Reading.{Gives};
ghost use Rattle.rt_commands.specs.Commands.{IsCommand, HaveOneCommand};
ghost use Rattle.rt_commands.specs.Reading as spec;
ghost use Rattle.rt_commands.specs.declared.command.Command.{Command};
ghost use Rattle.rt_commands.specs.declared.command.WordFault.TheVariants as fault;

use crate::command::{Command, WordFault};
use crate::lent::{CommandWords, with_four, with_one, with_three, with_two};
use std::alloc::Global;

/// Reads the words of a command, without the program's name, and lends them; it takes no memory.
///
/// These words are `go SYSTEM TICKS LIMIT NAME`, `compile SOURCE OBJECT`, `link SYSTEM IMAGE MAP`, `stacks SYSTEM`,
/// `run IMAGE TICKS LIMIT REPORT`, `show OBJECT` or `gen N NAME`. The first is in lower case. LIMIT is 1 to 10 decimal
/// digits with a value up to 4,000,000,000; N is 1 to 5 with a value from 1 to 10,000. A file is named by any word that
/// isn't empty; the NAME of `gen` has bytes 33 to 126.
pub fn lend_words(words: &[String]) -> Option<CommandWords<'_>>
    // What is lent is the command of the words.
    ensures command { IfSome result (λ lent. IsCommand (map string_bytes words.now) (spec.said lent)) }
    // Nothing is lent only where no command has the words.
    ensures none { IfNone result ((command : Command) → IsCommand (map string_bytes words.now) command → ⊥) }
{
    asked(words)
}

#[tactic(auto, unfolding(crate::specs::Reading::command_of))]
fn asked(words: &[String]) -> Option<CommandWords<'_>>
    ensures { Gives spec.said result (spec.command_of (map string_bytes words.now)) }
{
    match words {
        [word, a] => with_one(word.as_str(), a.as_str()),
        [word, a, b] => with_two(word.as_str(), a.as_str(), b.as_str()),
        [word, a, b, c] => { with_three(word.as_str(), a.as_str(), b.as_str(), c.as_str()) }
        [word, a, b, c, d] => with_four(
            word.as_str(),
            a.as_str(),
            b.as_str(),
            c.as_str(),
            d.as_str(),
        ),
        _ => None,
    }
}

/// Reads the words of a command, as [`lend_words`] does, into a command of its own.
pub fn read_words(alloc: Global, words: &[String]) -> Result<Command, WordFault>
    // What is answered is the command of the words.
    ensures command { IfOk result (λ command. IsCommand (map string_bytes words.now) command) }
    // The words of a command aren't refused.
    ensures only { (command : Command) → IsCommand (map string_bytes words.now) command → (result ≡ Ok command) ⊎ (result ≡ Err fault.Memory) }
    // Words that no command has are refused as such, and no others.
    ensures refused { result ≡ Err fault.NoCommand → (command : Command) → IsCommand (map string_bytes words.now) command → ⊥ }
    ensures none { ((command : Command) → IsCommand (map string_bytes words.now) command → ⊥) → (result ≡ Err fault.NoCommand) ⊎ (result ≡ Err fault.Memory) }
{
    let Some(lent) = lend_words(words) else {
        return Err(WordFault::NoCommand);
    };
    Ok(lent.copied(alloc)?)
}

/// The same words are those of one command at most.
pub fn one_command()
    ensures { HaveOneCommand }
{}
