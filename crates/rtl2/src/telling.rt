//! What standard error tells, where the fault line isn't all that one wants to know.

ghost use Rattle.std.specs.Prelude.{◌≡◌};

use crate::texts::{
    BAD_LIMIT, BAD_SIZE, NOTHING_ASKED, OTHER_WORDS, OUT_OF_MEMORY, REPORTED, UNKNOWN_COMMAND,
    UNWRITTEN, USAGE,
};

/// The status of words that no command has.
pub const WRONG_WORDS: u8 = 10;

/// The same status. On standard error stands what is wrong with the words, that the fault line is in the report alone, or what no
/// fault line tells.
pub fn explained<R: Eprint>(rt: &R, complaint: &str, reports: bool, status: u8) -> u8
    ensures { result ≡ status }
{
    match status {
        WRONG_WORDS => {
            told(rt, complaint);
            told(rt, USAGE);
        }
        11..=15 | 20 if reports => told(rt, REPORTED),
        21 => told(rt, UNWRITTEN),
        30 => told(rt, OUT_OF_MEMORY),
        _ => {}
    }
    status
}

fn told<R: Eprint>(rt: &R, text: &str) {
    let _ = rt.eprint(text);
}

/// Whether the command of these words writes its fault line into a report.
pub fn reports(words: &[String]) -> bool {
    match words {
        [command, ..] => matches!(command.as_str(), "go" | "run"),
        [] => false,
    }
}

/// What is wrong with the words, if no command has them.
pub fn complaint(words: &[String]) -> &'static str {
    match words {
        [] => NOTHING_ASKED,
        [command, rest @ ..] => match command.as_str() {
            "go" | "run" if rest.len() == 4 => BAD_LIMIT,
            "gen" if rest.len() == 2 => BAD_SIZE,
            "go"
            | "compile"
            | "link"
            | "stacks"
            | "run"
            | "show"
            | "gen"
            | "--help"
            | "--version" => OTHER_WORDS,
            _ => UNKNOWN_COMMAND,
        },
    }
}
