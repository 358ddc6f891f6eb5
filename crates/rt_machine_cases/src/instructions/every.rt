//! All first words.

use crate::numbers::{octal, tell_number};
use pdp_code::{decode, encode};
use rt_words::{Memory, Text};

/// How many first words, each with two words behind it, begin an instruction; and of these, how many instructions have
/// just these words again, how many are the same where nothing follows them, and how many are one where a word is missing.
#[derive(Clone, Copy)]
struct Found {
    all: u32,
    same: u32,
    alone: u32,
    cut: u32,
}

/// Of all first words, with these two behind them, how many begin an instruction.
pub fn describe_every(text: &str, out: &mut Text) -> Result<(), Memory> {
    match behind(text) {
        Some((second, third)) => tell_found(&find_all(second, third), out),
        None => out.push_all(b"every has two octal numbers"),
    }
}

fn behind(text: &str) -> Option<(u16, u16)> {
    let (second, third) = text.split_once(' ')?;
    Some((octal(second)?, octal(third)?))
}

fn find_all(second: u16, third: u16) -> Found {
    let mut found = Found {
        all: 0,
        same: 0,
        alone: 0,
        cut: 0,
    };
    for first in 0..=u16::MAX {
        find(&[first, second, third], &mut found);
    }
    found
}

fn find(words: &[u16; 3], found: &mut Found) {
    if let Some((instr, count)) = decode(words) {
        let own = &words[..count as usize];
        let cut = &words[..count as usize - 1];
        let (again, length) = encode(&instr);
        found.all = found.all.saturating_add(1);
        if &again[..length as usize] == own {
            found.same = found.same.saturating_add(1);
        }
        if decode(own) == Some((instr, count)) {
            found.alone = found.alone.saturating_add(1);
        }
        if decode(cut).is_some() {
            found.cut = found.cut.saturating_add(1);
        }
    }
}

fn tell_found(found: &Found, out: &mut Text) -> Result<(), Memory> {
    tell_number("", u64::from(found.all), out)?;
    tell_number(" instructions, ", u64::from(found.same), out)?;
    tell_number(" have these words again, ", u64::from(found.alone), out)?;
    tell_number(" are the same alone, ", u64::from(found.cut), out)?;
    out.push_all(b" with a word cut")
}
