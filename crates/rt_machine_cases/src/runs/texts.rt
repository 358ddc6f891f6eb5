//! Texts and numbers as they are written in cases.

use rt_words::{Bytes, List, Memory};
use std::alloc::Global;

/// The numbers of a text, up to a word that is none.
pub fn numbers_of(alloc: Global, text: &str) -> Result<List<u64>, Memory> {
    let mut numbers = List::new(alloc, 0)?;
    for word in text.split_ascii_whitespace() {
        match word.parse::<u64>() {
            Ok(number) => numbers.push(number)?,
            Err(_) => break,
        }
    }
    Ok(numbers)
}

/// The bytes of words of hexadecimal digits, in which `16*00` stands for sixteen times `00`, up to a word that is none.
pub fn hex_of(alloc: Global, text: &str) -> Result<Bytes, Memory> {
    let mut bytes = List::new(alloc, 0)?;
    for word in text.split_ascii_whitespace() {
        let (times, digits) = word.split_once('*').unwrap_or(("1", word));
        let times = times.parse::<u16>().unwrap_or(0);
        for _turn in 0..times {
            push_hex(alloc, digits, &mut bytes)?;
        }
    }
    Ok(bytes)
}

fn push_hex(alloc: Global, digits: &str, bytes: &mut Bytes) -> Result<(), Memory> {
    let Ok(some) = hex::decode(alloc, digits) else {
        return Ok(());
    };
    for byte in &some {
        bytes.push(*byte)?;
    }
    Ok(())
}
