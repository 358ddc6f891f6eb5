//! The case so far: its texts, its tasks, and the input of its console.

use crate::expansion::{expand, number};
use crate::stop::Stop;
use rt_system::library;
use rt_words::List;
use std::alloc::Global;
use std::{mem, str};

/// A task as it is written: the number of its module, from 1, the name of its root, and its priority.
#[derive(Drop)]
pub struct TaskLine {
    pub module: u32,
    pub root: String,
    pub priority: u32,
}

/// A case.
#[derive(Drop)]
pub struct Case {
    /// Whether the lines are those of a text.
    pub is_open: bool,
    /// The lines of the text that is open.
    text: String,
    /// The texts, in which `@` stands for the piece that a later line gives.
    pub texts: List<String>,
    pub tasks: List<TaskLine>,
    pub input: String,
}

impl Case {
    /// A case without texts and tasks.
    pub fn new(alloc: Global) -> Case {
        Case {
            is_open: false,
            text: String::new(alloc),
            texts: List::from_vec(Vec::new(alloc)),
            tasks: List::from_vec(Vec::new(alloc)),
            input: String::new(alloc),
        }
    }

    /// A line of the text that is open.
    pub fn line(&mut self, alloc: Global, line: &str) -> Result<(), Stop> {
        if line == "ENDTEXT" {
            self.is_open = false;
            let text = mem::replace(&mut self.text, String::new(alloc));
            Ok(self.texts.push(text)?)
        } else {
            expand(&mut self.text, line)?;
            Ok(self.text.push('\n')?)
        }
    }

    /// The library's text, as one more text.
    pub fn library(&mut self, alloc: Global) -> Result<(), Stop> {
        match str::from_utf8(library()) {
            Ok(text) => Ok(self.texts.push(String::from_str(alloc, text)?)?),
            Err(_) => Err(Stop::Line),
        }
    }

    /// A task, from `MODULE ROOT PRIORITY`.
    pub fn task(&mut self, alloc: Global, written: &str) -> Result<(), Stop> {
        let Some((module, rest)) = written.split_once(' ') else {
            return Err(Stop::Line);
        };
        let Some((root, priority)) = rest.split_once(' ') else {
            return Err(Stop::Line);
        };
        let (module, priority) = (number(module)?, number(priority)?);
        let root = String::from_str(alloc, root)?;
        Ok(
            self.tasks.push(TaskLine {
                module,
                root,
                priority,
            })?,
        )
    }

    /// The console's input.
    pub fn input(&mut self, alloc: Global, written: &str) -> Result<(), Stop> {
        self.input = String::new(alloc);
        expand(&mut self.input, written)
    }

    /// The last text, or the piece alone where there is none.
    pub fn frame(&self) -> &str {
        match self.texts.as_slice().last() {
            Some(last) => last.as_str(),
            None => "@",
        }
    }
}

/// A text with this piece in place of its `@`.
pub fn text_with(alloc: Global, frame: &str, piece: &str) -> Result<String, Stop> {
    let mut text = String::new(alloc);
    put_with(&mut text, frame, piece)?;
    Ok(text)
}

fn put_with(text: &mut String, frame: &str, piece: &str) -> Result<(), Stop> {
    match frame.split_once('@') {
        Some((before, behind)) => {
            text.push_str(before)?;
            expand(text, piece)?;
            Ok(text.push_str(behind)?)
        }
        None => Ok(text.push_str(frame)?),
    }
}
