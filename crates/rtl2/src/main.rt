//! The program `rtl2`: it hands the words of its command line, the files of the system, standard input and
//! standard output to [`rt_top::top`], and ends with the answer as its status.
#![tactic(auto)]

mod answer;
mod console;
mod errors;
mod files;
mod replace;
mod telling;
mod texts;

use answer::run;
use console::{InputSource, OutputSink};
use files::FileStore;
use std::process::ExitCode;
use std::{env, io};

fn main(rt: HostRuntime) -> ExitCode {
    let mut store = FileStore::new(&rt);
    let mut input = InputSource::new(rt.reader());
    let mut output = OutputSink::new(io::writer(&rt));
    ExitCode::from(run(
        &rt,
        rt.alloc(),
        env::args(&rt),
        &mut store,
        &mut input,
        &mut output,
    ))
}
