//! `xrf` runs an XRF pair: it reads a scenario, runs its choices, or lets threads make them, and writes
//! the scenario back with the choices and the whole trace.
#![tactic(auto)]

#[cfg(test)]
mod drive_tests;
mod drive_words;
mod driven;
mod live;
#[cfg(test)]
mod live_tests;
mod made;
mod program;
mod refusal;
mod running;
mod status;
#[cfg(test)]
mod tests;
mod top;

use program::xrf_top;
use status::Status;
use std::process::ExitCode;
use std::{env, io};
use xrf_edge::{StdSink, StdSource};
use xrf_exit::{ExitAnswer, Notice, StatusExit};
use xrf_run::OpenGate;

// The status where the runtime refuses the list of words for another cause than want of memory.
const NO_WORDS: u8 = 28;

fn words_refused(error: &io::Error) -> u8 {
    if error.kind() == io::ErrorKind::OutOfMemory {
        Status::NoMemory.code()
    } else {
        NO_WORDS
    }
}

fn main(rt: HostRuntime) -> ExitCode {
    let mut arguments = match env::args(&rt) {
        Ok(arguments) => arguments,
        Err(error) => return ExitCode::from(words_refused(&error)),
    };
    let _ = arguments.next();
    let words = match arguments.collect::<Vec<String>>(rt.alloc()) {
        Ok(words) => words,
        Err(_) => return ExitCode::from(Status::NoMemory.code()),
    };
    let mut source = StdSource::new(rt.stdin());
    let mut sink = StdSink::new(rt.stdout());
    let exit = StatusExit::new(|notice| match notice {
        Notice::TakeoverSeen => ExitAnswer::Abend,
        Notice::AlternateLost => ExitAnswer::Drop,
    });
    let status = xrf_top(
        &rt,
        rt.alloc(),
        &words,
        &mut source,
        &mut sink,
        &OpenGate,
        &exit,
    );
    ExitCode::from(status.code())
}
