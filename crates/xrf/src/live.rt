//! The word `run`: a scenario is run by threads, and the choices that they make are written behind it.

ghost use Rattle.std.specs.Prelude.{◌≤◌, [], length, List, ℕ, IfOk};
ghost use Rattle.xrf_exit.specs.Exit.{AnswersAllowed};
ghost use Rattle.xrf_exit.specs.declared.Notice.TheVariants.{AlternateLost};
ghost use Rattle.xrf_scenario.specs.Reading.{Reads};
ghost use Rattle.xrf.specs.Live.{IsThreadedMade, Lived, LivesThrough};

use crate::made::Made;
use crate::refusal::Reason;
use crate::status::Status;
use crate::top::{refuse, write_made};
use std::alloc::{AllocError, Global};
use std::sync::Wait;
use std::thread::Threads;
use xrf_edge::{ReadError, Sink, Source, read_all};
use xrf_exit::{ExitAnswer, Notice, StatusExit};
use xrf_report::document;
use xrf_run::{Gate, live};
use xrf_scenario::{Numbered, ReadBad, Reason as Fault, Scenario, read};
use xrf_setup::ranges::INPUT_MOST;

// the document of a threaded run of a scenario
fn lived<R: Threads + Wait + Sync, G: Gate + Sync, F: Fn(Notice) -> ExitAnswer + Sync>(
    rt: &R,
    alloc: Global,
    scenario: &Scenario,
    gate: &G,
    exit: &StatusExit<F>,
) -> Result<Made, AllocError>
    requires callable { F.IsAlwaysCallable exit.now.closure }
    requires allowed { AnswersAllowed (F.post exit.now.closure) }
    ensures { (bytes : List ℕ) → length bytes ≤ INPUT_MOST → Reads bytes scenario.now [] → IfOk result (IsThreadedMade (λ answer. F.post exit.now.closure AlternateLost answer) bytes) }
{
    let (world, choices) = live(rt, alloc, scenario, gate, exit)?;
    Ok(Made::Document(document(alloc, scenario, &choices, &world)?))
}

// what is made of a scenario, and of the choices that stand behind it, of which there may be none
fn made_of_read<R: Threads + Wait + Sync, G: Gate + Sync, F: Fn(Notice) -> ExitAnswer + Sync>(
    rt: &R,
    alloc: Global,
    scenario: &Scenario,
    numbered: &[Numbered],
    gate: &G,
    exit: &StatusExit<F>,
) -> Result<Made, AllocError>
    requires callable { F.IsAlwaysCallable exit.now.closure }
    requires allowed { AnswersAllowed (F.post exit.now.closure) }
    ensures { (bytes : List ℕ) → length bytes ≤ INPUT_MOST → Reads bytes scenario.now numbered.now → IfOk result (IsThreadedMade (λ answer. F.post exit.now.closure AlternateLost answer) bytes) }
{
    match numbered {
        [] => lived(rt, alloc, scenario, gate, exit),
        [first, ..] => Ok(Made::Refusal(first.line, Reason::Grammar(Fault::ChoicesGiven))),
    }
}

fn made_of_text<R: Threads + Wait + Sync, G: Gate + Sync, F: Fn(Notice) -> ExitAnswer + Sync>(
    rt: &R,
    alloc: Global,
    text: &[u8],
    gate: &G,
    exit: &StatusExit<F>,
) -> Result<Made, AllocError>
    requires size { length text.now ≤ INPUT_MOST }
    requires callable { F.IsAlwaysCallable exit.now.closure }
    requires allowed { AnswersAllowed (F.post exit.now.closure) }
    ensures { IfOk result (IsThreadedMade (λ answer. F.post exit.now.closure AlternateLost answer) text.now) }
{
    match read(alloc, text) {
        Ok((scenario, numbered)) => made_of_read(rt, alloc, &scenario, &numbered, gate, exit),
        Err(ReadBad::Bad { line, reason }) => Ok(Made::Refusal(line, Reason::Grammar(reason))),
        Err(ReadBad::NoMemory) => Ok(Made::NoMemory),
    }
}

// what a threaded run makes of an input of at most 4,194,304 bytes
fn made_by_threads<R: Threads + Wait + Sync, G: Gate + Sync, F: Fn(Notice) -> ExitAnswer + Sync>(
    rt: &R,
    alloc: Global,
    text: &[u8],
    gate: &G,
    exit: &StatusExit<F>,
) -> Made
    requires size { length text.now ≤ INPUT_MOST }
    requires callable { F.IsAlwaysCallable exit.now.closure }
    requires allowed { AnswersAllowed (F.post exit.now.closure) }
    ensures { IsThreadedMade (λ answer. F.post exit.now.closure AlternateLost answer) text.now result }
{
    match made_of_text(rt, alloc, text, gate, exit) {
        Ok(made) => made,
        Err(_) => Made::NoMemory,
    }
}

fn answer_run<
    R: Threads + Wait + Sync,
    S: Source,
    K: Sink,
    G: Gate + Sync,
    F: Fn(Notice) -> ExitAnswer + Sync,
>(rt: &R, alloc: Global, source: &mut S, sink: &mut K, gate: &G, exit: &StatusExit<F>) -> Status
    requires callable { F.IsAlwaysCallable exit.now.closure }
    requires allowed { AnswersAllowed (F.post exit.now.closure) }
    ensures { Lived (λ answer. F.post exit.now.closure AlternateLost answer) (S.end source.old) (S.end source.new) (K.end sink.old) (K.end sink.new) result }
{
    match read_all(alloc, source, INPUT_MOST) {
        Ok(text) => write_made(alloc, sink, made_by_threads(rt, alloc, &text, gate, exit)),
        Err(ReadError::Fault) => Status::ReadFault,
        Err(ReadError::TooLarge) => refuse(alloc, sink, 0, Reason::Grammar(Fault::TooLarge)),
        Err(ReadError::NoMemory) => Status::NoMemory,
    }
}

/// Reads the source to its end, runs the scenario that it spells by threads (`xrf_run::live`), and writes the document
/// of the choices that were made to the sink, or the line and the reason of the refusal: an input may have no choice of
/// its own. What is written replays to itself. A fault of the source or the sink is answered only where its count of
/// faults has risen, and want of memory only before anything is written. It may wait for the lock of the threads, so
/// that it returns is not promised.
pub fn live_command<
    R: Threads + Wait + Sync,
    S: Source,
    K: Sink,
    G: Gate + Sync,
    F: Fn(Notice) -> ExitAnswer + Sync,
>(rt: &R, alloc: Global, source: &mut S, sink: &mut K, gate: &G, exit: &StatusExit<F>) -> Status
    requires callable { F.IsAlwaysCallable exit.now.closure }
    requires allowed { AnswersAllowed (F.post exit.now.closure) }
    ensures lived { Lived (λ answer. F.post exit.now.closure AlternateLost answer) (S.end source.old) (S.end source.new) (K.end sink.old) (K.end sink.new) result }
    ensures complete { LivesThrough (S.end source.old) (S.end source.new) (K.end sink.old) (K.end sink.new) result }
{
    answer_run(rt, alloc, source, sink, gate, exit)
}
