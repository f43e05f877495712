//! The top call of the program.

ghost use Rattle.std.specs.Prelude.{◌≡◌, nat_eq, codes};
ghost use Rattle.std.specs.Cmp.Lexicographic.{pointwise};
ghost use Rattle.xrf_exit.specs.Exit.{AnswersAllowed};
ghost use Rattle.xrf_exit.specs.declared.Notice.TheVariants.{AlternateLost};
ghost use Rattle.xrf.specs.Live.{is_run_word};
ghost use Rattle.xrf.specs.Program.{TopAnswered, TopComplete};

use crate::live::live_command;
use crate::status::Status;
use crate::top::batch;
use std::alloc::Global;
use std::sync::Wait;
use std::thread::Threads;
use xrf_edge::{Sink, Source};
use xrf_exit::{ExitAnswer, Notice, StatusExit};
use xrf_run::Gate;

fn is_run_word(word: &str) -> bool
    ensures { result ≡ pointwise nat_eq word.now (codes "run") }
{
    word == "run"
}

fn asks_run(words: &[String]) -> bool
    ensures { result ≡ is_run_word words.now }
{
    match words {
        [word] => is_run_word(word.as_str()),
        _ => false,
    }
}

/// Answers the words that the program is called with: `run` by a threaded run of the scenario (`live_command`), and
/// other words by a call that never waits (`batch`).
pub fn xrf_top<
    R: Threads + Wait + Sync,
    S: Source,
    K: Sink,
    G: Gate + Sync,
    F: Fn(Notice) -> ExitAnswer + Sync,
>(
    rt: &R,
    alloc: Global,
    words: &[String],
    source: &mut S,
    sink: &mut K,
    gate: &G,
    exit: &StatusExit<F>,
) -> Status
    requires callable { F.IsAlwaysCallable exit.now.closure }
    requires allowed { AnswersAllowed (F.post exit.now.closure) }
    ensures answered { TopAnswered (λ answer. F.post exit.now.closure AlternateLost answer) words.now (S.end source.old) (S.end source.new) (K.end sink.old) (K.end sink.new) result }
    ensures complete { TopComplete words.now (S.end source.old) (S.end source.new) (K.end sink.old) (K.end sink.new) result }
{
    if asks_run(words) {
        live_command(rt, alloc, source, sink, gate, exit)
    } else {
        batch(alloc, words, source, sink)
    }
}
