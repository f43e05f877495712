//! The answers of the program that never wait.

ghost use Rattle.std.specs.Prelude.{◌≡◌, ◌≤◌, false, true, nat_eq, string_bytes, codes};
ghost use Rattle.std.specs.Cmp.Lexicographic.{pointwise};
ghost use Rattle.xrf.specs.Words.{is_replay, usage_line};
ghost use Rattle.xrf.specs.Answer.{Answered, WritesText, Refusing, WritesMade, Replayed, Complete, HasAnswer, OneText, OneRefusal, NeverRefused};

use crate::drive_words::drive_asked;
use crate::driven::drive;
use crate::made::{Made, made_of};
use crate::refusal::{Reason, refusal_text};
use crate::status::Status;
use std::alloc::Global;
use xrf_edge::{ReadError, Sink, Source, read_all, write_all};
use xrf_scenario::Reason as Fault;
use xrf_setup::ranges::INPUT_MOST;

const USAGE: &[u8] = b"XRF USAGE replay | run | drive SEED N\n";

fn is_replay_word(word: &str) -> bool
    ensures { result ≡ pointwise nat_eq word.now (codes "replay") }
{
    word == "replay"
}

fn asks_replay(words: &[String]) -> bool
    ensures { result ≡ is_replay words.now }
{
    match words {
        [word] => is_replay_word(word.as_str()),
        _ => false,
    }
}

// writes a text, and answers a status where it is written whole
pub(crate) fn write_text<K: Sink>(sink: &mut K, text: &[u8], status: Status) -> Status
    ensures { WritesText (K.end sink.old) (K.end sink.new) text.now status result }
{
    match write_all(sink, text) {
        Ok(()) => status,
        Err(_) => Status::WriteFault,
    }
}

pub(crate) fn refuse<K: Sink>(alloc: Global, sink: &mut K, number: u32, reason: Reason) -> Status
    ensures { Refusing (K.end sink.old) (K.end sink.new) number reason result }
{
    match refusal_text(alloc, number, reason) {
        Ok(text) => write_text(sink, &text, Status::Refused),
        Err(_) => Status::NoMemory,
    }
}

pub(crate) fn write_made<K: Sink>(alloc: Global, sink: &mut K, made: Made) -> Status
    ensures { WritesMade (K.end sink.old) (K.end sink.new) made result }
{
    match made {
        Made::Document(text) => write_text(sink, &text, Status::Done),
        Made::Refusal(number, reason) => refuse(alloc, sink, number, reason),
        Made::NoMemory => Status::NoMemory,
    }
}

fn replay<S: Source, K: Sink>(alloc: Global, source: &mut S, sink: &mut K) -> Status
    ensures { Replayed (S.end source.old) (S.end source.new) (K.end sink.old) (K.end sink.new) result }
{
    match read_all(alloc, source, INPUT_MOST) {
        Ok(text) => write_made(alloc, sink, made_of(alloc, &text)),
        Err(ReadError::Fault) => Status::ReadFault,
        Err(ReadError::TooLarge) => refuse(alloc, sink, 0, Reason::Grammar(Fault::TooLarge)),
        Err(ReadError::NoMemory) => Status::NoMemory,
    }
}

fn answer<S: Source, K: Sink>(
    alloc: Global,
    words: &[String],
    source: &mut S,
    sink: &mut K,
) -> Status
    ensures answered { Answered words.now (S.end source.old) (S.end source.new) (K.end sink.old) (K.end sink.new) result }
{
    if asks_replay(words) {
        return replay(alloc, source, sink);
    }
    match drive_asked(words) {
        Some(asked) => drive(alloc, asked, sink),
        None => write_text(sink, USAGE, Status::Usage),
    }
}

/// Answers the words that the program is called with. `replay` reads the source to its end, runs
/// the scenario that it spells, and writes the document to the sink, or the line and the reason of
/// its refusal. `drive SEED N` writes the summary of the generated run of the seed with N turns, and
/// the source is left as it was. Other words are answered by the usage, and the source is left too.
/// A fault of the source or the sink is answered only where its count of faults has risen, and want
/// of memory only before anything is written.
pub fn batch<S: Source, K: Sink>(
    alloc: Global,
    words: &[String],
    source: &mut S,
    sink: &mut K,
) -> Status
    ensures answered { Answered words.now (S.end source.old) (S.end source.new) (K.end sink.old) (K.end sink.new) result }
    ensures complete { Complete words.now (S.end source.old) (S.end source.new) (K.end sink.old) (K.end sink.new) result }
{
    answer(alloc, words, source, sink)
}

/// An input has a document or a refusal, one at most of each, and never both.
pub fn one_answer()
    ensures each { HasAnswer }
    ensures text { OneText }
    ensures one { OneRefusal }
    ensures refusal { NeverRefused }
{}
