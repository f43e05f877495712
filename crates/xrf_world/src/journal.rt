//! The journal of a World: its entries, the oldest first.

ghost use Rattle.std.specs.Prelude.{◌≡◌, ◌<◌, ◌∷◌, length, reverse, vec_capacity};

use xrf_base::{Name8, UnitId};
use xrf_cavm::Decided;
use xrf_cebt::{Cebt, CebtReply};
use xrf_ctl::{Control, Signal};
use xrf_exit::ExitAnswer;
use xrf_history::EndWhy;
use xrf_logrec::{Keypoint, LogRec};
use xrf_msg::Message;
use xrf_setup::{Landing, TornBytes};
use xrf_trace::{Act, Entry, Land, Who};

/// An entry joins the journal, which has room for it.
pub(crate) fn push_entry(journal: &mut Vec<Entry>, entry: &Entry)
    requires room { length (reverse journal.old.items) < vec_capacity journal.old }
    ensures trace { reverse journal.new.items ≡ entry.now ∷ reverse journal.old.items }
    ensures capacity { vec_capacity journal.new ≡ vec_capacity journal.old }
{
    // the check finds the layout of an entry only where each type in it is named
    let _who: Option<Who> = None;
    let _act: Option<Act> = None;
    let _land: Option<Land> = None;
    let _name: Option<Name8> = None;
    let _control: Option<Control> = None;
    let _message: Option<Message> = None;
    let _rec: Option<LogRec> = None;
    let _decided: Option<Decided> = None;
    let _landing: Option<Landing> = None;
    let _torn: Option<TornBytes> = None;
    let _keypoint: Option<Keypoint> = None;
    let _signal: Option<Signal> = None;
    let _why: Option<EndWhy> = None;
    let _cebt: Option<Cebt> = None;
    let _reply: Option<CebtReply> = None;
    let _exit: Option<ExitAnswer> = None;
    let _unit: Option<UnitId> = None;
    journal.push_reserved(*entry);
}
