//! The messages that an owner sends.

ghost use Rattle.std.specs.Prelude.{◌≡◌, ◌+◌, ◌-◌, ◌||◌, ◌<◌, List, true, false, length, slice_get, Some, None, is_some};
ghost use Rattle.xrf_msg.specs.Messages.{is_tracked};
ghost use Rattle.xrf_terms.specs.Table.{is_of, row_of};
ghost use Rattle.xrf_history.specs.Events.{Event};
ghost use Rattle.xrf_history.specs.Notices.{epoch};
ghost use Rattle.xrf_history.specs.Reserving.{or_else};
ghost use Rattle.xrf_history.specs.Sending.{tracked_rows, on_message, off_message, if_tracked, at_level_two, change_message, message_of_catch_up, is_end, message_due, may_write};
ghost use Rattle.xrf_terms.specs.declared.rows.Row.{Row as Held};
ghost use Rattle.xrf_active.specs.Changes.{off_row};
ghost use Rattle.xrf_active.specs.Standing.{Stands};

use crate::active::Active;
use xrf_base::{Inc, Item, Name8};
use xrf_ctl::Level;
use xrf_history::Settings;
use xrf_msg::{Message, Writer};
use xrf_terms::{Row, TermTable};

/// The messages of an epoch: what of them is sent, whether the catch-up has ended, and the message of
/// a change of the table that is due since.
#[derive(Clone, Copy)]
pub struct Sending {
    pub writer: Writer,
    pub has_ended: bool,
    pub change: Option<Message>,
}

impl Sending {
    /// The table changed, and this message of it is due, if there is one.
    pub(crate) fn changed(&mut self, message: Option<Message>)
        ensures writer { self.new.writer ≡ self.old.writer }
        ensures ended { self.new.has_ended ≡ self.old.has_ended }
        ensures change { self.new.change ≡ or_else message self.old.change }
    {
        if message.is_some() {
            self.change = message;
        }
    }

    /// A message is sent, and so none of a change is due.
    pub(crate) fn sent(&mut self, message: &Message)
        requires { self.old.writer.seq < 4294967295 }
        ensures epoch { self.new.writer.epoch ≡ self.old.writer.epoch }
        ensures sent { self.new.writer.seq ≡ self.old.writer.seq + 1 }
        ensures cursor { self.new.writer.cursor ≡ self.old.writer.cursor }
        ensures ended { self.new.has_ended ≡ (self.old.has_ended || is_end message.now) }
        ensures change { self.new.change ≡ None }
    {
        self.writer.wrote();
        self.has_ended = self.has_ended || is_end(message);
        self.change = None;
    }
}

// the row is of this terminal
fn is_of(row: &Row, term: Name8) -> bool
    ensures { result ≡ is_of term row.now }
{
    row.term == term
}

// the row of a terminal, if it has one
fn row_of(table: &TermTable, term: Name8) -> Option<Row>
    ensures { result ≡ row_of term table.now }
{
    for place in 0..table.count() {
        let row = table.row(place);
        if is_of(&row, term) {
            return Some(row);
        }
    }
    None
}

// a terminal of this row is one that messages tell of
fn is_tracked(row: &Row) -> bool
    ensures { result ≡ is_tracked row.now.class }
{
    row.class >= 1 && row.class <= 2
}

// row number `k` of those of class 1 or 2
fn tracked_row(table: &TermTable, k: u32) -> Option<Row>
    ensures { result ≡ slice_get (tracked_rows table.now) k }
{
    let mut left = k;
    for place in 0..table.count() {
        let row = table.row(place);
        if is_tracked(&row) {
            if left == 0 {
                return Some(row);
            }
            left -= 1;
        }
    }
    None
}

// the message that a terminal is on
fn on_message(level: Level, epoch: Inc, seq: u32, row: &Row) -> Message
    ensures { result ≡ on_message level epoch seq row.now }
{
    match level {
        Level::One => Message::Term {
            epoch,
            seq,
            term: row.term,
            class: row.class,
            on: true,
        },
        Level::Two => Message::User {
            epoch,
            seq,
            term: row.term,
            class: row.class,
            on: true,
            user: row.user,
        },
    }
}

// the message that a terminal is off
fn off_message(level: Level, epoch: Inc, seq: u32, row: &Row) -> Message
    ensures { result ≡ off_message level epoch seq row.now }
{
    match level {
        Level::One => Message::Term {
            epoch,
            seq,
            term: row.term,
            class: row.class,
            on: false,
        },
        Level::Two => Message::User {
            epoch,
            seq,
            term: row.term,
            class: row.class,
            on: false,
            user: None,
        },
    }
}

// message number `seq` of a catch-up
fn catch_up_message(p: &Settings, epoch: Inc, seq: u32, table: &TermTable) -> Message
    ensures { result ≡ message_of_catch_up p.now epoch seq table.now }
{
    if seq == 0 {
        return Message::Begin { epoch };
    }
    match tracked_row(table, seq - 1) {
        Some(row) => on_message(p.level, epoch, seq, &row),
        None => Message::End { epoch, seq },
    }
}

// the message of an item on a terminal that is on
fn on_if_tracked(p: &Settings, epoch: Inc, seq: u32, row: Option<Row>) -> Option<Message>
    ensures { result ≡ if_tracked p.now.level epoch seq true row }
{
    let row = row?;
    if is_tracked(&row) {
        Some(on_message(p.level, epoch, seq, &row))
    } else {
        None
    }
}

// the message of an item on a terminal that is off
fn off_if_tracked(p: &Settings, epoch: Inc, seq: u32, row: Option<Row>) -> Option<Message>
    ensures { result ≡ if_tracked p.now.level epoch seq false row }
{
    let row = row?;
    if is_tracked(&row) {
        Some(off_message(p.level, epoch, seq, &row))
    } else {
        None
    }
}

fn is_end(message: &Message) -> bool
    ensures { result ≡ is_end message.now }
{
    matches!(message, Message::End { .. })
}

/// The row of a terminal that an item takes off.
pub(crate) fn off_row(item: &Item, table: &TermTable) -> Option<Row>
    ensures { result ≡ off_row item.now table.now }
{
    match item {
        Item::Logoff(term) => row_of(table, *term),
        _ => None,
    }
}

/// The message of an item that changed the table, by the row that it took off and the table after it.
pub(crate) fn change_message(
    p: &Settings,
    writer: &Writer,
    item: &Item,
    off: Option<Row>,
    table: &TermTable,
) -> Option<Message>
    ensures { (before : List Held) → off_row item.now before ≡ off → result ≡ change_message p.now.level writer.now.epoch writer.now.seq item.now before table.now }
{
    let Writer { epoch, seq, .. } = *writer;
    match item {
        Item::Logon(term, _) => on_if_tracked(p, epoch, seq, row_of(table, *term)),
        Item::Logoff(_) => off_if_tracked(p, epoch, seq, off),
        Item::Signon(term, _) => user_message(p, epoch, seq, row_of(table, *term)),
        Item::Signoff(term) => user_message(p, epoch, seq, row_of(table, *term)),
        _ => None,
    }
}

// the message of a user that signs on or off, at level two alone
fn user_message(p: &Settings, epoch: Inc, seq: u32, row: Option<Row>) -> Option<Message>
    ensures { result ≡ at_level_two p.now.level (if_tracked p.now.level epoch seq true row) }
{
    match p.level {
        Level::One => None,
        Level::Two => on_if_tracked(p, epoch, seq, row),
    }
}

impl Active {
    /// The message that is due.
    pub(crate) fn message_due(&self) -> Option<Message>
        ensures { (h : List Event) → Stands self.now h → result ≡ message_due self.now.settings h }
    {
        let Some(sending) = self.sending else {
            return None;
        };
        if sending.has_ended {
            return sending.change;
        }
        let Writer { epoch, seq, .. } = sending.writer;
        Some(catch_up_message(&self.settings, epoch, seq, &self.rooms.table))
    }

    /// Whether the next message finds a slot whose message was taken.
    pub(crate) fn may_write(&self) -> bool
        ensures { (h : List Event) → Stands self.now h → is_some (epoch h) ≡ true → result ≡ may_write self.now.settings h }
    {
        match self.sending {
            Some(sending) => sending.writer.may_write(self.settings.limits.ring),
            None => false,
        }
    }
}
