//! The changes of a table's rows, which keep its order and its memory.

ghost use Rattle.std.specs.Prelude.{◌≡◌, ◌≤◌, ◌&&◌, false, [], vec_capacity};
ghost use Rattle.xrf_terms.specs.Table.{IsTable, without};
ghost use Rattle.xrf_terms.specs.Items.{logon, logoff, signon, signoff};
ghost use Rattle.xrf_terms.specs.Tracking.{tracked_row, set_row, switched, tracked_after, no_place, is_full, IsApplied, settled_row, settled};

use crate::rows::{Applied, How, MOST, Row, find_row, insert_row, remove_row, replace_row};
use xrf_base::{ItemAnswer, Name8};
use xrf_msg::Message;

/// A terminal logs on.
pub fn logged_on(rows: &mut Vec<Row>, term: Name8, class: u8) -> ItemAnswer
    requires table { IsTable rows.old.items }
    requires room { 64 ≤ vec_capacity rows.old }
    ensures answer { result ≡ (logon term class rows.old.items).answer }
    ensures rows { rows.new.items ≡ (logon term class rows.old.items).rows }
    ensures table { IsTable rows.new.items }
    ensures room { 64 ≤ vec_capacity rows.new }
{
    if find_row(rows.as_slice(), term).is_some() {
        return ItemAnswer::TermUsed;
    }
    if rows.len() >= MOST {
        return ItemAnswer::TermsFull;
    }
    let row = Row {
        term,
        class,
        how: How::On,
        user: None,
    };
    insert_row(rows, row);
    ItemAnswer::Done
}

/// A terminal logs off.
pub fn logged_off(rows: &mut Vec<Row>, term: Name8) -> ItemAnswer
    requires table { IsTable rows.old.items }
    requires room { 64 ≤ vec_capacity rows.old }
    ensures answer { result ≡ (logoff term rows.old.items).answer }
    ensures rows { rows.new.items ≡ (logoff term rows.old.items).rows }
    ensures table { IsTable rows.new.items }
    ensures room { 64 ≤ vec_capacity rows.new }
{
    if remove_row(rows, term) {
        ItemAnswer::Done
    } else {
        ItemAnswer::NotOn
    }
}

/// A user signs on at a terminal.
pub fn signed_on(rows: &mut Vec<Row>, term: Name8, user: Name8) -> ItemAnswer
    requires table { IsTable rows.old.items }
    requires room { 64 ≤ vec_capacity rows.old }
    ensures answer { result ≡ (signon term user rows.old.items).answer }
    ensures rows { rows.new.items ≡ (signon term user rows.old.items).rows }
    ensures table { IsTable rows.new.items }
    ensures room { 64 ≤ vec_capacity rows.new }
{
    let Some(mut row) = find_row(rows.as_slice(), term) else {
        return ItemAnswer::NotOn;
    };
    if row.user.is_some() {
        return ItemAnswer::UserOn;
    }
    row.user = Some(user);
    replace_row(rows, row);
    ItemAnswer::Done
}

/// The user of a terminal signs off.
pub fn signed_off(rows: &mut Vec<Row>, term: Name8) -> ItemAnswer
    requires table { IsTable rows.old.items }
    requires room { 64 ≤ vec_capacity rows.old }
    ensures answer { result ≡ (signoff term rows.old.items).answer }
    ensures rows { rows.new.items ≡ (signoff term rows.old.items).rows }
    ensures table { IsTable rows.new.items }
    ensures room { 64 ≤ vec_capacity rows.new }
{
    let Some(mut row) = find_row(rows.as_slice(), term) else {
        return ItemAnswer::NotOn;
    };
    if row.user.is_none() {
        return ItemAnswer::NoUser;
    }
    row.user = None;
    replace_row(rows, row);
    ItemAnswer::Done
}

/// A tracked terminal is on.
fn set_tracked(rows: &mut Vec<Row>, row: Row) -> Applied
    requires table { IsTable rows.old.items }
    requires room { 64 ≤ vec_capacity rows.old }
    ensures rows { rows.new.items ≡ set_row row rows.old.items }
    ensures answer { IsApplied result (no_place row.term rows.old.items) rows.old.items rows.new.items }
    ensures table { IsTable rows.new.items }
    ensures room { 64 ≤ vec_capacity rows.new }
{
    if find_row(rows.as_slice(), row.term).is_some() {
        if replace_row(rows, row) {
            return Applied::Changed;
        }
        return Applied::Same;
    }
    if rows.len() >= MOST {
        return Applied::Full;
    }
    insert_row(rows, row);
    Applied::Changed
}

/// A tracked terminal is off.
fn remove_tracked(rows: &mut Vec<Row>, term: Name8) -> Applied
    requires table { IsTable rows.old.items }
    requires room { 64 ≤ vec_capacity rows.old }
    ensures rows { rows.new.items ≡ without term rows.old.items }
    ensures answer { IsApplied result false rows.old.items rows.new.items }
    ensures table { IsTable rows.new.items }
    ensures room { 64 ≤ vec_capacity rows.new }
{
    if remove_row(rows, term) {
        Applied::Changed
    } else {
        Applied::Same
    }
}

/// The row that a message tells of, where its terminal is on, or else that its terminal is off.
fn switch_tracked(rows: &mut Vec<Row>, row: Row, on: bool) -> Applied
    requires table { IsTable rows.old.items }
    requires room { 64 ≤ vec_capacity rows.old }
    ensures rows { rows.new.items ≡ switched row on rows.old.items }
    ensures answer { IsApplied result (on && no_place row.term rows.old.items) rows.old.items rows.new.items }
    ensures table { IsTable rows.new.items }
    ensures room { 64 ≤ vec_capacity rows.new }
{
    if on {
        set_tracked(rows, row)
    } else {
        remove_tracked(rows, row.term)
    }
}

/// The table is empty.
fn empty_rows(rows: &mut Vec<Row>) -> Applied
    requires room { 64 ≤ vec_capacity rows.old }
    ensures rows { rows.new.items ≡ [] }
    ensures answer { IsApplied result false rows.old.items rows.new.items }
    ensures room { 64 ≤ vec_capacity rows.new }
{
    if rows.is_empty() {
        return Applied::Same;
    }
    rows.clear();
    Applied::Changed
}

/// Applies a message of the active.
pub fn applied(rows: &mut Vec<Row>, message: &Message) -> Applied
    requires table { IsTable rows.old.items }
    requires room { 64 ≤ vec_capacity rows.old }
    ensures rows { rows.new.items ≡ tracked_after rows.old.items message.now }
    ensures answer { IsApplied result (is_full rows.old.items message.now) rows.old.items rows.new.items }
    ensures table { IsTable rows.new.items }
    ensures room { 64 ≤ vec_capacity rows.new }
{
    match message {
        Message::Begin { .. } => empty_rows(rows),
        Message::Term {
            term,
            class,
            on,
            ..
        } => switch_tracked(rows, tracked(*term, *class, None), *on),
        Message::End { .. } => Applied::Same,
        Message::User {
            term,
            class,
            on,
            user,
            ..
        } => switch_tracked(rows, tracked(*term, *class, *user), *on),
    }
}

fn tracked(term: Name8, class: u8, user: Option<Name8>) -> Row
    ensures { result ≡ tracked_row term class user }
{
    Row {
        term,
        class,
        how: How::Tracked,
        user,
    }
}

/// A row after a takeover.
fn settle_row(row: Row, force: bool) -> Row
    ensures { result ≡ settled_row force row row.how }
{
    if row.how != How::Tracked {
        return row;
    }
    let how = if row.class == 1 {
        How::Switched
    } else {
        How::Acquired
    };
    let user = if force { None } else { row.user };
    Row { how, user, ..row }
}

/// Settles the tracked rows.
pub fn settle_rows(rows: &mut Vec<Row>, force: bool)
    requires table { IsTable rows.old.items }
    requires room { 64 ≤ vec_capacity rows.old }
    ensures rows { rows.new.items ≡ settled force rows.old.items }
    ensures table { IsTable rows.new.items }
    ensures room { 64 ≤ vec_capacity rows.new }
{
    settle_each(rows, force);
}

fn settle_each(rows: &mut [Row], force: bool)
    ensures { rows.new ≡ settled force rows.old }
{
    for row in rows.iter_mut() {
        *row = settle_row(*row, force);
    }
}
