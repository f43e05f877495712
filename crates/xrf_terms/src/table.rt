ghost use Rattle.std.specs.Prelude.{◌≡◌, ◌<◌, ◌≤◌, [], Some, length, slice_get, IfOk};
ghost use Rattle.xrf_terms.specs.Table.{AreOrdered, backups};
ghost use Rattle.xrf_terms.specs.Items.{logon, logoff, signon, signoff};
ghost use Rattle.xrf_terms.specs.Tracking.{tracked_after, is_full, IsApplied, settled};

use crate::changes::{applied, logged_off, logged_on, settle_rows, signed_off, signed_on};
use crate::rows::{Applied, MOST, Row};
use std::alloc::{AllocError, Global};
use std::marker::Model;
use xrf_base::{ItemAnswer, Name8};
use xrf_msg::Message;

/// A table of terminals, at most 64, seen by contracts as its rows in the order of their names.
#[derive(Drop)]
pub struct TermTable {
    rows: Vec<Row>,
}

impl Model for TermTable {
    ghost use Rattle.std.specs.Prelude.{List, ◌≤◌, vec_capacity};
    ghost use Rattle.xrf_terms.specs.declared.rows.Row.{Row};
    ghost use Rattle.xrf_terms.specs.Table.{IsTable};

    ghost Value = { List Row };

    ghost view = { λ t. t.rows.items };

    ghost invariant = { λ t. IsTable t.rows.items × (64 ≤ vec_capacity t.rows) };
}

impl TermTable {
    /// The empty table, with all the memory that it will need.
    pub fn new(alloc: Global) -> Result<TermTable, AllocError>
        ensures { IfOk result (λ table. table ≡ []) }
    {
        let rows = Vec::with_capacity(alloc, MOST)?;
        Ok(TermTable { rows })
    }

    /// Removes every row.
    pub fn clear(&mut self)
        ensures { self.new ≡ [] }
    {
        self.rows.clear();
    }

    /// A terminal logs on: TermUsed where it has a row, TermsFull where there are 64 rows, else Done.
    pub fn logon(&mut self, term: Name8, class: u8) -> ItemAnswer
        ensures answer { result ≡ (logon term class self.old).answer }
        ensures rows { self.new ≡ (logon term class self.old).rows }
    {
        logged_on(&mut self.rows, term, class)
    }

    /// A terminal logs off: NotOn where it has no row, else Done.
    pub fn logoff(&mut self, term: Name8) -> ItemAnswer
        ensures answer { result ≡ (logoff term self.old).answer }
        ensures rows { self.new ≡ (logoff term self.old).rows }
    {
        logged_off(&mut self.rows, term)
    }

    /// A user signs on at a terminal: NotOn where it has no row, UserOn where the row has a user,
    /// else Done.
    pub fn signon(&mut self, term: Name8, user: Name8) -> ItemAnswer
        ensures answer { result ≡ (signon term user self.old).answer }
        ensures rows { self.new ≡ (signon term user self.old).rows }
    {
        signed_on(&mut self.rows, term, user)
    }

    /// The user of a terminal signs off: NotOn where it has no row, NoUser where the row has no user,
    /// else Done.
    pub fn signoff(&mut self, term: Name8) -> ItemAnswer
        ensures answer { result ≡ (signoff term self.old).answer }
        ensures rows { self.new ≡ (signoff term self.old).rows }
    {
        signed_off(&mut self.rows, term)
    }

    /// Applies a message of the active.
    pub fn apply(&mut self, message: &Message) -> Applied
        ensures rows { self.new ≡ tracked_after self.old message.now }
        ensures answer { IsApplied result (is_full self.old message.now) self.old self.new }
    {
        applied(&mut self.rows, message)
    }

    /// Settles the tracked rows at a takeover; with force they lose their users.
    pub fn settle(&mut self, force: bool)
        ensures { self.new ≡ settled force self.old }
    {
        settle_rows(&mut self.rows, force);
    }

    /// How many rows there are. They are in order, and at most 64.
    pub fn count(&self) -> usize
        ensures count { result ≡ length self.now }
        ensures ordered { AreOrdered self.now }
        ensures few { length self.now ≤ 64 }
    {
        self.rows.len()
    }

    /// The row at a place, from 0.
    pub fn row(&self, i: usize) -> Row
        requires { i < length self.now }
        ensures { slice_get self.now i ≡ Some result }
    {
        self.rows[i]
    }

    /// How many terminals have a backup session.
    pub fn backup_count(&self) -> usize
        ensures { result ≡ backups self.now }
    {
        self.rows.iter().filter(|row| row.class == 1).count()
    }
}
