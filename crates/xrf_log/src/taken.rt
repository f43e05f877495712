ghost use Rattle.std.specs.Prelude.{◌≡◌, ℕ, ◌+◌, ◌<◌, ◌≤◌, [], ◌∷◌, List, not, length, filter, reverse, slice_get, Some, IfOk, vec_len, vec_capacity};
ghost use Rattle.std.specs.List.{list_any};
ghost use Rattle.xrf_logrec.specs.LogRecords.{same_unit};
ghost use Rattle.xrf_logrec.specs.declared.records.LogRec.{LogRec as Rec};
ghost use Rattle.xrf_log.specs.Flight.{ends, flight, put_of, open_puts, undo_rows};
ghost use Rattle.xrf_log.specs.Kept.{order_of, IsNewest};

use std::alloc::{AllocError, Global};
use std::marker::Model;
use xrf_base::UnitId;
use xrf_logrec::{LogRec, Undo};

/// A put of a unit, and what undoes it.
#[derive(Clone, Copy)]
pub(crate) struct Row {
    pub unit: UnitId,
    pub undo: Undo,
}

/// The records that a scan took, with the units in flight and their puts, each list oldest first.
/// Its value is the records, newest first, and how many there may be.
#[derive(Drop)]
pub(crate) struct Taken {
    records: Vec<LogRec>,
    units: Vec<UnitId>,
    rows: Vec<Row>,
    // no unit that has ended is later in the order of units
    newest: u64,
}

impl Model for Taken {
    ghost use Rattle.xrf_log.specs.Taken.{Records};

    ghost Value = { Records };

    ghost use Rattle.xrf_log.specs.Kept.{records_of, IsKept};

    ghost view = { records_of };

    ghost invariant = { IsKept };
}

impl Taken {
    /// No record, and memory for `most` of them.
    pub fn new(alloc: Global, most: usize) -> Result<Taken, AllocError>
        ensures { IfOk result (λ taken. taken ≡ record { most = most; list = [] }) }
    {
        let records = Vec::with_capacity(alloc, most)?;
        let units = Vec::with_capacity(alloc, most)?;
        let rows = Vec::with_capacity(alloc, most)?;
        Ok(Taken {
            records,
            units,
            rows,
            newest: 0,
        })
    }

    /// Forgets the records.
    pub fn clear(&mut self)
        ensures { self.new ≡ record { most = self.old.most; list = [] } }
    {
        self.records.clear();
        self.units.clear();
        self.rows.clear();
        self.newest = 0;
    }

    /// How many records were taken.
    pub fn count(&self) -> usize
        ensures { result ≡ length self.now.list }
    {
        self.records.len()
    }

    /// Takes one more record.
    pub fn push(&mut self, rec: LogRec)
        requires { length self.old.list < self.old.most }
        ensures { self.new ≡ record { most = self.old.most; list = rec ∷ self.old.list } }
    {
        add_record(
            &self.records,
            self.newest,
            &mut self.units,
            &mut self.rows,
            &rec,
        );
        self.newest = newest_with(self.newest, &rec);
        self.records.push_reserved(rec);
    }

    /// How many units are in flight.
    pub fn unit_count(&self) -> usize
        ensures { result ≡ length (flight self.now.list) }
    {
        self.units.len()
    }

    /// Unit `k` in flight, by first put.
    pub fn unit(&self, k: usize) -> UnitId
        requires { k < length (flight self.now.list) }
        ensures { slice_get (flight self.now.list) k ≡ Some result }
    {
        self.units[k]
    }

    /// How many undo rows there are.
    pub fn undo_count(&self) -> usize
        ensures { result ≡ length (undo_rows self.now.list) }
    {
        self.rows.len()
    }

    /// Undo row `k`, the newest put first.
    pub fn undo(&self, k: usize) -> Undo
        requires { k < length (undo_rows self.now.list) }
        ensures { slice_get (undo_rows self.now.list) k ≡ Some result }
    {
        self.rows[self.rows.len() - 1 - k].undo
    }
}

// how the units in flight and their puts change with a record
fn add_record(
    records: &[LogRec],
    newest: u64,
    units: &mut Vec<UnitId>,
    rows: &mut Vec<Row>,
    rec: &LogRec,
)
    requires newest { IsNewest newest (reverse records.now) }
    requires units { units.old.items ≡ flight (reverse records.now) }
    requires rows { rows.old.items ≡ reverse (open_puts (reverse records.now)) }
    requires unit_room { length records.now < vec_capacity units.old }
    requires row_room { length records.now < vec_capacity rows.old }
    ensures units { units.new.items ≡ flight (rec.now ∷ reverse records.now) }
    ensures rows { rows.new.items ≡ reverse (open_puts (rec.now ∷ reverse records.now)) }
    ensures unit_capacity { vec_capacity units.new ≡ vec_capacity units.old }
    ensures row_capacity { vec_capacity rows.new ≡ vec_capacity rows.old }
{
    match rec {
        LogRec::Put { unit, rrn, before } => {
            let undo = Undo {
                rrn: *rrn,
                before: *before,
            };
            add_put(records, newest, units, rows, Row { unit: *unit, undo });
        }
        LogRec::Commit { unit } => end_unit(units, rows, *unit),
        LogRec::Backout { unit } => end_unit(units, rows, *unit),
    }
}

// adds a put to the units in flight and their puts, unless its unit has ended
fn add_put(records: &[LogRec], newest: u64, units: &mut Vec<UnitId>, rows: &mut Vec<Row>, row: Row)
    requires newest { IsNewest newest (reverse records.now) }
    requires units { units.old.items ≡ flight (reverse records.now) }
    requires rows { rows.old.items ≡ reverse (open_puts (reverse records.now)) }
    requires unit_room { vec_len units.old < vec_capacity units.old }
    requires row_room { vec_len rows.old < vec_capacity rows.old }
    ensures units { units.new.items ≡ flight (put_of row ∷ reverse records.now) }
    ensures rows { rows.new.items ≡ reverse (open_puts (put_of row ∷ reverse records.now)) }
    ensures unit_capacity { vec_capacity units.new ≡ vec_capacity units.old }
    ensures row_capacity { vec_capacity rows.new ≡ vec_capacity rows.old }
{
    if contains(units, row.unit) {
        rows.push_reserved(row);
    } else if !has_ended(row.unit, newest, records) {
        units.push_reserved(row.unit);
        rows.push_reserved(row);
    }
}

// takes a unit that ends out of the units in flight, and its puts out of theirs
fn end_unit(units: &mut Vec<UnitId>, rows: &mut Vec<Row>, unit: UnitId)
    ensures units { units.new.items ≡ filter (λ u. not (same_unit u unit)) units.old.items }
    ensures rows { rows.new.items ≡ filter (λ row. not (same_unit row.unit unit)) rows.old.items }
    ensures unit_capacity { vec_capacity units.new ≡ vec_capacity units.old }
    ensures row_capacity { vec_capacity rows.new ≡ vec_capacity rows.old }
{
    remove_unit(units, unit);
    remove_rows(rows, unit);
}

fn is_same(a: UnitId, b: UnitId) -> bool
    ensures { result ≡ same_unit a b }
{
    a == b
}

fn is_end(unit: UnitId, rec: &LogRec) -> bool
    ensures { result ≡ ends unit rec.now }
{
    match rec {
        LogRec::Put { .. } => false,
        LogRec::Commit { unit: ended } => is_same(unit, *ended),
        LogRec::Backout { unit: ended } => is_same(unit, *ended),
    }
}

fn is_ended(unit: UnitId, records: &[LogRec]) -> bool
    ensures { result ≡ list_any (ends unit) records.now }
{
    records.iter().any(|rec| is_end(unit, rec))
}

// units in the order in which they are given, as numbers
fn order_of(unit: UnitId) -> u64
    ensures { result ≡ order_of unit }
{
    unit.inc as u64 * 4_294_967_296 + unit.serial as u64
}

// the later of the newest unit that has ended and a unit that ends
fn later(newest: u64, ended: UnitId) -> u64
    ensures { (newest ≤ result) × (order_of ended ≤ result) }
{
    let order = order_of(ended);
    if newest < order { order } else { newest }
}

// the newest unit that has ended, after one record more
#[tactic(auto, using(crate::proofs::NewestLaws::newest_put, crate::proofs::NewestLaws::newest_commit, crate::proofs::NewestLaws::newest_backout))]
fn newest_with(newest: u64, rec: &LogRec) -> u64
    ensures { (log : List Rec) → IsNewest newest log → IsNewest result (rec.now ∷ log) }
{
    match rec {
        LogRec::Put { .. } => newest,
        LogRec::Commit { unit } => later(newest, *unit),
        LogRec::Backout { unit } => later(newest, *unit),
    }
}

// whether a unit has ended; one that is later than all that have ended is not sought
fn has_ended(unit: UnitId, newest: u64, records: &[LogRec]) -> bool
    requires { IsNewest newest (reverse records.now) }
    ensures { result ≡ list_any (ends unit) records.now }
{
    order_of(unit) <= newest && is_ended(unit, records)
}

fn contains(units: &[UnitId], unit: UnitId) -> bool
    ensures { result ≡ list_any (λ u. same_unit u unit) units.now }
{
    units.iter().any(|u| is_same(*u, unit))
}

fn remove_unit(units: &mut Vec<UnitId>, unit: UnitId)
    ensures items { units.new.items ≡ filter (λ u. not (same_unit u unit)) units.old.items }
    ensures capacity { vec_capacity units.new ≡ vec_capacity units.old }
{
    units.retain(|u| !is_same(*u, unit));
}

fn remove_rows(rows: &mut Vec<Row>, unit: UnitId)
    ensures items { rows.new.items ≡ filter (λ row. not (same_unit row.unit unit)) rows.old.items }
    ensures capacity { vec_capacity rows.new ≡ vec_capacity rows.old }
{
    rows.retain(|row| !is_same(row.unit, unit));
}
