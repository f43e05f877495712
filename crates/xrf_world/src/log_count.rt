//! What is counted of the log.

ghost use Rattle.std.specs.Prelude.{◌≡◌, ℕ, ◌+◌, ◌<◌, ◌≤◌, not, true, false, if◌then◌else◌, List, [], ◌∷◌, length, filter, IfOk, vec_len, vec_capacity};
ghost use Rattle.std.specs.List.{list_any};
ghost use Rattle.xrf_log.specs.Flight.{flight};
ghost use Rattle.xrf_logrec.specs.LogRecords.{same_unit};
ghost use Rattle.xrf_logrec.specs.declared.records.LogRec.{LogRec as Rec};
ghost use Rattle.xrf_trace.specs.Landing.{opens};
ghost use Rattle.xrf_trace.specs.declared.entry.Land.TheVariants as land;
ghost use Rattle.xrf_world.specs.Counts.{LogIs, Joins, commits};
ghost use Rattle.xrf_world.specs.Report.{counts_of_log};

use crate::state::LogCounts;
use std::alloc::{AllocError, Global};
use xrf_base::UnitId;
use xrf_gated::OPEN;
use xrf_logrec::LogRec;
use xrf_setup::Landing;
use xrf_trace::Land;

/// What is counted of the log: its records, the units that are committed, and the units in flight, by first put.
#[derive(Drop)]
pub(crate) struct LogCount {
    pub(crate) records: u32,
    pub(crate) committed: u32,
    pub(crate) flight: Vec<UnitId>,
}

fn opens_after(landing: &Landing) -> bool
    ensures { result ≡ opens (land.Stop landing.now) }
{
    match landing {
        Landing::Nothing => false,
        Landing::All => true,
        Landing::Torn(torn) => torn.bytes()[0] == OPEN,
    }
}

// whether the gate that landed is that of an open slot
fn opens(land: &Land) -> bool
    ensures { result ≡ opens land.now }
{
    match land {
        Land::Full => true,
        Land::Lost => false,
        Land::Stop(landing) => opens_after(landing),
        Land::Fail(landing) => opens_after(landing),
    }
}

fn is_same(a: UnitId, b: UnitId) -> bool
    ensures { result ≡ same_unit a b }
{
    a == b
}

fn contains(units: &[UnitId], unit: UnitId) -> bool
    ensures { result ≡ list_any (λ u. same_unit u unit) units.now }
{
    units.iter().any(|u| is_same(*u, unit))
}

// how many units there are, where they are no more than this number
fn count_within(units: &[UnitId], most: u32) -> u32
    requires { length units.now ≤ most }
    ensures { result ≡ length units.now }
{
    units.len() as u32
}

fn remove_unit(units: &mut Vec<UnitId>, unit: UnitId)
    ensures items { units.new.items ≡ filter (λ u. not (same_unit u unit)) units.old.items }
    ensures capacity { vec_capacity units.new ≡ vec_capacity units.old }
{
    units.retain(|u| !is_same(*u, unit));
}

// how the units in flight change with a record of a unit that has not ended
fn join_unit(units: &mut Vec<UnitId>, rec: &LogRec)
    requires joins { (slots : ℕ) × (records : List Rec) × (units.old.items ≡ flight records) × Joins slots records rec.now × (slots ≤ vec_capacity units.old) }
    ensures units { (slots : ℕ) (records : List Rec) → units.old.items ≡ flight records → Joins slots records rec.now → units.new.items ≡ flight (rec.now ∷ records) }
    ensures capacity { vec_capacity units.new ≡ vec_capacity units.old }
{
    match rec {
        LogRec::Put { unit, .. } => {
            if !contains(units, *unit) {
                units.push_reserved(*unit);
            }
        }
        LogRec::Commit { unit } => remove_unit(units, *unit),
        LogRec::Backout { unit } => remove_unit(units, *unit),
    }
}

fn is_commit(rec: &LogRec) -> u32
    ensures { result ≡ commits rec.now }
{
    match rec {
        LogRec::Commit { .. } => 1,
        _ => 0,
    }
}

impl LogCount {
    /// Of an empty log of so many slots.
    pub(crate) fn new(alloc: Global, slots: usize) -> Result<LogCount, AllocError>
        ensures log { IfOk result (λ count. LogIs count []) }
        ensures room { IfOk result (λ count. vec_capacity count.flight ≡ slots) }
    {
        Ok(LogCount {
            records: 0,
            committed: 0,
            flight: Vec::with_capacity(alloc, slots)?,
        })
    }

    // a record joins the log
    fn join(&mut self, rec: &LogRec)
        requires joins { (slots : ℕ) × (records : List Rec) × LogIs self.old records × Joins slots records rec.now × (slots ≤ vec_capacity self.old.flight) }
        ensures log { (slots : ℕ) (records : List Rec) → LogIs self.old records → Joins slots records rec.now → LogIs self.new (rec.now ∷ records) }
        ensures capacity { vec_capacity self.new.flight ≡ vec_capacity self.old.flight }
    {
        self.records += 1;
        self.committed += is_commit(rec);
        join_unit(&mut self.flight, rec);
    }

    /// After a LOGOPEN of a record, which joins the log where its gate lands open.
    pub(crate) fn follow_open(&mut self, rec: &LogRec, land: &Land)
        requires joins { (slots : ℕ) × (records : List Rec) × LogIs self.old records × (opens land.now ≡ true → Joins slots records rec.now)
            × (slots ≤ vec_capacity self.old.flight) }
        ensures log { (slots : ℕ) (records : List Rec) → LogIs self.old records → (opens land.now ≡ true → Joins slots records rec.now)
            → LogIs self.new (if opens land.now then rec.now ∷ records else records) }
        ensures capacity { vec_capacity self.new.flight ≡ vec_capacity self.old.flight }
    {
        if opens(land) {
            self.join(rec);
        }
    }

    /// Its numbers.
    pub(crate) fn counts(&self) -> LogCounts
        requires { (records : List Rec) × LogIs self.now records }
        ensures { (records : List Rec) → LogIs self.now records → result ≡ counts_of_log records }
    {
        LogCounts {
            records: self.records,
            committed: self.committed,
            flight: count_within(&self.flight, self.records),
        }
    }
}
