//! The writes of log records, in the restart and of items.

ghost use Rattle.std.specs.Prelude.{◌≡◌, ℕ, ◌<◌, ◌∷◌, List, Option, Some, None, true, false, length};
ghost use Rattle.xrf_file.specs.Ledger.{IsPending};
ghost use Rattle.xrf_file.specs.declared.answers.Plan.{Plan as Planned};
ghost use Rattle.xrf_history.specs.Events.{Event, LogLooked, LogClosed, LogBodied, LogOpened};
ghost use Rattle.xrf_history.specs.Rows.{log_write};
ghost use Rattle.xrf_history.specs.declared.settings.Settings.{Settings as Set};
ghost use Rattle.xrf_history.specs.Holding.{is_granted, is_restarted};
ghost use Rattle.xrf_history.specs.Working.{after_record, answer_of_record};
ghost use Rattle.xrf_history.specs.Next.{record_of_plan, after_log_open};
ghost use Rattle.xrf_job.specs.Stages.{AtHand, Within, inside_of};
ghost use Rattle.xrf_active.specs.Standing.{Stands};

use crate::active::Active;
use xrf_base::ItemAnswer;
use xrf_file::{Plan, Units};
use xrf_gated::OPEN;
use xrf_history::Settings;
use xrf_job::Stage;
use xrf_logrec::LogRec;

/// Where a write of a log record begins: its slot is looked at where it was used before.
pub(crate) fn log_stage(p: &Settings, place: u32, rec: LogRec) -> Stage
    ensures stage { inside_of result ≡ Some (log_write p.now place rec) }
    ensures within { (h : List Event) → AtHand p.now h rec → Within result p.now h }
{
    if u32::from(p.limits.log) <= place {
        Stage::LogLook(place, rec)
    } else {
        Stage::LogBody(place, rec)
    }
}

/// The record that an item's plan logs is in the log.
pub(crate) fn count_record(units: &mut Units, rec: &LogRec)
    requires planned { (plan : Planned) × (slot : List ℕ) × (record_of_plan plan slot ≡ Some rec.now) × IsPending units.old plan }
    requires next { units.old.next < 65535 }
    ensures { units.new ≡ after_record rec.now units.old }
{
    match rec {
        LogRec::Put { unit, rrn, before } => units.put_logged(*unit, *rrn, *before),
        LogRec::Commit { unit } => units.ended(*unit),
        LogRec::Backout { unit } => units.ended(*unit),
    }
}

impl Active {
    /// It looked at the gate of the slot of a log record.
    pub(crate) fn log_looked(&mut self, place: u32, rec: &LogRec, gate: u8)
        ensures settings { self.new.settings ≡ self.old.settings }
        ensures stands { (h : List Event) → Stands self.old h → AtHand self.old.settings h rec.now → Stands self.new (LogLooked place gate ∷ h) }
    {
        self.common.stage = if gate == OPEN {
            Stage::LogClose(place, *rec)
        } else {
            Stage::LogBody(place, *rec)
        };
    }

    /// It closed the slot.
    pub(crate) fn log_closed(&mut self, place: u32, rec: &LogRec)
        ensures settings { self.new.settings ≡ self.old.settings }
        ensures stands { (h : List Event) → Stands self.old h → AtHand self.old.settings h rec.now → Stands self.new (LogClosed place ∷ h) }
    {
        self.common.stage = Stage::LogBody(place, *rec);
    }

    /// It wrote the record behind the gate.
    pub(crate) fn log_bodied(&mut self, place: u32, rec: &LogRec)
        ensures settings { self.new.settings ≡ self.old.settings }
        ensures stands { (h : List Event) → Stands self.old h → AtHand self.old.settings h rec.now → Stands self.new (LogBodied place rec.now ∷ h) }
    {
        self.common.stage = Stage::LogOpen(place, *rec);
    }

    /// It opened the slot of a Backout in the restart, and so the unit is backed out.
    #[tactic(auto, using(xrf_job::proofs::Counts::counts))]
    pub(crate) fn backed_out(&mut self, place: u32, rec: &LogRec)
        requires { (h : List Event) × Stands self.old h × (length h < 16385) }
        ensures settings { self.new.settings ≡ self.old.settings }
        ensures stands { (h : List Event) → Stands self.old h → is_restarted h ≡ false → AtHand self.old.settings h rec.now → Stands self.new (LogOpened place rec.now ∷ h) }
    {
        self.opened += 1;
        self.common.stage = Stage::Boundary;
    }

    /// It opened the slot of an item's record, and so the record is in the log. The end of a unit
    /// answers its item.
    #[tactic(auto, using(xrf_job::proofs::Counts::counts, crate::proofs::Small::small_numbers))]
    pub(crate) fn item_logged(&mut self, place: u32, rec: &LogRec) -> Option<ItemAnswer>
        requires { (h : List Event) × Stands self.old h × (length h < 16385) × (is_restarted h ≡ true) × AtHand self.old.settings h rec.now }
        ensures settings { self.new.settings ≡ self.old.settings }
        ensures stands { (h : List Event) → Stands self.old h → is_restarted h ≡ true → AtHand self.old.settings h rec.now → Stands self.new (LogOpened place rec.now ∷ h) }
        ensures answer { result ≡ answer_of_record rec.now }
    {
        self.opened += 1;
        count_record(&mut self.rooms.units, rec);
        self.common.stage = logged_stage(rec, &self.plan);
        logged_answer(rec)
    }
}

// the end of a unit answers its item
fn logged_answer(rec: &LogRec) -> Option<ItemAnswer>
    ensures { result ≡ answer_of_record rec.now }
{
    match rec {
        LogRec::Put { .. } => None,
        LogRec::Commit { .. } => Some(ItemAnswer::Done),
        LogRec::Backout { .. } => Some(ItemAnswer::Done),
    }
}

// what a plan makes of a record of it that is in the log: the value of a put is written
fn logged_stage(rec: &LogRec, plan: &Plan) -> Stage
    ensures stage { inside_of result ≡ after_log_open rec.now plan.now }
    ensures within { (p : Set) (h : List Event) → is_granted h ≡ true → Within result p h }
{
    match (rec, *plan) {
        (
            LogRec::Put { .. },
            Plan::Put {
                unit,
                rrn,
                value,
                ..
            },
        ) => Stage::FileWrite(unit, rrn, value),
        _ => Stage::Boundary,
    }
}
