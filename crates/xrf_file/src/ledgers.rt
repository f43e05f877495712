ghost use Rattle.std.specs.Prelude.{◌≡◌, ◌≢◌, ℕ, List, ◌+◌, ◌-◌, ◌<◌, ◌≤◌, ◌⊎◌, if◌then◌else◌, length, Option, Some, None, IfOk, slice_get};
ghost use Rattle.xrf_base.specs.Ranges.{AreLimits};
ghost use Rattle.xrf_file.specs.Rows.{unit_named, is_locked};
ghost use Rattle.xrf_file.specs.Ledger.{Ledger, IsUnitItem, plan_of, begin_answer, put_plan, get_plan, commit_plan, roll_plan, is_bad_rrn, is_log_full, after_begin, after_end, planned, logged, ended, keyed, started, fresh, oldest, undo_rows, IsPlanned, IsPending};
ghost use Rattle.xrf_file.specs.Steps.{AddsStep, Planned, Logged, Ended, Keyed};

use crate::answers::Plan;
use crate::rows::{
    LoggedPut, OpenUnit, count_hot, count_undo, find_unit, has_put, locks, nth_undo, remove_puts,
    remove_unit,
};
use std::alloc::{AllocError, Global};
use std::marker::Model;
use xrf_base::{Inc, Item, ItemAnswer, Limits, Name8, UnitId, Value};
use xrf_logrec::Undo;

/// How many units may be open.
const MOST_OPEN: usize = 8;

/// The units of a job, with their puts in the log and the numbers of the log. Its value is the ledger
/// of what was planned, logged, ended and keyed since the job began.
#[derive(Drop)]
pub struct Units {
    slots: u32,
    records: u16,
    inc: Inc,
    begun: u32,
    next: u32,
    start: u32,
    // in the order of BEGIN
    open_units: Vec<OpenUnit>,
    // the oldest first
    puts: Vec<LoggedPut>,
}

impl Model for Units {
    ghost use Rattle.xrf_file.specs.Ledger.{Ledger};

    ghost Value = { Ledger };

    ghost use Rattle.xrf_file.specs.Keeping.{ledger_of, IsKept};

    ghost view = { ledger_of };

    ghost invariant = { IsKept };
}

impl Units {
    /// No unit, over the log and the file of these limits.
    pub fn new(alloc: Global, limits: &Limits) -> Result<Units, AllocError>
        requires { AreLimits limits.now }
        ensures { IfOk result (λ units. units ≡ fresh limits.now.log limits.now.file) }
    {
        let open_units = Vec::with_capacity(alloc, MOST_OPEN)?;
        let puts = Vec::with_capacity(alloc, limits.log as usize)?;
        Ok(Units {
            slots: limits.log as u32,
            records: limits.file,
            inc: 0,
            begun: 0,
            next: 0,
            start: 0,
            open_units,
            puts,
        })
    }

    /// Begins a job of this incarnation, and forgets all units. The next log record has number
    /// `next`, and those from number `start` on are still needed.
    pub fn start(&mut self, inc: Inc, next: u32, start: u32)
        requires order { start ≤ next }
        requires most { next < 65536 }
        ensures { self.new ≡ started self.old inc next start }
    {
        self.inc = inc;
        self.begun = 0;
        self.next = next;
        self.start = start;
        self.open_units.clear();
        self.puts.clear();
    }

    /// What the job does for an item on a unit. A BEGIN that is answered Done opens its unit, and a
    /// COMMIT or a ROLL that is answered Done closes it.
    pub fn plan(&mut self, item: &Item) -> Plan
        requires item { IsUnitItem item.now }
        requires begun { self.old.begun < 65536 }
        ensures plan { result ≡ plan_of self.old item.now }
        ensures after { self.new ≡ planned self.old item.now }
        ensures step { AddsStep self.old self.new (Planned item.now) }
        ensures pending { IsPending self.new result }
        ensures next { self.new.next ≡ self.old.next }
        ensures begun { self.new.begun ≤ self.old.begun + 1 }
    {
        match item {
            Item::Begin(name) => Plan::Answer(self.begin(*name)),
            Item::Put(name, rrn, value) => self.plan_put(*name, *rrn, *value),
            Item::Get(name, rrn) => self.plan_get(*name, *rrn),
            Item::Commit(name) => self.plan_commit(*name),
            Item::Roll(name) => self.plan_roll(*name),
            _ => unreachable!(),
        }
    }

    fn begin(&mut self, name: Name8) -> ItemAnswer
        requires { self.old.begun < 65536 }
        ensures answer { result ≡ begin_answer self.old name }
        ensures after { self.new ≡ after_begin self.old name (begin_answer self.old name) }
    {
        if find_unit(&self.open_units, name).is_some() {
            return ItemAnswer::NameUsed;
        }
        if self.open_units.len() >= MOST_OPEN {
            return ItemAnswer::UnitsFull;
        }
        self.begun += 1;
        let unit = UnitId {
            inc: self.inc,
            serial: self.begun,
        };
        self.open_units.push_reserved(OpenUnit { name, unit });
        ItemAnswer::Done
    }

    fn plan_put(&self, name: Name8, rrn: u16, value: Value) -> Plan
        ensures { result ≡ put_plan self.now (unit_named name self.now.units) rrn value }
    {
        let Some(unit) = find_unit(&self.open_units, name) else {
            return Plan::Answer(ItemAnswer::NotOpen);
        };
        if let Some(answer) = self.refused(unit, rrn) {
            return Plan::Answer(answer);
        }
        if self.is_full(unit) {
            return Plan::Answer(ItemAnswer::LogFull);
        }
        Plan::Put {
            unit,
            rrn,
            value,
            place: self.next,
        }
    }

    fn plan_get(&self, name: Name8, rrn: u16) -> Plan
        ensures { result ≡ get_plan self.now (unit_named name self.now.units) rrn }
    {
        let Some(unit) = find_unit(&self.open_units, name) else {
            return Plan::Answer(ItemAnswer::NotOpen);
        };
        if let Some(answer) = self.refused(unit, rrn) {
            return Plan::Answer(answer);
        }
        Plan::Get { rrn }
    }

    fn plan_commit(&mut self, name: Name8) -> Plan
        ensures plan { result ≡ commit_plan self.old (unit_named name self.old.units) }
        ensures after { self.new ≡ after_end self.old (unit_named name self.old.units) }
    {
        let Some(unit) = find_unit(&self.open_units, name) else {
            return Plan::Answer(ItemAnswer::NotOpen);
        };
        if has_put(&self.puts, unit) {
            return Plan::Commit {
                unit,
                place: self.next,
            };
        }
        remove_unit(&mut self.open_units, unit);
        Plan::Answer(ItemAnswer::Done)
    }

    fn plan_roll(&mut self, name: Name8) -> Plan
        ensures plan { result ≡ roll_plan self.old (unit_named name self.old.units) }
        ensures after { self.new ≡ after_end self.old (unit_named name self.old.units) }
    {
        let Some(unit) = find_unit(&self.open_units, name) else {
            return Plan::Answer(ItemAnswer::NotOpen);
        };
        if has_put(&self.puts, unit) {
            return Plan::Roll {
                unit,
                place: self.next,
            };
        }
        remove_unit(&mut self.open_units, unit);
        Plan::Answer(ItemAnswer::Done)
    }

    // what refuses a PUT and a GET alike
    fn refused(&self, unit: UnitId, rrn: u16) -> Option<ItemAnswer>
        ensures { result ≡ (if is_bad_rrn self.now rrn then Some ItemAnswer.BadRrn else if is_locked unit rrn self.now.puts then Some ItemAnswer.Locked else None) }
    {
        if self.is_bad(rrn) {
            return Some(ItemAnswer::BadRrn);
        }
        if locks(&self.puts, unit, rrn) {
            return Some(ItemAnswer::Locked);
        }
        None
    }

    fn is_bad(&self, rrn: u16) -> bool
        ensures { result ≡ is_bad_rrn self.now rrn }
    {
        rrn == 0 || self.records < rrn
    }

    fn is_full(&self, unit: UnitId) -> bool
        ensures { result ≡ is_log_full self.now unit }
    {
        let hot = count_hot(&self.open_units, &self.puts, unit);
        (self.slots as usize) < (self.next - self.start) as usize + hot + 1
    }

    /// The put that was planned is in the log: its before-image is what undoes it.
    pub fn put_logged(&mut self, unit: UnitId, rrn: u16, before: [u8; 32])
        requires planned { (value : List ℕ) × IsPlanned self.old (Plan.Put unit rrn value self.old.next) }
        requires next { self.old.next < 65535 }
        ensures logged { self.new ≡ logged self.old unit rrn before }
        ensures step { AddsStep self.old self.new (Logged unit rrn before) }
    {
        self.puts.push_reserved(LoggedPut {
            unit,
            number: self.next,
            undo: Undo { rrn, before },
        });
        self.next += 1;
    }

    /// The end of the unit that was planned is in the log.
    pub fn ended(&mut self, unit: UnitId)
        requires planned { IsPlanned self.old (Plan.Commit unit self.old.next) ⊎ IsPlanned self.old (Plan.Roll unit self.old.next) }
        requires next { self.old.next < 65535 }
        ensures ended { self.new ≡ ended self.old unit }
        ensures step { AddsStep self.old self.new (Ended unit) }
    {
        remove_unit(&mut self.open_units, unit);
        remove_puts(&mut self.puts, unit);
        self.next += 1;
    }

    /// The number of the next log record.
    pub fn next(&self) -> u32
        ensures next { result ≡ self.now.next }
        ensures most { result < 65536 }
        ensures order { self.now.start ≤ result }
    {
        self.next
    }

    /// The least number of a put of an open unit, and that of the next log record where there is none.
    pub fn oldest(&self) -> u32
        ensures { result ≡ oldest self.now }
    {
        match self.puts.first() {
            Some(put) => put.number,
            None => self.next,
        }
    }

    /// A keypoint with this start is in force.
    pub fn keyed(&mut self, start: u32)
        requires { start ≡ oldest self.old }
        ensures keyed { self.new ≡ keyed self.old start }
        ensures step { AddsStep self.old self.new (Keyed start) }
    {
        self.start = start;
    }

    /// How many puts of a unit there are to undo.
    pub fn undo_count(&self, unit: UnitId) -> usize
        ensures { result ≡ length (undo_rows unit self.now) }
    {
        count_undo(&self.puts, unit)
    }

    /// What undoes put `k` of a unit, the newest first.
    pub fn undo(&self, unit: UnitId, k: usize) -> Undo
        requires { k < length (undo_rows unit self.now) }
        ensures { slice_get (undo_rows unit self.now) k ≡ Some result }
    {
        nth_undo(&self.puts, unit, k)
    }
}
