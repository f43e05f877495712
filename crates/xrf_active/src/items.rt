//! The items of an owner's work.

ghost use Rattle.std.specs.Prelude.{◌≡◌, ℕ, ◌+◌, ◌<◌, ◌∷◌, List, Option, Some, None, true, false, drop, length, if◌then◌else◌};
ghost use Rattle.xrf_base.specs.Values.{slot_reading};
ghost use Rattle.xrf_terms.specs.declared.rows.Row.{Row as Held};
ghost use Rattle.xrf_file.specs.Ledger.{IsUnitItem, IsPending, undo_rows};
ghost use Rattle.xrf_history.specs.Events.{Event, Given, RecordRead, RecordWritten, RecordUndone};
ghost use Rattle.xrf_history.specs.Holding.{is_granted, is_restarted};
ghost use Rattle.xrf_history.specs.Reserving.{or_else, state_by_item};
ghost use Rattle.xrf_history.specs.Terminals.{terminal_answer, table as table_of};
ghost use Rattle.xrf_history.specs.Sending.{change_message, is_done};
ghost use Rattle.xrf_history.specs.Working.{ledger, last_plan, item_answer, undone_of_item, answer_of_slot, answer_of_plan, answer_of_read};
ghost use Rattle.xrf_history.specs.Restarting.{scan};
ghost use Rattle.xrf_active.specs.Changes.{off_row};
ghost use Rattle.xrf_history.specs.Next.{roll_next, after_item, after_undo, after_file_read, slot_read as slot_held};
ghost use Rattle.xrf_job.specs.Stages.{Within, AtHand, inside_of};
ghost use Rattle.xrf_active.specs.Standing.{Sends, Stands};

use crate::active::Active;
use crate::logging::log_stage;
use crate::sending::{Sending, change_message, off_row};
use xrf_base::values::slot_read;
use xrf_base::{Item, ItemAnswer, UnitId, Value};
use xrf_ctl::OwnerState;
use xrf_file::{Plan, Units};
use xrf_history::Settings;
use xrf_job::Stage;
use xrf_logrec::{LogRec, Undo};
use xrf_msg::{Message, Writer};
use xrf_terms::{Row, TermTable};

// what an item is answered of the terminal table; CEMT is answered Done
fn terminal_answer(table: &mut TermTable, item: &Item) -> ItemAnswer
    ensures answer { result ≡ (terminal_answer item.now table.old).answer }
    ensures rows { table.new ≡ (terminal_answer item.now table.old).rows }
{
    match item {
        Item::Logon(term, class) => table.logon(*term, *class),
        Item::Logoff(term) => table.logoff(*term),
        Item::Signon(term, user) => table.signon(*term, *user),
        Item::Signoff(term) => table.signoff(*term),
        _ => ItemAnswer::Done,
    }
}

// the state in which an item signs the owner off
fn state_by_item(item: &Item) -> Option<OwnerState>
    ensures { result ≡ state_by_item item.now }
{
    match item {
        Item::Shutdown => Some(OwnerState::OffNormal),
        Item::ShutdownTakeover => Some(OwnerState::OffTakeover),
        _ => None,
    }
}

// what a GET is answered by the slot that it read
fn answer_of_slot(slot: &[u8; 32]) -> ItemAnswer
    ensures { result ≡ answer_of_slot (slot_reading slot.now) }
{
    match slot_read(slot) {
        Some(Some(value)) => ItemAnswer::Got(value),
        _ => ItemAnswer::Empty,
    }
}

// where a ROLL goes on: the undo rows that are left, and then its Backout
fn roll_stage(p: &Settings, units: &Units, unit: UnitId, place: u32, rolled: u32) -> Stage
    ensures stage { inside_of result ≡ Some (roll_next p.now unit place (drop rolled (undo_rows unit units.now))) }
    ensures within { (h : List Event) → is_restarted h ≡ true → IsPending (ledger p.now h) (last_plan p.now h) → AtHand p.now h (LogRec.Backout unit) → Within result p.now h }
{
    let rolled = rolled as usize;
    if rolled < units.undo_count(unit) {
        Stage::Undo(units.undo(unit, rolled))
    } else {
        log_stage(p, place, LogRec::Backout { unit })
    }
}

// where an item goes on that is planned so
fn item_stage(p: &Settings, units: &Units, plan: &Plan) -> Stage
    ensures stage { (h : List Event) → undone_of_item h ≡ 0 → units.now ≡ ledger p.now h → inside_of result ≡ after_item p.now h plan.now }
    ensures within { (h : List Event) → is_restarted h ≡ true → (scan p.now h).ended ≡ true → plan.now ≡ last_plan p.now h → IsPending (ledger p.now h) plan.now → is_granted h ≡ true → Within result p.now h }
{
    match *plan {
        Plan::Answer(_) => Stage::Boundary,
        Plan::Put { rrn, .. } => Stage::FileRead(rrn),
        Plan::Get { rrn } => Stage::FileRead(rrn),
        Plan::Commit { unit, place } => log_stage(p, place, LogRec::Commit { unit }),
        Plan::Roll { unit, place } => roll_stage(p, units, unit, place, 0),
    }
}

// what an item is answered at once that is planned so
fn answer_of_plan(plan: &Plan) -> Option<ItemAnswer>
    ensures { result ≡ answer_of_plan plan.now }
{
    match *plan {
        Plan::Answer(answer) => Some(answer),
        _ => None,
    }
}

// the message of an item by its answer, the row that it took off and the table after it
fn message_of_item(
    p: &Settings,
    writer: &Writer,
    item: &Item,
    answer: &ItemAnswer,
    off: Option<Row>,
    table: &TermTable,
) -> Option<Message>
    ensures { (before : List Held) → off_row item.now before ≡ off → answer.now ≡ (terminal_answer item.now before).answer → table.now ≡ (terminal_answer item.now before).rows
        → result ≡ if is_done (terminal_answer item.now before).answer then change_message p.now.level writer.now.epoch writer.now.seq item.now before (terminal_answer item.now before).rows else None }
{
    match answer {
        ItemAnswer::Done => change_message(p, writer, item, off, table),
        _ => None,
    }
}

// the messages of the epoch after an item, by its answer, the row that it took off and the table after it
fn sending_after(
    p: &Settings,
    sending: Option<Sending>,
    item: &Item,
    answer: &ItemAnswer,
    off: Option<Row>,
    table: &TermTable,
) -> Option<Sending>
    ensures { (h : List Event) → off_row item.now (table_of p.now h) ≡ off → answer.now ≡ (terminal_answer item.now (table_of p.now h)).answer
        → table.now ≡ (terminal_answer item.now (table_of p.now h)).rows → Sends p.now sending h → Sends p.now result (Given item.now ∷ h) }
{
    let mut sending = sending?;
    let writer = sending.writer;
    sending.changed(message_of_item(p, &writer, item, answer, off, table));
    Some(sending)
}

// the sign-off that is due after an item
fn sign_off_after(sign_off: Option<OwnerState>, item: &Item) -> Option<OwnerState>
    ensures { result ≡ or_else sign_off (state_by_item item.now) }
{
    match sign_off {
        Some(state) => Some(state),
        None => state_by_item(item),
    }
}

impl Active {
    /// It took an item on a unit.
    #[tactic(auto, using(xrf_job::proofs::Counts::counts, crate::proofs::Plans::unit_items))]
    pub(crate) fn unit_item_given(&mut self, item: &Item) -> Option<ItemAnswer>
        requires item { IsUnitItem item.now }
        requires stands { (h : List Event) × Stands self.old h × (length h < 16385) × (is_restarted h ≡ true) }
        ensures settings { self.new.settings ≡ self.old.settings }
        ensures stands { (h : List Event) → Stands self.old h → is_restarted h ≡ true → is_granted h ≡ true → Stands self.new (Given item.now ∷ h) }
        ensures answer { (h : List Event) → Stands self.old h → is_restarted h ≡ true → result ≡ item_answer self.old.settings (Given item.now ∷ h) }
    {
        let plan = self.rooms.units.plan(item);
        self.plan = plan;
        self.rolled = 0;
        self.common.stage = item_stage(&self.settings, &self.rooms.units, &plan);
        answer_of_plan(&plan)
    }

    /// It took an item on the terminals, or one that signs it off.
    pub(crate) fn terminal_item_given(&mut self, item: &Item) -> Option<ItemAnswer>
        requires item { IsUnitItem item.now → ⊥ }
        ensures settings { self.new.settings ≡ self.old.settings }
        ensures stands { (h : List Event) → Stands self.old h → is_restarted h ≡ true → Stands self.new (Given item.now ∷ h) }
        ensures answer { (h : List Event) → Stands self.old h → is_restarted h ≡ true → result ≡ item_answer self.old.settings (Given item.now ∷ h) }
    {
        let off = off_row(item, &self.rooms.table);
        let answer = terminal_answer(&mut self.rooms.table, item);
        let table = &self.rooms.table;
        self.sending = sending_after(&self.settings, self.sending, item, &answer, off, table);
        self.sign_off = sign_off_after(self.sign_off, item);
        self.plan = Plan::Answer(ItemAnswer::Done);
        self.rolled = 0;
        self.common.stage = Stage::Boundary;
        Some(answer)
    }

    /// It took an item.
    pub(crate) fn given(&mut self, item: &Item) -> Option<ItemAnswer>
        requires stands { (h : List Event) × Stands self.old h × (length h < 16385) × (is_restarted h ≡ true) }
        ensures settings { self.new.settings ≡ self.old.settings }
        ensures stands { (h : List Event) → Stands self.old h → is_restarted h ≡ true → is_granted h ≡ true → Stands self.new (Given item.now ∷ h) }
        ensures answer { (h : List Event) → Stands self.old h → is_restarted h ≡ true → result ≡ item_answer self.old.settings (Given item.now ∷ h) }
    {
        match item {
            Item::Begin(_) => self.unit_item_given(item),
            Item::Put(..) => self.unit_item_given(item),
            Item::Get(..) => self.unit_item_given(item),
            Item::Commit(_) => self.unit_item_given(item),
            Item::Roll(_) => self.unit_item_given(item),
            _ => self.terminal_item_given(item),
        }
    }

    /// It read the slot of an item's record. A GET is answered by it, and a PUT keeps it in the log.
    pub(crate) fn record_read(&mut self, slot: &[u8; 32]) -> Option<ItemAnswer>
        ensures settings { self.new.settings ≡ self.old.settings }
        ensures stands { (h : List Event) (rrn : ℕ) → Stands self.old h → is_restarted h ≡ true → IsPending (ledger self.old.settings h) (last_plan self.old.settings h) → is_granted h ≡ true → Stands self.new (RecordRead rrn slot.now ∷ h) }
        ensures answer { result ≡ answer_of_read self.old.plan slot.now }
    {
        self.common.stage = read_stage(&self.settings, &self.plan, slot);
        answer_of_read(&self.plan, slot)
    }

    /// It wrote the value of a PUT.
    pub(crate) fn record_written(&mut self, unit: UnitId, rrn: u16, value: &Value)
        ensures settings { self.new.settings ≡ self.old.settings }
        ensures stands { (h : List Event) → Stands self.old h → Stands self.new (RecordWritten unit rrn value.now ∷ h) }
    {
        self.common.stage = Stage::Boundary;
    }

    /// It wrote an undo row of a ROLL back.
    #[tactic(auto, using(xrf_job::proofs::Counts::counts))]
    pub(crate) fn record_undone(&mut self, undo: &Undo)
        requires { (h : List Event) × Stands self.old h × (length h < 16385) }
        ensures settings { self.new.settings ≡ self.old.settings }
        ensures stands { (h : List Event) → Stands self.old h → is_restarted h ≡ true → IsPending (ledger self.old.settings h) (last_plan self.old.settings h) → is_granted h ≡ true → Stands self.new (RecordUndone undo.now.rrn undo.now.before ∷ h) }
    {
        self.undone += 1;
        self.rolled += 1;
        self.common.stage = undone_stage(
            &self.settings,
            &self.rooms.units,
            &self.plan,
            self.rolled,
        );
    }
}

// where an item goes on whose undo row is written back
fn undone_stage(p: &Settings, units: &Units, plan: &Plan, rolled: u32) -> Stage
    ensures stage { (h : List Event) → undone_of_item h ≡ rolled → units.now ≡ ledger p.now h → inside_of result ≡ after_undo p.now h plan.now }
    ensures within { (h : List Event) → is_restarted h ≡ true → (scan p.now h).ended ≡ true → plan.now ≡ last_plan p.now h → IsPending (ledger p.now h) plan.now → is_granted h ≡ true → Within result p.now h }
{
    match *plan {
        Plan::Roll { unit, place } => roll_stage(p, units, unit, place, rolled),
        _ => Stage::Boundary,
    }
}

// where an item goes on that read this slot
fn read_stage(p: &Settings, plan: &Plan, slot: &[u8; 32]) -> Stage
    ensures stage { inside_of result ≡ after_file_read p.now slot.now plan.now }
    ensures within { (h : List Event) → is_restarted h ≡ true → (scan p.now h).ended ≡ true → plan.now ≡ last_plan p.now h → slot.now ≡ slot_held h → IsPending (ledger p.now h) plan.now → is_granted h ≡ true → Within result p.now h }
{
    match *plan {
        Plan::Put {
            unit,
            rrn,
            place,
            ..
        } => {
            let before = *slot;
            log_stage(p, place, LogRec::Put { unit, rrn, before })
        }
        _ => Stage::Boundary,
    }
}

// what an item is answered by the slot that it read
fn answer_of_read(plan: &Plan, slot: &[u8; 32]) -> Option<ItemAnswer>
    ensures { result ≡ answer_of_read plan.now slot.now }
{
    match plan {
        Plan::Get { .. } => Some(answer_of_slot(slot)),
        _ => None,
    }
}
