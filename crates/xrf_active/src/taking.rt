//! How an owner takes what its acts give.

ghost use Rattle.std.specs.Prelude.{◌≡◌, ℕ, ◌<◌, ◌≤◌, ◌∷◌, List, Option, None, true, false, length};
ghost use Rattle.xrf_log.specs.Scan.{anchor_of};
ghost use Rattle.xrf_history.specs.declared.answer.Answer.{Answer as An};
ghost use Rattle.xrf_history.specs.Events.{Event, Looked1, Looked2, DecisionMade, MessageRead, FirstBlockRead, BlockRead, LogOpened, RecordRead, Given, ActFailed};
ghost use Rattle.xrf_history.specs.Looking.{change};
ghost use Rattle.xrf_history.specs.Deciding.{cause};
ghost use Rattle.xrf_history.specs.Answers.{is_plain, may_fail, fits, made, place_of, gate_event, event};
ghost use Rattle.xrf_history.specs.Restarting.{scan};
ghost use Rattle.xrf_history.specs.Working.{item_answer};
ghost use Rattle.xrf_history.specs.Next.{next};
ghost use Rattle.xrf_job.specs.declared.stage.Stage.{Stage as At};
ghost use Rattle.xrf_active.specs.Standing.{Stands};
ghost use Rattle.xrf_active.specs.Taking.{CanTake, EndsNoItem, LeavesItemOpen};

use crate::active::Active;
use crate::due::Due;
use xrf_base::{Item, ItemAnswer, Tick};
use xrf_cavm::Known;
use xrf_ctl::{Control, Signal};
use xrf_history::Answer;
use xrf_job::Stage;
use xrf_logrec::LogRec;

impl Active {
    /// Takes an answer, and gives that of the item that it ends.
    pub fn take(&mut self, answer: &Answer) -> Option<ItemAnswer>
        requires { (h : List Event) × CanTake self.old h answer.now }
        ensures settings { self.new.settings ≡ self.old.settings }
        ensures stands { (h : List Event) → CanTake self.old h answer.now → Stands self.new (event self.old.settings h answer.now ∷ h) }
        ensures answer { (h : List Event) → CanTake self.old h answer.now → result ≡ item_answer self.old.settings (event self.old.settings h answer.now ∷ h) }
    {
        match answer {
            Answer::Done(_) => self.done(),
            Answer::FileSlot(slot) => self.record_handed(slot),
            Answer::Item(item) => self.item_handed(item),
            _ => {
                self.handed(answer);
                None
            }
        }
    }

    // an answer is handed that ends no item
    fn handed(&mut self, answer: &Answer)
        requires quiet { EndsNoItem answer.now }
        requires can { (h : List Event) × CanTake self.old h answer.now }
        ensures settings { self.new.settings ≡ self.old.settings }
        ensures stands { (h : List Event) → CanTake self.old h answer.now → Stands self.new (event self.old.settings h answer.now ∷ h) }
        ensures answer { (h : List Event) → CanTake self.old h answer.now → item_answer self.old.settings (event self.old.settings h answer.now ∷ h) ≡ None }
    {
        match answer {
            Answer::Tick(_) => self.ticked(),
            Answer::Ctl(held, known) => self.control_read(held, *known),
            Answer::Look1(held, signal) => self.look1_handed(held, signal),
            Answer::Look2(signal, at) => self.look2_handed(signal, *at),
            Answer::Decide(known, at) => self.decision_handed(*known, *at),
            Answer::MsgSlot(slot) => self.slot_handed(slot),
            Answer::LogBlock(block) => self.block_handed(block.bytes()),
            Answer::Anchored(block, keys) => self.first_block_handed(block.bytes(), keys),
            Answer::Gate(gate) => self.gate_handed(*gate),
            Answer::Exit(said, at) => self.exited(*said, *at),
            Answer::Abend => self.abended(),
            Answer::Failed(_) => self.act_failed(),
            Answer::Done(_) => {}
            Answer::FileSlot(_) => {}
            Answer::Item(_) => {}
            Answer::Reply(..) => {}
            Answer::Cebt(..) => {}
        }
    }

    fn stage(&self) -> Stage
        ensures { result ≡ self.now.common.stage }
    {
        self.common.stage
    }

    // an act is made that is answered by the tick alone
    fn done(&mut self) -> Option<ItemAnswer>
        requires stands { (h : List Event) × Stands self.old h × (length h < 16385) × (is_plain (next self.old.settings h) ≡ true) }
        ensures settings { self.new.settings ≡ self.old.settings }
        ensures stands { (h : List Event) → Stands self.old h → is_plain (next self.old.settings h) ≡ true → Stands self.new (made (next self.old.settings h) ∷ h) }
        ensures answer { (h : List Event) → Stands self.old h → is_plain (next self.old.settings h) ≡ true → result ≡ item_answer self.old.settings (made (next self.old.settings h) ∷ h) }
    {
        match self.stage() {
            Stage::LogOpen(place, rec) => self.log_opened(place, &rec),
            Stage::FileWrite(unit, rrn, value) => {
                self.record_written(unit, rrn, &value);
                Some(ItemAnswer::Done)
            }
            _ => {
                self.made();
                None
            }
        }
    }

    // a log record is opened: of an item after RESTARTED, and of a Backout before it
    fn log_opened(&mut self, place: u32, rec: &LogRec) -> Option<ItemAnswer>
        requires stands { (h : List Event) × Stands self.old h × (length h < 16385) }
        requires stage { self.old.common.stage ≡ At.LogOpen place rec.now }
        ensures settings { self.new.settings ≡ self.old.settings }
        ensures stands { (h : List Event) → Stands self.old h → Stands self.new (LogOpened place rec.now ∷ h) }
        ensures answer { (h : List Event) → Stands self.old h → result ≡ item_answer self.old.settings (LogOpened place rec.now ∷ h) }
    {
        if self.has_restarted {
            self.item_logged(place, rec)
        } else {
            self.backed_out(place, rec);
            None
        }
    }

    // an act is made that is answered by the tick alone and ends no item
    fn made(&mut self)
        requires stands { (h : List Event) × Stands self.old h × (length h < 16385) × (is_plain (next self.old.settings h) ≡ true) }
        requires quiet { LeavesItemOpen self.old.common.stage }
        ensures settings { self.new.settings ≡ self.old.settings }
        ensures stands { (h : List Event) → Stands self.old h → is_plain (next self.old.settings h) ≡ true → Stands self.new (made (next self.old.settings h) ∷ h) }
        ensures answer { (h : List Event) → Stands self.old h → is_plain (next self.old.settings h) ≡ true → item_answer self.old.settings (made (next self.old.settings h) ∷ h) ≡ None }
    {
        match self.stage() {
            Stage::Boundary => self.begun(),
            Stage::Reserve => self.reserved(),
            Stage::CtlWrite(written) => self.control_written(&written),
            Stage::Release => self.released(),
            Stage::Ended(why) => self.ended(why),
            Stage::Signal2(signal) => self.signalled2(&signal),
            Stage::MsgClose(place, message) => self.message_closed(place, &message),
            Stage::MsgBody(place, message) => self.message_bodied(place, &message),
            Stage::MsgOpen(place, message) => self.message_opened(place, &message),
            Stage::LogClose(place, rec) => self.log_closed(place, &rec),
            Stage::LogBody(place, rec) => self.log_bodied(place, &rec),
            Stage::KpClose(place, keypoint) => self.key_closed(place, keypoint),
            Stage::KpBody(place, keypoint) => self.key_bodied(place, keypoint),
            Stage::KpOpen(place, keypoint) => self.key_opened(place, keypoint),
            Stage::Undo(undo) => self.record_undone(&undo),
            Stage::CtlRead => {}
            Stage::Look1 => {}
            Stage::Look2 => {}
            Stage::Decide => {}
            Stage::LogLook(..) => {}
            Stage::LogOpen(..) => {}
            Stage::FileRead(_) => {}
            Stage::FileWrite(..) => {}
        }
    }

    // an act at a boundary is made that is answered by the tick alone
    fn begun(&mut self)
        requires stands { (h : List Event) × Stands self.old h × (length h < 16385) × (is_plain (next self.old.settings h) ≡ true) }
        requires boundary { self.old.common.stage ≡ At.Boundary }
        ensures settings { self.new.settings ≡ self.old.settings }
        ensures stands { (h : List Event) → Stands self.old h → is_plain (next self.old.settings h) ≡ true → Stands self.new (made (next self.old.settings h) ∷ h) }
        ensures answer { (h : List Event) → Stands self.old h → is_plain (next self.old.settings h) ≡ true → item_answer self.old.settings (made (next self.old.settings h) ∷ h) ≡ None }
    {
        match self.due() {
            Due::Reserve => self.reserved(),
            Due::Round(signal) => self.signalled1(&signal),
            Due::Undo(undo) => self.undo_made(&undo),
            Due::Backout(place, rec) => self.log_bodied(place, &rec),
            Due::Restarted => self.restart_declared(),
            _ => {}
        }
    }

    // the first part of a look is handed
    fn look1_handed(&mut self, held: &Control, signal: &Option<Signal>)
        requires { (h : List Event) × Stands self.old h × (length h < 16385) × (fits self.old.settings h (next self.old.settings h) (An.Look1 held.now signal.now) ≡ true) }
        ensures settings { self.new.settings ≡ self.old.settings }
        ensures stands { (h : List Event) → Stands self.old h → fits self.old.settings h (next self.old.settings h) (An.Look1 held.now signal.now) ≡ true → Stands self.new (Looked1 held.now signal.now ∷ h) }
    {
        match self.common.stage {
            Stage::Look1 => self.looked1(held, signal),
            Stage::Boundary => match self.due() {
                _ => {},
            },
            _ => {},
        }
    }

    // the second part of a look is handed
    fn look2_handed(&mut self, signal: &Option<Signal>, at: Tick)
        requires { (h : List Event) × Stands self.old h × (length h < 16385) × (fits self.old.settings h (next self.old.settings h) (An.Look2 signal.now at) ≡ true) × (change h ≤ at) }
        ensures settings { self.new.settings ≡ self.old.settings }
        ensures stands { (h : List Event) → Stands self.old h → fits self.old.settings h (next self.old.settings h) (An.Look2 signal.now at) ≡ true → Stands self.new (Looked2 signal.now at ∷ h) }
    {
        match self.common.stage {
            Stage::Look2 => self.looked2(signal, at),
            Stage::Boundary => match self.due() {
                _ => {},
            },
            _ => {},
        }
    }

    // what is confirmed of the record of the last look is handed
    fn decision_handed(&mut self, known: Known, at: Tick)
        requires { (h : List Event) × Stands self.old h × (length h < 16385) × (fits self.old.settings h (next self.old.settings h) (An.Decide known at) ≡ true) × (change h ≤ at) }
        ensures settings { self.new.settings ≡ self.old.settings }
        ensures stands { (h : List Event) → Stands self.old h → fits self.old.settings h (next self.old.settings h) (An.Decide known at) ≡ true → Stands self.new (DecisionMade known at (cause self.old.settings h known at) ∷ h) }
    {
        match self.common.stage {
            Stage::Decide => self.decision_made(known, at),
            Stage::Boundary => match self.due() {
                _ => {},
            },
            _ => {},
        }
    }

    // a message slot is handed
    fn slot_handed(&mut self, slot: &[u8; 64])
        requires { (h : List Event) × Stands self.old h × (length h < 16385) × (fits self.old.settings h (next self.old.settings h) (An.MsgSlot slot.now) ≡ true) }
        ensures settings { self.new.settings ≡ self.old.settings }
        ensures stands { (h : List Event) → Stands self.old h → fits self.old.settings h (next self.old.settings h) (An.MsgSlot slot.now) ≡ true → Stands self.new (MessageRead (place_of (next self.old.settings h)) slot.now ∷ h) }
    {
        match self.common.stage {
            Stage::Boundary => match self.due() {
                Due::Drain(_) => self.slot_drained(slot),
                Due::Message(place, message) => self.slot_read(place, &message, slot),
                _ => {},
            },
            _ => {},
        }
    }

    // a further block of the log is handed
    fn block_handed(&mut self, block: &[u8; 4096])
        requires { (h : List Event) × Stands self.old h × (length h < 16385) × (fits self.old.settings h (next self.old.settings h) (An.LogBlock block.now) ≡ true) }
        ensures settings { self.new.settings ≡ self.old.settings }
        ensures stands { (h : List Event) → Stands self.old h → fits self.old.settings h (next self.old.settings h) (An.LogBlock block.now) ≡ true → Stands self.new (BlockRead block.now ∷ h) }
    {
        match self.common.stage {
            Stage::Boundary => match self.due() {
                Due::Scan(_) => self.block_read(block),
                _ => {},
            },
            _ => {},
        }
    }

    // whether a block of the log is to be scanned
    fn is_block_due(&self) -> bool
        requires { (h : List Event) × Stands self.now h × (length h < 16385) }
        ensures due { (h : List Event) (block keys : List ℕ) → Stands self.now h → fits self.now.settings h (next self.now.settings h) (An.Anchored block keys) ≡ true → result ≡ true }
        ensures scans { (h : List Event) → Stands self.now h → result ≡ true → (scan self.now.settings h).ended ≡ false }
    {
        match self.common.stage {
            Stage::Boundary => match self.due() {
                Due::Scan(_) => true,
                _ => false,
            },
            _ => false,
        }
    }

    // the first block of the log is handed, and both keypoint slots
    fn first_block_handed(&mut self, block: &[u8; 4096], keys: &[u8; 128])
        requires { (h : List Event) × Stands self.old h × (length h < 16385) × (fits self.old.settings h (next self.old.settings h) (An.Anchored block.now keys.now) ≡ true) × ((anchor_of keys.now).number < 16384) × ((anchor_of keys.now).start < 16384) }
        ensures settings { self.new.settings ≡ self.old.settings }
        ensures stands { (h : List Event) → Stands self.old h → fits self.old.settings h (next self.old.settings h) (An.Anchored block.now keys.now) ≡ true → (anchor_of keys.now).number < 16384 → (anchor_of keys.now).start < 16384 → Stands self.new (FirstBlockRead block.now keys.now ∷ h) }
    {
        if self.is_block_due() {
            self.first_block_read(block, keys);
        }
    }

    // the gate of a log or keypoint slot is handed
    fn gate_handed(&mut self, gate: u8)
        requires { (h : List Event) × Stands self.old h × (length h < 16385) × (fits self.old.settings h (next self.old.settings h) (An.Gate gate) ≡ true) }
        ensures settings { self.new.settings ≡ self.old.settings }
        ensures stands { (h : List Event) → Stands self.old h → fits self.old.settings h (next self.old.settings h) (An.Gate gate) ≡ true → Stands self.new (gate_event (next self.old.settings h) gate ∷ h) }
    {
        match self.common.stage {
            Stage::LogLook(place, rec) => self.log_looked(place, &rec, gate),
            Stage::Boundary => match self.due() {
                Due::Backout(place, rec) => self.log_looked(place, &rec, gate),
                Due::Keypoint(keypoint) => self.key_looked(
                    (keypoint.number % 2) as u8,
                    keypoint,
                    gate,
                ),
                _ => {}
            },
            _ => {}
        }
    }

    // the slot of a file record is handed
    fn record_handed(&mut self, slot: &[u8; 32]) -> Option<ItemAnswer>
        requires { (h : List Event) × Stands self.old h × (length h < 16385) × (fits self.old.settings h (next self.old.settings h) (An.FileSlot slot.now) ≡ true) }
        ensures settings { self.new.settings ≡ self.old.settings }
        ensures stands { (h : List Event) → Stands self.old h → fits self.old.settings h (next self.old.settings h) (An.FileSlot slot.now) ≡ true → Stands self.new (RecordRead (place_of (next self.old.settings h)) slot.now ∷ h) }
        ensures answer { (h : List Event) → Stands self.old h → fits self.old.settings h (next self.old.settings h) (An.FileSlot slot.now) ≡ true → result ≡ item_answer self.old.settings (RecordRead (place_of (next self.old.settings h)) slot.now ∷ h) }
    {
        match self.common.stage {
            Stage::FileRead(_) => self.record_read(slot),
            Stage::Boundary => match self.due() {
                _ => None,
            },
            _ => None,
        }
    }

    // an item is handed
    fn item_handed(&mut self, item: &Item) -> Option<ItemAnswer>
        requires { (h : List Event) × Stands self.old h × (length h < 16385) × (fits self.old.settings h (next self.old.settings h) (An.Item item.now) ≡ true) }
        ensures settings { self.new.settings ≡ self.old.settings }
        ensures stands { (h : List Event) → Stands self.old h → fits self.old.settings h (next self.old.settings h) (An.Item item.now) ≡ true → Stands self.new (Given item.now ∷ h) }
        ensures answer { (h : List Event) → Stands self.old h → fits self.old.settings h (next self.old.settings h) (An.Item item.now) ≡ true → result ≡ item_answer self.old.settings (Given item.now ∷ h) }
    {
        match self.common.stage {
            Stage::Boundary => match self.due() {
                Due::Item => self.given(item),
                _ => None,
            },
            _ => None,
        }
    }

    // its act failed
    fn act_failed(&mut self)
        requires { (h : List Event) × Stands self.old h × (length h < 16385) × (may_fail (next self.old.settings h) ≡ true) }
        ensures settings { self.new.settings ≡ self.old.settings }
        ensures stands { (h : List Event) (at : ℕ) → Stands self.old h → may_fail (next self.old.settings h) ≡ true → Stands self.new (ActFailed (next self.old.settings h) at ∷ h) }
    {
        match self.stage() {
            Stage::Boundary => self.row_failed(),
            Stage::MsgClose(..) => self.quiet_failed(true),
            Stage::MsgBody(..) => self.quiet_failed(true),
            Stage::MsgOpen(_, message) => self.message_failed(&message),
            Stage::LogLook(..) => self.quiet_failed(false),
            Stage::LogClose(..) => self.quiet_failed(false),
            Stage::LogBody(..) => self.quiet_failed(false),
            Stage::LogOpen(_, rec) => {
                if self.has_restarted {
                    self.record_failed(&rec);
                } else {
                    self.backout_failed(&rec);
                }
            }
            Stage::KpClose(..) => self.quiet_failed(false),
            Stage::KpBody(..) => self.quiet_failed(false),
            Stage::KpOpen(_, keypoint) => self.key_failed(keypoint),
            Stage::FileRead(_) => self.quiet_failed(false),
            Stage::FileWrite(..) => self.quiet_failed(false),
            Stage::Undo(_) => self.undo_failed(),
            Stage::Reserve => {}
            Stage::CtlRead => {}
            Stage::CtlWrite(_) => {}
            Stage::Release => {}
            Stage::Ended(_) => {}
            Stage::Signal2(_) => {}
            Stage::Look1 => {}
            Stage::Look2 => {}
            Stage::Decide => {}
        }
    }

    // its act at a boundary failed
    fn row_failed(&mut self)
        requires stands { (h : List Event) × Stands self.old h × (length h < 16385) × (may_fail (next self.old.settings h) ≡ true) }
        requires boundary { self.old.common.stage ≡ At.Boundary }
        ensures settings { self.new.settings ≡ self.old.settings }
        ensures stands { (h : List Event) (at : ℕ) → Stands self.old h → may_fail (next self.old.settings h) ≡ true → Stands self.new (ActFailed (next self.old.settings h) at ∷ h) }
    {
        match self.due() {
            Due::Drain(_) => self.slot_failed(),
            Due::Message(..) => self.slot_failed(),
            Due::Scan(_) => self.quiet_failed(false),
            Due::Undo(_) => self.undo_failed(),
            Due::Backout(..) => self.quiet_failed(false),
            Due::Keypoint(_) => self.quiet_failed(false),
            Due::Nothing => {}
            Due::Reserve => {}
            Due::Exit(_) => {}
            Due::Round(_) => {}
            Due::Restarted => {}
            Due::Item => {}
        }
    }
}
