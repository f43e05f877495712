//! What an owner does next at a boundary.

ghost use Rattle.std.specs.Prelude.{◌≡◌, ◌<◌, List, Some, true, false, length};
ghost use Rattle.xrf_history.specs.Events.{Event};
ghost use Rattle.xrf_history.specs.Reserving.{drop_due};
ghost use Rattle.xrf_history.specs.Sending.{message_due};
ghost use Rattle.xrf_history.specs.Rows.{log_write, restart_next, message_next, work_next, active_next, owner_works, boundary};
ghost use Rattle.xrf_active.specs.Dues.{act_of, Begins};
ghost use Rattle.xrf_active.specs.Standing.{Stands};

use crate::active::Active;
use xrf_ctl::Signal;
use xrf_exit::Notice;
use xrf_history::{Settings, Want};
use xrf_logrec::{Keypoint, LogRec, Undo};
use xrf_msg::Message;

/// What is due at a boundary: the first row of the owner's table that applies.
#[derive(Clone, Copy)]
pub enum Due {
    Nothing,
    /// A sign-off, or a drop.
    Reserve,
    Exit(Notice),
    Round(Signal),
    /// A message slot is to be drained.
    Drain(u32),
    /// A block of the log is to be scanned.
    Scan(u32),
    Undo(Undo),
    /// The Backout of a unit, as this record of the log.
    Backout(u32, LogRec),
    Restarted,
    /// A message, in this slot.
    Message(u32, Message),
    Keypoint(Keypoint),
    Item,
}

/// The first act of a write of a log record: its slot is looked at where it was used before.
pub fn log_write(p: &Settings, place: u32, rec: LogRec) -> Want
    ensures { result ≡ log_write p.now place rec }
{
    if u32::from(p.limits.log) <= place {
        Want::LogLook(place)
    } else {
        Want::LogBody(place, rec)
    }
}

impl Due {
    /// Its act.
    pub fn act(&self, p: &Settings) -> Want
        ensures { result ≡ act_of p.now self.now }
    {
        match *self {
            Due::Nothing => Want::Nothing,
            Due::Reserve => Want::Reserve,
            Due::Exit(notice) => Want::Exit(notice),
            Due::Round(signal) => Want::Signal1(signal),
            Due::Drain(place) => Want::MsgRead(place),
            Due::Scan(block) => Want::LogRead(block),
            Due::Undo(undo) => {
                let before = undo.before;
                Want::Undo(undo.rrn, before)
            }
            Due::Backout(place, rec) => log_write(p, place, rec),
            Due::Restarted => Want::Restarted,
            Due::Message(place, _) => Want::MsgRead(place),
            Due::Keypoint(keypoint) => Want::KpRead((keypoint.number % 2) as u8),
            Due::Item => Want::Item,
        }
    }
}

impl Active {
    /// What is due at a boundary.
    pub(crate) fn due(&self) -> Due
        requires { (h : List Event) × Stands self.now h × (length h < 16386) }
        ensures act { (h : List Event) → Stands self.now h → act_of self.now.settings result ≡ boundary self.now.settings h }
        ensures begins { (h : List Event) → Stands self.now h → Begins result self.now.settings h }
    {
        if self.common.inc == 0 {
            return Due::Nothing;
        }
        if self.sign_off.is_some() {
            return Due::Reserve;
        }
        if let Some(notice) = self.notice {
            return Due::Exit(notice);
        }
        if self.must_drop {
            return Due::Reserve;
        }
        self.work_due()
    }

    // what is due where nothing is to be done under the reserve
    fn work_due(&self) -> Due
        requires inc { 0 < self.now.common.inc }
        requires stands { (h : List Event) × Stands self.now h × (length h < 16386) }
        ensures act { (h : List Event) → Stands self.now h → drop_due h ≡ false → act_of self.now.settings result ≡ owner_works self.now.settings h }
        ensures begins { (h : List Event) → Stands self.now h → Begins result self.now.settings h }
    {
        if !self.common.has_signalled {
            return Due::Round(self.common.next_signal(0));
        }
        if self.is_draining {
            return Due::Drain(self.common.expected % u32::from(self.settings.limits.ring));
        }
        if self.has_restarted {
            self.active_due()
        } else {
            self.restart_due()
        }
    }

    // what is due of the restart
    fn restart_due(&self) -> Due
        requires inc { 0 < self.now.common.inc }
        requires stands { (h : List Event) × Stands self.now h × (length h < 16386) }
        requires restarts { self.now.has_restarted ≡ false }
        requires drained { self.now.is_draining ≡ false }
        ensures act { (h : List Event) → Stands self.now h → act_of self.now.settings result ≡ restart_next self.now.settings h }
        ensures begins { (h : List Event) → Stands self.now h → Begins result self.now.settings h }
    {
        let scan = &self.rooms.scan;
        if !self.has_scanned {
            return Due::Scan(scan.next_block());
        }
        let undone = self.undone as usize;
        if undone < scan.undo_count() {
            return Due::Undo(scan.undo(undone));
        }
        let opened = self.opened as usize;
        if opened < scan.flight_count() {
            let unit = scan.flight(opened);
            return Due::Backout(scan.next() + self.opened, LogRec::Backout { unit });
        }
        Due::Restarted
    }

    // what is due after the restart
    fn active_due(&self) -> Due
        requires inc { 0 < self.now.common.inc }
        requires stands { (h : List Event) × Stands self.now h × (length h < 16386) }
        requires restarted { self.now.has_restarted ≡ true }
        ensures act { (h : List Event) → Stands self.now h → act_of self.now.settings result ≡ active_next self.now.settings h (message_due self.now.settings h) }
        ensures begins { (h : List Event) → Stands self.now h → Begins result self.now.settings h }
    {
        match self.message_due() {
            Some(message) => self.sending_due(message),
            None => self.item_due(),
        }
    }

    // what is due where a message is
    fn sending_due(&self, message: Message) -> Due
        requires inc { 0 < self.now.common.inc }
        requires stands { (h : List Event) × Stands self.now h }
        ensures act { (h : List Event) → Stands self.now h → message_due self.now.settings h ≡ Some message → act_of self.now.settings result ≡ message_next self.now.settings h message }
        ensures begins { (h : List Event) → Stands self.now h → self.now.has_restarted ≡ true → message_due self.now.settings h ≡ Some message → Begins result self.now.settings h }
    {
        if self.may_write() {
            Due::Message(
                message.number() % u32::from(self.settings.limits.ring),
                message,
            )
        } else {
            Due::Nothing
        }
    }

    // what is due where no message is
    #[tactic(auto, using(crate::proofs::Small::small_numbers))]
    fn item_due(&self) -> Due
        requires inc { 0 < self.now.common.inc }
        requires stands { (h : List Event) × Stands self.now h × (length h < 16386) }
        requires restarted { self.now.has_restarted ≡ true }
        ensures act { (h : List Event) → Stands self.now h → act_of self.now.settings result ≡ work_next self.now.settings h }
        ensures begins { (h : List Event) → Stands self.now h → Begins result self.now.settings h }
    {
        let units = &self.rooms.units;
        let oldest = units.oldest();
        let half = u32::from(self.settings.limits.log) / 2;
        if half <= units.next() - self.keypoint.start && self.keypoint.start < oldest {
            Due::Keypoint(Keypoint {
                number: self.keypoint.number + 1,
                start: oldest,
            })
        } else {
            Due::Item
        }
    }
}
