//! What ends an owner: ABEND, the answers of the exit, and acts that fail.

ghost use Rattle.std.specs.Prelude.{◌≡◌, ℕ, ◌<◌, ◌≤◌, ◌∷◌, List, Some, None, true, false, length, if◌then◌else◌};
ghost use Rattle.xrf_history.specs.Events.{Event, Abended, Exited, ActFailed};
ghost use Rattle.xrf_history.specs.Looking.{change};
ghost use Rattle.xrf_history.specs.declared.want.Want.{Want as Act};
ghost use Rattle.xrf_history.specs.Holding.{is_granted, is_restarted};
ghost use Rattle.xrf_history.specs.Reserving.{or_else};
ghost use Rattle.xrf_history.specs.Working.{next_keypoint};
ghost use Rattle.xrf_job.specs.Stages.{AtHand};
ghost use Rattle.xrf_active.specs.Failing.{failed, IsQuiet};
ghost use Rattle.xrf_active.specs.Standing.{Stands};

use crate::active::Active;
use crate::logging::count_record;
use xrf_base::Tick;
use xrf_ctl::OwnerState;
use xrf_exit::ExitAnswer;
use xrf_job::Stage;
use xrf_logrec::{Keypoint, LogRec};
use xrf_msg::Message;

// the sign-off that is due after a failed act, unless it was on a message that is sent
fn sign_off_by(sign_off: Option<OwnerState>, is_sending: bool) -> Option<OwnerState>
    ensures { result ≡ or_else sign_off (if is_sending then None else Some OwnerState.OffAbend) }
{
    match sign_off {
        Some(state) => Some(state),
        None => {
            if is_sending {
                None
            } else {
                Some(OwnerState::OffAbend)
            }
        }
    }
}

impl Active {
    // an act of it failed, on a message slot or not
    fn fail(&mut self, on_message: bool)
        ensures { self.new ≡ failed self.old on_message }
    {
        let is_sending = on_message && !self.is_draining;
        self.sign_off = sign_off_by(self.sign_off, is_sending);
        self.must_drop = self.must_drop || is_sending;
        self.common.stage = Stage::Boundary;
    }

    // an act failed that it does not count
    pub(crate) fn quiet_failed(&mut self, on_message: bool)
        ensures settings { self.new.settings ≡ self.old.settings }
        ensures stands { (h : List Event) (tried : Act) (at : ℕ) → Stands self.old h → is_granted h ≡ true → IsQuiet tried on_message → Stands self.new (ActFailed tried at ∷ h) }
    {
        self.fail(on_message);
    }

    // the read of a message slot failed
    pub(crate) fn slot_failed(&mut self)
        ensures settings { self.new.settings ≡ self.old.settings }
        ensures stands { (h : List Event) (place at : ℕ) → Stands self.old h → is_granted h ≡ true → Stands self.new (ActFailed (Act.MsgRead place) at ∷ h) }
    {
        self.fail(true);
        self.is_draining = false;
    }

    // an undo row failed to be written back
    #[tactic(auto, using(xrf_job::proofs::Counts::counts))]
    pub(crate) fn undo_failed(&mut self)
        requires { (h : List Event) × Stands self.old h × (length h < 16385) }
        ensures settings { self.new.settings ≡ self.old.settings }
        ensures stands { (h : List Event) (rrn : ℕ) (before : List ℕ) (at : ℕ) → Stands self.old h → is_granted h ≡ true → Stands self.new (ActFailed (Act.Undo rrn before) at ∷ h) }
    {
        self.undone += 1;
        self.rolled += 1;
        self.fail(false);
    }

    // the Backout of a unit failed to be opened in the restart
    #[tactic(auto, using(xrf_job::proofs::Counts::counts))]
    pub(crate) fn backout_failed(&mut self, rec: &LogRec)
        requires { (h : List Event) × Stands self.old h × (length h < 16385) }
        ensures settings { self.new.settings ≡ self.old.settings }
        ensures stands { (h : List Event) (place at : ℕ) → Stands self.old h → is_granted h ≡ true → is_restarted h ≡ false → AtHand self.old.settings h rec.now → Stands self.new (ActFailed (Act.LogOpen place rec.now) at ∷ h) }
    {
        self.opened += 1;
        self.fail(false);
    }

    // an item's log record failed to be opened
    #[tactic(auto, using(xrf_job::proofs::Counts::counts, crate::proofs::Small::small_numbers))]
    pub(crate) fn record_failed(&mut self, rec: &LogRec)
        requires { (h : List Event) × Stands self.old h × (length h < 16385) × (is_restarted h ≡ true) × AtHand self.old.settings h rec.now }
        ensures settings { self.new.settings ≡ self.old.settings }
        ensures stands { (h : List Event) (place at : ℕ) → Stands self.old h → is_granted h ≡ true → is_restarted h ≡ true → AtHand self.old.settings h rec.now → Stands self.new (ActFailed (Act.LogOpen place rec.now) at ∷ h) }
    {
        self.opened += 1;
        count_record(&mut self.rooms.units, rec);
        self.fail(false);
    }

    // a keypoint failed to be opened
    #[tactic(auto, using(crate::proofs::Small::small_numbers))]
    pub(crate) fn key_failed(&mut self, keypoint: Keypoint)
        requires { (h : List Event) × Stands self.old h × (is_restarted h ≡ true) × (keypoint ≡ next_keypoint self.old.settings h) }
        ensures settings { self.new.settings ≡ self.old.settings }
        ensures stands { (h : List Event) (place at : ℕ) → Stands self.old h → is_granted h ≡ true → is_restarted h ≡ true → keypoint ≡ next_keypoint self.old.settings h → Stands self.new (ActFailed (Act.KpOpen place keypoint) at ∷ h) }
    {
        self.rooms.units.keyed(keypoint.start);
        self.keypoint = keypoint;
        self.fail(false);
    }

    // a message failed to be opened
    #[tactic(auto, using(xrf_job::proofs::Counts::counts))]
    pub(crate) fn message_failed(&mut self, message: &Message)
        requires { (h : List Event) × Stands self.old h × (length h < 16385) }
        ensures settings { self.new.settings ≡ self.old.settings }
        ensures stands { (h : List Event) (place at : ℕ) → Stands self.old h → is_granted h ≡ true → Stands self.new (ActFailed (Act.MsgOpen place message.now) at ∷ h) }
    {
        if let Some(sending) = &mut self.sending {
            sending.sent(message);
        }
        self.fail(true);
    }

    /// The region ends abnormally.
    pub(crate) fn abended(&mut self)
        ensures settings { self.new.settings ≡ self.old.settings }
        ensures stands { (h : List Event) → Stands self.old h → Stands self.new (Abended ∷ h) }
    {
        if self.sign_off.is_none() {
            self.sign_off = Some(OwnerState::OffAbend);
        }
    }

    /// The status exit answered.
    pub(crate) fn exited(&mut self, said: ExitAnswer, at: Tick)
        requires { (h : List Event) × Stands self.old h × (change h ≤ at) }
        ensures settings { self.new.settings ≡ self.old.settings }
        ensures stands { (h : List Event) → Stands self.old h → Stands self.new (Exited said at ∷ h) }
    {
        self.notice = None;
        match said {
            ExitAnswer::Abend => {
                if self.sign_off.is_none() {
                    self.sign_off = Some(OwnerState::OffAbend);
                }
            }
            ExitAnswer::Keep => self.common.watch.reset(at),
            ExitAnswer::Drop => self.must_drop = true,
        }
    }
}
