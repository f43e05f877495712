//! The rounds of an owner.

ghost use Rattle.std.specs.Prelude.{◌≡◌, ℕ, ◌+◌, ◌<◌, ◌≤◌, ◌∷◌, List, Some, None, true, false, length};
ghost use Rattle.xrf_history.specs.Events.{Event, Signalled1, Signalled2, Looked1, Looked2, DecisionMade};
ghost use Rattle.xrf_history.specs.Holding.{is_granted};
ghost use Rattle.xrf_history.specs.Looking.{change};
ghost use Rattle.xrf_history.specs.Deciding.{cause};
ghost use Rattle.xrf_history.specs.Rows.{rounds, signal_of};
ghost use Rattle.xrf_active.specs.Standing.{Stands};

use crate::active::Active;
use crate::sending::Sending;
use xrf_base::Tick;
use xrf_cavm::{Acting, Decided, Known, decide_active};
use xrf_ctl::{Control, Signal};
use xrf_exit::Notice;
use xrf_job::Stage;
use xrf_msg::Writer;

impl Active {
    /// It gave the signal of a round beside the control record.
    #[tactic(auto, using(xrf_job::proofs::Counts::counts))]
    pub(crate) fn signalled1(&mut self, signal: &Signal)
        requires { (h : List Event) × Stands self.old h × (length h < 16385) }
        ensures settings { self.new.settings ≡ self.old.settings }
        ensures stands { (h : List Event) → Stands self.old h → is_granted h ≡ true → signal.now ≡ signal_of h (rounds h + 1) → Stands self.new (Signalled1 signal.now ∷ h) }
    {
        self.common.signalled1(signal);
    }

    /// It gave the signal in the message data set.
    pub(crate) fn signalled2(&mut self, signal: &Signal)
        ensures settings { self.new.settings ≡ self.old.settings }
        ensures stands { (h : List Event) → Stands self.old h → is_granted h ≡ true → Stands self.new (Signalled2 signal.now ∷ h) }
    {
        self.common.signalled2(signal);
    }

    /// It looked at the control record and at the signal beside it.
    pub(crate) fn looked1(&mut self, held: &Control, signal: &Option<Signal>)
        ensures settings { self.new.settings ≡ self.old.settings }
        ensures stands { (h : List Event) → Stands self.old h → is_granted h ≡ true → Stands self.new (Looked1 held.now signal.now ∷ h) }
    {
        self.common.looked1(held, signal);
        if let Some(signal) = signal {
            if let Some(sending) = &mut self.sending {
                sending.writer.heard(signal);
            }
        }
    }

    /// It looked at the signal in the message data set.
    pub(crate) fn looked2(&mut self, signal: &Option<Signal>, at: Tick)
        requires { (h : List Event) × Stands self.old h × (change h ≤ at) }
        ensures settings { self.new.settings ≡ self.old.settings }
        ensures stands { (h : List Event) → Stands self.old h → is_granted h ≡ true → Stands self.new (Looked2 signal.now at ∷ h) }
    {
        self.common.looked2(signal, at);
        if let Some(signal) = signal {
            if let Some(sending) = &mut self.sending {
                sending.writer.heard(signal);
            }
        }
    }

    /// It decides, by the record of the last look. A new alternate is caught up, from no message on.
    pub(crate) fn decision_made(&mut self, known: Known, at: Tick)
        requires { (h : List Event) × Stands self.old h × (change h ≤ at) }
        ensures settings { self.new.settings ≡ self.old.settings }
        ensures stands { (h : List Event) → Stands self.old h → is_granted h ≡ true → Stands self.new (DecisionMade known at (cause self.old.settings h known at) ∷ h) }
    {
        let epoch = match self.sending {
            Some(sending) => Some(sending.writer.epoch),
            None => None,
        };
        let acting = decide_active(
            &self.common.watch,
            &self.common.seen,
            epoch,
            self.settings.pdi,
            at,
        );
        self.common.decided = Some(Decided::Owner(acting));
        self.common.stage = Stage::Boundary;
        match acting {
            Acting::Nothing => {}
            Acting::Seen => self.notice = Some(Notice::TakeoverSeen),
            Acting::Lost => self.notice = Some(Notice::AlternateLost),
            Acting::Forget => self.sending = None,
            Acting::CatchUp(epoch) => {
                self.common.watch.reset(at);
                self.sending = Some(caught_up(epoch));
            }
        }
    }
}

// the messages of a new epoch
fn caught_up(epoch: u32) -> Sending
    ensures epoch { result.writer.epoch ≡ epoch }
    ensures sent { result.writer.seq ≡ 0 }
    ensures cursor { result.writer.cursor ≡ 0 }
    ensures ended { result.has_ended ≡ false }
{
    Sending {
        writer: Writer {
            epoch,
            seq: 0,
            cursor: 0,
        },
        has_ended: false,
        change: None,
    }
}
