//! What a job of either kind keeps.

ghost use Rattle.std.specs.Prelude.{◌≡◌, ℕ, ◌+◌, ◌<◌, ◌≤◌, [], ◌∷◌, List, Option, Some, None, true, false, is_some, length};
ghost use Rattle.xrf_ctl.specs.Signal.{of_numbers};
ghost use Rattle.xrf_msg.specs.Numbers.{given};
ghost use Rattle.xrf_history.specs.Terminals.{after_message};
ghost use Rattle.xrf_history.specs.declared.settings.Settings.{Settings as Set};
ghost use Rattle.xrf_history.specs.Events.{Event, StartedActive, Ticked, MessageRead, Reserved, ControlRead, ControlWritten, Released, EndedAs, Signalled1, Signalled2, Looked1, Looked2, DecisionMade};
ghost use Rattle.xrf_history.specs.Holding.{is_granted, is_restarted};
ghost use Rattle.xrf_history.specs.Taking.{expected};
ghost use Rattle.xrf_history.specs.Reserving.{purpose_now, record_by_purpose, end_by_purpose, end_of_grant, granted};
ghost use Rattle.xrf_history.specs.Notices.{epoch_number};
ghost use Rattle.xrf_history.specs.Looking.{change};
ghost use Rattle.xrf_history.specs.Rows.{rounds, signal_of};
ghost use Rattle.xrf_history.specs.Next.{inside};
ghost use Rattle.xrf_job.specs.Stages.{inside_of, purpose_of};
ghost use Rattle.xrf_job.specs.Sharing.{Shares};

use crate::purpose::Purpose;
use crate::stage::Stage;
use xrf_base::{Inc, Tick};
use xrf_cavm::{
    Decided, Dropping, Grant, Known, Watch, drop_alternate, grant_active, grant_standby, leave,
    let_through, sign_off, start_takeover,
};
use xrf_ctl::{Control, Signal};
use xrf_history::{EndWhy, Settings};
use xrf_msg::Reader;
use xrf_terms::TermTable;

/// What a job of either kind keeps: its incarnation, its rounds and looks, what it did under the
/// reserve, and how far it is in a sequence.
#[derive(Drop)]
pub struct Common {
    /// Its incarnation, 0 before it is granted.
    pub inc: Inc,
    /// How many rounds it began, and whether one in the present tick.
    pub rounds: u32,
    pub has_signalled: bool,
    /// The control record of the last look, and the other site's signal beside it.
    pub seen: Control,
    pub signal: Option<Signal>,
    pub watch: Watch,
    /// Its last decision.
    pub decided: Option<Decided>,
    /// What the last reserve was made for, the record read under it, and what of it is confirmed.
    pub purpose: Purpose,
    pub read: Control,
    pub known: Known,
    /// The number of the message that it takes next.
    pub expected: u32,
    pub stage: Stage,
}

// the record that is granted
fn granted(grant: Grant) -> Option<Control>
    ensures { result ≡ granted grant }
{
    match grant {
        Grant::Granted(record) => Some(record),
        _ => None,
    }
}

// how a job ends that is not granted
fn end_of_grant(grant: Grant) -> Option<EndWhy>
    ensures { result ≡ end_of_grant grant }
{
    match grant {
        Grant::Granted(_) => None,
        Grant::Present(inc) => Some(EndWhy::Refused(inc)),
        Grant::NoActive => Some(EndWhy::NoActive),
        Grant::Format => Some(EndWhy::Format),
    }
}

// the signal behind `rounds` others
fn next_signal(inc: Inc, rounds: u32, cursor: u32) -> Signal
    requires { 0 < inc }
    ensures { result ≡ of_numbers inc (rounds + 1) cursor }
{
    let counter = u64::from(rounds) + 1;
    Signal {
        inc,
        counter,
        cursor,
    }
}

impl Common {
    /// A job that is started. What it reserves for is not asked before its first RESERVE.
    pub fn start() -> Common
        ensures { (p : Set) → Shares result p (StartedActive ∷ []) }
    {
        Common {
            inc: 0,
            rounds: 0,
            has_signalled: false,
            seen: Control::empty(),
            signal: None,
            watch: Watch::new(0),
            decided: None,
            purpose: Purpose::SignOnActive,
            read: Control::empty(),
            known: Known {
                owner: false,
                alt: false,
            },
            expected: 0,
            stage: Stage::Reserve,
        }
    }

    /// A tick has passed.
    pub fn ticked(&mut self)
        ensures { (p : Set) (h : List Event) → Shares self.old p h → Shares self.new p (Ticked ∷ h) }
    {
        self.has_signalled = false;
    }

    /// The control data set is reserved.
    pub fn reserved(&mut self, purpose: Purpose)
        ensures { (p : Set) (h : List Event) → Shares self.old p h → purpose_of purpose ≡ purpose_now h → Shares self.new p (Reserved ∷ h) }
    {
        self.purpose = purpose;
        self.stage = Stage::CtlRead;
    }

    // what is written under the reserve, by a job that writes the messages of this epoch
    fn record_for(&self, p: &Settings, epoch: Inc) -> Option<Control>
        requires { self.now.read.last < 4294967295 }
        ensures { result ≡ record_by_purpose p.now (purpose_of self.now.purpose) self.now.inc epoch self.now.read self.now.known }
    {
        let Settings { site, level, .. } = *p;
        match self.purpose {
            Purpose::SignOnActive => granted(grant_active(&self.read, site, self.known, level)),
            Purpose::SignOnStandby => granted(grant_standby(&self.read, site, self.known, level)),
            Purpose::SignOff(state) => sign_off(&self.read, self.inc, state),
            Purpose::DropAlternate => match drop_alternate(&self.read, epoch) {
                Dropping::Write(record) => Some(record),
                _ => None,
            },
            Purpose::Leave(_) => leave(&self.read, self.inc),
            Purpose::StartTakeover(cause) => match start_takeover(&self.read, self.inc, cause) {
                Some(record) => Some(record),
                None => leave(&self.read, self.inc),
            },
            Purpose::GoThrough => let_through(&self.read, self.inc, self.known, level),
        }
    }

    // how the job ends after the release
    fn end_for(&self, p: &Settings) -> Option<EndWhy>
        requires { self.now.read.last < 4294967295 }
        ensures { result ≡ end_by_purpose p.now (purpose_of self.now.purpose) self.now.inc self.now.read self.now.known }
    {
        let Settings { site, level, .. } = *p;
        match self.purpose {
            Purpose::SignOnActive => end_of_grant(grant_active(
                &self.read, site, self.known, level,
            )),
            Purpose::SignOnStandby => end_of_grant(grant_standby(
                &self.read, site, self.known, level,
            )),
            Purpose::SignOff(_) => Some(EndWhy::SignedOff),
            Purpose::DropAlternate => None,
            Purpose::Leave(why) => Some(why),
            Purpose::StartTakeover(cause) => match start_takeover(&self.read, self.inc, cause) {
                Some(_) => None,
                None => Some(EndWhy::Abandoned),
            },
            Purpose::GoThrough => None,
        }
    }

    /// The control record is read under the reserve, by a job that writes the messages of this epoch.
    pub fn control_read(&mut self, p: &Settings, held: &Control, known: Known, epoch: Inc)
        requires { held.now.last < 4294967295 }
        ensures { (h : List Event) → Shares self.old p.now h → epoch ≡ epoch_number h → Shares self.new p.now (ControlRead held.now known ∷ h) }
    {
        self.read = *held;
        self.known = known;
        self.stage = match self.record_for(p, epoch) {
            Some(record) => Stage::CtlWrite(record),
            None => Stage::Release,
        };
    }

    /// The control record is written. The first that it writes grants it its incarnation.
    pub fn control_written(&mut self, written: &Control)
        ensures { (p : Set) (h : List Event) → Shares self.old p h → self.old.stage ≡ Stage.CtlWrite written.now → Shares self.new p (ControlWritten written.now ∷ h) }
    {
        if self.inc == 0 {
            self.inc = written.last();
        }
        self.stage = Stage::Release;
    }

    /// The control data set is released.
    pub fn released(&mut self, p: &Settings)
        requires { self.old.read.last < 4294967295 }
        ensures { (h : List Event) → Shares self.old p.now h → Shares self.new p.now (Released ∷ h) }
    {
        self.stage = match self.end_for(p) {
            Some(why) => Stage::Ended(why),
            None => Stage::Boundary,
        };
    }

    /// It has ended.
    pub fn ended(&mut self, why: EndWhy)
        ensures { (p : Set) (h : List Event) → Shares self.old p h → Shares self.new p (EndedAs why ∷ h) }
    {
        self.stage = Stage::Boundary;
    }

    /// The signal of its next round, with this cursor.
    pub fn next_signal(&self, cursor: u32) -> Signal
        requires { 0 < self.now.inc }
        ensures { result ≡ of_numbers self.now.inc (self.now.rounds + 1) cursor }
    {
        next_signal(self.inc, self.rounds, cursor)
    }

    /// It gave the signal of a round beside the control record.
    pub fn signalled1(&mut self, signal: &Signal)
        requires { self.old.rounds < 65536 }
        ensures { (p : Set) (h : List Event) → Shares self.old p h → is_granted h ≡ true → signal.now ≡ signal_of h (rounds h + 1) → Shares self.new p (Signalled1 signal.now ∷ h) }
    {
        self.rounds += 1;
        self.has_signalled = true;
        self.stage = Stage::Signal2(*signal);
    }

    /// It gave the signal in the message data set.
    pub fn signalled2(&mut self, signal: &Signal)
        ensures { (p : Set) (h : List Event) → Shares self.old p h → is_granted h ≡ true → Shares self.new p (Signalled2 signal.now ∷ h) }
    {
        self.stage = Stage::Look1;
    }

    /// It looked at the control record and at the signal beside it.
    pub fn looked1(&mut self, held: &Control, signal: &Option<Signal>)
        ensures { (p : Set) (h : List Event) → Shares self.old p h → is_granted h ≡ true → Shares self.new p (Looked1 held.now signal.now ∷ h) }
    {
        self.seen = *held;
        self.signal = *signal;
        self.stage = Stage::Look2;
    }

    /// It read a slot for a message. The message that the slot gives is applied to its table.
    pub fn message_read(&mut self, slot: &[u8; 64], table: &mut TermTable) -> bool
        requires { self.old.expected < 4294967295 }
        ensures gave { result ≡ is_some (given slot.now self.old.inc self.old.expected) }
        ensures table { table.new ≡ after_message (given slot.now self.old.inc self.old.expected) table.old }
        ensures stands { (p : Set) (h : List Event) (place : ℕ) → Shares self.old p h → is_restarted h ≡ false → Shares self.new p (MessageRead place slot.now ∷ h) }
    {
        let mut reader = Reader {
            epoch: self.inc,
            expected: self.expected,
        };
        self.stage = Stage::Boundary;
        match reader.take(slot) {
            Some(message) => {
                self.expected += 1;
                table.apply(&message);
                true
            }
            None => false,
        }
    }

    /// It looked at the signal in the message data set.
    pub fn looked2(&mut self, signal: &Option<Signal>, at: Tick)
        requires { self.old.watch.change ≤ at }
        ensures { (p : Set) (h : List Event) → Shares self.old p h → is_granted h ≡ true → Shares self.new p (Looked2 signal.now at ∷ h) }
    {
        self.watch.look(self.signal, *signal, at);
        self.stage = Stage::Decide;
    }
}
