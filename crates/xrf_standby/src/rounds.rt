//! The rounds of an alternate, and what it decides.

ghost use Rattle.std.specs.Prelude.{◌≡◌, ◌+◌, ◌<◌, ◌≤◌, ◌∷◌, List, Some, None, true, false, length};
ghost use Rattle.xrf_cavm.specs.Watch.{is_lost};
ghost use Rattle.xrf_history.specs.Events.{Event, Signalled1, Signalled2, Looked1, Looked2, DecisionMade};
ghost use Rattle.xrf_history.specs.Holding.{is_granted, is_owner};
ghost use Rattle.xrf_history.specs.Looking.{change};
ghost use Rattle.xrf_history.specs.Reserving.{end_in, is_start};
ghost use Rattle.xrf_history.specs.Deciding.{is_ask, cause};
ghost use Rattle.xrf_history.specs.Rows.{rounds, signal_of, lets_read};
ghost use Rattle.xrf_active.specs.Promoting.{IsNoOwners};
ghost use Rattle.xrf_standby.specs.Alternate.{Stands};

use crate::alternate::Alternate;
use xrf_base::Tick;
use xrf_cavm::{Decided, Decision, Known, Waiting, Why, decide, decide_waiting};
use xrf_ctl::{Control, Signal};
use xrf_history::EndWhy;
use xrf_job::Stage;

// it asks the operator
fn is_ask(decided: Decided) -> bool
    ensures { result ≡ is_ask decided }
{
    matches!(decided, Decided::Alternate(Decision::Ask))
}

// it starts its takeover
fn is_start(decided: Decided) -> bool
    ensures { result ≡ is_start decided }
{
    matches!(decided, Decided::Alternate(Decision::Start(_)))
}

// it goes on, and messages are to be read
fn lets_read(decided: Decided) -> bool
    ensures { result ≡ lets_read decided }
{
    match decided {
        Decided::Alternate(Decision::Nothing) => true,
        Decided::Alternate(Decision::Ask) => true,
        Decided::Waiting(Waiting::Wait) => true,
        _ => false,
    }
}

// how it ends, where it leaves
fn end_in(decided: Decided) -> Option<EndWhy>
    ensures { result ≡ end_in decided }
{
    match decided {
        Decided::Alternate(Decision::Leave(why)) => Some(match why {
            Why::Shutdown => EndWhy::Shutdown,
            Why::Dropped => EndWhy::Dropped,
            Why::Normal => EndWhy::Normal,
        }),
        _ => None,
    }
}

impl Alternate {
    /// It gave the signal of a round beside the control record.
    #[tactic(auto, using(xrf_job::proofs::Counts::counts))]
    pub(crate) fn signalled1(&mut self, signal: &Signal)
        requires { (h : List Event) × Stands self.old h × (length h < 16385) }
        ensures settings { self.new.settings ≡ self.old.settings }
        ensures stands { (h : List Event) → Stands self.old h → is_owner h ≡ false → is_granted h ≡ true → signal.now ≡ signal_of h (rounds h + 1) → Stands self.new (Signalled1 signal.now ∷ h) }
    {
        self.common.signalled1(signal);
    }

    /// It gave the signal in the message data set.
    pub(crate) fn signalled2(&mut self, signal: &Signal)
        ensures settings { self.new.settings ≡ self.old.settings }
        ensures stands { (h : List Event) → Stands self.old h → is_owner h ≡ false → is_granted h ≡ true → Stands self.new (Signalled2 signal.now ∷ h) }
    {
        self.common.signalled2(signal);
    }

    /// It looked at the control record and at the signal beside it.
    pub(crate) fn looked1(&mut self, held: &Control, signal: &Option<Signal>)
        ensures settings { self.new.settings ≡ self.old.settings }
        ensures stands { (h : List Event) → Stands self.old h → is_owner h ≡ false → is_granted h ≡ true → Stands self.new (Looked1 held.now signal.now ∷ h) }
    {
        self.common.looked1(held, signal);
    }

    /// It looked at the signal in the message data set.
    pub(crate) fn looked2(&mut self, signal: &Option<Signal>, at: Tick)
        requires { (h : List Event) × Stands self.old h × (change h ≤ at) }
        ensures settings { self.new.settings ≡ self.old.settings }
        ensures stands { (h : List Event) → Stands self.old h → is_owner h ≡ false → is_granted h ≡ true → Stands self.new (Looked2 signal.now at ∷ h) }
    {
        self.common.looked2(signal, at);
    }

    // the active's signal has not changed for ADI ticks
    fn is_lost(&self, at: Tick) -> bool
        requires { self.now.common.watch.change ≤ at }
        ensures { result ≡ is_lost self.now.common.watch.change self.now.mode.adi at }
    {
        at - self.common.watch.last_change() >= self.mode.adi
    }

    // what it decides, by the record of the last look
    fn cause(&self, known: Known, at: Tick) -> Decided
        requires { self.now.common.watch.change ≤ at }
        ensures cause { (h : List Event) → Stands self.now h → is_owner h ≡ false → result ≡ cause self.now.settings h known at }
        ensures none { IsNoOwners result }
    {
        let seen = &self.common.seen;
        if self.is_waiting() {
            Decided::Waiting(decide_waiting(seen, known))
        } else {
            Decided::Alternate(decide(&self.common.watch, seen, self.common.inc, self.mode, at))
        }
    }

    // it has decided so
    fn decided_so(&mut self, decided: Decided, at: Tick)
        requires { self.old.common.watch.change ≤ at }
        ensures settings { self.new.settings ≡ self.old.settings }
        ensures stands { (h : List Event) (known : Known) → Stands self.old h → is_owner h ≡ false → IsNoOwners decided → Stands self.new (DecisionMade known at decided ∷ h) }
    {
        let is_lost = self.is_lost(at);
        self.mode.asked = is_ask(decided) || (self.mode.asked && is_lost);
        self.mode.go = self.mode.go && is_lost;
        self.open_decision = Some(decided);
        self.leaves = end_in(decided);
        self.has_abandoned = false;
        self.is_starting = is_start(decided);
        self.is_reading = lets_read(decided);
        self.common.decided = Some(decided);
        self.common.stage = Stage::Boundary;
    }

    /// It decides, by the record of the last look.
    pub(crate) fn decision_made(&mut self, known: Known, at: Tick)
        requires { (h : List Event) × Stands self.old h × (change h ≤ at) }
        ensures settings { self.new.settings ≡ self.old.settings }
        ensures stands { (h : List Event) → Stands self.old h → is_owner h ≡ false → Stands self.new (DecisionMade known at (cause self.old.settings h known at) ∷ h) }
    {
        let decided = self.cause(known, at);
        self.decided_so(decided, at);
    }
}
