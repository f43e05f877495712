//! What an alternate does next at a boundary.

ghost use Rattle.std.specs.Prelude.{◌≡◌, ◌<◌, List, Some, None, false};
ghost use Rattle.xrf_history.specs.Events.{Event};
ghost use Rattle.xrf_history.specs.Holding.{is_owner, is_waiting};
ghost use Rattle.xrf_history.specs.Reserving.{start_in, is_through_decision, start_due};
ghost use Rattle.xrf_history.specs.Rows.{alternate_starts, alternate_tracks, boundary};
ghost use Rattle.xrf_standby.specs.Dues.{act_of, Begins};
ghost use Rattle.xrf_standby.specs.Alternate.{Stands};

use crate::alternate::Alternate;
use xrf_cavm::{Decided, Decision, Waiting};
use xrf_ctl::{Cause, Signal};
use xrf_history::{EndWhy, Want};

/// What is due at a boundary: the first row of the alternate's table that applies.
#[derive(Clone, Copy)]
pub enum Due {
    Nothing,
    /// A line of the command list.
    Line(u16),
    /// The end of one that was dropped.
    End(EndWhy),
    /// A leave, the start of the takeover, or the way through.
    Reserve,
    Round(Signal),
    /// A message slot is to be read.
    Read(u32),
}

impl Due {
    /// Its act.
    pub fn act(&self) -> Want
        ensures { result ≡ act_of self.now }
    {
        match *self {
            Due::Nothing => Want::Nothing,
            Due::Line(line) => Want::Clt(line),
            Due::End(why) => Want::Ended(why),
            Due::Reserve => Want::Reserve,
            Due::Round(signal) => Want::Signal1(signal),
            Due::Read(place) => Want::MsgRead(place),
        }
    }
}

impl Alternate {
    /// What is due at a boundary.
    pub(crate) fn due(&self) -> Due
        requires { (h : List Event) × Stands self.now h }
        ensures act { (h : List Event) → Stands self.now h → is_owner h ≡ false → act_of result ≡ boundary self.now.settings h }
        ensures begins { (h : List Event) → Stands self.now h → is_owner h ≡ false → Begins result h }
    {
        if self.is_waiting() && self.lines < self.settings.clt_lines {
            return Due::Line(self.lines + 1);
        }
        match self.leaves {
            Some(EndWhy::Dropped) => Due::End(EndWhy::Dropped),
            Some(_) => Due::Reserve,
            None => self.start_or_track(),
        }
    }

    /// The cause of the start that is due.
    pub(crate) fn start_due(&self) -> Option<Cause>
        ensures { result ≡ start_in self.now.open_decision }
    {
        match self.open_decision {
            Some(Decided::Alternate(Decision::Start(cause))) => Some(cause),
            _ => None,
        }
    }

    // the way through is due
    fn through_due(&self) -> bool
        ensures { result ≡ is_through_decision self.now.open_decision }
    {
        matches!(self.open_decision, Some(Decided::Waiting(Waiting::Through)))
    }

    // what is due of one that does not leave
    fn start_or_track(&self) -> Due
        requires { (h : List Event) × Stands self.now h }
        ensures act { (h : List Event) → Stands self.now h → is_owner h ≡ false → act_of result ≡ alternate_starts self.now.settings h (start_due h) }
        ensures begins { (h : List Event) → Stands self.now h → is_owner h ≡ false → Begins result h }
    {
        match self.start_due() {
            Some(_) => Due::Reserve,
            None => self.track(),
        }
    }

    // what is due of one that does not start its takeover
    fn track(&self) -> Due
        requires { (h : List Event) × Stands self.now h }
        ensures act { (h : List Event) → Stands self.now h → is_owner h ≡ false → act_of result ≡ alternate_tracks self.now.settings h }
        ensures begins { (h : List Event) → Stands self.now h → is_owner h ≡ false → Begins result h }
    {
        if self.through_due() {
            return Due::Reserve;
        }
        if self.common.inc > 0 && !self.common.has_signalled {
            return Due::Round(self.common.next_signal(self.common.expected));
        }
        if self.is_reading {
            return Due::Read(self.common.expected % u32::from(self.settings.limits.ring));
        }
        Due::Nothing
    }
}
