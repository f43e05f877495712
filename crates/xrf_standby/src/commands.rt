//! What the operator says to an alternate, and the lines of the command list.

ghost use Rattle.std.specs.Prelude.{◌≡◌, ◌+◌, ◌≤◌, ◌∷◌, List, true, false};
ghost use Rattle.xrf_history.specs.Events.{Event, Replied, Commanded, LineIssued};
ghost use Rattle.xrf_history.specs.Holding.{is_owner};
ghost use Rattle.xrf_history.specs.Looking.{change};
ghost use Rattle.xrf_history.specs.Rows.{lines_issued};
ghost use Rattle.xrf_standby.specs.Alternate.{Stands};

use crate::alternate::Alternate;
use xrf_base::Tick;
use xrf_cebt::Cebt;
use xrf_job::Stage;

impl Alternate {
    /// The operator said go, or to go on waiting.
    pub(crate) fn replied(&mut self, go: bool, at: Tick)
        requires { (h : List Event) × Stands self.old h × (change h ≤ at) }
        ensures settings { self.new.settings ≡ self.old.settings }
        ensures stands { (h : List Event) → Stands self.old h → is_owner h ≡ false → Stands self.new (Replied go at ∷ h) }
    {
        self.mode.asked = self.mode.asked && go;
        self.mode.go = self.mode.go || go;
        if !go {
            self.common.watch.reset(at);
        }
    }

    /// The operator gave a command.
    pub(crate) fn commanded(&mut self, command: Cebt, at: Tick)
        requires { (h : List Event) × Stands self.old h × (change h ≤ at) }
        ensures settings { self.new.settings ≡ self.old.settings }
        ensures stands { (h : List Event) → Stands self.old h → is_owner h ≡ false → Stands self.new (Commanded command at ∷ h) }
    {
        let is_waiting = self.is_waiting();
        match command {
            Cebt::PerformTakeover => self.mode.commanded = self.mode.commanded || !is_waiting,
            Cebt::PerformShutdown => self.mode.shutdown = self.mode.shutdown || !is_waiting,
            Cebt::InquireTakeover => {}
            Cebt::InquireSurveillance => {}
            Cebt::SetTakeover(takeovr) => self.mode.takeovr = takeovr,
            Cebt::SetSurveillance(false) => self.mode.surveillance = false,
            Cebt::SetSurveillance(true) => {
                self.mode.surveillance = true;
                self.common.watch.reset(at);
            }
        }
    }

    /// It issued a line of the command list.
    pub(crate) fn line_issued(&mut self, line: u16)
        ensures settings { self.new.settings ≡ self.old.settings }
        ensures stands { (h : List Event) → Stands self.old h → is_owner h ≡ false → line ≡ lines_issued h + 1 → Stands self.new (LineIssued line ∷ h) }
    {
        self.lines = line;
        self.common.stage = Stage::Boundary;
    }
}
