//! The job of an alternate, until it is let through.

ghost use Rattle.std.specs.Prelude.{◌≡◌, [], ◌∷◌, List, Some, None, true, false};
ghost use Rattle.xrf_history.specs.Events.{Event, StartedStandby, Ticked};
ghost use Rattle.xrf_history.specs.Holding.{number, is_owner, is_waiting};
ghost use Rattle.xrf_history.specs.Terminals.{table};
ghost use Rattle.xrf_history.specs.Reserving.{last_decision, is_leaving, is_starting};
ghost use Rattle.xrf_history.specs.Deciding.{takeovr, surveillance, is_asked, has_go};
ghost use Rattle.xrf_history.specs.Next.{next};
ghost use Rattle.xrf_job.specs.Rooms.{AreFor};
ghost use Rattle.xrf_standby.specs.Alternate.{Stands};

use xrf_base::{Inc, Takeovr};
use xrf_cavm::{Decided, Mode};
use xrf_history::{EndWhy, Settings, Want};
use xrf_job::{Common, Rooms};
use xrf_terms::TermTable;

/// The job of a region that signs on as standby, tracks the active, and starts a takeover, up to the
/// CTLWRITE by which it is let through.
#[derive(Drop)]
pub struct Alternate {
    pub(crate) settings: Settings,
    pub(crate) common: Common,
    pub(crate) rooms: Rooms,
    // what it goes by while it tracks the active
    pub(crate) mode: Mode,
    // the last decision, where no RESERVE follows it
    pub(crate) open_decision: Option<Decided>,
    // why it leaves, and whether its start was abandoned
    pub(crate) leaves: Option<EndWhy>,
    pub(crate) has_abandoned: bool,
    // whether it is about to write its start, has written it, and was let through
    pub(crate) is_starting: bool,
    pub(crate) has_started: bool,
    pub(crate) is_through: bool,
    // the lines of the command list that it has issued
    pub(crate) lines: u16,
    // whether messages are to be read
    pub(crate) is_reading: bool,
}

impl Alternate {
    /// A job that is started to sign on as standby, in rooms that were made for its limits. It empties
    /// them.
    pub(crate) fn start(mut rooms: Rooms, settings: &Settings) -> Alternate
        requires { AreFor rooms settings.now.limits }
        ensures settings { result.settings ≡ settings.now }
        ensures stands { Stands result (StartedStandby ∷ []) }
    {
        rooms.clear();
        Alternate {
            settings: *settings,
            common: Common::start(),
            rooms,
            mode: Mode {
                takeovr: settings.takeovr,
                adi: settings.adi,
                surveillance: true,
                commanded: false,
                shutdown: false,
                asked: false,
                go: false,
            },
            open_decision: None,
            leaves: None,
            has_abandoned: false,
            is_starting: false,
            has_started: false,
            is_through: false,
            lines: 0,
            is_reading: false,
        }
    }

    /// The act that it wants next.
    #[inline(always)]
    pub(crate) fn want(&self) -> Want
        requires { (h : List Event) × Stands self.now h }
        ensures { (h : List Event) → Stands self.now h → result ≡ next self.now.settings h }
    {
        match self.common.stage.act() {
            Some(act) => act,
            None => self.due().act(),
        }
    }

    /// Its incarnation, 0 before it is granted.
    pub(crate) fn inc(&self) -> Inc
        ensures { (h : List Event) → Stands self.now h → result ≡ number h }
    {
        self.common.inc
    }

    /// The terminals that it was told of.
    pub(crate) fn table(&self) -> &TermTable
        ensures { (h : List Event) → Stands self.now h → result.now ≡ table self.now.settings h }
    {
        &self.rooms.table
    }

    /// Its last decision, none before the first.
    pub(crate) fn decided(&self) -> Option<Decided>
        ensures { (h : List Event) → Stands self.now h → result ≡ last_decision h }
    {
        self.common.decided
    }

    /// What it may do by itself when it misses the active.
    pub(crate) fn takeovr(&self) -> Takeovr
        ensures { (h : List Event) → Stands self.now h → result ≡ takeovr self.now.settings h }
    {
        self.mode.takeovr
    }

    /// Whether the active's signal is watched.
    pub(crate) fn surveillance(&self) -> bool
        ensures { (h : List Event) → Stands self.now h → result ≡ surveillance h }
    {
        self.mode.surveillance
    }

    /// It has started its takeover, and waits until it is let through.
    pub(crate) fn is_waiting(&self) -> bool
        ensures { (h : List Event) → Stands self.now h → result ≡ is_waiting h }
    {
        self.common.inc > 0 && !self.is_through && self.has_started
    }

    /// It leaves, or its start was abandoned.
    pub(crate) fn is_leaving(&self) -> bool
        ensures { (h : List Event) → Stands self.now h → result ≡ is_leaving h }
    {
        self.leaves.is_some() || self.has_abandoned
    }

    /// It decided to start its takeover, and has not written the start.
    pub(crate) fn is_starting(&self) -> bool
        ensures { (h : List Event) → Stands self.now h → result ≡ is_starting h }
    {
        self.is_starting
    }

    /// The operator was asked, and has not said to go on waiting.
    pub(crate) fn is_asked(&self) -> bool
        ensures { (h : List Event) → Stands self.now h → result ≡ is_asked self.now.settings h }
    {
        self.mode.asked
    }

    /// The operator said go.
    pub(crate) fn has_go(&self) -> bool
        ensures { (h : List Event) → Stands self.now h → result ≡ has_go self.now.settings h }
    {
        self.mode.go
    }

    /// It was let through: it owns the data sets, and goes on as an owner.
    pub(crate) fn is_through(&self) -> bool
        ensures { (h : List Event) → Stands self.now h → result ≡ is_owner h }
    {
        self.is_through
    }

    /// Gives back the memory that it works in.
    pub(crate) fn into_rooms(self) -> Rooms
        ensures { (h : List Event) → Stands self h → AreFor result self.settings.limits }
    {
        self.rooms
    }

    /// A tick has passed.
    pub(crate) fn ticked(&mut self)
        ensures settings { self.new.settings ≡ self.old.settings }
        ensures stands { (h : List Event) → Stands self.old h → is_owner h ≡ false → Stands self.new (Ticked ∷ h) }
    {
        self.common.ticked();
    }
}
