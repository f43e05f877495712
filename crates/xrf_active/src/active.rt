//! The job of an owner.

ghost use Rattle.std.specs.Prelude.{◌≡◌, ℕ, ◌+◌, ◌<◌, [], ◌∷◌, List, Option, Some, None, true, false, is_some, length};
ghost use Rattle.xrf_history.specs.Events.{Event, StartedActive, Ticked, Abended};
ghost use Rattle.xrf_history.specs.Holding.{number, is_restarted};
ghost use Rattle.xrf_history.specs.Looking.{change};
ghost use Rattle.xrf_history.specs.Terminals.{table};
ghost use Rattle.xrf_history.specs.Reserving.{last_decision, sign_off_due};
ghost use Rattle.xrf_history.specs.Notices.{notice};
ghost use Rattle.xrf_history.specs.Next.{next};
ghost use Rattle.xrf_job.specs.Rooms.{AreFor};
ghost use Rattle.xrf_active.specs.Standing.{Stands};

use crate::sending::Sending;
use xrf_base::{Inc, ItemAnswer, Tick};
use xrf_cavm::Decided;
use xrf_ctl::OwnerState;
use xrf_exit::Notice;
use xrf_file::Plan;
use xrf_history::{Settings, Want};
use xrf_job::{Common, Rooms};
use xrf_logrec::Keypoint;
use xrf_terms::TermTable;

/// The job of a region that signs on as active, or that was let through: a machine that says what act
/// it wants next, and is handed what the act, a tick or a choice gives.
#[derive(Drop)]
pub struct Active {
    pub(crate) settings: Settings,
    pub(crate) common: Common,
    pub(crate) rooms: Rooms,
    // the sign-off that is due, the notice that is pending, and whether a drop is due
    pub(crate) sign_off: Option<OwnerState>,
    pub(crate) notice: Option<Notice>,
    pub(crate) must_drop: bool,
    // whether the messages are still to be drained, the scan has ended, and RESTARTED was made
    pub(crate) is_draining: bool,
    pub(crate) has_scanned: bool,
    pub(crate) has_restarted: bool,
    // the UNDOs since the scan, the log records that it opened, and the keypoint in force
    pub(crate) undone: u32,
    pub(crate) opened: u32,
    pub(crate) keypoint: Keypoint,
    // what the item taken last makes of it, and the UNDOs since
    pub(crate) plan: Plan,
    pub(crate) rolled: u32,
    // the messages of the epoch
    pub(crate) sending: Option<Sending>,
}

impl Active {
    /// A job that is started to sign on as active, in rooms that were made for its limits. It empties
    /// them.
    pub fn start(mut rooms: Rooms, settings: &Settings) -> Active
        requires { AreFor rooms settings.now.limits }
        ensures settings { result.settings ≡ settings.now }
        ensures stands { Stands result (StartedActive ∷ []) }
    {
        rooms.clear();
        Active {
            settings: *settings,
            common: Common::start(),
            rooms,
            sign_off: None,
            notice: None,
            must_drop: false,
            is_draining: false,
            has_scanned: false,
            has_restarted: false,
            undone: 0,
            opened: 0,
            keypoint: Keypoint {
                number: 0,
                start: 0,
            },
            plan: Plan::Answer(ItemAnswer::Done),
            rolled: 0,
            sending: None,
        }
    }

    /// The act that it wants next.
    #[inline(always)]
    pub fn want(&self) -> Want
        requires { (h : List Event) × Stands self.now h × (length h < 16386) }
        ensures { (h : List Event) → Stands self.now h → result ≡ next self.now.settings h }
    {
        match self.common.stage.act() {
            Some(act) => act,
            None => self.due().act(&self.settings),
        }
    }

    /// RESTARTED was made.
    pub fn is_restarted(&self) -> bool
        ensures { (h : List Event) → Stands self.now h → result ≡ is_restarted h }
    {
        self.has_restarted
    }

    /// A sign-off is due or begun.
    pub fn is_signing_off(&self) -> bool
        ensures { (h : List Event) → Stands self.now h → result ≡ is_some (sign_off_due h) }
    {
        self.sign_off.is_some()
    }

    /// Its incarnation, 0 before it is granted.
    pub fn inc(&self) -> Inc
        ensures { (h : List Event) → Stands self.now h → result ≡ number h }
    {
        self.common.inc
    }

    /// Its terminal table.
    pub fn table(&self) -> &TermTable
        ensures { (h : List Event) → Stands self.now h → result.now ≡ table self.now.settings h }
    {
        &self.rooms.table
    }

    /// Its last decision, none before the first.
    pub fn decided(&self) -> Option<Decided>
        ensures { (h : List Event) → Stands self.now h → result ≡ last_decision h }
    {
        self.common.decided
    }

    /// The tick of the last change of what it saw of the other site.
    pub fn last_change(&self) -> Tick
        ensures { (h : List Event) → Stands self.now h → result ≡ change h }
    {
        self.common.watch.last_change()
    }

    /// The notice that is pending.
    pub fn pending(&self) -> Option<Notice>
        ensures { (h : List Event) → Stands self.now h → result ≡ notice h }
    {
        self.notice
    }

    /// Gives back the memory that it works in.
    pub fn into_rooms(self) -> Rooms
        ensures { (h : List Event) → Stands self h → AreFor result self.settings.limits }
    {
        self.rooms
    }

    /// A tick has passed.
    pub(crate) fn ticked(&mut self)
        ensures settings { self.new.settings ≡ self.old.settings }
        ensures stands { (h : List Event) → Stands self.old h → Stands self.new (Ticked ∷ h) }
    {
        self.common.ticked();
    }
}
