//! The job of a region that was started as standby.

ghost use Rattle.std.specs.Prelude.{◌≡◌, false};
ghost use Rattle.xrf_standby.specs.Roles.{is_moving};

use crate::alternate::Alternate;
use crate::role::Role;
use xrf_active::Active;
use xrf_base::{Inc, ItemAnswer, Takeovr};
use xrf_cavm::Decided;
use xrf_history::{Answer, Settings, Want};
use xrf_job::Rooms;
use xrf_terms::TermTable;

/// The job of a region that signs on as standby, tracks the active, and takes over: a machine that
/// says what act it wants next, and is handed what the act, a tick or a choice gives.
#[derive(Drop)]
pub struct Standby {
    pub(crate) settings: Settings,
    pub(crate) role: Role,
    ghost there: { is_moving role ≡ false },
}

impl Standby {
    ghost use Rattle.std.specs.Prelude.{[], ◌∷◌, List, true};
    ghost use Rattle.xrf_history.specs.Answers.{event};
    ghost use Rattle.xrf_history.specs.Events.{Event, StartedStandby};
    ghost use Rattle.xrf_history.specs.Holding.{number, is_let_through, is_waiting};
    ghost use Rattle.xrf_history.specs.Terminals.{table};
    ghost use Rattle.xrf_history.specs.Reserving.{last_decision, is_leaving, is_starting};
    ghost use Rattle.xrf_history.specs.Deciding.{takeovr, surveillance, is_asked, has_go};
    ghost use Rattle.xrf_history.specs.Next.{next};
    ghost use Rattle.xrf_history.specs.Working.{item_answer};
    ghost use Rattle.xrf_job.specs.Rooms.{AreFor};
    ghost use Rattle.xrf_active.specs.Standing.{Stands as IsActive};
    ghost use Rattle.xrf_standby.specs.Standing.{Stands};
    ghost use Rattle.xrf_standby.specs.Taking.{CanTake};

    /// A job that is started to sign on as standby, in rooms that were made for its limits. It empties
    /// them.
    pub fn start(rooms: Rooms, settings: &Settings) -> Standby
        requires { AreFor rooms settings.now.limits }
        ensures settings { result.settings ≡ settings.now }
        ensures stands { Stands result (StartedStandby ∷ []) }
    {
        Standby {
            settings: *settings,
            role: Role::Alternate(Alternate::start(rooms, settings)),
        }
    }

    /// The act that it wants next.
    #[inline(always)]
    pub fn want(&self) -> Want
        requires { (h : List Event) × Stands self.now h }
        ensures { (h : List Event) → Stands self.now h → result ≡ next self.now.settings h }
    {
        match &self.role {
            Role::Alternate(job) => job.want(),
            Role::LetThrough(job) => job.owner.want(),
            Role::Moving => unreachable!(),
        }
    }

    /// Takes an answer, and gives that of the item that it ends: as an alternate it takes none.
    pub fn take(&mut self, answer: &Answer) -> Option<ItemAnswer>
        requires { (h : List Event) × CanTake self.old h answer.now }
        ensures settings { self.new.settings ≡ self.old.settings }
        ensures stands { (h : List Event) → CanTake self.old h answer.now → Stands self.new (event self.old.settings h answer.now ∷ h) }
        ensures answer { (h : List Event) → CanTake self.old h answer.now → result ≡ item_answer self.old.settings (event self.old.settings h answer.now ∷ h) }
    {
        self.role.take(answer)
    }

    /// Its incarnation, 0 before it is granted.
    pub fn inc(&self) -> Inc
        ensures { (h : List Event) → Stands self.now h → result ≡ number h }
    {
        match &self.role {
            Role::Alternate(job) => job.inc(),
            Role::LetThrough(job) => job.owner.inc(),
            Role::Moving => unreachable!(),
        }
    }

    /// The terminals that it was told of.
    pub fn table(&self) -> &TermTable
        ensures { (h : List Event) → Stands self.now h → result.now ≡ table self.now.settings h }
    {
        match &self.role {
            Role::Alternate(job) => job.table(),
            Role::LetThrough(job) => job.owner.table(),
            Role::Moving => unreachable!(),
        }
    }

    /// Its last decision, none before the first.
    pub fn decided(&self) -> Option<Decided>
        ensures { (h : List Event) → Stands self.now h → result ≡ last_decision h }
    {
        match &self.role {
            Role::Alternate(job) => job.decided(),
            Role::LetThrough(job) => job.owner.decided(),
            Role::Moving => unreachable!(),
        }
    }

    /// What it may do by itself when it misses the active.
    pub fn takeovr(&self) -> Takeovr
        ensures { (h : List Event) → Stands self.now h → result ≡ takeovr self.now.settings h }
    {
        match &self.role {
            Role::Alternate(job) => job.takeovr(),
            Role::LetThrough(job) => job.mode.takeovr,
            Role::Moving => unreachable!(),
        }
    }

    /// Whether the active's signal is watched.
    pub fn surveillance(&self) -> bool
        ensures { (h : List Event) → Stands self.now h → result ≡ surveillance h }
    {
        match &self.role {
            Role::Alternate(job) => job.surveillance(),
            Role::LetThrough(job) => job.mode.surveillance,
            Role::Moving => unreachable!(),
        }
    }

    /// It has started its takeover, and waits until it is let through.
    pub fn is_waiting(&self) -> bool
        ensures { (h : List Event) → Stands self.now h → result ≡ is_waiting h }
    {
        match &self.role {
            Role::Alternate(job) => job.is_waiting(),
            _ => false,
        }
    }

    /// It leaves, or its start was abandoned.
    pub fn is_leaving(&self) -> bool
        ensures { (h : List Event) → Stands self.now h → result ≡ is_leaving h }
    {
        match &self.role {
            Role::Alternate(job) => job.is_leaving(),
            Role::LetThrough(job) => job.is_leaving,
            Role::Moving => unreachable!(),
        }
    }

    /// It decided to start its takeover, and has not written the start.
    pub fn is_starting(&self) -> bool
        ensures { (h : List Event) → Stands self.now h → result ≡ is_starting h }
    {
        match &self.role {
            Role::Alternate(job) => job.is_starting(),
            _ => false,
        }
    }

    /// The operator was asked, and has not said to go on waiting.
    pub fn is_asked(&self) -> bool
        ensures { (h : List Event) → Stands self.now h → result ≡ is_asked self.now.settings h }
    {
        match &self.role {
            Role::Alternate(job) => job.is_asked(),
            Role::LetThrough(job) => job.mode.asked,
            Role::Moving => unreachable!(),
        }
    }

    /// The operator said go.
    pub fn has_go(&self) -> bool
        ensures { (h : List Event) → Stands self.now h → result ≡ has_go self.now.settings h }
    {
        match &self.role {
            Role::Alternate(job) => job.has_go(),
            Role::LetThrough(job) => job.mode.go,
            Role::Moving => unreachable!(),
        }
    }

    /// It was let through: it owns the data sets.
    pub fn is_through(&self) -> bool
        ensures { (h : List Event) → Stands self.now h → result ≡ is_let_through h }
    {
        matches!(self.role, Role::LetThrough(_))
    }

    /// The job goes on as that of an owner: it drains the messages that are left, and then restarts.
    pub fn promote(self) -> Active
        requires { (h : List Event) × Stands self h × (is_let_through h ≡ true) }
        ensures settings { result.settings ≡ self.settings }
        ensures stands { (h : List Event) → Stands self h → is_let_through h ≡ true → IsActive result h }
    {
        let Standby { role, .. } = self;
        match role {
            Role::LetThrough(job) => job.owner,
            _ => unreachable!(),
        }
    }

    /// Gives back the memory that it works in.
    pub fn into_rooms(self) -> Rooms
        ensures { (h : List Event) → Stands self h → AreFor result self.settings.limits }
    {
        let Standby { role, .. } = self;
        match role {
            Role::Alternate(job) => job.into_rooms(),
            Role::LetThrough(job) => job.owner.into_rooms(),
            Role::Moving => unreachable!(),
        }
    }
}
