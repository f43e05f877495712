//! The job of a site, and its change into another.

ghost use Rattle.std.specs.Prelude.{◌≡◌, ◌≤◌, ◌∷◌, [], true, false, List, Option, Some, None};
ghost use Rattle.std.specs.Option.{option_and_then, option_map, option_copied};
ghost use Rattle.xrf_cebt.specs.Reply.{reply_to};
ghost use Rattle.xrf_history.specs.declared.settings.Settings.{Settings as Set};
ghost use Rattle.xrf_history.specs.Accepting.{may_abend, may_reply, may_command};
ghost use Rattle.xrf_history.specs.Answers.{event};
ghost use Rattle.xrf_history.specs.Deciding.{takeovr, takeovr_by, surveillance, surveillance_by};
ghost use Rattle.xrf_history.specs.Events.{Event, StartedActive, StartedStandby};
ghost use Rattle.xrf_history.specs.Holding.{is_owner, is_waiting};
ghost use Rattle.xrf_history.specs.Notices.{notice};
ghost use Rattle.xrf_history.specs.Reserving.{last_decision};
ghost use Rattle.xrf_history.specs.Working.{item_answer};
ghost use Rattle.xrf_history.specs.Terminals.{table};
ghost use Rattle.xrf_active.specs.Standing as active;
ghost use Rattle.xrf_active.specs.Taking.{MayBeHanded};
ghost use Rattle.xrf_standby.specs.Standing as standby;
ghost use Rattle.xrf_trace.specs.Jobs.{holds};
ghost use Rattle.xrf_trace.specs.Items.{number_of_job};
ghost use Rattle.xrf_trace.specs.Refusals.{of_job};
ghost use Rattle.xrf_world.specs.Seats.{JobIs, WasHanded, FewEvents, want_of};
ghost use Rattle.xrf_world.specs.Report.{state_of_job};

use crate::state::JobState;
use std::mem::replace;
use xrf_active::Active;
use xrf_base::{Inc, ItemAnswer, Takeovr};
use xrf_cavm::Decided;
use xrf_cebt::{Cebt, CebtReply, reply};
use xrf_exit::Notice;
use xrf_history::{Answer, Settings, Want};
use xrf_job::Rooms;
use xrf_standby::Standby;
use xrf_terms::TermTable;

/// The job at a site.
#[derive(Drop)]
pub(crate) enum Job {
    /// None is there: the memory that the next one works in.
    Absent(Rooms),
    Active(Active),
    /// One that is not let through.
    Standby(Standby),
    /// It is being changed into another.
    Moving,
}

impl Job {
    // the act that it wants next, none where no job is there
    #[inline(always)]
    pub(crate) fn want(&self) -> Want
        requires { (p : Set) × (job : Option (List Event)) × JobIs self.now p job × FewEvents job }
        ensures { (p : Set) (job : Option (List Event)) → JobIs self.now p job → result ≡ want_of p job }
    {
        match self {
            Job::Absent(_) => Want::Nothing,
            Job::Active(job) => job.want(),
            Job::Standby(job) => job.want(),
            Job::Moving => Want::Nothing,
        }
    }

    // its incarnation, 0 where it has none
    pub(crate) fn inc(&self) -> Inc
        ensures { (p : Set) (job : Option (List Event)) → JobIs self.now p job → result ≡ number_of_job job }
    {
        match self {
            Job::Absent(_) => 0,
            Job::Active(job) => job.inc(),
            Job::Standby(job) => job.inc(),
            Job::Moving => 0,
        }
    }

    // it is handed an answer, and gives that of the item that it ends
    fn hand(&mut self, answer: &Answer) -> Option<ItemAnswer>
        requires { (p : Set) × (h : List Event) × JobIs self.old p (Some h) × MayBeHanded p h answer.now }
        ensures stands { (p : Set) (h : List Event) → JobIs self.old p (Some h) → MayBeHanded p h answer.now → WasHanded self.new p (event p h answer.now ∷ h) }
        ensures answer { (p : Set) (h : List Event) → JobIs self.old p (Some h) → MayBeHanded p h answer.now → result ≡ item_answer p (event p h answer.now ∷ h) }
    {
        match self {
            Job::Absent(_) => None,
            Job::Active(job) => job.take(answer),
            Job::Standby(job) => job.take(answer),
            Job::Moving => None,
        }
    }

    // whether it is an alternate that was let through
    #[tactic(auto, using(xrf_active::proofs::Alternates::started_standby))]
    fn is_through(&self) -> bool
        ensures { (p : Set) (h : List Event) → WasHanded self.now p h → result ≡ false → JobIs self.now p (Some h) }
    {
        match self {
            Job::Standby(job) => job.is_through(),
            _ => false,
        }
    }

    // an alternate that was let through goes on as an owner
    #[tactic(auto, using(xrf_active::proofs::Alternates::started_standby))]
    fn promote(&mut self)
        requires { (p : Set) × (h : List Event) × WasHanded self.old p h }
        ensures { (p : Set) (h : List Event) → WasHanded self.old p h → JobIs self.new p (Some h) }
    {
        if !self.is_through() {
            return;
        }
        *self = match replace(self, Job::Moving) {
            Job::Standby(job) => promoted(job),
            other => other,
        };
    }

    // it takes an answer, and gives that of the item that it ends
    pub(crate) fn take(&mut self, answer: &Answer) -> Option<ItemAnswer>
        requires { (p : Set) × (h : List Event) × JobIs self.old p (Some h) × MayBeHanded p h answer.now }
        ensures stands { (p : Set) (h : List Event) → JobIs self.old p (Some h) → MayBeHanded p h answer.now → JobIs self.new p (Some (event p h answer.now ∷ h)) }
        ensures answer { (p : Set) (h : List Event) → JobIs self.old p (Some h) → MayBeHanded p h answer.now → result ≡ item_answer p (event p h answer.now ∷ h) }
    {
        let given = self.hand(answer);
        self.promote();
        given
    }

    // the job is gone
    pub(crate) fn vacate(&mut self)
        ensures { (p : Set) (job : Option (List Event)) → JobIs self.old p job → JobIs self.new p None }
    {
        *self = match replace(self, Job::Moving) {
            Job::Absent(rooms) => Job::Absent(rooms),
            Job::Active(job) => Job::Absent(job.into_rooms()),
            Job::Standby(job) => Job::Absent(job.into_rooms()),
            Job::Moving => Job::Moving,
        };
    }

    // a job is started as active
    pub(crate) fn start_active(&mut self, settings: &Settings)
        requires { JobIs self.old settings.now None }
        ensures { JobIs self.new settings.now (Some (StartedActive ∷ [])) }
    {
        *self = match replace(self, Job::Moving) {
            Job::Absent(rooms) => Job::Active(Active::start(rooms, settings)),
            other => other,
        };
    }

    // a job is started as standby
    pub(crate) fn start_standby(&mut self, settings: &Settings)
        requires { JobIs self.old settings.now None }
        ensures { JobIs self.new settings.now (Some (StartedStandby ∷ [])) }
    {
        *self = match replace(self, Job::Moving) {
            Job::Absent(rooms) => Job::Standby(Standby::start(rooms, settings)),
            other => other,
        };
    }

    // whether it holds a number
    pub(crate) fn holds(&self, number: Inc) -> bool
        requires { 1 ≤ number }
        ensures { (p : Set) (job : Option (List Event)) → JobIs self.now p job → result ≡ holds number job }
    {
        self.inc() == number
    }

    // the notice that is pending
    #[tactic(auto, using(xrf_active::proofs::Alternates::no_notice))]
    pub(crate) fn notice(&self) -> Option<Notice>
        ensures { (p : Set) (job : Option (List Event)) → JobIs self.now p job → result ≡ option_and_then notice job }
    {
        match self {
            Job::Absent(_) => None,
            Job::Active(job) => job.pending(),
            Job::Standby(_) => None,
            Job::Moving => None,
        }
    }

    // whether an ABEND reaches it
    pub(crate) fn may_abend(&self) -> bool
        ensures { (p : Set) (job : Option (List Event)) → JobIs self.now p job → result ≡ of_job may_abend job }
    {
        match self {
            Job::Absent(_) => false,
            Job::Active(job) => job.inc() > 0 && job.pending().is_none() && !job.is_signing_off(),
            Job::Standby(_) => false,
            Job::Moving => false,
        }
    }

    // its last decision
    pub(crate) fn decided(&self) -> Option<Decided>
        ensures { (p : Set) (job : Option (List Event)) → JobIs self.now p job → result ≡ option_and_then last_decision job }
    {
        match self {
            Job::Absent(_) => None,
            Job::Active(job) => job.decided(),
            Job::Standby(job) => job.decided(),
            Job::Moving => None,
        }
    }
}

// a job that was let through, and one that was not
#[tactic(auto, using(xrf_active::proofs::Alternates::started_standby))]
fn promoted(job: Standby) -> Job
    requires { (h : List Event) × standby.Stands job h }
    ensures { (h : List Event) → standby.Stands job h → JobIs result job.settings (Some h) }
{
    if job.is_through() {
        Job::Active(job.promote())
    } else {
        Job::Standby(job)
    }
}

// what an alternate may do by itself, after a command
fn takeovr_after(command: Cebt, takeovr: Takeovr) -> Takeovr
    ensures { result ≡ takeovr_by command takeovr }
{
    match command {
        Cebt::SetTakeover(asked) => asked,
        _ => takeovr,
    }
}

// whether the active's signal is watched, after a command
fn surveillance_after(command: Cebt, surveillance: bool) -> bool
    ensures { result ≡ surveillance_by command surveillance }
{
    match command {
        Cebt::SetSurveillance(asked) => asked,
        _ => surveillance,
    }
}

// the reply of an alternate to a command
fn reply_of(job: &Standby, command: Cebt) -> CebtReply
    ensures { (h : List Event) → standby.Stands job.now h
        → result ≡ reply_to command (is_waiting h) (takeovr_by command (takeovr job.now.settings h)) (surveillance_by command (surveillance h)) }
{
    reply(
        command,
        job.is_waiting(),
        takeovr_after(command, job.takeovr()),
        surveillance_after(command, job.surveillance()),
    )
}

// whether a REPLY reaches an alternate
fn may_reply(job: &Standby) -> bool
    ensures { (h : List Event) → standby.Stands job.now h → is_owner h ≡ false → result ≡ may_reply job.now.settings h }
{
    if job.inc() == 0 || job.is_waiting() {
        return false;
    }
    job.is_asked() && !job.has_go() && !job.is_leaving() && !job.is_starting()
}

impl Job {
    /// Whether a REPLY reaches it.
    pub(crate) fn may_reply(&self) -> bool
        ensures { (p : Set) (job : Option (List Event)) → JobIs self.now p job → result ≡ of_job (may_reply p) job }
    {
        match self {
            Job::Standby(job) => may_reply(job),
            _ => false,
        }
    }

    /// Whether a CEBT reaches it.
    pub(crate) fn may_command(&self) -> bool
        ensures { (p : Set) (job : Option (List Event)) → JobIs self.now p job → result ≡ of_job may_command job }
    {
        match self {
            Job::Standby(job) => job.inc() > 0 && !job.is_leaving(),
            _ => false,
        }
    }

    /// What a job that a CEBT reaches replies to it.
    pub(crate) fn reply(&self, command: Cebt) -> CebtReply
        ensures { (p : Set) (h : List Event) → JobIs self.now p (Some h) → may_command h ≡ true
            → result ≡ reply_to command (is_waiting h) (takeovr_by command (takeovr p h)) (surveillance_by command (surveillance h)) }
    {
        match self {
            Job::Standby(job) => reply_of(job, command),
            _ => CebtReply::InProgress,
        }
    }
}

// the state of the job of an owner, or of one that signs on as active
fn state_of_active(job: &Active) -> JobState
    ensures { (h : List Event) → active.Stands job.now h → result ≡ state_of_job (Some h) }
{
    if job.is_signing_off() {
        return JobState::Ending(job.inc());
    }
    if job.inc() == 0 {
        return JobState::Starting;
    }
    if job.is_restarted() {
        JobState::Active(job.inc())
    } else {
        JobState::Restarting(job.inc())
    }
}

// the state of the job of an alternate, or of one that signs on as standby
#[tactic(auto, using(crate::proofs::SeatLaws::no_sign_off))]
fn state_of_standby(job: &Standby) -> JobState
    ensures { (h : List Event) → standby.Stands job.now h → is_owner h ≡ false → result ≡ state_of_job (Some h) }
{
    if job.inc() == 0 {
        return JobState::Starting;
    }
    if job.is_leaving() {
        return JobState::Ending(job.inc());
    }
    if job.is_waiting() {
        JobState::Waiting(job.inc())
    } else {
        JobState::Tracking(job.inc())
    }
}

impl Job {
    /// Its state.
    pub(crate) fn state(&self) -> JobState
        ensures { (p : Set) (job : Option (List Event)) → JobIs self.now p job → result ≡ state_of_job job }
    {
        match self {
            Job::Absent(_) => JobState::Absent,
            Job::Active(job) => state_of_active(job),
            Job::Standby(job) => state_of_standby(job),
            Job::Moving => JobState::Absent,
        }
    }

    /// The terminals that it has or was told of, none where no job is there.
    pub(crate) fn table(&self) -> Option<&TermTable>
        ensures { (p : Set) (job : Option (List Event)) → JobIs self.now p job → option_copied result ≡ option_map (table p) job }
    {
        match self {
            Job::Absent(_) => None,
            Job::Active(job) => Some(job.table()),
            Job::Standby(job) => Some(job.table()),
            Job::Moving => None,
        }
    }
}
