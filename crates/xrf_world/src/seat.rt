//! The seat of a site: its job, if one is there, and what is kept beside it.

ghost use Rattle.std.specs.Prelude.{◌≡◌, ◌≤◌, [], ◌∷◌, true, List, Option, Some, None, is_some, IfOk};
ghost use Rattle.std.specs.Option.{option_and_then, option_map, option_copied};
ghost use Rattle.xrf_active.specs.Taking.{MayBeHanded};
ghost use Rattle.xrf_base.specs.Ranges.{AreLimits};
ghost use Rattle.xrf_cebt.specs.Reply.{reply_to};
ghost use Rattle.xrf_history.specs.declared.settings.Settings.{Settings as Set};
ghost use Rattle.xrf_history.specs.Accepting.{may_abend, may_reply, may_command};
ghost use Rattle.xrf_history.specs.Answers.{event};
ghost use Rattle.xrf_history.specs.Deciding.{takeovr, takeovr_by, surveillance, surveillance_by};
ghost use Rattle.xrf_history.specs.Events.{Event, StartedActive, StartedStandby};
ghost use Rattle.xrf_history.specs.Holding.{is_waiting};
ghost use Rattle.xrf_history.specs.Notices.{notice};
ghost use Rattle.xrf_history.specs.Reserving.{last_decision};
ghost use Rattle.xrf_history.specs.Terminals.{table};
ghost use Rattle.xrf_history.specs.Working.{item_answer};
ghost use Rattle.xrf_trace.specs.Jobs.{holds};
ghost use Rattle.xrf_trace.specs.Items.{number_of_job};
ghost use Rattle.xrf_trace.specs.Refusals.{of_job};
ghost use Rattle.xrf_world.specs.Seats.{SeatIs, FewEvents, ticked, seen_after, read_after};
ghost use Rattle.xrf_world.specs.Report.{state_of_job};

use crate::job::Job;
use crate::state::JobState;
use std::alloc::{AllocError, Global};
use xrf_base::{Inc, ItemAnswer, Tick};
use xrf_cavm::Decided;
use xrf_cebt::{Cebt, CebtReply};
use xrf_ctl::Control;
use xrf_exit::Notice;
use xrf_history::{Answer, Settings};
use xrf_job::Rooms;
use xrf_terms::TermTable;

/// What is kept of the job at a site: the job, the control record that it saw last, and whether it has read a block
/// of the log.
#[derive(Drop)]
pub(crate) struct Seat {
    pub(crate) settings: Settings,
    pub(crate) job: Job,
    pub(crate) seen: Control,
    pub(crate) has_read: bool,
}

// the record that a job sees in an answer
fn see(seen: &mut Control, answer: &Answer)
    ensures { seen.new ≡ seen_after answer.now seen.old }
{
    if let Answer::Look1(held, _) = answer {
        *seen = *held;
    }
}

fn read_after(answer: &Answer, has_read: bool) -> bool
    ensures { result ≡ read_after answer.now has_read }
{
    match answer {
        Answer::Anchored(_, _) => true,
        _ => has_read,
    }
}

impl Seat {
    /// No job.
    pub(crate) fn new(alloc: Global, settings: &Settings) -> Result<Seat, AllocError>
        requires { AreLimits settings.now.limits }
        ensures { IfOk result (λ seat. SeatIs seat settings.now None) }
    {
        Ok(Seat {
            settings: *settings,
            job: Job::Absent(Rooms::new(alloc, &settings.limits)?),
            seen: Control::empty(),
            has_read: false,
        })
    }

    /// Whether a job is there.
    pub(crate) fn has_job(&self) -> bool
        ensures { (p : Set) (job : Option (List Event)) → SeatIs self.now p job → result ≡ is_some job }
    {
        match &self.job {
            Job::Active(_) => true,
            Job::Standby(_) => true,
            _ => false,
        }
    }

    /// The incarnation of its job, 0 where it has none.
    pub(crate) fn inc(&self) -> Inc
        ensures { (p : Set) (job : Option (List Event)) → SeatIs self.now p job → result ≡ number_of_job job }
    {
        self.job.inc()
    }

    /// Whether its job holds a number, which is not 0.
    pub(crate) fn holds(&self, number: Inc) -> bool
        requires { 1 ≤ number }
        ensures { (p : Set) (job : Option (List Event)) → SeatIs self.now p job → result ≡ holds number job }
    {
        self.job.holds(number)
    }

    /// The notice that is pending.
    pub(crate) fn notice(&self) -> Option<Notice>
        ensures { (p : Set) (job : Option (List Event)) → SeatIs self.now p job → result ≡ option_and_then notice job }
    {
        self.job.notice()
    }

    /// Whether an ABEND reaches its job.
    pub(crate) fn may_abend(&self) -> bool
        ensures { (p : Set) (job : Option (List Event)) → SeatIs self.now p job → result ≡ of_job may_abend job }
    {
        self.job.may_abend()
    }

    /// Whether a REPLY reaches its job.
    pub(crate) fn may_reply(&self) -> bool
        ensures { (p : Set) (job : Option (List Event)) → SeatIs self.now p job → result ≡ of_job (may_reply p) job }
    {
        self.job.may_reply()
    }

    /// Whether a CEBT reaches its job.
    pub(crate) fn may_command(&self) -> bool
        ensures { (p : Set) (job : Option (List Event)) → SeatIs self.now p job → result ≡ of_job may_command job }
    {
        self.job.may_command()
    }

    /// What its job, which a CEBT reaches, replies to it.
    pub(crate) fn reply(&self, command: Cebt) -> CebtReply
        ensures { (p : Set) (h : List Event) → SeatIs self.now p (Some h) → may_command h ≡ true
            → result ≡ reply_to command (is_waiting h) (takeovr_by command (takeovr p h)) (surveillance_by command (surveillance h)) }
    {
        self.job.reply(command)
    }

    /// The last decision of its job.
    pub(crate) fn decided(&self) -> Option<Decided>
        ensures { (p : Set) (job : Option (List Event)) → SeatIs self.now p job → result ≡ option_and_then last_decision job }
    {
        self.job.decided()
    }

    /// The state of its job.
    pub(crate) fn state(&self) -> JobState
        ensures { (p : Set) (job : Option (List Event)) → SeatIs self.now p job → result ≡ state_of_job job }
    {
        self.job.state()
    }

    /// The terminals that its job has or was told of, none where no job is there.
    pub(crate) fn table(&self) -> Option<&TermTable>
        ensures { (p : Set) (job : Option (List Event)) → SeatIs self.now p job → option_copied result ≡ option_map (table p) job }
    {
        self.job.table()
    }

    /// Hands its job an answer, and gives that of the item that it ends.
    #[inline(always)]
    pub(crate) fn take(&mut self, answer: &Answer) -> Option<ItemAnswer>
        requires { (p : Set) × (h : List Event) × SeatIs self.old p (Some h) × MayBeHanded p h answer.now }
        ensures seat { (p : Set) (h : List Event) → SeatIs self.old p (Some h) → MayBeHanded p h answer.now → SeatIs self.new p (Some (event p h answer.now ∷ h)) }
        ensures answer { (p : Set) (h : List Event) → SeatIs self.old p (Some h) → MayBeHanded p h answer.now → result ≡ item_answer p (event p h answer.now ∷ h) }
    {
        see(&mut self.seen, answer);
        self.has_read = read_after(answer, self.has_read);
        self.job.take(answer)
    }

    /// A tick has passed.
    pub(crate) fn ticked(&mut self, at: Tick)
        requires { (p : Set) × (job : Option (List Event)) × SeatIs self.old p job × FewEvents job }
        ensures { (p : Set) (job : Option (List Event)) → SeatIs self.old p job → FewEvents job → SeatIs self.new p (ticked job) }
    {
        if self.has_job() {
            self.take(&Answer::Tick(at));
        }
    }

    /// Its job is gone.
    pub(crate) fn vacate(&mut self)
        ensures { (p : Set) (job : Option (List Event)) → SeatIs self.old p job → SeatIs self.new p None }
    {
        self.job.vacate();
    }

    /// A job is started as active.
    pub(crate) fn start_active(&mut self)
        requires { (p : Set) × SeatIs self.old p None }
        ensures { (p : Set) → SeatIs self.old p None → SeatIs self.new p (Some (StartedActive ∷ [])) }
    {
        self.seen = Control::empty();
        self.has_read = false;
        self.job.start_active(&self.settings);
    }

    /// A job is started as standby.
    pub(crate) fn start_standby(&mut self)
        requires { (p : Set) × SeatIs self.old p None }
        ensures { (p : Set) → SeatIs self.old p None → SeatIs self.new p (Some (StartedStandby ∷ [])) }
    {
        self.seen = Control::empty();
        self.has_read = false;
        self.job.start_standby(&self.settings);
    }
}
