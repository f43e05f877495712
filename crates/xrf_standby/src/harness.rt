//! How the tests hand a job what the acts give that it wants.

ghost use Rattle.std.specs.Prelude.{◌≡◌, ◌+◌, ◌≤◌, true, List, length, IfOk};
ghost use Rattle.xrf_history.specs.Events.{Event};
ghost use Rattle.xrf_history.specs.declared.settings.Settings.{Settings as Set};
ghost use Rattle.xrf_history.specs.Accepting.{IsInTime, may_reply, may_command, may_take};
ghost use Rattle.xrf_history.specs.Answers.{is_plain, fits};
ghost use Rattle.xrf_history.specs.Looking.{change};
ghost use Rattle.xrf_active.specs.Taking.{LeavesRoom, HasSmallKeys};
ghost use Rattle.xrf_standby.specs.Standing.{Stands};

use crate::role::Role;
use crate::{Answer, EndWhy, Rooms, Settings, Standby, Want};
use std::alloc::Global;
use std::process::Abort;
use std::test::Fail;
use xrf_base::{Inc, Limits, Site, Takeovr, Tick};
use xrf_cavm::Known;
use xrf_cebt::Cebt;
use xrf_ctl::{Alt, Cause, Control, Level, Owner, OwnerState, Signal, Taking};

/// The acts of an alternate, and of the owner that it becomes.
#[derive(Clone, Copy, PartialEq, Eq, Debug)]
pub(crate) enum Act {
    None,
    Reserve,
    CtlRead,
    CtlWrite,
    Release,
    Signal1,
    Signal2,
    Look1,
    Look2,
    Decide,
    MsgRead,
    LogRead,
    Clt,
    Ended(EndWhy),
    Else,
}

pub(crate) use Act::{
    Clt, CtlRead, CtlWrite, Decide, Ended, LogRead, Look1, Look2, MsgRead, Release, Reserve,
    Signal1, Signal2,
};

/// What is handed.
#[derive(Clone, Copy)]
pub(crate) enum Step {
    Tick,
    Done,
    Held(Control, bool),
    Seen(Control),
    Heard,
    Known(bool),
    Closed,
    Reply(bool),
    Command(Cebt),
    Failed,
}

pub(crate) use Step::{
    Closed, Command, Done, Failed, Heard, Held, Known as Confirmed, Reply, Seen, Tick as Second,
};

/// A job, and how many answers it has taken, and the tick.
#[derive(Drop)]
pub(crate) struct Run {
    pub(crate) job: Standby,
    pub(crate) taken: u32,
    pub(crate) at: Tick,
}

fn act_of(want: Want) -> Act {
    match want {
        Want::Nothing => Act::None,
        Want::Reserve => Reserve,
        Want::CtlRead => CtlRead,
        Want::CtlWrite(_) => CtlWrite,
        Want::Release => Release,
        Want::Signal1(_) => Signal1,
        Want::Signal2(_) => Signal2,
        Want::Look1 => Look1,
        Want::Look2 => Look2,
        Want::Decide => Decide,
        Want::MsgRead(_) => MsgRead,
        Want::LogRead(_) => LogRead,
        Want::Clt(_) => Clt,
        Want::Ended(why) => Ended(why),
        _ => Act::Else,
    }
}

fn known(owner: bool) -> Known {
    Known { owner, alt: false }
}

// the active's signal, always the same
fn signal() -> Option<Signal> {
    Some(Signal {
        inc: 1,
        counter: 7,
        cursor: 0,
    })
}

fn answer_of(step: &Step, at: Tick) -> Answer {
    match step {
        Step::Tick => Answer::Tick(at),
        Step::Done => Answer::Done(at),
        Step::Held(control, ended) => Answer::Ctl(*control, known(*ended)),
        Step::Seen(control) => Answer::Look1(*control, signal()),
        Step::Heard => Answer::Look2(signal(), at),
        Step::Known(owner) => Answer::Decide(known(*owner), at),
        Step::Closed => Answer::MsgSlot([0; 64]),
        Step::Reply(go) => Answer::Reply(*go, at),
        Step::Command(command) => Answer::Cebt(*command, at),
        Step::Failed => Answer::Failed(at),
    }
}

// acts that are answered by the tick alone
fn is_plain(want: &Want) -> bool
    ensures { result ≡ true → is_plain want.now ≡ true }
{
    match want {
        Want::Reserve => true,
        Want::CtlWrite(_) => true,
        Want::Release => true,
        Want::Signal1(_) => true,
        Want::Signal2(_) => true,
        Want::Clt(_) => true,
        Want::Ended(_) => true,
        _ => false,
    }
}

// the answer is one of the act
fn fits(want: &Want, answer: &Answer) -> bool
    ensures { (p : Set) (h : List Event) → result ≡ true → fits p h want.now answer.now ≡ true }
{
    match answer {
        Answer::Done(_) => is_plain(want),
        Answer::Ctl(..) => matches!(want, Want::CtlRead),
        Answer::Look1(..) => matches!(want, Want::Look1),
        Answer::Look2(..) => matches!(want, Want::Look2),
        Answer::Decide(..) => matches!(want, Want::Decide),
        Answer::MsgSlot(_) => matches!(want, Want::MsgRead(_)),
        Answer::Failed(_) => matches!(want, Want::MsgRead(_) | Want::LogRead(_)),
        _ => false,
    }
}

// a reply reaches it
fn may_reply(job: &Standby) -> bool
    ensures { (h : List Event) → Stands job.now h → result ≡ may_reply job.now.settings h }
{
    job.inc() > 0
        && !job.is_through()
        && !job.is_waiting()
        && job.is_asked()
        && !job.has_go()
        && !job.is_leaving()
        && !job.is_starting()
}

// a command reaches it
fn may_command(job: &Standby) -> bool
    ensures { (h : List Event) → Stands job.now h → result ≡ may_command h }
{
    job.inc() > 0 && !job.is_through() && !job.is_leaving()
}

// it takes the answer
fn may_take(job: &Standby, answer: &Answer) -> bool
    requires { (h : List Event) × Stands job.now h }
    ensures { (h : List Event) → Stands job.now h → result ≡ true → may_take job.now.settings h answer.now ≡ true }
{
    match answer {
        Answer::Tick(_) => true,
        Answer::Reply(..) => may_reply(job),
        Answer::Cebt(..) => may_command(job),
        _ => fits(&job.want(), answer),
    }
}

// the tick of the last change of what it saw
fn last_change(job: &Standby) -> Tick
    ensures { (h : List Event) → Stands job.now h → result ≡ change h }
{
    match &job.role {
        Role::Alternate(job) => job.common.watch.last_change(),
        Role::LetThrough(job) => job.owner.last_change(),
        Role::Moving => 0,
    }
}

// the answer is in time, and leaves an incarnation to give
fn is_in_range(job: &Standby, answer: &Answer) -> bool
    ensures in_time { (h : List Event) → Stands job.now h → result ≡ true → IsInTime h answer.now }
    ensures room { result ≡ true → LeavesRoom answer.now }
    ensures keys { result ≡ true → HasSmallKeys answer.now }
{
    let change = last_change(job);
    match answer {
        Answer::Ctl(held, _) => held.last() < Inc::MAX,
        Answer::Look2(_, at) => change <= *at,
        Answer::Decide(_, at) => change <= *at,
        Answer::Reply(_, at) => change <= *at,
        Answer::Cebt(_, at) => change <= *at,
        Answer::Tick(_) => true,
        Answer::Done(_) => true,
        Answer::Look1(..) => true,
        Answer::MsgSlot(_) => true,
        Answer::Failed(_) => true,
        _ => false,
    }
}

// hands it the answer, where it may be handed
fn has_taken(job: &mut Standby, taken: u32, answer: &Answer) -> bool
    requires { (h : List Event) × Stands job.old h × (length h ≤ taken + 1) }
    ensures { (h : List Event) × Stands job.new h × (length h ≤ taken + 2) }
{
    if taken >= 16384 {
        return false;
    }
    if !may_take(job, answer) {
        return false;
    }
    if !is_in_range(job, answer) {
        return false;
    }
    job.take(answer).is_none()
}

// the tick of a step
fn tick_of(step: &Step, at: Tick) -> Tick {
    match step {
        Step::Tick => at.saturating_add(1),
        _ => at,
    }
}

// it wants this act, and is handed this
pub(crate) fn hand(rt: &impl Abort, run: &mut Run, act: Act, step: Step)
    requires { (h : List Event) × Stands run.old.job h × (length h ≤ run.old.taken + 1) }
    ensures { (h : List Event) × Stands run.new.job h × (length h ≤ run.new.taken + 1) }
{
    let wanted = act_of(run.job.want());
    assert!(rt; wanted == act, "{wanted:?} is wanted, not {act:?}");
    assert!(rt; run.taken < 16384);
    run.at = tick_of(&step, run.at);
    let answer = answer_of(&step, run.at);
    let has_taken = has_taken(&mut run.job, run.taken, &answer);
    run.taken += 1;
    assert!(rt; has_taken);
}

// it wants these acts, and is handed these
pub(crate) fn hand_all(rt: &impl Abort, run: &mut Run, table: &[(Act, Step)])
    requires { (h : List Event) × Stands run.old.job h × (length h ≤ run.old.taken + 1) }
    ensures { (h : List Event) × Stands run.new.job h × (length h ≤ run.new.taken + 1) }
{
    for row in table {
        let (act, step) = *row;
        hand(rt, run, act, step);
    }
}

// a job at B that is started, with ADI 5 and 2 lines of the command list
pub(crate) fn started(alloc: Global, takeovr: Takeovr) -> Result<Run, Fail>
    ensures { IfOk result (λ run. (h : List Event) × Stands run.job h × (length h ≤ run.taken + 1)) }
{
    let limits = Limits {
        log: 64,
        ring: 2,
        file: 4,
    };
    let rooms = Rooms::new(alloc, &limits)?;
    let settings = Settings {
        site: Site::B,
        limits,
        takeovr,
        adi: 5,
        pdi: 5,
        clt_lines: 2,
        level: Level::One,
        force: false,
    };
    let job = Standby::start(rooms, &settings);
    Ok(Run {
        job,
        taken: 0,
        at: 0,
    })
}

// incarnation 1 at A as owner, and beside it the alternate 2 at B, which may have started a takeover
pub(crate) fn record(
    rt: &impl Abort,
    state: OwnerState,
    has_alt: bool,
    cause: Option<Cause>,
) -> Control {
    let owner = Owner {
        inc: 1,
        site: Site::A,
        state,
    };
    let alt = Alt {
        inc: 2,
        site: Site::B,
    };
    let alt = if has_alt { Some(alt) } else { None };
    let taking = cause.map(|cause| Taking { inc: 2, cause });
    Control::make(1, 2, Some(owner), alt, taking).expect(rt, "a record")
}

// signs on beside an active that runs
pub(crate) fn sign_on(rt: &impl Abort, run: &mut Run)
    requires { (h : List Event) × Stands run.old.job h × (length h ≤ run.old.taken + 1) }
    ensures { (h : List Event) × Stands run.new.job h × (length h ≤ run.new.taken + 1) }
{
    let owner = Owner {
        inc: 1,
        site: Site::A,
        state: OwnerState::Running,
    };
    let single = Control::make(1, 1, Some(owner), None, None).expect(rt, "a record");
    hand_all(
        rt,
        run,
        &[
            (Reserve, Done),
            (CtlRead, Held(single, false)),
            (CtlWrite, Done),
            (Release, Done),
        ],
    );
}

// a round, in which this record is looked at, and this is confirmed of its owner
pub(crate) fn round(rt: &impl Abort, run: &mut Run, seen: Control, ended: bool)
    requires { (h : List Event) × Stands run.old.job h × (length h ≤ run.old.taken + 1) }
    ensures { (h : List Event) × Stands run.new.job h × (length h ≤ run.new.taken + 1) }
{
    hand_all(
        rt,
        run,
        &[
            (Signal1, Done),
            (Signal2, Done),
            (Look1, Seen(seen)),
            (Look2, Heard),
            (Decide, Confirmed(ended)),
        ],
    );
}

// five ticks pass, where rounds are due
pub(crate) fn five_ticks(rt: &impl Abort, run: &mut Run)
    requires { (h : List Event) × Stands run.old.job h × (length h ≤ run.old.taken + 1) }
    ensures { (h : List Event) × Stands run.new.job h × (length h ≤ run.new.taken + 1) }
{
    hand_all(
        rt,
        run,
        &[
            (Act::None, Second),
            (Signal1, Second),
            (Signal1, Second),
            (Signal1, Second),
            (Signal1, Second),
        ],
    );
}

// a round in which it decides to do nothing, with no message after it
pub(crate) fn idle_round(rt: &impl Abort, run: &mut Run, seen: Control)
    requires { (h : List Event) × Stands run.old.job h × (length h ≤ run.old.taken + 1) }
    ensures { (h : List Event) × Stands run.new.job h × (length h ≤ run.new.taken + 1) }
{
    round(rt, run, seen, false);
    hand(rt, run, MsgRead, Closed);
}

// what it wants as an owner, once it was let through
pub(crate) fn owner_act(run: Run) -> Act
    requires { (h : List Event) × Stands run.job h × (length h ≤ run.taken + 1) }
{
    let Run { job, taken, .. } = run;
    if taken >= 16384 {
        return Act::None;
    }
    if !job.is_through() {
        return Act::None;
    }
    let owner = job.promote();
    act_of(owner.want())
}
