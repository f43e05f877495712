//! Runs of a job that is started as standby: the acts that it wants, and what it is handed.

ghost use Rattle.std.specs.Prelude.{◌+◌, ◌≤◌, List, length};
ghost use Rattle.xrf_history.specs.Events.{Event};
ghost use Rattle.xrf_standby.specs.Standing.{Stands};

use crate::EndWhy;
use crate::harness::{
    Act, Closed, Clt, Command, Confirmed, CtlRead, CtlWrite, Decide, Done, Ended, Failed, Held,
    LogRead, MsgRead, Release, Reply, Reserve, Run, Second, five_ticks, hand, hand_all, idle_round,
    owner_act, record, round, sign_on, started,
};
use std::process::Abort;
use std::test::Fail;
use xrf_base::{Site, Takeovr};
use xrf_cebt::Cebt;
use xrf_ctl::{Cause, Control, Owner, OwnerState};

// signs on, misses the active, starts its takeover, and is let through once the end of the owner is confirmed
fn go_through(rt: &impl Abort, run: &mut Run)
    requires { (h : List Event) × Stands run.old.job h × (length h ≤ run.old.taken + 1) }
    ensures { (h : List Event) × Stands run.new.job h × (length h ≤ run.new.taken + 1) }
{
    let pair = record(rt, OwnerState::Running, true, None);
    let taking = record(rt, OwnerState::Running, true, Some(Cause::Lost));
    sign_on(rt, run);
    idle_round(rt, run, pair);
    five_ticks(rt, run);
    round(rt, run, pair, false);
    let start = [
        (Reserve, Done),
        (CtlRead, Held(pair, false)),
        (CtlWrite, Done),
        (Release, Done),
        (Clt, Done),
        (Clt, Done),
    ];
    hand_all(rt, run, &start);
    five_ticks(rt, run);
    idle_round(rt, run, taking);
    five_ticks(rt, run);
    idle_round(rt, run, taking);
    hand(rt, run, Act::None, Second);
    round(rt, run, taking, true);
    let through = [
        (Reserve, Done),
        (CtlRead, Held(taking, true)),
        (CtlWrite, Done),
    ];
    hand_all(rt, run, &through);
}

#[test]
fn a_lost_signal_starts_it_and_the_end_of_the_owner_lets_it_through(
    rt: HostRuntime,
) -> Result<(), Fail> {
    let mut run = started(rt.alloc(), Takeovr::Auto)?;
    go_through(&rt, &mut run);
    let goes_on = owner_act(run);
    assert!(rt; goes_on == Release);
    Ok(())
}

#[test]
fn one_that_is_let_through_goes_on_as_an_owner(rt: HostRuntime) -> Result<(), Fail> {
    let mut run = started(rt.alloc(), Takeovr::Auto)?;
    go_through(&rt, &mut run);
    let owner = Owner {
        inc: 2,
        site: Site::B,
        state: OwnerState::Running,
    };
    let own = Control::make(1, 2, Some(owner), None, None).expect(&rt, "a record");
    let drained = [(Release, Done), (MsgRead, Closed), (LogRead, Second)];
    hand_all(&rt, &mut run, &drained);
    round(&rt, &mut run, own, false);
    assert!(rt; run.job.is_through() && run.job.inc() == 2);
    assert!(rt; !run.job.is_waiting() && !run.job.is_leaving());
    let signed_off = [
        (LogRead, Failed),
        (Reserve, Done),
        (CtlRead, Held(own, false)),
        (CtlWrite, Done),
        (Release, Done),
        (Ended(EndWhy::SignedOff), Done),
    ];
    hand_all(&rt, &mut run, &signed_off);
    Ok(())
}

#[test]
fn a_start_is_given_up_where_the_record_names_it_no_more(rt: HostRuntime) -> Result<(), Fail> {
    let mut run = started(rt.alloc(), Takeovr::Auto)?;
    let pair = record(&rt, OwnerState::Running, true, None);
    let dropped = record(&rt, OwnerState::Running, false, None);
    sign_on(&rt, &mut run);
    idle_round(&rt, &mut run, pair);
    five_ticks(&rt, &mut run);
    round(&rt, &mut run, pair, false);
    let given_up = [
        (Reserve, Done),
        (CtlRead, Held(dropped, false)),
        (Release, Done),
        (Ended(EndWhy::Abandoned), Done),
    ];
    hand_all(&rt, &mut run, &given_up);
    Ok(())
}

#[test]
fn under_command_a_command_alone_starts_it(rt: HostRuntime) -> Result<(), Fail> {
    let mut run = started(rt.alloc(), Takeovr::Command)?;
    let pair = record(&rt, OwnerState::Running, true, None);
    let signed_off = record(&rt, OwnerState::OffAbend, true, None);
    sign_on(&rt, &mut run);
    idle_round(&rt, &mut run, pair);
    five_ticks(&rt, &mut run);
    idle_round(&rt, &mut run, pair);
    hand(&rt, &mut run, Act::None, Second);
    idle_round(&rt, &mut run, signed_off);
    hand(&rt, &mut run, Act::None, Command(Cebt::PerformTakeover));
    hand(&rt, &mut run, Act::None, Second);
    round(&rt, &mut run, signed_off, false);
    hand(&rt, &mut run, Reserve, Done);
    Ok(())
}

#[test]
fn under_manual_the_operator_is_asked_once_and_says_go(rt: HostRuntime) -> Result<(), Fail> {
    let mut run = started(rt.alloc(), Takeovr::Manual)?;
    let pair = record(&rt, OwnerState::Running, true, None);
    sign_on(&rt, &mut run);
    idle_round(&rt, &mut run, pair);
    five_ticks(&rt, &mut run);
    idle_round(&rt, &mut run, pair);
    assert!(rt; run.job.is_asked());
    hand(&rt, &mut run, Act::None, Reply(false));
    five_ticks(&rt, &mut run);
    idle_round(&rt, &mut run, pair);
    assert!(rt; run.job.is_asked());
    hand(&rt, &mut run, Act::None, Reply(true));
    hand(&rt, &mut run, Act::None, Second);
    round(&rt, &mut run, pair, false);
    hand(&rt, &mut run, Reserve, Done);
    Ok(())
}

#[test]
fn a_failed_read_makes_it_leave(rt: HostRuntime) -> Result<(), Fail> {
    let mut run = started(rt.alloc(), Takeovr::Auto)?;
    let pair = record(&rt, OwnerState::Running, true, None);
    sign_on(&rt, &mut run);
    round(&rt, &mut run, pair, false);
    let leave = [
        (MsgRead, Failed),
        (Reserve, Done),
        (CtlRead, Held(pair, false)),
        (CtlWrite, Done),
        (Release, Done),
        (Ended(EndWhy::MsgError), Done),
    ];
    hand_all(&rt, &mut run, &leave);
    Ok(())
}
