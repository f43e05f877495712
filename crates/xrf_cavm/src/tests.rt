use super::*;
use std::test::Fail;
use xrf_base::{Inc, Site, Takeovr};
use xrf_ctl::{Alt, Cause, Control, Level, Owner, OwnerState, Signal, Taking};

const NOBODY: Known = Known {
    owner: false,
    alt: false,
};

const OWNER: Known = Known {
    owner: true,
    alt: false,
};

const ALT: Known = Known {
    owner: false,
    alt: true,
};

const BOTH: Known = Known {
    owner: true,
    alt: true,
};

// Incarnation 1 at A as owner, and 2 at B as alternate, which may have started a takeover.
fn pair(format: u16, state: OwnerState, cause: Option<Cause>) -> Option<Control> {
    let owner = Owner {
        inc: 1,
        site: Site::A,
        state,
    };
    let alt = Alt {
        inc: 2,
        site: Site::B,
    };
    let taking = cause.map(|cause| Taking { inc: 2, cause });
    Control::make(format, 2, Some(owner), Some(alt), taking)
}

// Incarnation 1 at A as owner alone.
fn single(state: OwnerState) -> Option<Control> {
    let owner = Owner {
        inc: 1,
        site: Site::A,
        state,
    };
    Control::make(1, 1, Some(owner), None, None)
}

fn signal(counter: u64) -> Option<Signal> {
    Some(Signal {
        inc: 1,
        counter,
        cursor: 0,
    })
}

// The grant of a sign-on, where an incarnation is left to give.
fn active(control: &Control, site: Site, known: Known, level: Level) -> Option<Grant> {
    if control.last() == Inc::MAX {
        return None;
    }
    Some(grant_active(control, site, known, level))
}

fn standby(control: &Control, site: Site, known: Known, level: Level) -> Option<Grant> {
    if control.last() == Inc::MAX {
        return None;
    }
    Some(grant_standby(control, site, known, level))
}

// The record that is granted.
fn granted(grant: Option<Grant>) -> Option<Control> {
    match grant? {
        Grant::Granted(control) => Some(control),
        _ => None,
    }
}

fn is_present(grant: Option<Grant>, inc: Inc) -> bool {
    matches!(grant, Some(Grant::Present(there)) if there == inc)
}

#[test]
fn each_answer_to_a_sign_on_as_active(rt: HostRuntime) -> Result<(), Fail> {
    let both = pair(1, OwnerState::Running, None).ok_or("a record")?;
    assert!(rt; is_present(active(&both, Site::B, NOBODY, Level::One), 1));
    assert!(rt; is_present(active(&both, Site::B, ALT, Level::One), 1));
    assert!(rt; is_present(active(&both, Site::B, OWNER, Level::One), 2));
    let new = granted(active(&both, Site::B, BOTH, Level::One)).ok_or("nobody is in the way")?;
    let owner = Owner {
        inc: 3,
        site: Site::B,
        state: OwnerState::Running,
    };
    assert_eq!(rt; new.owner(), Some(owner));
    assert_eq!(rt; new.alt(), None);
    assert_eq!(rt; new.last(), 3);
    assert_eq!(rt; new.format(), 1);
    Ok(())
}

#[test]
fn each_answer_to_a_sign_on_as_standby(rt: HostRuntime) -> Result<(), Fail> {
    let off = single(OwnerState::OffAbend).ok_or("a record")?;
    let alone = single(OwnerState::Running).ok_or("a record")?;
    let both = pair(1, OwnerState::Running, None).ok_or("a record")?;
    assert!(rt;
        matches!(
            standby(&off, Site::B, NOBODY, Level::One),
            Some(Grant::NoActive)
        )
    );
    assert!(rt; is_present(standby(&alone, Site::A, NOBODY, Level::One), 1));
    assert!(rt; is_present(standby(&both, Site::B, NOBODY, Level::One), 2));
    let new = granted(standby(&both, Site::B, ALT, Level::Two)).ok_or("it is confirmed")?;
    let alt = Alt {
        inc: 3,
        site: Site::B,
    };
    assert_eq!(rt; new.owner(), both.owner());
    assert_eq!(rt; new.alt(), Some(alt));
    assert_eq!(rt; new.last(), 3);
    assert_eq!(rt; new.format(), 1);
    Ok(())
}

#[test]
fn level_two_migrates_the_record_and_level_one_refuses_it(rt: HostRuntime) -> Result<(), Fail> {
    let empty = Control::empty();
    let new = granted(active(&empty, Site::A, NOBODY, Level::Two)).ok_or("nobody is there")?;
    assert_eq!(rt; new.format(), 2);
    assert!(rt;
        matches!(
            active(&new, Site::B, OWNER, Level::One),
            Some(Grant::Format)
        )
    );
    assert!(rt;
        matches!(
            standby(&new, Site::B, NOBODY, Level::One),
            Some(Grant::Format)
        )
    );
    let second = granted(standby(&new, Site::B, NOBODY, Level::Two)).ok_or("it stands by")?;
    assert_eq!(rt; second.format(), 2);
    Ok(())
}

#[test]
fn the_owner_alone_signs_off(rt: HostRuntime) -> Result<(), Fail> {
    let both = pair(1, OwnerState::Running, None).ok_or("a record")?;
    let new = sign_off(&both, 1, OwnerState::OffNormal).ok_or("1 is the owner")?;
    assert_eq!(rt;
        new.owner().map(|owner| owner.state),
        Some(OwnerState::OffNormal)
    );
    assert_eq!(rt; new.alt(), both.alt());
    assert!(rt; sign_off(&both, 2, OwnerState::OffNormal).is_none());
    assert!(rt; sign_off(&Control::empty(), 0, OwnerState::OffNormal).is_none());
    Ok(())
}

#[test]
fn the_alternate_alone_takes_over(rt: HostRuntime) -> Result<(), Fail> {
    let both = pair(1, OwnerState::Running, None).ok_or("a record")?;
    assert!(rt; start_takeover(&both, 1, Cause::Lost).is_none());
    let off = pair(1, OwnerState::OffNormal, None).ok_or("a record")?;
    assert!(rt; start_takeover(&off, 2, Cause::Command).is_none());
    let started = start_takeover(&both, 2, Cause::Lost).ok_or("2 is the alternate")?;
    assert_eq!(rt;
        started.taking().map(|taking| taking.cause),
        Some(Cause::Lost)
    );
    assert!(rt; let_through(&both, 2, OWNER, Level::One).is_none());
    assert!(rt; let_through(&started, 2, NOBODY, Level::One).is_none());
    assert!(rt; let_through(&started, 1, OWNER, Level::One).is_none());
    let through = let_through(&started, 2, OWNER, Level::Two).ok_or("the owner has ended")?;
    let owner = Owner {
        inc: 2,
        site: Site::B,
        state: OwnerState::Running,
    };
    assert_eq!(rt; through.owner(), Some(owner));
    assert_eq!(rt; through.taking(), None);
    assert_eq!(rt; through.last(), 2);
    assert_eq!(rt; through.format(), 2);
    Ok(())
}

#[test]
fn the_alternate_leaves_or_is_dropped(rt: HostRuntime) -> Result<(), Fail> {
    let both = pair(1, OwnerState::Running, None).ok_or("a record")?;
    let started = pair(1, OwnerState::Running, Some(Cause::Abend)).ok_or("a record")?;
    let left = leave(&started, 2).ok_or("2 is the alternate")?;
    assert_eq!(rt; left.alt(), None);
    assert_eq!(rt; left.taking(), None);
    assert!(rt; leave(&started, 1).is_none());
    assert!(rt; matches!(drop_alternate(&started, 2), Dropping::Taken));
    assert!(rt; matches!(drop_alternate(&both, 3), Dropping::Gone));
    assert!(rt; matches!(drop_alternate(&left, 2), Dropping::Gone));
    let Dropping::Write(dropped) = drop_alternate(&both, 2) else {
        return Err("2 is dropped".into());
    };
    assert_eq!(rt; dropped.alt(), None);
    assert_eq!(rt; dropped.owner(), both.owner());
    Ok(())
}

#[test]
fn a_watch_keeps_the_tick_of_the_last_change(rt: HostRuntime) {
    let mut watch = Watch::new(3);
    watch.look(None, None, 5);
    assert_eq!(rt; watch.last_change(), 5);
    watch.look(None, None, 6);
    assert_eq!(rt; watch.last_change(), 5);
    watch.look(signal(1), None, 7);
    assert_eq!(rt; watch.last_change(), 7);
    watch.look(signal(1), None, 8);
    assert_eq!(rt; watch.last_change(), 7);
    watch.reset(9);
    assert_eq!(rt; watch.last_change(), 9);
    watch.look(signal(1), None, 10);
    assert_eq!(rt; watch.last_change(), 9);
    watch.look(signal(1), signal(1), 11);
    assert_eq!(rt; watch.last_change(), 11);
}

fn tracking(takeovr: Takeovr) -> Mode {
    Mode {
        takeovr,
        adi: 3,
        surveillance: true,
        commanded: false,
        shutdown: false,
        asked: false,
        go: false,
    }
}

// The decision of alternate 2 over an owner in this state, some ticks after the last change.
fn decided(state: OwnerState, mode: Mode, ticks: u16) -> Option<Decision> {
    let control = pair(1, state, None)?;
    Some(decide(&Watch::new(4), &control, 2, mode, 4 + u32::from(ticks)))
}

#[test]
fn each_row_of_a_tracking_alternate(rt: HostRuntime) -> Result<(), Fail> {
    let auto = tracking(Takeovr::Auto);
    let manual = tracking(Takeovr::Manual);
    let command = tracking(Takeovr::Command);
    let running = OwnerState::Running;
    let shutdown = Mode {
        shutdown: true,
        commanded: true,
        ..auto
    };
    assert_eq!(rt;
        decided(running, shutdown, 9),
        Some(Decision::Leave(Why::Shutdown))
    );
    let alone = single(running).ok_or("a record")?;
    assert_eq!(rt;
        decide(&Watch::new(4), &alone, 2, auto, 9),
        Decision::Leave(Why::Dropped)
    );
    let commanded = Mode {
        commanded: true,
        ..command
    };
    assert_eq!(rt;
        decided(OwnerState::OffNormal, commanded, 9),
        Some(Decision::Leave(Why::Normal))
    );
    assert_eq!(rt;
        decided(running, commanded, 0),
        Some(Decision::Start(Cause::Command))
    );
    assert_eq!(rt;
        decided(OwnerState::OffAbend, auto, 0),
        Some(Decision::Start(Cause::Abend))
    );
    assert_eq!(rt;
        decided(OwnerState::OffAbend, manual, 0),
        Some(Decision::Start(Cause::Abend))
    );
    assert_eq!(rt;
        decided(OwnerState::OffAbend, command, 9),
        Some(Decision::Nothing)
    );
    assert_eq!(rt;
        decided(OwnerState::OffTakeover, manual, 0),
        Some(Decision::Start(Cause::Shutdown))
    );
    assert_eq!(rt;
        decided(OwnerState::OffTakeover, command, 9),
        Some(Decision::Nothing)
    );
    Ok(())
}

#[test]
fn each_row_of_a_lost_signal(rt: HostRuntime) {
    let running = OwnerState::Running;
    let auto = tracking(Takeovr::Auto);
    let manual = tracking(Takeovr::Manual);
    let blind = Mode {
        surveillance: false,
        ..auto
    };
    let asked = Mode {
        asked: true,
        ..manual
    };
    let go = Mode { go: true, ..asked };
    assert_eq!(rt; decided(running, auto, 2), Some(Decision::Nothing));
    assert_eq!(rt;
        decided(running, auto, 3),
        Some(Decision::Start(Cause::Lost))
    );
    assert_eq!(rt; decided(running, blind, 3), Some(Decision::Nothing));
    assert_eq!(rt; decided(running, manual, 2), Some(Decision::Nothing));
    assert_eq!(rt; decided(running, manual, 3), Some(Decision::Ask));
    assert_eq!(rt; decided(running, asked, 3), Some(Decision::Nothing));
    assert_eq!(rt; decided(running, go, 2), Some(Decision::Nothing));
    assert_eq!(rt; decided(running, go, 3), Some(Decision::Start(Cause::Lost)));
    assert_eq!(rt;
        decided(running, tracking(Takeovr::Command), 9),
        Some(Decision::Nothing)
    );
}

#[test]
fn a_waiting_alternate_goes_by_the_owner_alone(rt: HostRuntime) -> Result<(), Fail> {
    let running = pair(1, OwnerState::Running, Some(Cause::Lost)).ok_or("a record")?;
    let off = pair(1, OwnerState::OffAbend, Some(Cause::Abend)).ok_or("a record")?;
    assert_eq!(rt; decide_waiting(&running, NOBODY), Waiting::Wait);
    assert_eq!(rt; decide_waiting(&running, ALT), Waiting::Wait);
    assert_eq!(rt; decide_waiting(&running, OWNER), Waiting::Through);
    assert_eq!(rt; decide_waiting(&off, NOBODY), Waiting::Through);
    Ok(())
}

// The decision of the owner of a pair that writes for an epoch, some ticks after the last change.
fn acted(cause: Option<Cause>, epoch: Option<Inc>, ticks: u16) -> Option<Acting> {
    let control = pair(1, OwnerState::Running, cause)?;
    let now = 4 + u32::from(ticks);
    Some(decide_active(&Watch::new(4), &control, epoch, 5, now))
}

#[test]
fn each_row_of_an_owner(rt: HostRuntime) -> Result<(), Fail> {
    assert_eq!(rt; acted(Some(Cause::Command), Some(2), 9), Some(Acting::Seen));
    assert_eq!(rt; acted(None, None, 9), Some(Acting::CatchUp(2)));
    assert_eq!(rt; acted(None, Some(1), 9), Some(Acting::CatchUp(2)));
    assert_eq!(rt; acted(None, Some(2), 4), Some(Acting::Nothing));
    assert_eq!(rt; acted(None, Some(2), 5), Some(Acting::Lost));
    let alone = single(OwnerState::Running).ok_or("a record")?;
    let watch = Watch::new(4);
    assert_eq!(rt;
        decide_active(&watch, &alone, Some(2), 5, 9),
        Acting::Forget
    );
    assert_eq!(rt; decide_active(&watch, &alone, None, 5, 9), Acting::Nothing);
    Ok(())
}
