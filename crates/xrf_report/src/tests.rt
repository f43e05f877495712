ghost use Rattle.std.specs.Prelude.{◌≤◌, length};

use crate::entries::put_acts;
use crate::files::put_file;
use crate::terminals::put_rows;
use std::alloc::{AllocError, Global};
use std::test::Fail;
use xrf_base::{Inc, Name8, Site, Takeovr, UnitId, Value};
use xrf_cavm::{Acting, Decided, Decision, Waiting, Why};
use xrf_cebt::{Cebt, CebtReply};
use xrf_ctl::{Alt, Cause, Control, Owner, OwnerState, Signal, Taking};
use xrf_exit::ExitAnswer;
use xrf_gated::Extent;
use xrf_history::EndWhy;
use xrf_logrec::{Keypoint, LogRec};
use xrf_msg::Message;
use xrf_scenario::read;
use xrf_setup::{Format, Landing, Scenario, TornBytes};
use xrf_terms::TermTable;
use xrf_trace::{Act, Entry, Land, Who};

const OF_ONE: &[u8] =
    b"XRF 1\nCLT CICSA WTO OF A\nCLT CICSB CANCEL CICSA\nCLT CICSB WTO CICSA IS BEING TAKEN OVER\nCHOICES\nEND\n";

const OF_TWO: &[u8] = b"XRF 2\nCHOICES\nEND\n";

fn scenario(alloc: Global, text: &'static [u8]) -> Result<Scenario, Fail> {
    if text.len() > 1000 {
        return Err(Fail::from("long"));
    }
    match read(alloc, text) {
        Ok((scenario, _)) => Ok(scenario),
        Err(_) => Err(Fail::from("refused")),
    }
}

fn made(who: Who, inc: Inc, act: Act) -> Entry {
    Entry {
        tick: 31,
        who,
        inc,
        act,
        land: Land::Full,
    }
}

fn landed(act: Act, land: Land) -> Entry {
    Entry {
        tick: 2,
        who: Who::A,
        inc: 1,
        act,
        land,
    }
}

// the lines of some entries
fn told(alloc: Global, scenario: &Scenario, journal: &[Entry]) -> Result<Vec<u8>, AllocError> {
    let mut out = Vec::new(alloc);
    put_acts(alloc, &mut out, scenario, journal)?;
    Ok(out)
}

// 1 at A with this state, 2 at B, and a taking of it
fn taking(state: OwnerState, cause: Cause) -> Option<Control> {
    let owner = Owner {
        inc: 1,
        site: Site::A,
        state,
    };
    let alt = Alt {
        inc: 2,
        site: Site::B,
    };
    Control::make(2, 2, Some(owner), Some(alt), Some(Taking { inc: 2, cause }))
}

fn unit(serial: u32) -> UnitId {
    UnitId { inc: 1, serial }
}

#[test]
fn choices_are_told_with_what_they_came_to(rt: HostRuntime) -> Result<(), Fail> {
    let scenario = scenario(rt.alloc(), OF_ONE)?;
    let journal = [
        made(Who::Env, 0, Act::Tick),
        made(Who::A, 0, Act::StartActive),
        made(Who::B, 0, Act::StartStandby),
        made(Who::A, 1, Act::Abend),
        made(Who::Env, 0, Act::Confirm(1)),
        made(Who::B, 2, Act::Reply(true)),
        made(Who::B, 2, Act::Reply(false)),
        made(
            Who::B,
            2,
            Act::Cebt(Cebt::PerformTakeover, CebtReply::InProgress),
        ),
        made(
            Who::B,
            2,
            Act::Cebt(
                Cebt::SetTakeover(Takeovr::Auto),
                CebtReply::TakeoverMode(Takeovr::Auto),
            ),
        ),
        made(Who::A, 1, Act::Exit(ExitAnswer::Drop)),
        made(Who::B, 2, Act::Clt(1)),
        made(Who::B, 2, Act::Clt(2)),
    ];
    let lines = b"* ACT 1 31 - 0 TICK
* ACT 2 31 A 0 START ACTIVE
* ACT 3 31 B 0 START STANDBY
* ACT 4 31 A 1 ABEND
* ACT 5 31 - 0 CONFIRM 1
* ACT 6 31 B 2 REPLY GO
* ACT 7 31 B 2 REPLY IGNORE
* ACT 8 31 B 2 CEBT PERFORM TAKEOVER = TAKEOVER IN PROGRESS
* ACT 9 31 B 2 CEBT SET TAKEOVER AUTO = TAKEOVER AUTO
* ACT 10 31 A 1 EXIT DROP
* ACT 11 31 B 2 CLT 1 CANCEL CICSA
* ACT 12 31 B 2 CLT 2 WTO CICSA IS BEING TAKEN OVER
";
    assert_eq!(rt;
        told(rt.alloc(), &scenario, &journal)?.as_slice(),
        lines.as_slice()
    );
    Ok(())
}

#[test]
fn decisions_and_ends_are_told(rt: HostRuntime) -> Result<(), Fail> {
    let scenario = scenario(rt.alloc(), OF_ONE)?;
    let decided = |decided: Decided| made(Who::B, 2, Act::Decide(decided));
    let journal = [
        decided(Decided::Alternate(Decision::Nothing)),
        decided(Decided::Alternate(Decision::Ask)),
        decided(Decided::Alternate(Decision::Start(Cause::Lost))),
        decided(Decided::Alternate(Decision::Leave(Why::Dropped))),
        decided(Decided::Waiting(Waiting::Through)),
        decided(Decided::Owner(Acting::CatchUp(3))),
        decided(Decided::Owner(Acting::Forget)),
        made(Who::B, 0, Act::Ended(EndWhy::Refused(1))),
        made(Who::B, 2, Act::Ended(EndWhy::MsgError)),
    ];
    let lines = b"* ACT 1 31 B 2 DECIDE NOTHING
* ACT 2 31 B 2 DECIDE ASK
* ACT 3 31 B 2 DECIDE START LOST
* ACT 4 31 B 2 DECIDE END DROPPED
* ACT 5 31 B 2 DECIDE THROUGH
* ACT 6 31 B 2 DECIDE CATCHUP 3
* ACT 7 31 B 2 DECIDE FORGET
* ACT 8 31 B 0 ENDED REFUSED 1
* ACT 9 31 B 2 ENDED MSGERROR
";
    assert_eq!(rt;
        told(rt.alloc(), &scenario, &journal)?.as_slice(),
        lines.as_slice()
    );
    Ok(())
}

#[test]
fn what_landed_of_an_act_is_told(rt: HostRuntime) -> Result<(), Fail> {
    let scenario = scenario(rt.alloc(), OF_ONE)?;
    let signal = Signal {
        inc: 1,
        counter: 4,
        cursor: 0,
    };
    let commit = LogRec::Commit { unit: unit(1) };
    let keypoint = Keypoint {
        number: 2,
        start: 60,
    };
    let value = Value::read(b"NEW").ok_or("no value")?;
    let torn = TornBytes::new(b"\xc1").ok_or("no torn bytes")?;
    let control = taking(OwnerState::OffAbend, Cause::Lost).ok_or("no record")?;
    let journal = [
        landed(Act::Signal1(signal), Land::Lost),
        landed(Act::LogOpen(2, commit), Land::Fail(Landing::Torn(torn))),
        landed(Act::KpBody(0, keypoint), Land::Stop(Landing::Nothing)),
        landed(Act::FileWrite(unit(1), 1, value), Land::Stop(Landing::All)),
        landed(Act::MsgRead(0), Land::Fail(Landing::Nothing)),
        landed(Act::CtlWrite(control), Land::Stop(Landing::All)),
        landed(Act::NoAct, Land::Stop(Landing::Nothing)),
    ];
    let lines = b"* ACT 1 2 A 1 SIGNAL1 4 0 LOST
* ACT 2 2 A 1 FAIL LOGOPEN 2 COMMIT 1.1 TORN c1
* ACT 3 2 A 1 STOP KPBODY 0 KEYPOINT 2 START 60 NONE
* ACT 4 2 A 1 STOP FILEWRITE 1.1 1 NEW ALL
* ACT 5 2 A 1 FAIL MSGREAD 0 NONE
* ACT 6 2 A 1 STOP CTLWRITE 2 OWNER 1.A.ABEND ALT 2.B TAKING 2.LOST ALL
* ACT 7 2 A 1 STOP
";
    assert_eq!(rt;
        told(rt.alloc(), &scenario, &journal)?.as_slice(),
        lines.as_slice()
    );
    Ok(())
}

#[test]
fn formats_and_users_are_told_in_documents_of_xrf_2(rt: HostRuntime) -> Result<(), Fail> {
    let scenario = scenario(rt.alloc(), OF_TWO)?;
    let control = taking(OwnerState::Running, Cause::Command).ok_or("no record")?;
    let term = Name8::read(b"T1").ok_or("no name")?;
    let user = Name8::read(b"ANNA").ok_or("no name")?;
    let on = Message::User {
        epoch: 2,
        seq: 3,
        term,
        class: 1,
        on: true,
        user: Some(user),
    };
    let off = Message::User {
        epoch: 2,
        seq: 4,
        term,
        class: 1,
        on: false,
        user: None,
    };
    let journal = [
        made(Who::B, 2, Act::CtlWrite(control)),
        made(Who::A, 1, Act::MsgBody(3, on)),
        made(Who::A, 1, Act::MsgOpen(4, off)),
    ];
    let lines = b"* ACT 1 31 B 2 CTLWRITE 2 OWNER 1.A.RUNNING ALT 2.B TAKING 2.COMMAND FORMAT 2
* ACT 2 31 A 1 MSGBODY 3 USER 2 3 T1 1 ON ANNA
* ACT 3 31 A 1 MSGOPEN 4 USER 2 4 T1 1 OFF -
";
    assert_eq!(rt;
        told(rt.alloc(), &scenario, &journal)?.as_slice(),
        lines.as_slice()
    );
    Ok(())
}

#[test]
fn terminals_are_told_with_their_users_in_xrf_2(rt: HostRuntime) -> Result<(), Fail> {
    let mut table = TermTable::new(rt.alloc())?;
    let term = Name8::read(b"T1").ok_or("no name")?;
    let user = Name8::read(b"ANNA").ok_or("no name")?;
    let _on = table.logon(term, 3);
    let _signed = table.signon(term, user);
    let mut out = Vec::new(rt.alloc());
    put_rows(&mut out, Format::One, Site::A, &table)?;
    put_rows(&mut out, Format::Two, Site::B, &table)?;
    let lines = b"* TERM A T1 3 ON\n* TERM B T1 3 ON ANNA\n";
    assert_eq!(rt; out.as_slice(), lines.as_slice());
    Ok(())
}

#[test]
fn a_slot_of_the_file_is_a_record_or_empty_or_damaged(rt: HostRuntime) -> Result<(), Fail> {
    let mut file = Extent::new(rt.alloc(), 96)?;
    let value = Value::read(b"AMBER").ok_or("no value")?;
    file.land(32, &value.to_slot());
    file.land(64, b"\xff");
    let mut out = Vec::new(rt.alloc());
    put_file(&mut out, &file, 3)?;
    let lines = b"* FILE 2 AMBER\n* FILE 3 DAMAGED\n";
    assert_eq!(rt; out.as_slice(), lines.as_slice());
    Ok(())
}
