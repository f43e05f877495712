//! Tests of the word `run`, by its top call.

use crate::program::xrf_top;
use crate::status::Status;
use std::alloc::{AllocError, Global};
use std::sync::Wait;
use std::test::Fail;
use std::thread::Threads;
use xrf_edge::{MemSink, MemSource};
use xrf_exit::{ExitAnswer, Notice, StatusExit};
use xrf_run::OpenGate;

const TAKEOVER: &[u8] = b"XRF 1
TAKEOVR AUTO
TICKS 10
WORK A LOGON T1 1
WORK A LOGON T2 2
WORK A LOGON T3 3
PLAN 0 START A ACTIVE
PLAN 1 START B STANDBY
PLAN 3 ABEND A
CHOICES
END
";

// what stands at the end of each run of it
const STANDING: &[u8] = b"* ITEM A 1 DONE
* ITEM A 2 DONE
* ITEM A 3 DONE
* TICK 10
* CONTROL 2 OWNER 2.B.RUNNING ALT NONE TAKING NONE
* JOB A NONE
* JOB B 2 ACTIVE
* TERM B T1 1 SWITCHED
* TERM B T2 2 ACQUIRED
* LOG 0 COMMITTED 0 FLIGHT 0
* DONE
";

const CHOICE_GIVEN: &[u8] = b"XRF 1
TICKS 0
PLAN 0 START A ACTIVE
CHOICES
# the first choice
TICK
STEP A
END
";

// what a word answers to a text, and what it writes; the calls of the source and of the sink with these numbers fail
fn answer<R: Threads + Wait + Sync>(
    rt: &R,
    alloc: Global,
    word: &str,
    text: &[u8],
    failing: (&[u32], &[u32]),
) -> Result<(Status, Vec<u8>), AllocError> {
    let mut words = Vec::new(alloc);
    words.push(String::from_str(alloc, word)?)?;
    let mut source = MemSource::new(text.to_vec(alloc)?, 512, failing.0.to_vec(alloc)?);
    let mut sink = MemSink::new(alloc, 20_000, 512, failing.1.to_vec(alloc)?)?;
    let exit = StatusExit::new(|notice| match notice {
        Notice::TakeoverSeen => ExitAnswer::Abend,
        Notice::AlternateLost => ExitAnswer::Drop,
    });
    let status = xrf_top(rt, alloc, &words, &mut source, &mut sink, &OpenGate, &exit);
    Ok((status, sink.held().to_vec(alloc)?))
}

#[test]
fn the_document_of_a_threaded_run_replays_to_itself(rt: HostRuntime) -> Result<(), Fail> {
    let alloc = rt.alloc();
    let (status, document) = answer(&rt, alloc, "run", TAKEOVER, (&[], &[]))?;
    assert_eq!(rt; status, Status::Done);
    assert!(rt; document.ends_with(STANDING));
    let (status, again) = answer(&rt, alloc, "replay", &document, (&[], &[]))?;
    assert_eq!(rt; status, Status::Done);
    assert_eq!(rt; again, document);
    Ok(())
}

#[test]
fn a_choice_is_refused_at_its_line(rt: HostRuntime) -> Result<(), Fail> {
    let (status, text) = answer(&rt, rt.alloc(), "run", CHOICE_GIVEN, (&[], &[]))?;
    assert_eq!(rt; status, Status::Refused);
    assert_eq!(rt;
        text.as_slice(),
        b"XRF REFUSED LINE 6 CHOICES-GIVEN\n".as_slice()
    );
    Ok(())
}

#[test]
fn a_bad_line_comes_before_a_choice(rt: HostRuntime) -> Result<(), Fail> {
    let text = b"XRF 1\nCHOICES\nTICK\nTACK\nEND\n".as_slice();
    let (status, text) = answer(&rt, rt.alloc(), "run", text, (&[], &[]))?;
    assert_eq!(rt; status, Status::Refused);
    assert_eq!(rt;
        text.as_slice(),
        b"XRF REFUSED LINE 4 UNKNOWN-WORD\n".as_slice()
    );
    Ok(())
}

#[test]
fn ends_that_fail_are_told(rt: HostRuntime) -> Result<(), Fail> {
    let alloc = rt.alloc();
    let (status, text) = answer(&rt, alloc, "run", TAKEOVER, (&[1], &[]))?;
    assert_eq!(rt; status, Status::ReadFault);
    assert!(rt; text.is_empty());
    let (status, text) = answer(&rt, alloc, "run", TAKEOVER, (&[], &[2]))?;
    assert_eq!(rt; status, Status::WriteFault);
    assert!(rt; text.starts_with(b"XRF 1\nAPPLID A CICSA\n"));
    assert_eq!(rt; text.len(), 512);
    Ok(())
}

#[test]
fn other_words_are_usage(rt: HostRuntime) -> Result<(), Fail> {
    let (status, _) = answer(&rt, rt.alloc(), "runs", TAKEOVER, (&[], &[]))?;
    assert_eq!(rt; status, Status::Usage);
    Ok(())
}
