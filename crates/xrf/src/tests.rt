use crate::status::Status;
use crate::top::batch;
use std::alloc::{AllocError, Global};
use std::test::Fail;
use xrf_edge::{MemSink, MemSource};

const UNIT: &[u8] =
    b"XRF 1\nFILE 4\nRECORD 1 OLD\nWORK A BEGIN U1\nWORK A PUT U1 1 NEW\nWORK A PUT U1 3 SECOND\nWORK A COMMIT U1\nCHOICES\nSTART A ACTIVE\nSTEP A 25\nEND\n";

fn replay(alloc: Global) -> Result<Vec<String>, AllocError> {
    let mut words = Vec::new(alloc);
    words.push(String::from_str(alloc, "replay")?)?;
    Ok(words)
}

#[test]
fn an_ordinary_unit_of_work_is_done(rt: HostRuntime) -> Result<(), Fail> {
    let alloc = rt.alloc();
    let mut source = MemSource::new(UNIT.to_vec(alloc)?, 16, Vec::new(alloc));
    let mut sink = MemSink::new(alloc, 4000, 512, Vec::new(alloc))?;
    let status = batch(alloc, &replay(alloc)?, &mut source, &mut sink);
    assert_eq!(rt; status, Status::Done);
    assert!(rt;
        sink.held()
            .ends_with(b"* FILE 1 NEW\n* FILE 3 SECOND\n* DONE\n")
    );
    Ok(())
}

// the scenario, and behind it a comment, so many bytes in all
fn with_comment(alloc: Global, size: usize) -> Result<Vec<u8>, AllocError> {
    let mut text = UNIT.to_vec(alloc)?;
    text.resize(size, b'#')?;
    Ok(text)
}

#[test]
fn a_document_replays_to_the_same_bytes(rt: HostRuntime) -> Result<(), Fail> {
    let alloc = rt.alloc();
    let words = replay(alloc)?;
    let mut source = MemSource::new(UNIT.to_vec(alloc)?, 512, Vec::new(alloc));
    let mut sink = MemSink::new(alloc, 4000, 512, Vec::new(alloc))?;
    assert_eq!(rt; batch(alloc, &words, &mut source, &mut sink), Status::Done);
    let mut again = MemSource::new(sink.held().to_vec(alloc)?, 512, Vec::new(alloc));
    let mut written = MemSink::new(alloc, 4000, 512, Vec::new(alloc))?;
    assert_eq!(rt;
        batch(alloc, &words, &mut again, &mut written),
        Status::Done
    );
    assert_eq!(rt; written.held(), sink.held());
    Ok(())
}

#[test]
fn an_input_of_the_most_bytes_is_done(rt: HostRuntime) -> Result<(), Fail> {
    let alloc = rt.alloc();
    let mut source = MemSource::new(with_comment(alloc, 4_194_304)?, 65_536, Vec::new(alloc));
    let mut sink = MemSink::new(alloc, 4000, 512, Vec::new(alloc))?;
    let status = batch(alloc, &replay(alloc)?, &mut source, &mut sink);
    assert_eq!(rt; status, Status::Done);
    Ok(())
}

#[test]
fn an_input_of_one_byte_more_is_refused(rt: HostRuntime) -> Result<(), Fail> {
    let alloc = rt.alloc();
    let mut source = MemSource::new(with_comment(alloc, 4_194_305)?, 65_536, Vec::new(alloc));
    let mut sink = MemSink::new(alloc, 4000, 512, Vec::new(alloc))?;
    let status = batch(alloc, &replay(alloc)?, &mut source, &mut sink);
    assert_eq!(rt; status, Status::Refused);
    assert_eq!(rt; sink.held(), b"XRF REFUSED LINE 0 TOO-LARGE\n".as_slice());
    Ok(())
}

#[test]
fn a_source_that_fails_leaves_the_sink(rt: HostRuntime) -> Result<(), Fail> {
    let alloc = rt.alloc();
    let mut source = MemSource::new(UNIT.to_vec(alloc)?, 16, [1].to_vec(alloc)?);
    let mut sink = MemSink::new(alloc, 4000, 512, Vec::new(alloc))?;
    let status = batch(alloc, &replay(alloc)?, &mut source, &mut sink);
    assert_eq!(rt; status, Status::ReadFault);
    assert!(rt; sink.held().is_empty());
    Ok(())
}

#[test]
fn a_sink_that_fails_holds_a_front_of_the_document(rt: HostRuntime) -> Result<(), Fail> {
    let alloc = rt.alloc();
    let mut source = MemSource::new(UNIT.to_vec(alloc)?, 16, Vec::new(alloc));
    let mut sink = MemSink::new(alloc, 1000, 10, [2].to_vec(alloc)?)?;
    let status = batch(alloc, &replay(alloc)?, &mut source, &mut sink);
    assert_eq!(rt; status, Status::WriteFault);
    assert_eq!(rt; sink.held(), b"XRF 1\nAPPL".as_slice());
    Ok(())
}

#[test]
fn other_words_leave_the_source(rt: HostRuntime) -> Result<(), Fail> {
    let alloc = rt.alloc();
    let mut source = MemSource::new(UNIT.to_vec(alloc)?, 16, [1].to_vec(alloc)?);
    let mut sink = MemSink::new(alloc, 100, 100, Vec::new(alloc))?;
    let status = batch(alloc, &[], &mut source, &mut sink);
    assert_eq!(rt; status, Status::Usage);
    assert_eq!(rt;
        sink.held(),
        b"XRF USAGE replay | run | drive SEED N\n".as_slice()
    );
    Ok(())
}
