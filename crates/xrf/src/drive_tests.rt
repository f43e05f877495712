use crate::status::Status;
use crate::top::batch;
use std::alloc::{AllocError, Global};
use std::test::Fail;
use xrf_edge::{MemSink, MemSource};

const USAGE: &[u8] = b"XRF USAGE replay | run | drive SEED N\n";

fn drive(alloc: Global, seed: &str, turns: &str) -> Result<Vec<String>, AllocError> {
    let mut words = Vec::new(alloc);
    words.push(String::from_str(alloc, "drive")?)?;
    words.push(String::from_str(alloc, seed)?)?;
    words.push(String::from_str(alloc, turns)?)?;
    Ok(words)
}

#[test]
fn a_generated_run_is_summed_up(rt: HostRuntime) -> Result<(), Fail> {
    let alloc = rt.alloc();
    let mut source = MemSource::new(Vec::new(alloc), 16, [1].to_vec(alloc)?);
    let mut sink = MemSink::new(alloc, 1000, 512, Vec::new(alloc))?;
    let status = batch(alloc, &drive(alloc, "7", "8192")?, &mut source, &mut sink);
    assert_eq!(rt; status, Status::Done);
    assert_eq!(rt;
        sink.held(),
        b"DRIVE 7 8192\nCHOICES 8192\nTICKS 4333\nSTOPS 31\nINCARNATIONS 27\nTHROUGHS 15\nCOMMITTED 145\nFLIGHT 1\nDONE\n".as_slice()
    );
    Ok(())
}

#[test]
fn a_sink_that_fails_holds_a_front_of_the_summary(rt: HostRuntime) -> Result<(), Fail> {
    let alloc = rt.alloc();
    let mut source = MemSource::new(Vec::new(alloc), 16, Vec::new(alloc));
    let mut sink = MemSink::new(alloc, 1000, 10, [2].to_vec(alloc)?)?;
    let status = batch(alloc, &drive(alloc, "7", "0")?, &mut source, &mut sink);
    assert_eq!(rt; status, Status::WriteFault);
    assert_eq!(rt; sink.held(), b"DRIVE 7 0\n".as_slice());
    Ok(())
}

#[test]
fn numbers_that_may_not_be_are_answered_by_the_usage(rt: HostRuntime) -> Result<(), Fail> {
    let alloc = rt.alloc();
    for (seed, turns) in [
        ("18446744073709551616", "0"),
        ("07", "0"),
        ("+7", "0"),
        ("", "0"),
        ("7", "8193"),
        ("7", "00"),
    ] {
        let mut source = MemSource::new(Vec::new(alloc), 16, [1].to_vec(alloc)?);
        let mut sink = MemSink::new(alloc, 1000, 512, Vec::new(alloc))?;
        let status = batch(alloc, &drive(alloc, seed, turns)?, &mut source, &mut sink);
        assert_eq!(rt; status, Status::Usage);
        assert_eq!(rt; sink.held(), USAGE);
    }
    Ok(())
}
