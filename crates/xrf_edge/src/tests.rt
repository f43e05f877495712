use super::*;
use std::alloc::{AllocError, Global};
use std::io;
use std::io::{Read, Write};
use std::test::Fail;

const TEXT: &[u8] = b"XRF 1\nAPPL ACCOUNTS\nEND\n";

fn source(alloc: Global, fails: &[u32]) -> Result<MemSource, AllocError> {
    Ok(MemSource::new(TEXT.to_vec(alloc)?, 7, fails.to_vec(alloc)?))
}

#[test]
fn a_source_is_read_to_its_end(rt: HostRuntime) -> Result<(), Fail> {
    let alloc = rt.alloc();
    let mut bytes = source(alloc, &[])?;
    let all = read_all(alloc, &mut bytes, TEXT.len())?;
    assert_eq!(rt; all.as_slice(), TEXT);
    let rest = read_all(alloc, &mut bytes, 0)?;
    assert!(rt; rest.is_empty());
    Ok(())
}

#[test]
fn one_byte_too_many_is_too_large(rt: HostRuntime) -> Result<(), Fail> {
    let alloc = rt.alloc();
    let outcome = read_all(alloc, &mut source(alloc, &[])?, TEXT.len() - 1);
    assert_eq!(rt; outcome.err(), Some(ReadError::TooLarge));
    Ok(())
}

#[test]
fn the_first_call_of_a_source_fails(rt: HostRuntime) -> Result<(), Fail> {
    let alloc = rt.alloc();
    let mut bytes = source(alloc, &[1])?;
    assert_eq!(rt;
        read_all(alloc, &mut bytes, 100).err(),
        Some(ReadError::Fault)
    );
    let all = read_all(alloc, &mut bytes, 100)?;
    assert_eq!(rt; all.as_slice(), TEXT);
    Ok(())
}

#[test]
fn the_second_call_of_a_sink_fails(rt: HostRuntime) -> Result<(), Fail> {
    let alloc = rt.alloc();
    let mut sink = MemSink::new(alloc, 1000, 10, [2].to_vec(alloc)?)?;
    assert_eq!(rt; write_all(&mut sink, TEXT), Err(WriteFault));
    assert_eq!(rt; sink.held(), b"XRF 1\nAPPL".as_slice());
    Ok(())
}

#[test]
fn a_full_sink_fails(rt: HostRuntime) -> Result<(), Fail> {
    let alloc = rt.alloc();
    let mut sink = MemSink::new(alloc, 25, 10, Vec::new(alloc))?;
    assert_eq!(rt; write_all(&mut sink, TEXT), Ok(()));
    assert_eq!(rt; write_all(&mut sink, TEXT), Err(WriteFault));
    assert_eq!(rt; sink.held(), b"XRF 1\nAPPL ACCOUNTS\nEND\nX".as_slice());
    assert_eq!(rt; sink.write(&[]), Ok(0));
    Ok(())
}

#[test]
fn a_reader_is_a_source(rt: HostRuntime) -> Result<(), Fail> {
    let alloc = rt.alloc();
    let all = read_all(alloc, &mut StdSource::new(TEXT), 100)?;
    assert_eq!(rt; all.as_slice(), TEXT);
    Ok(())
}

/// A writer that takes `room` bytes, and then none; or one that can't be flushed.
#[derive(Drop)]
struct Cramped {
    room: usize,
    flushes: bool,
}

impl Write for Cramped {
    fn write(&mut self, buf: &[u8]) -> io::Result<usize> {
        let n = buf.len().min(self.room);
        self.room -= n;
        Ok(n)
    }

    fn flush(&mut self) -> io::Result<()> {
        if self.flushes {
            Ok(())
        } else {
            Err(io::Error::from(io::ErrorKind::BrokenPipe))
        }
    }
}

#[test]
fn a_writer_is_a_sink(rt: HostRuntime) -> Result<(), Fail> {
    for (room, flushes, outcome) in [
        (100, true, Ok(())),
        (5, true, Err(WriteFault)),
        (100, false, Err(WriteFault)),
    ] {
        let mut sink = StdSink::new(Cramped { room, flushes });
        assert_eq!(rt; write_all(&mut sink, TEXT), outcome, "{room}");
    }
    Ok(())
}

/// A reader and writer whose calls are interrupted so many times before they do what they are asked.
#[derive(Drop)]
struct Interrupted {
    times: u32,
}

impl Interrupted {
    fn answer(&mut self) -> io::Result<()> {
        if self.times == 0 {
            return Ok(());
        }
        self.times -= 1;
        Err(io::Error::from(io::ErrorKind::Interrupted))
    }
}

impl Read for Interrupted {
    fn read(&mut self, buf: &mut [u8]) -> io::Result<usize> {
        self.answer()?;
        let _room = buf.len();
        Ok(0)
    }
}

impl Write for Interrupted {
    fn write(&mut self, buf: &[u8]) -> io::Result<usize> {
        self.answer()?;
        Ok(buf.len())
    }

    fn flush(&mut self) -> io::Result<()> {
        self.answer()
    }
}

#[test]
fn an_interrupted_call_is_tried_again(rt: HostRuntime) -> Result<(), Fail> {
    let alloc = rt.alloc();
    let last = TRIES - 1;
    let all = read_all(alloc, &mut StdSource::new(Interrupted { times: last }), 100)?;
    assert!(rt; all.is_empty());
    let mut sink = StdSink::new(Interrupted { times: last });
    assert_eq!(rt; write_all(&mut sink, TEXT), Ok(()));
    Ok(())
}

#[test]
fn a_call_that_is_always_interrupted_fails(rt: HostRuntime) -> Result<(), Fail> {
    let alloc = rt.alloc();
    let mut source = StdSource::new(Interrupted { times: TRIES });
    assert_eq!(rt;
        read_all(alloc, &mut source, 100).err(),
        Some(ReadError::Fault)
    );
    let mut sink = StdSink::new(Interrupted { times: TRIES });
    assert_eq!(rt; write_all(&mut sink, TEXT), Err(WriteFault));
    Ok(())
}
