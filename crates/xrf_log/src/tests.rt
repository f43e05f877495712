ghost use Rattle.std.specs.Prelude.{◌≡◌, ◌+◌, ◌%◌, ◌^◌, ◌<◌, ◌≤◌, length};
ghost use Rattle.xrf_base.specs.Ranges.{AreLimits};
ghost use Rattle.xrf_logrec.specs.LogRecords.{IsLogRecord};

use crate::{Scan, ScanNext, room};
use std::alloc::Global;
use std::test::Fail;
use xrf_base::{Limits, UnitId};
use xrf_logrec::{Keypoint, LogRec};

/// A record of a log under test.
#[derive(Clone, Copy)]
enum Step {
    /// A put by the unit of this serial, of this record.
    P(u16, u16),
    /// A commit of the unit of this serial.
    C(u16),
    /// A backout of the unit of this serial.
    B(u16),
}

use Step::{B, C, P};

/// A log of at most two blocks, and the two slots of its keypoints.
#[derive(Clone, Copy)]
struct Log {
    blocks: [[u8; 4096]; 2],
    keys: [u8; 128],
}

fn unit(serial: u16) -> UnitId
    ensures inc { result.inc ≡ 1 }
    ensures least { 1 ≤ result.serial }
    ensures most { result.serial < 2 ^ 32 }
{
    UnitId {
        inc: 1,
        serial: serial.max(1) as u32,
    }
}

fn record_of(step: Step) -> LogRec
    ensures { IsLogRecord result }
{
    match step {
        P(serial, rrn) => LogRec::Put {
            unit: unit(serial),
            rrn: rrn.max(1),
            before: [7; 32],
        },
        C(serial) => LogRec::Commit { unit: unit(serial) },
        B(serial) => LogRec::Backout { unit: unit(serial) },
    }
}

impl Log {
    fn write(&mut self, slot: u32, number: u32, step: Step) {
        let block = &mut self.blocks[(slot / 64 % 2) as usize];
        let at = (slot % 64 * 64) as usize;
        block[at] = 0xc1;
        block[at + 1..at + 64].copy_from_slice(&record_of(step).write(number));
    }

    fn write_key(&mut self, slot: u32, number: u32, start: u16) {
        let keypoint = Keypoint {
            number: number.max(1),
            start: start as u32,
        };
        let at = (slot % 2 * 64) as usize;
        self.keys[at] = 0xc1;
        self.keys[at + 1..at + 64].copy_from_slice(&keypoint.write());
    }
}

/// A log with these keypoints, written from record `first` on.
fn log_of(slots: u16, keys: &[(u32, u16)], first: u16, steps: &[Step]) -> Log
    requires slots { 1 ≤ slots }
    requires few { length steps.now ≤ 1024 }
{
    let mut log = Log {
        blocks: [[0; 4096]; 2],
        keys: [0; 128],
    };
    for (k, key) in keys.iter().enumerate() {
        log.write_key((k % 2) as u32, key.0, key.1);
    }
    for (k, step) in steps.iter().enumerate() {
        let number = first as u32 + k as u32;
        log.write(number % slots as u32, number, *step);
    }
    log
}

/// What a scan gives: the keypoint, the start, the next number, the serials in flight and the record
/// numbers of the undo rows, each list cut to three.
#[derive(Clone, Copy, PartialEq, Eq, Debug)]
struct Found {
    keypoint: u32,
    start: u32,
    next: u32,
    flight: [u32; 3],
    undo: [u16; 3],
}

fn summary_of(scan: &Scan) -> Found {
    let mut flight = [0; 3];
    for k in 0..scan.flight_count().min(3) {
        flight[k] = scan.flight(k).serial;
    }
    let mut undo = [0; 3];
    for k in 0..scan.undo_count().min(3) {
        undo[k] = scan.undo(k).rrn;
    }
    Found {
        keypoint: scan.keypoint(),
        start: scan.start(),
        next: scan.next(),
        flight,
        undo,
    }
}

/// Scans the log from its keypoints on. Gives the blocks that the scan asked for too, cut to four.
fn scan(alloc: Global, slots: u16, log: &Log) -> Result<(Found, [u32; 4]), Fail>
    requires least { 64 ≤ slots }
    requires most { slots ≤ 1024 }
    requires blocks { slots % 64 ≡ 0 }
{
    let limits = Limits {
        log: slots,
        ring: 16,
        file: 16,
    };
    let mut scan = Scan::new(alloc, &limits)?;
    scan.anchors(&log.keys);
    let mut asked = [9; 4];
    for turn in 0..4 {
        let block = scan.next_block();
        asked[turn] = block;
        match scan.take(&log.blocks[(block % 2) as usize]) {
            ScanNext::End => break,
            ScanNext::More => {}
        }
    }
    Ok((summary_of(&scan), asked))
}

#[test]
fn an_empty_log_ends_at_once(rt: HostRuntime) -> Result<(), Fail> {
    let (found, asked) = scan(rt.alloc(), 64, &log_of(64, &[], 0, &[]))?;
    let nothing = Found {
        keypoint: 0,
        start: 0,
        next: 0,
        flight: [0; 3],
        undo: [0; 3],
    };
    assert_eq!(rt; found, nothing);
    assert_eq!(rt; asked, [0, 9, 9, 9]);
    Ok(())
}

#[test]
fn what_no_unit_ended_is_undone_newest_first(rt: HostRuntime) -> Result<(), Fail> {
    let steps = [
        P(1, 11),
        P(2, 12),
        P(3, 13),
        P(1, 14),
        C(3),
        P(2, 15),
        B(1),
        P(1, 16),
    ];
    let (found, _) = scan(rt.alloc(), 64, &log_of(64, &[], 0, &steps))?;
    assert_eq!(rt; found.next, 8);
    assert_eq!(rt; found.flight, [2, 0, 0]);
    assert_eq!(rt; found.undo, [15, 12, 0]);
    let (found, _) = scan(rt.alloc(), 64, &log_of(64, &[], 0, &steps[..4]))?;
    assert_eq!(rt; found.flight, [1, 2, 3]);
    assert_eq!(rt; found.undo, [14, 13, 12]);
    Ok(())
}

#[test]
fn a_scan_ends_where_no_such_record_is_open(rt: HostRuntime) -> Result<(), Fail> {
    // another number stands in slot 2
    let mut other = log_of(64, &[], 0, &[P(1, 1), P(1, 2), P(1, 3), P(1, 4)]);
    other.write(2, 66, P(1, 3));
    // slot 2 is closed
    let mut closed = log_of(64, &[], 0, &[P(1, 1), P(1, 2), P(1, 3), P(1, 4)]);
    closed.blocks[0][128] = 0xc0;
    // slot 2 has no record
    let mut torn = log_of(64, &[], 0, &[P(1, 1), P(1, 2), P(1, 3), P(1, 4)]);
    torn.blocks[0][190] = 1;
    for log in [other, closed, torn] {
        let (found, asked) = scan(rt.alloc(), 64, &log)?;
        assert_eq!(rt; found.next, 2);
        assert_eq!(rt; asked, [0, 9, 9, 9]);
    }
    Ok(())
}

#[test]
fn a_scan_goes_round(rt: HostRuntime) -> Result<(), Fail> {
    // inside the one block
    let log = log_of(64, &[(3, 62)], 62, &[P(1, 1), P(1, 2), P(2, 3), C(1)]);
    let (found, asked) = scan(rt.alloc(), 64, &log)?;
    assert_eq!(rt; (found.keypoint, found.start, found.next), (3, 62, 66));
    assert_eq!(rt; found.undo, [3, 0, 0]);
    assert_eq!(rt; asked, [0, 0, 9, 9]);
    // across two blocks, from the second on
    let log = log_of(128, &[(3, 126)], 126, &[P(1, 1), P(1, 2), P(2, 3), C(1)]);
    let (found, asked) = scan(rt.alloc(), 128, &log)?;
    assert_eq!(rt; (found.start, found.next), (126, 130));
    assert_eq!(rt; asked, [0, 1, 0, 9]);
    Ok(())
}

#[test]
fn a_scan_ends_after_as_many_records_as_slots(rt: HostRuntime) -> Result<(), Fail> {
    let log = log_of(64, &[(1, 10)], 10, &[P(5, 9); 64]);
    let (found, asked) = scan(rt.alloc(), 64, &log)?;
    assert_eq!(rt; (found.start, found.next), (10, 74));
    assert_eq!(rt; found.flight, [5, 0, 0]);
    assert_eq!(rt; asked, [0, 0, 9, 9]);
    Ok(())
}

#[test]
fn the_greater_keypoint_is_in_force(rt: HostRuntime) -> Result<(), Fail> {
    let mut closed = log_of(64, &[(7, 5), (8, 6)], 0, &[]);
    closed.keys[64] = 0;
    for (log, keypoint, start) in [
        (log_of(64, &[(7, 5), (7, 6)], 0, &[]), 7, 5),
        (log_of(64, &[(7, 5), (8, 6)], 0, &[]), 8, 6),
        (log_of(64, &[(9, 5), (8, 6)], 0, &[]), 9, 5),
        (closed, 7, 5),
    ] {
        let (found, _) = scan(rt.alloc(), 64, &log)?;
        assert_eq!(rt; (found.keypoint, found.start), (keypoint, start));
    }
    Ok(())
}

#[test]
fn room_is_for_a_record_and_the_ends(rt: HostRuntime) {
    assert!(rt; room(70, 10, 3, 64));
    assert!(rt; !room(70, 10, 4, 64));
}
