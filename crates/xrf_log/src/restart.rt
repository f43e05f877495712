ghost use Rattle.std.specs.Prelude.{◌≡◌, ℕ, ◌+◌, ◌<◌, ◌≤◌, Bool, true, false, Some, if◌then◌else◌, length, slice_get, IfOk};
ghost use Rattle.xrf_log.specs.Flight.{flight, undo_rows};
ghost use Rattle.xrf_log.specs.Scan.{Scanned, cleared, next_of, block_of_record, place_of_record, reach_of, after_anchors, after_block, has_room};

use crate::reading::{anchor_in, read_run};
use crate::taken::Taken;
use std::alloc::{AllocError, Global};
use std::marker::Model;
use xrf_base::{Limits, UnitId};
use xrf_logrec::{Keypoint, Undo};

/// Whether a scan goes on.
#[derive(Clone, Copy, PartialEq, Eq, Debug)]
pub enum ScanNext {
    /// The block `next_block` is to be handed.
    More,
    /// The scan has ended.
    End,
}

/// A scan of the log. It is handed both slots of the keypoints, and then blocks of the log, each of
/// 64 slots: block 0 first, and then always block `next_block`. Its value is what it took.
#[derive(Drop)]
pub struct Scan {
    taken: Taken,
    slots: u32,
    anchor: Keypoint,
    block: u32,
    ended: bool,
}

impl Model for Scan {
    ghost use Rattle.xrf_log.specs.Scan.{Scanned};

    ghost Value = { Scanned };

    ghost use Rattle.xrf_log.specs.Scanning.{scanned_by, IsScanning};

    ghost view = { scanned_by };

    ghost invariant = { IsScanning };
}

// the block in which record `number` stands
fn block_of(slots: u32, number: u32) -> u32
    requires { 0 < slots }
    ensures { result ≡ block_of_record slots number }
{
    number % slots / 64
}

// the place of record `number` in its block
fn place_of(slots: u32, number: u32) -> u32
    requires { 0 < slots }
    ensures place { result ≡ place_of_record slots number }
    ensures within { result < 64 }
{
    number % slots % 64
}

impl Scan {
    ghost use Rattle.xrf_base.specs.Ranges.{AreLimits};

    /// A scan of a log of `limits.log` slots, with nothing taken.
    pub fn new(alloc: Global, limits: &Limits) -> Result<Scan, AllocError>
        requires { AreLimits limits.now }
        ensures { IfOk result (λ scan. scan ≡ cleared limits.now.log) }
    {
        let taken = Taken::new(alloc, limits.log as usize)?;
        Ok(Scan {
            taken,
            slots: limits.log as u32,
            anchor: Keypoint {
                number: 0,
                start: 0,
            },
            block: 0,
            ended: false,
        })
    }

    /// Begins again, with nothing taken.
    pub fn clear(&mut self)
        ensures { self.new ≡ cleared self.old.slots }
    {
        self.taken.clear();
        self.anchor = Keypoint {
            number: 0,
            start: 0,
        };
        self.block = 0;
        self.ended = false;
    }

    /// Is handed both slots of the keypoints, before any block.
    pub fn anchors(&mut self, both: &[u8; 128])
        ensures { self.new ≡ after_anchors self.old both.now }
    {
        self.anchor = anchor_in(both);
    }

    /// Is handed the block that is next, and takes its records.
    pub fn take(&mut self, block: &[u8; 4096]) -> ScanNext
        requires { self.old.ended ≡ false }
        ensures after { self.new ≡ after_block self.old block.now }
        ensures next { result ≡ if self.new.ended then ScanNext.End else ScanNext.More }
        ensures more { result ≡ ScanNext.More → self.new.ended ≡ false }
    {
        let reach = self.reach();
        let before = self.taken.count();
        let next = self.next();
        read_run(
            &mut self.taken,
            block,
            place_of(self.slots, next) as usize,
            reach,
            next,
        );
        let after = self.taken.count();
        self.block = block_of(self.slots, self.next());
        self.ended = after < before + reach || self.slots as usize <= after;
        if self.ended {
            ScanNext::End
        } else {
            ScanNext::More
        }
    }

    // how many slots of the next block are reached
    fn reach(&self) -> usize
        ensures { result ≡ reach_of self.now }
    {
        let next = self.next();
        if block_of(self.slots, next) == self.block {
            let behind = 64 - place_of(self.slots, next);
            let left = self.slots as usize - self.taken.count();
            left.min(behind as usize)
        } else {
            0
        }
    }

    /// The block that is to be handed next.
    pub fn next_block(&self) -> u32
        ensures { result ≡ self.now.block }
    {
        self.block
    }

    /// The start of the anchor in force: the number of the first record scanned.
    pub fn start(&self) -> u32
        ensures start { result ≡ self.now.anchor.start }
        ensures most { result ≤ 65535 }
    {
        self.anchor.start
    }

    /// The number behind the last record taken.
    pub fn next(&self) -> u32
        ensures next { result ≡ next_of self.now }
        ensures few { result ≤ self.now.anchor.start + self.now.slots }
    {
        self.anchor.start + self.taken.count() as u32
    }

    /// The number of the anchor in force, 0 where there is none.
    pub fn keypoint(&self) -> u32
        ensures { result ≡ self.now.anchor.number }
    {
        self.anchor.number
    }

    /// How many units are in flight.
    pub fn flight_count(&self) -> usize
        ensures { result ≡ length (flight self.now.records) }
    {
        self.taken.unit_count()
    }

    /// Unit `k` in flight, in the order of first put.
    pub fn flight(&self, k: usize) -> UnitId
        requires { k < length (flight self.now.records) }
        ensures { slice_get (flight self.now.records) k ≡ Some result }
    {
        self.taken.unit(k)
    }

    /// How many undo rows there are.
    pub fn undo_count(&self) -> usize
        ensures { result ≡ length (undo_rows self.now.records) }
    {
        self.taken.undo_count()
    }

    /// Undo row `k` of the units in flight, the newest put first.
    pub fn undo(&self, k: usize) -> Undo
        requires { k < length (undo_rows self.now.records) }
        ensures { slice_get (undo_rows self.now.records) k ≡ Some result }
    {
        self.taken.undo(k)
    }
}

/// Whether a log of `slots` slots has room for one more record and the ends of `hot` units, where
/// its records from number `start` to below number `next` are still needed.
pub fn room(next: u32, start: u32, hot: u32, slots: u32) -> bool
    requires order { start ≤ next }
    requires next { next < 65536 }
    requires hot { hot < 65536 }
    requires slots { slots < 65536 }
    ensures { result ≡ has_room next start hot slots }
{
    next - start + hot + 1 <= slots
}
