// The ends in memory, which tell every byte.
ghost use Rattle.std.specs.Prelude.{◌≡◌, ◌≤◌, ◌<◌, ◌↔◌, length, take, drop, min, Some, IfOk, OnErr, IsErr};
ghost use Rattle.std.specs.Io.KnownBytes.{ReadConsumes, WriteAppends};
ghost use Rattle.xrf_edge.specs.Faults.{HasRisen, NextFails, after_call, after_fault};

use crate::faults::FaultSchedule;
use crate::{Failed, Sink, Source};
use std::alloc::{AllocError, Global};
use std::marker::Model;

/// A source in memory. It gives at most `piece` bytes at a call, and fails at stated calls.
#[derive(Drop)]
pub struct MemSource {
    bytes: Vec<u8>,
    taken: usize,
    piece: usize,
    schedule: FaultSchedule,
}

impl Model for MemSource {
    ghost use Rattle.std.specs.Prelude.{◌≤◌, ◌<◌, length, drop};
    ghost use Rattle.xrf_edge.specs.Memory.{Supply};

    ghost Value = { Supply };

    ghost view = { λ s. record { left = drop s.taken s.bytes.items; piece = s.piece; schedule = s.schedule } };

    ghost invariant = { λ s. (s.taken ≤ length s.bytes.items) × (0 < s.piece) };
}

impl MemSource {
    ghost use Rattle.xrf_edge.specs.Memory.{new_supply};

    /// A source of these bytes. The calls with these numbers, counted from 1, fail.
    pub fn new(bytes: Vec<u8>, piece: usize, fails: Vec<u32>) -> Self
        requires { 0 < piece }
        ensures { result ≡ new_supply bytes.items piece fails.items }
    {
        MemSource {
            bytes,
            taken: 0,
            piece,
            schedule: FaultSchedule::new(fails),
        }
    }
}

impl Source for MemSource {
    ghost use Rattle.xrf_edge.specs.Memory.{supply_count, after_read};

    ghost end = { λ s. record { bytes = Some s.left; faults = s.schedule.faults } };

    fn read(&mut self, into: &mut [u8]) -> Result<usize, Failed>
        ensures failed { IsErr result ↔ NextFails self.old.schedule }
        ensures taken { IfOk result (λ n. n ≡ supply_count self.old (length into.old)) }
        ensures front { IfOk result (λ n. take n into.new ≡ take n self.old.left) }
        ensures behind { IfOk result (λ n. drop n into.new ≡ drop n into.old) }
        ensures ok { IfOk result (λ n. self.new ≡ after_read self.old n) }
        ensures err { OnErr result (self.new ≡ record self.old { schedule = after_fault (after_call self.old.schedule) }) }

        // As for every source.
        ensures within { IfOk result (λ n. n ≤ length into.new) }
        ensures bytes { ReadConsumes (Some self.old.left) (Some self.new.left) result into.new }
        ensures cause { OnErr result (HasRisen self.old.schedule.faults self.new.schedule.faults) }
        ensures count { self.old.schedule.faults ≤ self.new.schedule.faults }
    {
        if self.schedule.call() {
            self.schedule.fail();
            return Err(Failed);
        }
        let n = copy_piece(&self.bytes[self.taken..], into, self.piece);
        self.taken += n;
        Ok(n)
    }
}

/// Copies the first bytes, at most `piece`, and says how many.
fn copy_piece(from: &[u8], into: &mut [u8], piece: usize) -> usize
    ensures count { result ≡ min piece (min (length into.old) (length from.now)) }
    ensures front { take result into.new ≡ take result from.now }
    ensures behind { drop result into.new ≡ drop result into.old }
{
    let n = piece.min(into.len()).min(from.len());
    into[..n].copy_from_slice(&from[..n]);
    n
}

/// A sink in memory. It holds at most `room` bytes, takes at most `piece` of them at a call, and
/// fails at stated calls and where it is full.
#[derive(Drop)]
pub struct MemSink {
    held: Vec<u8>,
    room: usize,
    piece: usize,
    schedule: FaultSchedule,
}

impl Model for MemSink {
    ghost use Rattle.std.specs.Prelude.{◌≤◌, ◌<◌, length, vec_capacity};
    ghost use Rattle.xrf_edge.specs.Memory.{Store};

    ghost Value = { Store };

    ghost view = { λ s. record { held = s.held.items; room = s.room; piece = s.piece; schedule = s.schedule } };

    ghost invariant = { λ s. (length s.held.items ≤ s.room) × (s.room ≤ vec_capacity s.held) × (0 < s.piece) };
}

impl MemSink {
    ghost use Rattle.xrf_edge.specs.Memory.{new_store};

    /// An empty sink. It reserves its room now, and takes no memory later. The calls with these
    /// numbers, counted from 1, fail.
    pub fn new(
        alloc: Global,
        room: usize,
        piece: usize,
        fails: Vec<u32>,
    ) -> Result<Self, AllocError>
        requires { 0 < piece }
        ensures { IfOk result (λ sink. sink ≡ new_store room piece fails.items) }
    {
        let held = Vec::with_capacity(alloc, room)?;
        Ok(MemSink {
            held,
            room,
            piece,
            schedule: FaultSchedule::new(fails),
        })
    }

    /// The bytes that writes have appended.
    pub fn held(&self) -> &[u8]
        ensures held { result.now ≡ self.now.held }
        ensures room { length result.now ≤ self.now.room }
    {
        &self.held
    }
}

impl Sink for MemSink {
    ghost use Rattle.xrf_edge.specs.Memory.{store_count, after_write, WriteFails};

    ghost end = { λ s. record { bytes = Some s.held; faults = s.schedule.faults } };

    fn write(&mut self, from: &[u8]) -> Result<usize, Failed>
        ensures failed { IsErr result ↔ WriteFails self.old from.now }
        ensures taken { IfOk result (λ n. n ≡ store_count self.old (length from.now)) }
        ensures ok { IfOk result (λ n. self.new ≡ after_write self.old (take n from.now)) }
        ensures err { OnErr result (self.new ≡ record self.old { schedule = after_fault (after_call self.old.schedule) }) }

        // As for every sink.
        ensures within { IfOk result (λ n. n ≤ length from.now) }
        ensures goes_on { IfOk result (λ n. 0 < length from.now → 0 < n) }
        ensures bytes { WriteAppends (Some self.old.held) (Some self.new.held) result from.now }
        ensures cause { OnErr result (HasRisen self.old.schedule.faults self.new.schedule.faults) }
        ensures count { self.old.schedule.faults ≤ self.new.schedule.faults }
    {
        let left = self.room - self.held.len();
        if self.schedule.call() || (left == 0 && !from.is_empty()) {
            self.schedule.fail();
            return Err(Failed);
        }
        let n = self.piece.min(from.len()).min(left);
        self.held.extend_from_slice(&from[..n]).unwrap();
        Ok(n)
    }
}
