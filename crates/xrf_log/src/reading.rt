ghost use Rattle.std.specs.Prelude.{◌≡◌, ◌+◌, ◌*◌, ◌^◌, ◌<◌, ◌≤◌, Some, None, IfSome, if◌then◌else◌, length};
ghost use Rattle.xrf_gated.specs.Slots.{slot_in, is_open};
ghost use Rattle.xrf_log.specs.Scan.{keypoint_at, in_force, anchor_of, record_at, run_of};

use crate::taken::Taken;
use xrf_gated::OPEN;
use xrf_logrec::{Keypoint, LogRec};

// the body of slot `k` of consecutive slots, if it is open
fn open_body(slots: &[u8], k: usize) -> Option<[u8; 63]>
    requires { 64 * k + 64 ≤ length slots.now }
    ensures { result ≡ if is_open (slot_in slots.now k) then Some (slot_in slots.now k).body else None }
{
    if slots[64 * k] != OPEN {
        return None;
    }
    let mut body = [0; 63];
    body.copy_from_slice(&slots[64 * k + 1..64 * k + 64]);
    Some(body)
}

// the keypoint in slot `k`
fn keypoint_in(both: &[u8; 128], k: usize) -> Option<Keypoint>
    requires { k < 2 }
    ensures keypoint { result ≡ keypoint_at (slot_in both.now k) }
    ensures start { IfSome result (λ keypoint. keypoint.start ≤ 65535) }
{
    let body = open_body(both, k)?;
    Keypoint::read(&body)
}

fn greater(first: Option<Keypoint>, second: Option<Keypoint>) -> Keypoint
    requires first { IfSome first (λ keypoint. keypoint.start ≤ 65535) }
    requires second { IfSome second (λ keypoint. keypoint.start ≤ 65535) }
    ensures keypoint { result ≡ in_force first second }
    ensures start { result.start ≤ 65535 }
{
    match (first, second) {
        (Some(a), Some(b)) => { if a.number < b.number { b } else { a } }
        (Some(a), None) => a,
        (None, Some(b)) => b,
        (None, None) => Keypoint {
            number: 0,
            start: 0,
        },
    }
}

/// The anchor that the two slots of the keypoints give.
pub fn anchor_in(both: &[u8; 128]) -> Keypoint
    ensures anchor { result ≡ anchor_of both.now }
    ensures start { result.start ≤ 65535 }
{
    greater(keypoint_in(both, 0), keypoint_in(both, 1))
}

// record `number` of the log, if slot `k` of the block is open and its body spells that record
fn record_in(block: &[u8; 4096], k: usize, number: u32) -> Option<LogRec>
    requires { k < 64 }
    ensures { result ≡ record_at (slot_in block.now k) number }
{
    let body = open_body(block, k)?;
    let (place, rec) = LogRec::read(&body)?;
    if place == number { Some(rec) } else { None }
}

/// Takes the records of consecutive slots, `reach` of them from slot `place` on, as long as each is
/// the record of the next number.
pub fn read_run(taken: &mut Taken, block: &[u8; 4096], place: usize, reach: usize, next: u32)
    requires room { length taken.old.list + reach ≤ taken.old.most }
    requires slots { place + reach ≤ 64 }
    requires numbers { next + reach < 2 ^ 32 }
    ensures most { taken.new.most ≡ taken.old.most }
    ensures list { taken.new.list ≡ run_of (slot_in block.now) reach place next taken.old.list }
    ensures few { length taken.new.list ≤ length taken.old.list + reach }
{
    for i in 0..reach {
        match record_in(block, place + i, next + i as u32) {
            Some(rec) => taken.push(rec),
            None => return,
        }
    }
}
