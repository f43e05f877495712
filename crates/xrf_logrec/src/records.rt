ghost use Rattle.std.specs.Prelude.{◌≡◌, ℕ, ◌++◌, drop, replicate, nat_eq, Some, IfSome};
ghost use Rattle.std.specs.Cmp.Lexicographic.{pointwise};
ghost use Rattle.byteorder.specs.Endian.{big_number};
ghost use Rattle.xrf_logrec.specs.declared.records.LogRec.{LogRec};
ghost use Rattle.xrf_logrec.specs.LogRecords.{unit_of, is_unit_id, is_log_record, IsLogRecord, head_of, spelling, LogIs, unit_in, before_image, fields_of, log_reading};

use byteorder::{BigEndian, ByteOrder};
use xrf_base::{UnitId, is_zero_from};
use xrf_gated::BodyRule;

/// A record of the unit log. Incarnation, serial and record number are at least 1.
#[derive(Clone, Copy, PartialEq, Eq)]
pub enum LogRec {
    /// A unit puts a record of the file, whose slot had these bytes before.
    Put {
        unit: UnitId,
        rrn: u16,
        before: [u8; 32],
    },
    /// What the unit put stands.
    Commit {
        unit: UnitId,
    },
    /// What the unit put is undone.
    Backout {
        unit: UnitId,
    },
}

/// What undoes one put: the record number, and the bytes that go back to its slot.
#[derive(Clone, Copy, PartialEq, Eq)]
pub struct Undo {
    pub rrn: u16,
    pub before: [u8; 32],
}

impl LogRec {
    /// The unit that the record is of.
    pub fn unit(&self) -> UnitId
        ensures { result ≡ unit_of self.now }
    {
        match self {
            LogRec::Put { unit, .. } => *unit,
            LogRec::Commit { unit } => *unit,
            LogRec::Backout { unit } => *unit,
        }
    }

    /// The body of a log slot that holds this record as record number `place` of the log.
    pub fn write(&self, place: u32) -> [u8; 63]
        requires { IsLogRecord self.now }
        ensures { LogIs result place self.now }
    {
        self.spelled(place)
    }

    /// The place and the record that a body spells, or none where it spells none.
    pub fn read(body: &[u8; 63]) -> Option<(u32, LogRec)>
        ensures exact { result ≡ log_reading body.now }
        ensures found { IfSome result (λ found. LogIs body.now found.0 found.1) }
        ensures only { (place : ℕ) (rec : LogRec) → LogIs body.now place rec → result ≡ Some (place, rec) }
    {
        let place = BigEndian::read_u32(&body[1..]);
        let rec = fields_in(body)?;
        if rec.is_in_range() && rec.is_alone_in(body) {
            Some((place, rec))
        } else {
            None
        }
    }

    // whether a body that has this record's fields has nothing behind them
    fn is_alone_in(&self, body: &[u8; 63]) -> bool
        requires { fields_of body.now ≡ Some self.now }
        ensures { result ≡ pointwise nat_eq (spelling (big_number 4 (drop 1 body.now)) self.now) body.now }
    {
        match self {
            LogRec::Put { .. } => is_zero_from(body, 47),
            LogRec::Commit { .. } => is_zero_from(body, 13),
            LogRec::Backout { .. } => is_zero_from(body, 13),
        }
    }

    fn spelled(&self, place: u32) -> [u8; 63]
        ensures { result ≡ spelling place self.now }
    {
        match self {
            LogRec::Put { unit, rrn, before } => {
                let mut body = head(1, place, *unit);
                BigEndian::write_u16(&mut body[13..], *rrn);
                body[15..47].copy_from_slice(before);
                body
            }
            LogRec::Commit { unit } => head(2, place, *unit),
            LogRec::Backout { unit } => head(3, place, *unit),
        }
    }

    fn is_in_range(&self) -> bool
        ensures { result ≡ is_log_record self.now }
    {
        match self {
            LogRec::Put { unit, rrn, .. } => is_unit(*unit) && *rrn >= 1,
            LogRec::Commit { unit } => is_unit(*unit),
            LogRec::Backout { unit } => is_unit(*unit),
        }
    }
}

fn is_unit(unit: UnitId) -> bool
    ensures { result ≡ is_unit_id unit }
{
    unit.inc >= 1 && unit.serial >= 1
}

// a body with the fields that each kind has, and zero else
fn head(kind: u8, place: u32, unit: UnitId) -> [u8; 63]
    ensures { result ≡ head_of kind place unit ++ replicate 50 0 }
{
    let mut body = [0; 63];
    body[0] = kind;
    BigEndian::write_u32(&mut body[1..], place);
    BigEndian::write_u32(&mut body[5..], unit.inc);
    BigEndian::write_u32(&mut body[9..], unit.serial);
    body
}

fn unit_at(body: &[u8; 63]) -> UnitId
    ensures { result ≡ unit_in body.now }
{
    UnitId {
        inc: BigEndian::read_u32(&body[5..]),
        serial: BigEndian::read_u32(&body[9..]),
    }
}

fn before_in(body: &[u8; 63]) -> [u8; 32]
    ensures { result ≡ before_image body.now }
{
    let mut before = [0; 32];
    before.copy_from_slice(&body[15..47]);
    before
}

// the record of the fields, if the kind is one of a record
fn fields_in(body: &[u8; 63]) -> Option<LogRec>
    ensures { result ≡ fields_of body.now }
{
    match body[0] {
        1 => Some(LogRec::Put {
            unit: unit_at(body),
            rrn: BigEndian::read_u16(&body[13..]),
            before: before_in(body),
        }),
        2 => Some(LogRec::Commit {
            unit: unit_at(body),
        }),
        3 => Some(LogRec::Backout {
            unit: unit_at(body),
        }),
        _ => None,
    }
}

/// The rule of the log's slots: a body is whole where it spells a record.
#[derive(Drop)]
pub struct LogBody;

impl BodyRule for LogBody {
    ghost use Rattle.std.specs.Prelude.{is_some};
    ghost use Rattle.xrf_logrec.specs.LogRecords.{log_reading};

    ghost is_whole = { λ body. is_some (log_reading body) };

    fn whole(body: &[u8; 63]) -> bool {
        LogRec::read(body).is_some()
    }
}
