ghost use Rattle.std.specs.Prelude.{◌≡◌, ◌<◌, not, filter, length, reverse, slice_get, Some, vec_capacity};
ghost use Rattle.xrf_logrec.specs.LogRecords.{same_unit};
ghost use Rattle.xrf_file.specs.Rows.{unit_named, is_hot, is_locked, hot_with, without_unit, without_puts, undo_of};

use xrf_base::{Name8, UnitId};
use xrf_logrec::Undo;

/// An open unit, and the name that its job gave it.
#[derive(Clone, Copy)]
pub struct OpenUnit {
    pub name: Name8,
    pub unit: UnitId,
}

/// A put that stands in the log: its unit, the number of its record, and what undoes it.
#[derive(Clone, Copy)]
pub struct LoggedPut {
    pub unit: UnitId,
    pub number: u32,
    pub undo: Undo,
}

fn is_same(a: UnitId, b: UnitId) -> bool
    ensures { result ≡ same_unit a b }
{
    a == b
}

/// The open unit of this name.
pub fn find_unit(units: &[OpenUnit], name: Name8) -> Option<UnitId>
    ensures { result ≡ unit_named name units.now }
{
    for open in units {
        if open.name == name {
            return Some(open.unit);
        }
    }
    None
}

fn any_put(puts: &[LoggedPut], unit: UnitId) -> bool
    ensures { result ≡ is_hot unit puts.now }
{
    puts.iter().any(|put| is_same(put.unit, unit))
}

fn any_lock(puts: &[LoggedPut], unit: UnitId, rrn: u16) -> bool
    ensures { result ≡ is_locked unit rrn puts.now }
{
    puts.iter()
        .any(|put| put.undo.rrn == rrn && !is_same(put.unit, unit))
}

fn count_puts(puts: &[LoggedPut], unit: UnitId) -> usize
    ensures { result ≡ length (filter (λ put. same_unit put.unit unit) puts.now) }
{
    puts.iter().filter(|put| is_same(put.unit, unit)).count()
}

/// Whether the unit has a put. Here and below the puts are given oldest first, and the words of
/// contracts have them newest first.
pub fn has_put(puts: &[LoggedPut], unit: UnitId) -> bool
    ensures { result ≡ is_hot unit (reverse puts.now) }
{
    any_put(puts, unit)
}

/// Whether another unit has put this record.
pub fn locks(puts: &[LoggedPut], unit: UnitId, rrn: u16) -> bool
    ensures { result ≡ is_locked unit rrn (reverse puts.now) }
{
    any_lock(puts, unit, rrn)
}

/// How many units have a put, with this one.
pub fn count_hot(units: &[OpenUnit], puts: &[LoggedPut], unit: UnitId) -> usize
    ensures { result ≡ hot_with unit units.now (reverse puts.now) }
{
    units
        .iter()
        .filter(|open| is_same(open.unit, unit) || has_put(puts, open.unit))
        .count()
}

/// Takes a unit out of the open ones.
pub fn remove_unit(units: &mut Vec<OpenUnit>, unit: UnitId)
    ensures items { units.new.items ≡ without_unit unit units.old.items }
    ensures capacity { vec_capacity units.new ≡ vec_capacity units.old }
{
    units.retain(|open| !is_same(open.unit, unit));
}

/// Takes a unit's puts out.
pub fn remove_puts(puts: &mut Vec<LoggedPut>, unit: UnitId)
    ensures items { reverse puts.new.items ≡ without_puts unit (reverse puts.old.items) }
    ensures capacity { vec_capacity puts.new ≡ vec_capacity puts.old }
{
    puts.retain(|put| !is_same(put.unit, unit));
}

/// How many puts the unit has.
pub fn count_undo(puts: &[LoggedPut], unit: UnitId) -> usize
    ensures { result ≡ length (undo_of unit (reverse puts.now)) }
{
    count_puts(puts, unit)
}

/// What undoes put `k` of the unit, the newest first.
pub fn nth_undo(puts: &[LoggedPut], unit: UnitId, k: usize) -> Undo
    requires { k < length (undo_of unit (reverse puts.now)) }
    ensures { slice_get (undo_of unit (reverse puts.now)) k ≡ Some result }
{
    let mut left = k;
    for i in 0..puts.len() {
        let put = &puts[puts.len() - 1 - i];
        if is_same(put.unit, unit) {
            if left == 0 {
                return put.undo;
            }
            left -= 1;
        }
    }
    unreachable!()
}
