ghost use Rattle.std.specs.Prelude.{◌≡◌, ◌+◌, ◌<◌, ◌≤◌, length, IfOk};
ghost use Rattle.xrf_file.specs.Ledger.{IsUnitItem};

use crate::{Plan, Units};
use std::alloc::Global;
use std::process::Abort;
use std::test::Fail;
use xrf_base::{Item, ItemAnswer, Limits, Name8, Value};

/// An item on the unit of a number, and a record number.
#[derive(Clone, Copy, Debug)]
enum Word {
    Begin(u8),
    Put(u8, u16),
    Get(u8, u16),
    Commit(u8),
    Roll(u8),
}

/// What an item is answered, or that its record is read.
#[derive(Clone, Copy, PartialEq, Eq, Debug)]
enum Told {
    Done,
    Read,
    Locked,
    LogFull,
    NotOpen,
    NameUsed,
    UnitsFull,
    BadRrn,
    Else,
}

use Told::{BadRrn, Done, Locked, LogFull, NameUsed, NotOpen, Read, UnitsFull};
use Word::{Begin, Commit, Get, Put, Roll};

fn name_of(rt: &impl Abort, number: u8) -> Name8 {
    Name8::read(&[b'U', b'0' + number % 10]).expect(rt, "a name")
}

fn item_of(rt: &impl Abort, word: Word) -> Item
    ensures { IsUnitItem result }
{
    match word {
        Begin(number) => Item::Begin(name_of(rt, number)),
        Put(number, rrn) => {
            let value = Value::read(b"V").expect(rt, "a value");
            Item::Put(name_of(rt, number), rrn, value)
        }
        Get(number, rrn) => Item::Get(name_of(rt, number), rrn),
        Commit(number) => Item::Commit(name_of(rt, number)),
        Roll(number) => Item::Roll(name_of(rt, number)),
    }
}

fn answer_told(answer: ItemAnswer) -> Told {
    match answer {
        ItemAnswer::Done => Done,
        ItemAnswer::Locked => Locked,
        ItemAnswer::LogFull => LogFull,
        ItemAnswer::NotOpen => NotOpen,
        ItemAnswer::NameUsed => NameUsed,
        ItemAnswer::UnitsFull => UnitsFull,
        ItemAnswer::BadRrn => BadRrn,
        _ => Told::Else,
    }
}

/// Plans an item, and logs at once what it plans to log.
fn run(units: &mut Units, item: &Item) -> Told
    requires item { IsUnitItem item.now }
    requires begun { units.old.begun < 65536 }
    requires next { units.old.next < 65535 }
    ensures begun { units.new.begun ≤ units.old.begun + 1 }
    ensures next { units.new.next ≤ units.old.next + 1 }
{
    match units.plan(item) {
        Plan::Answer(answer) => answer_told(answer),
        Plan::Get { .. } => Read,
        Plan::Put {
            unit,
            rrn,
            place,
            ..
        } => {
            units.put_logged(unit, rrn, [(place % 256) as u8; 32]);
            Done
        }
        Plan::Commit { unit, .. } => {
            units.ended(unit);
            Done
        }
        Plan::Roll { unit, .. } => {
            units.ended(unit);
            Done
        }
    }
}

/// Runs the items of a table, and finds each answered so.
fn run_all(rt: &impl Abort, units: &mut Units, table: &[(Word, Told)])
    requires begun { units.old.begun + length table.now ≤ 65536 }
    requires next { units.old.next + length table.now ≤ 65535 }
    ensures begun { units.new.begun ≤ units.old.begun + length table.now }
    ensures next { units.new.next ≤ units.old.next + length table.now }
{
    for row in table {
        let (word, wanted) = *row;
        let item = item_of(rt, word);
        let answer = run(units, &item);
        assert!(rt; answer == wanted, "{word:?}");
    }
}

/// The units of incarnation 3 with this log and 4 records, from log record 5 on.
fn units_of(alloc: Global, log: u16) -> Result<Units, Fail>
    requires { log ≡ 64 }
    ensures begun { IfOk result (λ units. units.begun ≡ 0) }
    ensures next { IfOk result (λ units. units.next ≡ 5) }
{
    let mut units = Units::new(
        alloc,
        &Limits {
            log,
            ring: 16,
            file: 4,
        },
    )?;
    units.start(3, 5, 5);
    Ok(units)
}

#[test]
fn items_are_answered_by_the_table(rt: HostRuntime) -> Result<(), Fail> {
    let mut units = units_of(rt.alloc(), 64)?;
    let table = [
        (Put(1, 1), NotOpen),
        (Get(1, 0), NotOpen),
        (Commit(1), NotOpen),
        (Roll(1), NotOpen),
        (Begin(1), Done),
        (Begin(1), NameUsed),
        (Begin(2), Done),
        (Put(1, 0), BadRrn),
        (Put(1, 5), BadRrn),
        (Get(1, 5), BadRrn),
        (Get(2, 4), Read),
        (Put(1, 4), Done),
        (Put(1, 4), Done),
        (Get(1, 4), Read),
        (Get(2, 4), Locked),
        (Put(2, 4), Locked),
        (Put(2, 3), Done),
        (Roll(1), Done),
        (Put(2, 4), Done),
        (Commit(2), Done),
        (Commit(2), NotOpen),
    ];
    run_all(&rt, &mut units, &table);
    assert_eq!(rt; units.next(), 11);
    assert_eq!(rt; units.oldest(), 11);
    Ok(())
}

#[test]
fn eight_units_are_open_at_most(rt: HostRuntime) -> Result<(), Fail> {
    let mut units = units_of(rt.alloc(), 64)?;
    let table = [
        (Begin(1), Done),
        (Begin(2), Done),
        (Begin(3), Done),
        (Begin(4), Done),
        (Begin(5), Done),
        (Begin(6), Done),
        (Begin(7), Done),
        (Begin(8), Done),
        (Begin(8), NameUsed),
        (Begin(9), UnitsFull),
        (Commit(3), Done),
        (Begin(9), Done),
    ];
    run_all(&rt, &mut units, &table);
    assert_eq!(rt; units.next(), 5);
    Ok(())
}

#[test]
fn a_full_log_takes_no_put(rt: HostRuntime) -> Result<(), Fail> {
    let mut units = units_of(rt.alloc(), 64)?;
    run_all(
        &rt,
        &mut units,
        &[(Begin(1), Done), (Begin(2), Done), (Put(1, 1), Done)],
    );
    run_all(&rt, &mut units, &[(Put(1, 2), Done); 61]);
    // 62 records stand, and the end of unit 1 is to come
    run_all(
        &rt,
        &mut units,
        &[
            (Put(2, 3), LogFull),
            (Put(1, 2), Done),
            (Put(1, 2), LogFull),
        ],
    );
    assert_eq!(rt; units.oldest(), 5);
    run_all(&rt, &mut units, &[(Commit(1), Done), (Put(2, 3), LogFull)]);
    // what unit 1 put is not needed any more
    let oldest = units.oldest();
    assert_eq!(rt; oldest, 69);
    units.keyed(oldest);
    run_all(&rt, &mut units, &[(Put(2, 3), Done)]);
    assert_eq!(rt; (units.next(), units.oldest()), (70, 69));
    Ok(())
}

#[test]
fn a_unit_is_undone_newest_first(rt: HostRuntime) -> Result<(), Fail> {
    let mut units = units_of(rt.alloc(), 64)?;
    run_all(
        &rt,
        &mut units,
        &[
            (Begin(1), Done),
            (Begin(2), Done),
            (Put(1, 1), Done),
            (Put(2, 2), Done),
            (Put(1, 3), Done),
        ],
    );
    let item = item_of(&rt, Roll(1));
    let Plan::Roll { unit, place } = units.plan(&item) else {
        return Err("no roll".into());
    };
    assert_eq!(rt; (unit.inc, unit.serial, place), (3, 1, 8));
    assert_eq!(rt; units.undo_count(unit), 2);
    let (newest, oldest) = (units.undo(unit, 0), units.undo(unit, 1));
    assert_eq!(rt; (newest.rrn, newest.before[0]), (3, 7));
    assert_eq!(rt; (oldest.rrn, oldest.before[31]), (1, 5));
    units.ended(unit);
    assert_eq!(rt; units.oldest(), 6);
    Ok(())
}
