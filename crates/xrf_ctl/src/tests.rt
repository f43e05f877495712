ghost use Rattle.std.specs.Prelude.{◌≡◌, Ok, Some};

use super::*;
use std::test::Fail;
use xrf_base::Site;

fn owner(inc: u32, site: Site) -> Option<Owner> {
    Some(Owner {
        inc,
        site,
        state: OwnerState::Running,
    })
}

// The first 32 bytes of the empty record, and of the record after A has signed on as 1.
const EMPTY: [u8; 32] = [
    0x58, 0x43, 0x54, 0x4c, 0, 1, 0, 0, 0, 0, 0, 0, 0, 0, 0, 0, 0, 0, 0, 0, 0, 0, 0, 0, 0, 0, 0, 0,
    0, 0, 0, 0,
];

const SIGNED_ON: [u8; 32] = [
    0x58, 0x43, 0x54, 0x4c, 0, 1, 0, 0, 0, 0, 0, 1, 1, 0, 0, 0, 0, 0, 0, 1, 0, 0, 0, 0, 0, 0, 0, 0,
    0, 0, 0, 0,
];

#[test]
fn the_empty_record_has_its_bytes(rt: HostRuntime) {
    let bytes = Control::empty().write();
    assert_eq!(rt; &bytes[..32], EMPTY.as_slice());
    assert!(rt; bytes[32..].iter().all(|b| *b == 0));
}

#[test]
fn the_record_of_a_running_owner_has_its_bytes(rt: HostRuntime) -> Result<(), Fail> {
    let control = Control::make(1, 1, owner(1, Site::A), None, None).ok_or("the rule is kept")?;
    assert_eq!(rt; &control.write()[..32], SIGNED_ON.as_slice());
    Ok(())
}

// Each record is read as it was written, and so is each signal.
fn read_again(control: &Control) -> Result<Control, CtlFault>
    ensures { result ≡ Ok control.now }
{
    Control::read(&control.write())
}

fn signal_read_again(signal: &Signal) -> Option<Signal>
    ensures { result ≡ Some signal.now }
{
    Signal::read(&signal.write())
}

#[test]
fn a_full_record_is_read_as_it_was_written(rt: HostRuntime) -> Result<(), Fail> {
    let alt = Some(Alt {
        inc: 0x0102_0304,
        site: Site::B,
    });
    let taking = Some(Taking {
        inc: 0x0102_0304,
        cause: Cause::Abend,
    });
    let control = Control::make(2, 0x0102_0305, owner(7, Site::A), alt, taking).ok_or(
        "the rule is kept",
    )?;
    let bytes = control.write();
    let tail = [
        0, 2, 0, 0, 1, 2, 3, 5, 1, 0, 0, 0, 0, 0, 0, 7, 1, 1, 0, 0, 1, 2, 3, 4, 1, 2, 0, 0, 1, 2,
        3, 4,
    ];
    assert_eq!(rt; &bytes[4..36], tail.as_slice());
    let read = read_again(&control)?;
    assert_eq!(rt; read.format(), 2);
    assert_eq!(rt; read.last(), 0x0102_0305);
    assert_eq!(rt; read.owner(), owner(7, Site::A));
    assert_eq!(rt; read.alt(), alt);
    assert_eq!(rt; read.taking(), taking);
    Ok(())
}

#[test]
fn a_record_against_the_rule_is_not_made(rt: HostRuntime) {
    let beside = |inc, site| Some(Alt { inc, site });
    assert!(rt; Control::make(3, 0, None, None, None).is_none());
    assert!(rt; Control::make(1, 1, owner(2, Site::A), None, None).is_none());
    assert!(rt; Control::make(1, 2, None, beside(2, Site::B), None).is_none());
    assert!(rt; Control::make(1, 2, owner(1, Site::A), beside(2, Site::A), None).is_none());
    assert!(rt; Control::make(1, 2, owner(2, Site::A), beside(2, Site::B), None).is_none());
    assert!(rt; Control::make(1, 2, owner(1, Site::A), beside(2, Site::B), None).is_some());
}

// The field at fault once a byte of the record of a running owner is another.
fn field_with(place: u8, byte: u8) -> Option<Field> {
    let control = Control::make(1, 1, owner(1, Site::A), None, None)?;
    let mut bytes = control.write();
    bytes[usize::from(place)] = byte;
    Control::read(&bytes).err().map(|fault| fault.field)
}

#[test]
fn the_first_field_at_fault_is_named(rt: HostRuntime) {
    assert_eq!(rt; field_with(0, 0), Some(Field::Eye));
    assert_eq!(rt; field_with(5, 3), Some(Field::Format));
    assert_eq!(rt; field_with(11, 0), Some(Field::Last));
    assert_eq!(rt; field_with(12, 2), Some(Field::Owner));
    assert_eq!(rt; field_with(19, 2), Some(Field::Owner));
    assert_eq!(rt; field_with(20, 1), Some(Field::Alt));
    assert_eq!(rt; field_with(28, 1), Some(Field::Taking));
    assert_eq!(rt; field_with(7, 1), Some(Field::Reserved));
    assert_eq!(rt; field_with(255, 1), Some(Field::Reserved));
    assert_eq!(rt; field_with(11, 2), None);
}

#[test]
fn the_fault_has_its_text(rt: HostRuntime) -> Result<(), Fail> {
    let text = format!(in rt.alloc(); "{}", CtlFault { field: Field::Alt })?;
    assert_eq!(rt; text.as_str(), "the control record is broken at Alt");
    Ok(())
}

#[test]
fn a_signal_has_its_bytes(rt: HostRuntime) -> Result<(), Fail> {
    let signal = Signal {
        inc: 1,
        counter: 1,
        cursor: 0,
    };
    let bytes = signal.write();
    let head = [
        0x58, 0x53, 0x49, 0x47, 0, 0, 0, 1, 0, 0, 0, 0, 0, 0, 0, 1, 0, 0, 0, 0,
    ];
    assert_eq!(rt; &bytes[..20], head.as_slice());
    assert!(rt; bytes[20..].iter().all(|b| *b == 0));
    let read = signal_read_again(&signal).ok_or("a signal")?;
    assert_eq!(rt; read.inc, 1);
    assert_eq!(rt; read.counter, 1);
    assert_eq!(rt; read.cursor, 0);
    Ok(())
}

#[test]
fn a_fresh_sector_and_incarnation_0_are_no_signal(rt: HostRuntime) {
    assert!(rt; Signal::read(&[0; 64]).is_none());
    let mut bytes = Signal {
        inc: 1,
        counter: 5,
        cursor: 3,
    }
    .write();
    bytes[7] = 0;
    assert!(rt; Signal::read(&bytes).is_none());
}
