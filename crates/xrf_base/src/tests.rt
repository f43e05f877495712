use super::*;
use crate::values::slot_read;
use std::test::Fail;

// the slot of a record with the value AMBER
const AMBER: [u8; 32] = [
    1, 0, 0, 0, 0, 0, 0, 0, 0x41, 0x4d, 0x42, 0x45, 0x52, 0x20, 0x20, 0x20, 0x20, 0x20, 0x20, 0x20,
    0x20, 0x20, 0x20, 0x20, 0x20, 0x20, 0x20, 0x20, 0x20, 0x20, 0x20, 0x20,
];

#[test]
fn a_record_has_its_slot(rt: HostRuntime) -> Result<(), Fail> {
    let amber = Value::read(b"AMBER").ok_or("no value")?;
    assert!(rt; amber.to_slot() == AMBER);
    let held = slot_read(&AMBER).ok_or("no slot")?.ok_or("no record")?;
    assert_eq!(rt; held.text(), b"AMBER".as_slice());
    Ok(())
}

#[test]
fn an_empty_slot_holds_no_record(rt: HostRuntime) -> Result<(), Fail> {
    let held = slot_read(&[0; 32]).ok_or("no slot")?;
    assert!(rt; held.is_none());
    Ok(())
}

#[test]
fn bytes_with_another_mark_are_no_slot(rt: HostRuntime) {
    let mut bytes = AMBER;
    bytes[0] = 2;
    assert!(rt; slot_read(&bytes).is_none());
}

#[test]
fn a_name_fills_a_field_with_blanks(rt: HostRuntime) -> Result<(), Fail> {
    let name = Name8::read(b"CICSA").ok_or("no name")?;
    assert!(rt; name.padded() == *b"CICSA   ");
    let again = Name8::from_padded(b"CICSA   ").ok_or("no name")?;
    assert_eq!(rt; again.text(), b"CICSA".as_slice());
    assert!(rt; Name8::from_padded(b"CICSA A ").is_none());
    assert!(rt; Name8::read(b"CICSAPPLS").is_none());
    Ok(())
}
