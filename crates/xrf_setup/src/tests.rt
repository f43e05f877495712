use super::*;
use std::test::Fail;

#[test]
fn torn_bytes_are_1_to_63(rt: HostRuntime) -> Result<(), Fail> {
    let torn = TornBytes::new(b"\x00\xc1 ").ok_or("none")?;
    assert_eq!(rt; torn.bytes(), b"\x00\xc1 ".as_slice());
    assert!(rt; TornBytes::new(&[]).is_none());
    assert!(rt; TornBytes::new(&[7; 64]).is_none());
    let most = TornBytes::new(&[7; 63]).ok_or("none")?;
    assert_eq!(rt; most.bytes().len(), 63);
    Ok(())
}
