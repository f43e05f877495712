use super::*;
use std::test::Fail;

#[test]
fn the_lines_of_an_applid_come_in_order(rt: HostRuntime) -> Result<(), Fail> {
    let text =
        b"CICSB  CANCEL   CICSA\nCICSA WTO other\nCICSB COMMAND  VARY  NET,ACT \nCICSB WTO Takeover of CICSA";
    let clt = Clt::read(rt.alloc(), text)?;
    assert_eq!(rt; clt.count(), 4);
    let (applid, line) = clt.line(2);
    assert_eq!(rt; applid.text(), b"CICSB".as_slice());
    assert_eq!(rt; line, b"COMMAND VARY NET,ACT".as_slice());
    let own = Name8::read(b"CICSB").ok_or("no name")?;
    assert_eq!(rt; clt.count_for(own), 3);
    assert_eq!(rt; clt.line_for(own, 0), b"CANCEL CICSA".as_slice());
    assert_eq!(rt; clt.line_for(own, 1), b"COMMAND VARY NET,ACT".as_slice());
    assert_eq!(rt; clt.line_for(own, 2), b"WTO Takeover of CICSA".as_slice());
    let none = Name8::read(b"CICSC").ok_or("no name")?;
    assert_eq!(rt; clt.count_for(none), 0);
    Ok(())
}

#[test]
fn lines_are_added_and_copied(rt: HostRuntime) -> Result<(), Fail> {
    let alloc = rt.alloc();
    let mut clt = Clt::new(alloc);
    assert_eq!(rt; clt.count(), 0);
    clt.add(b" CICSB  WTO  Takeover  of CICSA ")?;
    clt.add(b"CICSB CANCEL CICSA")?;
    let copy = clt.copy()?;
    clt.add(b"CICSA COMMAND X")?;
    assert_eq!(rt; clt.count(), 3);
    assert_eq!(rt; copy.count(), 2);
    assert_eq!(rt; copy.line(0).1, b"WTO Takeover of CICSA".as_slice());
    assert_eq!(rt; copy.line(1).1, b"CANCEL CICSA".as_slice());
    Ok(())
}

#[test]
fn the_empty_text_is_the_empty_list(rt: HostRuntime) -> Result<(), Fail> {
    assert_eq!(rt; Clt::read(rt.alloc(), b"")?.count(), 0);
    Ok(())
}

#[test]
fn the_first_fault_is_told(rt: HostRuntime) {
    let table: [(&[u8], usize, CltReason); 11] = [
        (b"\n", 0, CltReason::WordCount),
        (b"A CANCEL B\n\nA CANCEL B", 1, CltReason::WordCount),
        (b"A CANCEL", 0, CltReason::WordCount),
        (b"A CANCEL B C", 0, CltReason::WordCount),
        (b"a CANCEL B C", 0, CltReason::WordCount),
        (b"A COMMAND", 0, CltReason::WordCount),
        (b"A X", 0, CltReason::WordCount),
        (b"A WTO x\nLONGAPPLI WTO x", 1, CltReason::BadName),
        (b"A CANCEL b", 0, CltReason::BadName),
        (b"a X b c", 0, CltReason::BadName),
        (b"A cancel b c", 0, CltReason::BadOption),
    ];
    for (text, place, want) in table {
        let Err(CltError::Fault { line, reason }) = Clt::read(rt.alloc(), text) else {
            panic!(rt; "no fault");
        };
        assert_eq!(rt; (line, reason), (place, want));
    }
}
