use super::hex::read_hex;
use super::*;
use std::test::Fail;
use xrf_base::{Item, Site};

fn reason(read: Result<Line, Reason>) -> Option<Reason> {
    match read {
        Ok(_) => None,
        Err(reason) => Some(reason),
    }
}

#[test]
fn settings_are_refused_by_the_first_reason(rt: HostRuntime) {
    let table: [(&[u8], Option<Reason>); 41] = [
        (b"HELLO", Some(Reason::UnknownWord)),
        (b"applid A X", Some(Reason::UnknownWord)),
        (b"STEP A", Some(Reason::UnknownWord)),
        (b"END", Some(Reason::UnknownWord)),
        (b"LEVEL A 1", Some(Reason::UnknownWord)),
        (b"XRFSOFF FORCE", Some(Reason::UnknownWord)),
        (b"APPLID", Some(Reason::WordCount)),
        (b"APPLID A", Some(Reason::WordCount)),
        (b"APPLID A CICSA X", Some(Reason::WordCount)),
        (b"APPLID C CICSA", Some(Reason::BadSite)),
        (b"APPLID a CICSA", Some(Reason::BadSite)),
        (b"APPLID A cicsa", Some(Reason::BadName)),
        (b"APPLID A CICSAPPLX", Some(Reason::BadName)),
        (b"APPLID C cics", Some(Reason::BadSite)),
        (b"  APPLID   B  CICSAPPL ", None),
        (b"TAKEOVR", Some(Reason::WordCount)),
        (b"TAKEOVR AUTO X", Some(Reason::WordCount)),
        (b"TAKEOVR NEVER", Some(Reason::BadOption)),
        (b"TAKEOVR auto", Some(Reason::BadOption)),
        (b"TAKEOVR COMMAND", None),
        (b"ADI 4", Some(Reason::OutOfRange)),
        (b"ADI 5", None),
        (b"ADI 3600", None),
        (b"ADI 3601", Some(Reason::OutOfRange)),
        (b"ADI 05", Some(Reason::BadNumber)),
        (b"ADI x", Some(Reason::BadNumber)),
        (b"ADI", Some(Reason::WordCount)),
        (b"PDI 4", Some(Reason::OutOfRange)),
        (b"PDI 5", None),
        (b"PDI 3600", None),
        (b"PDI 3601", Some(Reason::OutOfRange)),
        (b"PDI 65536", Some(Reason::BadNumber)),
        (b"LOG 63", Some(Reason::OutOfRange)),
        (b"LOG 64", None),
        (b"LOG 65", Some(Reason::OutOfRange)),
        (b"LOG 1024", None),
        (b"LOG 1088", Some(Reason::OutOfRange)),
        (b"RING 1", Some(Reason::OutOfRange)),
        (b"RING 2", None),
        (b"RING 64", None),
        (b"RING 65", Some(Reason::OutOfRange)),
    ];
    for (place, (line, want)) in table.iter().enumerate() {
        assert_eq!(rt;
            reason(read_setting(Format::One, line)),
            *want,
            "row {place}"
        );
    }
}

#[test]
fn ranges_records_and_lists(rt: HostRuntime) {
    let table: [(&[u8], Option<Reason>); 37] = [
        (b"FILE 0", Some(Reason::OutOfRange)),
        (b"FILE 1", None),
        (b"FILE 256", None),
        (b"FILE 257", Some(Reason::OutOfRange)),
        (b"PACE 9", Some(Reason::OutOfRange)),
        (b"PACE 10", None),
        (b"PACE 200", None),
        (b"PACE 201", Some(Reason::OutOfRange)),
        (b"TICKS 0", None),
        (b"TICKS 200", None),
        (b"TICKS 201", Some(Reason::OutOfRange)),
        (b"TICKS 00", Some(Reason::BadNumber)),
        (b"IMAGES ON", None),
        (b"IMAGES on", Some(Reason::BadOption)),
        (b"IMAGES", Some(Reason::WordCount)),
        (b"RECORD 0 X", Some(Reason::OutOfRange)),
        (b"RECORD 1 x", None),
        (b"RECORD 256 X", None),
        (b"RECORD 257 X", Some(Reason::OutOfRange)),
        (b"RECORD x X", Some(Reason::BadNumber)),
        (b"RECORD 1", Some(Reason::WordCount)),
        (b"RECORD 1 X Y", Some(Reason::WordCount)),
        (
            b"RECORD 1 1234567890123456789012345",
            Some(Reason::BadValue),
        ),
        (
            b"RECORD 0 1234567890123456789012345",
            Some(Reason::OutOfRange),
        ),
        (b"RECORD 1 123456789012345678901234", None),
        (b"CLT CICSB CANCEL CICSA", None),
        (b"CLT CICSB CANCEL CICSA X", Some(Reason::WordCount)),
        (b"CLT CICSB CANCEL cicsa", Some(Reason::BadName)),
        (b"CLT cicsb CANCEL CICSA", Some(Reason::BadName)),
        (b"CLT CICSB WTO", Some(Reason::WordCount)),
        (b"CLT CICSB WTO any words at all", None),
        (b"CLT CICSB COMMAND vary x", None),
        (b"CLT CICSB STOP a b c", Some(Reason::BadOption)),
        (b"CLT x STOP a b c", Some(Reason::BadName)),
        (b"CLT", Some(Reason::WordCount)),
        (b"CHOICES", None),
        (b"CHOICES X", Some(Reason::WordCount)),
    ];
    for (place, (line, want)) in table.iter().enumerate() {
        assert_eq!(rt;
            reason(read_setting(Format::One, line)),
            *want,
            "row {place}"
        );
    }
}

#[test]
fn work(rt: HostRuntime) {
    let table: [(&[u8], Option<Reason>); 38] = [
        (b"WORK A BEGIN U1", None),
        (b"WORK C BEGIN U1", Some(Reason::BadSite)),
        (b"WORK A BEGIN", Some(Reason::WordCount)),
        (b"WORK A BEGIN U1 X", Some(Reason::WordCount)),
        (b"WORK A BEGIN u1", Some(Reason::BadName)),
        (b"WORK A PUT U1 0 V", None),
        (b"WORK A PUT U1 65535 V", None),
        (b"WORK A PUT U1 65536 V", Some(Reason::BadNumber)),
        (b"WORK A PUT lower 70000 V", Some(Reason::BadNumber)),
        (b"WORK C PUT lower 70000 V", Some(Reason::BadSite)),
        (
            b"WORK A PUT U1 1 1234567890123456789012345",
            Some(Reason::BadValue),
        ),
        (
            b"WORK A PUT u1 1 1234567890123456789012345",
            Some(Reason::BadName),
        ),
        (b"WORK B GET U1 7", None),
        (b"WORK B GET U1 x", Some(Reason::BadNumber)),
        (b"WORK B GET U1", Some(Reason::WordCount)),
        (b"WORK B COMMIT U1", None),
        (b"WORK B ROLL U1", None),
        (b"WORK B ROLL", Some(Reason::WordCount)),
        (b"WORK A LOGON T1 0", Some(Reason::OutOfRange)),
        (b"WORK A LOGON T1 1", None),
        (b"WORK A LOGON T1 3", None),
        (b"WORK A LOGON T1 4", Some(Reason::OutOfRange)),
        (b"WORK A LOGOFF T1", None),
        (b"WORK A CEMT SHUTDOWN", None),
        (b"WORK A CEMT SHUTDOWN TAKEOVER", None),
        (b"WORK A CEMT SHUTDOWN X", Some(Reason::BadOption)),
        (b"WORK A CEMT X", Some(Reason::BadOption)),
        (b"WORK A CEMT", Some(Reason::WordCount)),
        (b"WORK A CEMT SHUTDOWN TAKEOVER X", Some(Reason::WordCount)),
        (b"WORK A", Some(Reason::WordCount)),
        (b"WORK", Some(Reason::WordCount)),
        (b"WORK A ERASE", Some(Reason::WordCount)),
        (b"WORK A ERASE U1", Some(Reason::BadItem)),
        (b"WORK A ERASE U1 2 3", Some(Reason::BadItem)),
        (b"WORK A ERASE U1 2 3 4", Some(Reason::WordCount)),
        (b"WORK C ERASE U1", Some(Reason::BadSite)),
        (b"WORK A SIGNON T1 USER", Some(Reason::BadItem)),
        (b"WORK A SIGNOFF T1", Some(Reason::BadItem)),
    ];
    for (place, (line, want)) in table.iter().enumerate() {
        assert_eq!(rt;
            reason(read_setting(Format::One, line)),
            *want,
            "row {place}"
        );
    }
}

#[test]
fn the_forms_of_format_two(rt: HostRuntime) {
    let table: [(&[u8], Option<Reason>); 14] = [
        (b"LEVEL A 0", Some(Reason::OutOfRange)),
        (b"LEVEL A 1", None),
        (b"LEVEL B 2", None),
        (b"LEVEL B 3", Some(Reason::OutOfRange)),
        (b"LEVEL C 3", Some(Reason::BadSite)),
        (b"XRFSOFF FORCE", None),
        (b"XRFSOFF NOFORCE", None),
        (b"XRFSOFF OFF", Some(Reason::BadOption)),
        (b"XRFSOFF", Some(Reason::WordCount)),
        (b"WORK A SIGNON T1 USER1", None),
        (b"WORK A SIGNON T1", Some(Reason::WordCount)),
        (b"WORK A SIGNON T1 user1", Some(Reason::BadName)),
        (b"WORK B SIGNOFF T1", None),
        (b"WORK B SIGNOFF T1 X", Some(Reason::WordCount)),
    ];
    for (place, (line, want)) in table.iter().enumerate() {
        assert_eq!(rt;
            reason(read_setting(Format::Two, line)),
            *want,
            "row {place}"
        );
    }
}

#[test]
fn plans(rt: HostRuntime) {
    let table: [(&[u8], Option<Reason>); 24] = [
        (b"PLAN 0 START A ACTIVE", None),
        (b"PLAN 200 START B STANDBY", None),
        (b"PLAN 201 START A ACTIVE", Some(Reason::OutOfRange)),
        (b"PLAN x START A ACTIVE", Some(Reason::BadNumber)),
        (b"PLAN x START C ACTIVE", Some(Reason::BadSite)),
        (b"PLAN 5 STEP A", Some(Reason::BadPlan)),
        (b"PLAN 5 STEP C", Some(Reason::BadPlan)),
        (b"PLAN 5 STEP", Some(Reason::WordCount)),
        (b"PLAN x STEP A", Some(Reason::BadNumber)),
        (b"PLAN 5 TICK", Some(Reason::BadPlan)),
        (b"PLAN 5 LOSE A", Some(Reason::BadPlan)),
        (b"PLAN 5 FAIL A NONE", Some(Reason::BadPlan)),
        (b"PLAN 5 EXIT A KEEP", Some(Reason::BadPlan)),
        (b"PLAN 5 HELLO", Some(Reason::BadPlan)),
        (b"PLAN 5", Some(Reason::WordCount)),
        (b"PLAN", Some(Reason::WordCount)),
        (b"PLAN 5 STOP A TORN c1", None),
        (b"PLAN 5 STOP A HALF", Some(Reason::BadOption)),
        (b"PLAN 5 CONFIRM 3", None),
        (b"PLAN 5 REPLY A GO", None),
        (b"PLAN 5 ABEND A", None),
        (b"PLAN 5 CEBT B SET TAKEOVER AUTO", None),
        (b"PLAN 5 CEBT B SET TAKEOVER NEVER", Some(Reason::BadCebt)),
        (
            b"PLAN 201 CEBT B SET TAKEOVER NEVER",
            Some(Reason::OutOfRange),
        ),
    ];
    for (place, (line, want)) in table.iter().enumerate() {
        assert_eq!(rt;
            reason(read_setting(Format::One, line)),
            *want,
            "row {place}"
        );
    }
}

#[test]
fn choices_are_refused_by_the_first_reason(rt: HostRuntime) {
    let table: [(&[u8], Option<Reason>); 40] = [
        (b"TICK", None),
        (b"TICK 1", None),
        (b"TICK 9999", None),
        (b"TICK 0", Some(Reason::OutOfRange)),
        (b"TICK 10000", Some(Reason::OutOfRange)),
        (b"TICK 1 2", Some(Reason::WordCount)),
        (b"TICK x", Some(Reason::BadNumber)),
        (b"STEP A", None),
        (b"STEP B 7", None),
        (b"STEP", Some(Reason::WordCount)),
        (b"STEP C", Some(Reason::BadSite)),
        (b"STEP C x", Some(Reason::BadSite)),
        (b"STEP A 0", Some(Reason::OutOfRange)),
        (b"LOSE B", None),
        (b"LOSE A 2", Some(Reason::WordCount)),
        (b"STOP A NONE", None),
        (b"STOP A ALL", None),
        (b"STOP A TORN", Some(Reason::WordCount)),
        (b"STOP A TORN c1C1", None),
        (b"STOP A TORN c", Some(Reason::BadHex)),
        (b"STOP A TORN xy", Some(Reason::BadHex)),
        (b"STOP C TORN xy", Some(Reason::BadSite)),
        (b"STOP A HALF", Some(Reason::BadOption)),
        (b"STOP A HALF xy", Some(Reason::BadOption)),
        (b"STOP A NONE xy", Some(Reason::WordCount)),
        (
            b"STOP A TORN 000000000000000000000000000000000000000000000000000000000000000000000000000000000000000000000000000000000000000000000000000000",
            None,
        ),
        (
            b"STOP A TORN 00000000000000000000000000000000000000000000000000000000000000000000000000000000000000000000000000000000000000000000000000000000",
            Some(Reason::BadHex),
        ),
        (b"FAIL A NONE", None),
        (b"FAIL B TORN ff", None),
        (b"FAIL B SOME", Some(Reason::BadOption)),
        (b"START A ACTIVE", None),
        (b"START A", Some(Reason::WordCount)),
        (b"START A ALONE", Some(Reason::BadOption)),
        (b"ABEND A", None),
        (b"CONFIRM 0", None),
        (b"CONFIRM 65535", None),
        (b"CONFIRM 65536", Some(Reason::BadNumber)),
        (b"REPLY A GO", None),
        (b"REPLY B IGNORE", None),
        (b"REPLY B WAIT", Some(Reason::BadOption)),
    ];
    for (place, (line, want)) in table.iter().enumerate() {
        assert_eq!(rt; reason(read_choice(line)), *want, "row {place}");
    }
}

#[test]
fn commands_and_exits(rt: HostRuntime) {
    let table: [(&[u8], Option<Reason>); 20] = [
        (b"CEBT A PERFORM TAKEOVER", None),
        (b"CEBT A PERFORM SHUTDOWN", None),
        (b"CEBT A INQUIRE SURVEILLANCE", None),
        (b"CEBT A SET SURVEILLANCE OFF", None),
        (b"CEBT A SET SURVEILLANCE AUTO", Some(Reason::BadCebt)),
        (b"CEBT A SET SURVEILLANCE", Some(Reason::WordCount)),
        (b"CEBT A PERFORM", Some(Reason::WordCount)),
        (b"CEBT A PERFORM X", Some(Reason::BadCebt)),
        (b"CEBT A ASK TAKEOVER", Some(Reason::BadCebt)),
        (b"CEBT C ASK TAKEOVER", Some(Reason::BadSite)),
        (b"CEBT A ASK", Some(Reason::WordCount)),
        (b"EXIT A ABEND", None),
        (b"EXIT A KEEP", None),
        (b"EXIT B DROP", None),
        (b"EXIT B NEVER", Some(Reason::BadOption)),
        (b"END", None),
        (b"END X", Some(Reason::WordCount)),
        (b"CHOICES", Some(Reason::UnknownWord)),
        (b"ADI 5", Some(Reason::UnknownWord)),
        (b"tick", Some(Reason::UnknownWord)),
    ];
    for (place, (line, want)) in table.iter().enumerate() {
        assert_eq!(rt; reason(read_choice(line)), *want, "row {place}");
    }
}

#[test]
fn a_header_names_the_format(rt: HostRuntime) {
    assert_eq!(rt; read_header(b" XRF  1"), Ok(Format::One));
    assert_eq!(rt; read_header(b"XRF 2"), Ok(Format::Two));
    assert_eq!(rt; read_header(b"XRF 3"), Err(Reason::BadFormat));
    assert_eq!(rt; read_header(b"XRF"), Err(Reason::BadFormat));
    assert_eq!(rt; read_header(b"XRF 1 1"), Err(Reason::BadFormat));
    assert_eq!(rt; read_header(b"HELLO"), Err(Reason::NoHeader));
}

#[test]
fn a_line_says_what_its_words_spell(rt: HostRuntime) -> Result<(), Fail> {
    assert!(rt;
        matches!(
            read_setting(Format::One, b"WORK B GET U1 7"),
            Ok(Line::Work(Site::B, Item::Get(_, 7)))
        )
    );
    assert!(rt;
        matches!(
            read_choice(b"STEP A 7"),
            Ok(Line::Times(Choice::Step(Site::A), 7))
        )
    );
    let torn = read_hex(b"c1Ff").ok_or("no hex")?;
    assert_eq!(rt; torn.bytes(), [0xc1, 0xff].as_slice());
    assert!(rt; read_hex(b"c1f").is_none());
    Ok(())
}

#[test]
fn choices_are_written_as_they_are_read(rt: HostRuntime) -> Result<(), Fail> {
    let table: [&[u8]; 14] = [
        b"TICK",
        b"STEP B",
        b"LOSE A",
        b"STOP A NONE",
        b"STOP B ALL",
        b"STOP A TORN c1ff",
        b"FAIL B TORN 00",
        b"START A ACTIVE",
        b"START B STANDBY",
        b"ABEND A",
        b"CONFIRM 65535",
        b"REPLY A IGNORE",
        b"CEBT B SET TAKEOVER MANUAL",
        b"EXIT A DROP",
    ];
    for line in table {
        let Ok(Line::Once(choice)) = read_choice(line) else {
            panic!(rt; "no choice");
        };
        let mut out = Vec::new(rt.alloc());
        put_choice(&mut out, &choice)?;
        assert_eq!(rt; out.as_slice(), line);
    }
    Ok(())
}

#[test]
fn items_are_written_as_they_are_read(rt: HostRuntime) -> Result<(), Fail> {
    let table: [&[u8]; 11] = [
        b"BEGIN U1",
        b"PUT U1 65535 lower",
        b"GET U1 0",
        b"COMMIT U1",
        b"ROLL U1",
        b"LOGON T1 3",
        b"LOGOFF T1",
        b"SIGNON T1 USER1",
        b"SIGNOFF T1",
        b"CEMT SHUTDOWN",
        b"CEMT SHUTDOWN TAKEOVER",
    ];
    for text in table {
        let mut line = Vec::new(rt.alloc());
        line.extend_from_slice(b"WORK A ")?;
        line.extend_from_slice(text)?;
        let Ok(Line::Work(_, item)) = read_setting(Format::Two, line.as_slice()) else {
            panic!(rt; "no item");
        };
        let mut out = Vec::new(rt.alloc());
        put_item(&mut out, &item)?;
        assert_eq!(rt; out.as_slice(), text);
    }
    Ok(())
}

#[test]
fn settings_are_written_as_they_are_read(rt: HostRuntime) -> Result<(), Fail> {
    let table: [&[u8]; 24] = [
        b"APPLID B CICSAPPL",
        b"TAKEOVR AUTO",
        b"TAKEOVR MANUAL",
        b"TAKEOVR COMMAND",
        b"ADI 5",
        b"PDI 3600",
        b"LOG 1024",
        b"RING 2",
        b"FILE 256",
        b"PACE 10",
        b"TICKS 0",
        b"IMAGES ON",
        b"IMAGES OFF",
        b"LEVEL A 1",
        b"LEVEL B 2",
        b"XRFSOFF FORCE",
        b"XRFSOFF NOFORCE",
        b"RECORD 256 ~lower!",
        b"WORK A PUT U1 65535 lower",
        b"WORK B CEMT SHUTDOWN TAKEOVER",
        b"PLAN 200 STOP A TORN c1ff",
        b"PLAN 0 CONFIRM 7",
        b"PLAN 5 CEBT B SET SURVEILLANCE OFF",
        b"CHOICES",
    ];
    for text in table {
        let Ok(line) = read_setting(Format::Two, text) else {
            panic!(rt; "no setting");
        };
        let mut out = Vec::new(rt.alloc());
        put_line(&mut out, &line)?;
        assert_eq!(rt; out.as_slice(), text);
    }
    Ok(())
}

#[test]
fn lines_of_choices_are_written_with_one_blank_between_words(rt: HostRuntime) -> Result<(), Fail> {
    let table: [(&[u8], &[u8]); 5] = [
        (b"  TICK   9999 ", b"TICK 9999"),
        (b"STEP  A", b"STEP A"),
        (b"STEP B 1 ", b"STEP B 1"),
        (b"STOP A TORN C1fF", b"STOP A TORN c1ff"),
        (b" END", b"END"),
    ];
    for (text, want) in table {
        let Ok(line) = read_choice(text) else {
            panic!(rt; "no line");
        };
        let mut out = Vec::new(rt.alloc());
        put_line(&mut out, &line)?;
        assert_eq!(rt; out.as_slice(), want);
    }
    Ok(())
}

#[test]
fn headers_are_written_as_they_are_read(rt: HostRuntime) -> Result<(), Fail> {
    for format in [Format::One, Format::Two] {
        let mut out = Vec::new(rt.alloc());
        put_header(&mut out, format)?;
        assert_eq!(rt; read_header(out.as_slice()), Ok(format));
    }
    Ok(())
}
