//! Each line, and whole texts, with the reasons for which they are refused.

ghost use Rattle.std.specs.Prelude.{◌≤◌, length};

use super::*;
use crate::line_rows::{
    Place, bytes_and_unknown_words, commands_and_replies, names_and_options, numbers,
    plan_and_levels, records_and_lists, steps_and_stops, work,
};
use std::alloc::{AllocError, Global};
use std::test::Fail;

// the number of the line there
fn number(place: Place) -> u32 {
    match place {
        Place::One | Place::Two => 2,
        Place::Choosing => 3,
        Place::Behind => 4,
    }
}

fn before(place: Place) -> &'static [u8] {
    match place {
        Place::One => b"XRF 1\n",
        Place::Two => b"XRF 2\n",
        Place::Choosing => b"XRF 1\nCHOICES\n",
        Place::Behind => b"XRF 1\nCHOICES\nEND\n",
    }
}

fn behind(place: Place) -> &'static [u8] {
    match place {
        Place::One | Place::Two => b"\nCHOICES\nEND\n",
        Place::Choosing => b"\nEND\n",
        Place::Behind => b"\n",
    }
}

// a text with the line at its place, and blanks behind the line up to a length
fn text_with(
    alloc: Global,
    place: Place,
    line: &[u8],
    width: usize,
) -> Result<Vec<u8>, AllocError> {
    let mut text = Vec::new(alloc);
    text.extend_from_slice(before(place))?;
    text.extend_from_slice(line)?;
    for blank in line.len()..width {
        text.push(b' ')?;
    }
    text.extend_from_slice(behind(place))?;
    Ok(text)
}

// the line and the reason for which a text is refused
fn refusal(alloc: Global, text: &[u8]) -> Option<(u32, Reason)>
    requires { length text.now ≤ 4194304 }
{
    match read(alloc, text) {
        Err(ReadBad::Bad { line, reason }) => Some((line, reason)),
        _ => None,
    }
}

// lines padded with blanks
const PADDED: [(Place, usize, &[u8], Option<Reason>); 7] = [
    (Place::One, 300, b"ADI 9", None),
    (Place::One, 301, b"ADI 9", Some(Reason::LongLine)),
    (Place::One, 301, b"ADI lower", Some(Reason::LongLine)),
    (Place::Choosing, 301, b"TICK", Some(Reason::LongLine)),
    (Place::Choosing, 300, b"TICK", None),
    (Place::Behind, 301, b"*", None),
    (Place::One, 400, b"#", None),
];

// whole texts, with the line
const TEXTS: [(&[u8], u32, Option<Reason>); 36] = [
    (b"", 1, Some(Reason::NoEnd)),
    (b"XRF 1", 1, Some(Reason::NoEnd)),
    (b"XRF 1\n\n# x\n", 3, Some(Reason::NoEnd)),
    (b"XRF 2\n", 1, Some(Reason::NoEnd)),
    (b"XRF 1\nCHOICES\nSTEP A\n", 3, Some(Reason::NoEnd)),
    (b"HELLO", 1, Some(Reason::NoHeader)),
    (b"\n# a\n xrf 1\n", 3, Some(Reason::NoHeader)),
    (b"CHOICES\n", 1, Some(Reason::NoHeader)),
    (b"XRF 3", 1, Some(Reason::BadFormat)),
    (b"XRF\n", 1, Some(Reason::BadFormat)),
    (b"XRF 1 1\n", 1, Some(Reason::BadFormat)),
    (b"XRF 01\n", 1, Some(Reason::BadFormat)),
    (b"XRF 1\nADI 9\nADI 9\n", 3, Some(Reason::Twice)),
    (
        b"XRF 1\nAPPLID A X\nAPPLID B X\nAPPLID A Y\n",
        4,
        Some(Reason::Twice),
    ),
    (b"XRF 1\nRECORD 3 X\nRECORD 3 X\n", 3, Some(Reason::Twice)),
    (b"XRF 1\nIMAGES ON\nIMAGES OFF\n", 3, Some(Reason::Twice)),
    (
        b"XRF 2\nLEVEL A 1\nLEVEL B 1\nLEVEL B 1\n",
        4,
        Some(Reason::Twice),
    ),
    (
        b"XRF 2\nXRFSOFF FORCE\nXRFSOFF FORCE\n",
        3,
        Some(Reason::Twice),
    ),
    (
        b"XRF 1\nTAKEOVR AUTO\nTAKEOVR NEVER\n",
        3,
        Some(Reason::BadOption),
    ),
    (
        b"XRF 1\nPLAN 5 ABEND A\nPLAN 4 ABEND A\n",
        3,
        Some(Reason::PlanOrder),
    ),
    (
        b"XRF 1\nPLAN 200 ABEND A\nPLAN 0 ABEND A\n",
        3,
        Some(Reason::PlanOrder),
    ),
    (
        b"XRF 1\nPLAN 5 ABEND A\nPLAN 5 ABEND A\nPLAN 4 CONFIRM 1\n",
        4,
        Some(Reason::PlanOrder),
    ),
    (
        b"XRF 1\nPLAN 5 ABEND A\nPLAN 4 STEP A\n",
        3,
        Some(Reason::BadPlan),
    ),
    (
        b"XRF 1\nRECORD 17 X\nCHOICES\nEND",
        3,
        Some(Reason::RrnRange),
    ),
    (
        b"XRF 1\nFILE 4\nRECORD 5 X\nCHOICES\n",
        4,
        Some(Reason::RrnRange),
    ),
    (
        b"XRF 1\nRECORD 256 X\nFILE 255\n#\nCHOICES\n",
        5,
        Some(Reason::RrnRange),
    ),
    (b"XRF 1\nCHOICES\nEND\nTICK", 4, Some(Reason::AfterEnd)),
    (b"XRF 1\nCHOICES\nEND\n*\r\nx", 5, Some(Reason::AfterEnd)),
    (b"XRF 1\nCHOICES\nEND\n\r", 4, Some(Reason::AfterEnd)),
    (
        b"XRF 1\nCHOICES\nTICK 8192\nSTEP A\n",
        4,
        Some(Reason::TooMany),
    ),
    (b"XRF 1\r\nADI 9\r", 2, Some(Reason::BadByte)),
    (b"XRF 1\nCHOICES\nEND", 0, None),
    (b"XRF 1\r\nCHOICES\r\nEND\r\n", 0, None),
    (b"\n#\n  XRF   2 \n\nCHOICES\nEND\n* x\n", 0, None),
    (b"XRF 1\nRECORD 256 X\nFILE 256\nCHOICES\nEND\n", 0, None),
    (
        b"XRF 1\nPLAN 5 ABEND A\nPLAN 5 ABEND B\nCHOICES\nEND\n",
        0,
        None,
    ),
];

#[test]
fn each_line_is_read_or_has_its_first_reason(rt: HostRuntime) -> Result<(), Fail> {
    let tables = [
        bytes_and_unknown_words(),
        names_and_options(),
        numbers(),
        records_and_lists(),
        work(),
        plan_and_levels(),
        steps_and_stops(),
        commands_and_replies(),
    ];
    for table in tables {
        for (place, line, reason) in table {
            let text = text_with(rt.alloc(), *place, line, 0)?;
            assert!(rt; text.len() < 1000);
            let wanted = reason.map(|reason| (number(*place), reason));
            assert_eq!(rt; refusal(rt.alloc(), &text), wanted);
        }
    }
    for (place, width, line, reason) in &PADDED {
        let text = text_with(rt.alloc(), *place, line, *width)?;
        assert!(rt; text.len() < 1000);
        let wanted = reason.map(|reason| (number(*place), reason));
        assert_eq!(rt; refusal(rt.alloc(), &text), wanted);
    }
    for (text, line, reason) in &TEXTS {
        assert!(rt; text.len() < 1000);
        let wanted = reason.map(|reason| (*line, reason));
        assert_eq!(rt; refusal(rt.alloc(), text), wanted);
    }
    Ok(())
}

// so many copies of a line before the choices
fn repeated(alloc: Global, line: &[u8], count: usize) -> Result<Vec<u8>, AllocError> {
    let mut text = Vec::new(alloc);
    text.extend_from_slice(b"XRF 1\n")?;
    for copy in 0..count {
        text.extend_from_slice(line)?;
    }
    text.extend_from_slice(b"CHOICES\nEND\n")?;
    Ok(text)
}

#[test]
fn there_are_limits_to_lists_work_and_plan(rt: HostRuntime) -> Result<(), Fail> {
    let table: [(&[u8], usize); 4] = [
        (b"CLT CICSB WTO x\n", 100),
        (b"WORK A BEGIN U1\n", 2000),
        (b"WORK B BEGIN U1\n", 2000),
        (b"PLAN 7 ABEND A\n", 500),
    ];
    for (line, most) in &table {
        let text = repeated(rt.alloc(), line, *most)?;
        assert!(rt; text.len() < 100_000);
        assert_eq!(rt; refusal(rt.alloc(), &text), None);
        let text = repeated(rt.alloc(), line, *most + 1)?;
        assert!(rt; text.len() < 100_000);
        assert_eq!(rt;
            refusal(rt.alloc(), &text),
            Some((*most as u32 + 2, Reason::TooMany))
        );
    }
    Ok(())
}
