use super::*;
use std::alloc::Global;
use std::test::Fail;
use xrf_base::{Item, Site, Takeovr};
use xrf_ctl::Level;

// a text with everything that a scenario can have, in an order of its own
const FULL: &[u8] = b"  XRF   2 \r
# the active is A

TICKS 7
CLT  CICSB   CANCEL  CICSA
LEVEL B 1
LEVEL A 2
XRFSOFF FORCE
RECORD 3 amber
IMAGES ON
PACE 10\r
FILE 3
WORK B LOGON T1 2
RING 2
RECORD 1 ~
LOG 128
PDI 3600
CLT CICSB WTO Takeover   of CICSA
ADI 5
TAKEOVR AUTO
WORK A BEGIN U1
WORK A PUT U1 65535 V
PLAN 5 START A ACTIVE
PLAN 5 CEBT B SET SURVEILLANCE OFF
PLAN 9 ABEND A
APPLID B CICSX
APPLID A $1
CHOICES
START A ACTIVE
STEP A 2
# torn bytes
STOP A TORN 0aFF
  END
#
* a report
*";

// what is written of it
const FULL_AGAIN: &[u8] = b"XRF 2
APPLID A $1
APPLID B CICSX
TAKEOVR AUTO
ADI 5
PDI 3600
LOG 128
RING 2
FILE 3
PACE 10
TICKS 7
IMAGES ON
LEVEL A 2
LEVEL B 1
XRFSOFF FORCE
RECORD 1 ~
RECORD 3 amber
CLT CICSB CANCEL CICSA
CLT CICSB WTO Takeover of CICSA
WORK A BEGIN U1
WORK A PUT U1 65535 V
WORK B LOGON T1 2
PLAN 5 START A ACTIVE
PLAN 5 CEBT B SET SURVEILLANCE OFF
PLAN 9 ABEND A
CHOICES
START A ACTIVE
STEP A
STEP A
STOP A TORN 0aff
END
";

// the canonical text of the shortest
const LEAST_AGAIN: &[u8] = b"XRF 1
APPLID A CICSA
APPLID B CICSB
TAKEOVR MANUAL
ADI 30
PDI 30
LOG 64
RING 16
FILE 16
PACE 40
TICKS 60
IMAGES OFF
CHOICES
END
";

fn read_test(alloc: Global, text: &'static [u8]) -> Result<(Scenario, Vec<Numbered>), Fail> {
    if text.len() > 100_000 {
        return Err(Fail::from("long"));
    }
    match read(alloc, text) {
        Ok(found) => Ok(found),
        Err(_) => Err(Fail::from("refused")),
    }
}

#[test]
fn the_settings_are_those_of_the_lines(rt: HostRuntime) -> Result<(), Fail> {
    let (scenario, _) = read_test(rt.alloc(), FULL)?;
    assert_eq!(rt; scenario.format(), Format::Two);
    assert_eq!(rt; scenario.applid(Site::A).text(), b"$1".as_slice());
    assert_eq!(rt; scenario.applid(Site::B).text(), b"CICSX".as_slice());
    assert_eq!(rt; scenario.takeovr(), Takeovr::Auto);
    assert_eq!(rt; (scenario.adi(), scenario.pdi()), (5, 3600));
    assert_eq!(rt; (scenario.log(), scenario.ring()), (128, 2));
    assert_eq!(rt; (scenario.file(), scenario.pace()), (3, 10));
    assert_eq!(rt; scenario.ticks(), 7);
    assert!(rt; scenario.images());
    assert_eq!(rt;
        (scenario.level(Site::A), scenario.level(Site::B)),
        (Level::Two, Level::One)
    );
    assert!(rt; scenario.xrfsoff_force());
    Ok(())
}

#[test]
fn the_lists_are_in_order(rt: HostRuntime) -> Result<(), Fail> {
    let (scenario, _) = read_test(rt.alloc(), FULL)?;
    let records = scenario.records();
    assert_eq!(rt; records.len(), 2);
    assert_eq!(rt; (records[0].0, records[1].0), (1, 3));
    assert_eq!(rt; records[1].1.text(), b"amber".as_slice());
    assert_eq!(rt; scenario.clt().count(), 2);
    assert_eq!(rt;
        scenario.clt().line(1).1,
        b"WTO Takeover of CICSA".as_slice()
    );
    assert_eq!(rt; scenario.work(Site::A).len(), 2);
    assert!(rt; matches!(scenario.work(Site::B), [Item::Logon(_, 2)]));
    let plan = scenario.plan();
    assert_eq!(rt; plan.len(), 3);
    assert_eq!(rt; (plan[1].0, plan[2].0), (5, 9));
    Ok(())
}

#[test]
fn choices_have_the_number_of_their_line(rt: HostRuntime) -> Result<(), Fail> {
    let (_, choices) = read_test(rt.alloc(), FULL)?;
    assert_eq!(rt; choices.len(), 4);
    assert_eq!(rt; (choices[0].line, choices[1].line), (29, 30));
    assert_eq!(rt; (choices[2].line, choices[3].line), (30, 32));
    Ok(())
}

// whether a text is written as another, also from a copy
fn is_written(alloc: Global, text: &'static [u8], again: &[u8]) -> Result<bool, Fail> {
    let (scenario, numbered) = read_test(alloc, text)?;
    let mut choices = Vec::new(alloc);
    for made in &numbered {
        choices.push(made.choice)?;
    }
    let written = write(alloc, &scenario.copy()?, &choices)?;
    Ok(written.as_slice() == again)
}

#[test]
fn a_text_is_written_in_its_canonical_form(rt: HostRuntime) -> Result<(), Fail> {
    let alloc = rt.alloc();
    assert!(rt; is_written(alloc, FULL, FULL_AGAIN)?);
    assert!(rt; is_written(alloc, FULL_AGAIN, FULL_AGAIN)?);
    assert!(rt; is_written(alloc, b"XRF 1\nCHOICES\nEND", LEAST_AGAIN)?);
    assert!(rt; is_written(alloc, LEAST_AGAIN, LEAST_AGAIN)?);
    Ok(())
}

#[test]
fn levels_have_defaults_by_the_format(rt: HostRuntime) -> Result<(), Fail> {
    let (one, _) = read_test(rt.alloc(), b"XRF 1\nCHOICES\nEND\n")?;
    assert_eq!(rt;
        (one.level(Site::A), one.level(Site::B)),
        (Level::One, Level::One)
    );
    let (two, _) = read_test(rt.alloc(), b"XRF 2\nLEVEL B 1\nCHOICES\nEND\n")?;
    assert_eq!(rt;
        (two.level(Site::A), two.level(Site::B)),
        (Level::Two, Level::One)
    );
    assert!(rt; !two.xrfsoff_force());
    Ok(())
}
