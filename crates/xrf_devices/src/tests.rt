ghost use Rattle.std.specs.Prelude.{◌≡◌, ◌<◌, length};
ghost use Rattle.xrf_devices.specs.Writing.{IsOpened};
ghost use Rattle.xrf_gated.specs.Slots.{slot_of};

use crate::control::{first_ctl, land_control};
use crate::file::first_file;
use crate::signals::{land_signal1, land_signal2, read_signal1};
use crate::slots::{open_slot, write_body};
use std::alloc::{AllocError, Global};
use std::test::Fail;
use xrf_base::{Site, UnitId, Value};
use xrf_ctl::{Control, Owner, OwnerState, Signal};
use xrf_gated::{BodyRule, Extent, Slots};
use xrf_logrec::{LogBody, LogRec};
use xrf_trace::{Act, Land, Who};

// 1 at A, running
fn signed_on() -> Option<Control> {
    let owner = Owner {
        inc: 1,
        site: Site::A,
        state: OwnerState::Running,
    };
    Control::make(1, 1, Some(owner), None, None)
}

fn first_signal() -> Signal {
    Signal {
        inc: 1,
        counter: 1,
        cursor: 0,
    }
}

// its spelling: XSIG, the incarnation 1, the counter 1, the cursor 0, and zero
fn sector() -> [u8; 64] {
    let mut bytes = [0; 64];
    bytes[0] = b'X';
    bytes[1] = b'S';
    bytes[2] = b'I';
    bytes[3] = b'G';
    bytes[7] = 1;
    bytes[15] = 1;
    bytes
}

// opens slot k with this body, if it is whole
fn log_open(slots: &mut Slots<LogBody>, k: usize, body: &[u8; 63])
    requires place { k < length slots.old }
    requires closed { ¬ IsOpened (slot_of slots.old k) }
    ensures { length slots.new ≡ length slots.old }
{
    write_body(slots, k, body, &Land::Full);
    if LogBody::whole(body) {
        open_slot(slots, k, &Land::Full);
    }
}

#[test]
fn the_control_record_has_its_bytes(rt: HostRuntime) -> Result<(), Fail> {
    let mut ctl = first_ctl(rt.alloc())?;
    let mut head = [9; 32];
    ctl.read(0, &mut head);
    let empty = [
        0x58, 0x43, 0x54, 0x4c, 0, 1, 0, 0, 0, 0, 0, 0, 0, 0, 0, 0, 0, 0, 0, 0, 0, 0, 0, 0, 0, 0,
        0, 0, 0, 0, 0, 0,
    ];
    assert_eq!(rt; head, empty);
    let control = signed_on().ok_or("the rule is kept")?;
    land_control(&mut ctl, &Act::CtlWrite(control), &Land::Full);
    ctl.read(0, &mut head);
    let owned = [
        0x58, 0x43, 0x54, 0x4c, 0, 1, 0, 0, 0, 0, 0, 1, 1, 0, 0, 0, 0, 0, 0, 1, 0, 0, 0, 0, 0, 0,
        0, 0, 0, 0, 0, 0,
    ];
    assert_eq!(rt; head, owned);
    Ok(())
}

#[test]
fn a_signal_has_its_bytes_in_both_sectors(rt: HostRuntime) -> Result<(), Fail> {
    let mut ctl = first_ctl(rt.alloc())?;
    let mut signals = Extent::new(rt.alloc(), 128)?;
    let signal = first_signal();
    land_signal1(&mut ctl, Who::B, &Act::Signal1(signal), &Land::Lost);
    assert!(rt; read_signal1(&ctl, Site::B).is_none());
    land_signal1(&mut ctl, Who::A, &Act::Signal1(signal), &Land::Full);
    land_signal2(&mut signals, Who::A, &Act::Signal2(signal), &Land::Full);
    let mut bytes = [9; 64];
    ctl.read(256, &mut bytes);
    assert!(rt; bytes == sector());
    signals.read(0, &mut bytes);
    assert!(rt; bytes == sector());
    ctl.read(320, &mut bytes);
    assert!(rt; bytes == [0; 64]);
    Ok(())
}

#[test]
fn a_first_record_has_its_bytes(rt: HostRuntime) -> Result<(), Fail> {
    let amber = Value::read(b"AMBER").ok_or("a value")?;
    let file = first_file(rt.alloc(), 2, &[(2, amber)])?;
    let mut slot = [9; 32];
    file.read(32, &mut slot);
    assert_eq!(rt; slot, *b"\x01\0\0\0\0\0\0\0AMBER                   ");
    file.read(0, &mut slot);
    assert_eq!(rt; slot, [0; 32]);
    Ok(())
}

// the open slot of a record of unit 1.1 at a place, with nothing after the unit
fn opened(kind: u8, place: u8) -> [u8; 64] {
    let mut bytes = [0; 64];
    bytes[0] = 0xc1;
    bytes[1] = kind;
    bytes[5] = place;
    bytes[9] = 1;
    bytes[13] = 1;
    bytes
}

fn slot_with(alloc: Global, k: usize, body: &[u8; 63]) -> Result<[u8; 64], AllocError>
    requires { k < 64 }
{
    let mut log = Slots::<LogBody>::new(alloc, 64)?;
    log_open(&mut log, k, body);
    Ok(log.slot(k))
}

#[test]
fn a_put_has_its_bytes(rt: HostRuntime) -> Result<(), Fail> {
    let before = *b"\x01\0\0\0\0\0\0\0OLD                     ";
    let put = LogRec::Put {
        unit: UnitId { inc: 1, serial: 1 },
        rrn: 1,
        before,
    };
    let mut wanted = opened(1, 0);
    wanted[15] = 1;
    wanted[16..48].copy_from_slice(&before);
    let slot = slot_with(rt.alloc(), 0, &put.write(0))?;
    assert!(rt; slot == wanted);
    Ok(())
}

#[test]
fn a_commit_has_its_bytes(rt: HostRuntime) -> Result<(), Fail> {
    let commit = LogRec::Commit {
        unit: UnitId { inc: 1, serial: 1 },
    };
    let slot = slot_with(rt.alloc(), 2, &commit.write(2))?;
    assert!(rt; slot == opened(2, 2));
    Ok(())
}
