ghost use Rattle.std.specs.Prelude.{◌≡◌, slice_index};

use crate::{BodyRule, Extent, GatePlan, OPEN, Slots, gate_plan};
use std::alloc::Global;
use std::process::Abort;
use std::test::Fail;

/// A rule of the tests' own: a body is whole where it begins with a 7.
#[derive(Drop)]
struct Sevens;

impl BodyRule for Sevens {
    ghost use Rattle.std.specs.Prelude.{◌==◌, slice_index};

    ghost is_whole = { λ body. slice_index body 0 == 7 };

    fn whole(body: &[u8; 63]) -> bool {
        body[0] == 7
    }
}

fn body_of(first: u8) -> [u8; 63]
    ensures { slice_index result 0 ≡ first }
{
    let mut body = [1; 63];
    body[0] = first;
    body
}

/// The slot has this gate, and where it is open its body is whole.
fn is_kept(slot: &[u8; 64], gate: u8) -> bool {
    slot[0] == gate && (gate != OPEN || slot[1] == 7)
}

/// Opens a slot with a whole body, closes it by this byte, and then lands a broken body.
fn close_by(rt: &impl Abort, alloc: Global, byte: u8) -> Result<(), Fail> {
    let mut slots = Slots::<Sevens>::new(alloc, 3)?;
    slots.land_body(1, &body_of(7));
    slots.land_gate(1, OPEN);
    assert!(rt; is_kept(&slots.slot(1), OPEN));
    slots.land_close(1, byte);
    assert!(rt; is_kept(&slots.slot(1), byte), "closed by {byte}");
    if byte != OPEN {
        slots.land_body(1, &body_of(8));
        slots.land_close(1, byte);
        slots.land_gate(1, byte);
        assert_eq!(rt; slots.slot(1)[1], 8);
        assert_eq!(rt; slots.gate(1), byte);
    }
    assert!(rt; slots.slot(0) == [0; 64] && slots.slot(2) == [0; 64]);
    Ok(())
}

/// Lands a whole body in a closed slot, and opens it by this byte.
fn open_by(rt: &impl Abort, alloc: Global, byte: u8) -> Result<(), Fail> {
    let mut slots = Slots::<Sevens>::new(alloc, 3)?;
    slots.land_body(1, &body_of(8));
    slots.land_body(1, &body_of(7));
    slots.land_gate(1, byte);
    assert!(rt; is_kept(&slots.slot(1), byte), "opened by {byte}");
    assert!(rt; slots.slot(0) == [0; 64] && slots.slot(2) == [0; 64]);
    Ok(())
}

#[test]
fn every_open_slot_is_whole(rt: HostRuntime) -> Result<(), Fail> {
    for byte in 0..=255 {
        close_by(&rt, rt.alloc(), byte)?;
        open_by(&rt, rt.alloc(), byte)?;
    }
    assert!(rt; Sevens::whole(&body_of(7)) && !Sevens::whole(&body_of(8)));
    Ok(())
}

#[test]
fn a_block_is_64_slots(rt: HostRuntime) -> Result<(), Fail> {
    let mut slots = Slots::<Sevens>::new(rt.alloc(), 128)?;
    slots.land_body(65, &body_of(7));
    slots.land_gate(65, OPEN);
    let mut block = [9; 4096];
    slots.block(1, &mut block);
    assert_eq!(rt; &block[0..3], [0, 0, 0].as_slice());
    assert_eq!(rt; &block[64..67], [OPEN, 7, 1].as_slice());
    assert_eq!(rt; &block[127..129], [1, 0].as_slice());
    Ok(())
}

#[test]
fn an_extent_lands_a_range(rt: HostRuntime) -> Result<(), Fail> {
    let mut extent = Extent::new(rt.alloc(), 8)?;
    extent.land(2, b"abc");
    let mut read = [9; 5];
    extent.read(1, &mut read);
    assert_eq!(rt; read, *b"\0abc\0");
    Ok(())
}

#[test]
fn an_open_slot_is_closed_first(rt: HostRuntime) {
    for gate in 0..=255 {
        assert_eq!(rt; gate_plan(gate) == GatePlan::CloseFirst, gate == 0xc1);
    }
}
