ghost use Rattle.std.specs.Prelude.{◌≤◌, length};
ghost use Rattle.xrf_logrec.specs.LogRecords.{IsLogRecord};

use crate::{KeyBody, Keypoint, LogBody, LogRec};
use std::process::Abort;
use xrf_base::UnitId;
use xrf_gated::BodyRule;

const UNIT: UnitId = UnitId { inc: 1, serial: 1 };

/// The slot of a record with the value OLD.
fn old_image() -> [u8; 32] {
    let mut image = [b' '; 32];
    image[..8].copy_from_slice(b"\x01\0\0\0\0\0\0\0");
    image[8..11].copy_from_slice(b"OLD");
    image
}

/// The body that begins so, and is zero else.
fn body_of(front: &[u8]) -> [u8; 63]
    requires { length front.now ≤ 63 }
{
    let mut body = [0; 63];
    body[..front.len()].copy_from_slice(front);
    body
}

/// The record has this body at this place, both ways.
fn assert_spelled(rt: &impl Abort, rec: LogRec, place: u32, body: [u8; 63])
    requires { IsLogRecord rec }
{
    assert!(rt; rec.write(place) == body, "written at {place}");
    assert!(rt;
        LogRec::read(&body) == Some((place, rec)),
        "read at {place}"
    );
    assert!(rt; LogBody::whole(&body));
}

#[test]
fn a_put_has_its_image(rt: HostRuntime) {
    let put = LogRec::Put {
        unit: UNIT,
        rrn: 1,
        before: old_image(),
    };
    let mut body = body_of(b"\x01\0\0\0\0\0\0\0\x01\0\0\0\x01\0\x01");
    body[15..47].copy_from_slice(&old_image());
    assert_spelled(&rt, put, 0, body);
}

#[test]
fn an_end_has_its_unit(rt: HostRuntime) {
    let commit = body_of(b"\x02\0\0\0\x02\0\0\0\x01\0\0\0\x01");
    assert_spelled(&rt, LogRec::Commit { unit: UNIT }, 2, commit);
    let backout = body_of(b"\x03\x01\x02\x03\x04\0\0\0\x01\0\0\0\x01");
    assert_spelled(&rt, LogRec::Backout { unit: UNIT }, 0x0102_0304, backout);
}

#[test]
fn what_is_no_record_is_not_read(rt: HostRuntime) {
    let fronts: [&[u8]; 6] = [
        b"",
        b"\x04\0\0\0\x02\0\0\0\x01\0\0\0\x01",
        b"\x02\0\0\0\x02\0\0\0\0\0\0\0\x01",
        b"\x02\0\0\0\x02\0\0\0\x01\0\0\0\0",
        b"\x02\0\0\0\x02\0\0\0\x01\0\0\0\x01\0\x01",
        b"\x01\0\0\0\x02\0\0\0\x01\0\0\0\x01\0\0",
    ];
    for front in fronts {
        assert!(rt; front.len() <= 63);
        let body = body_of(front);
        assert!(rt;
            LogRec::read(&body).is_none() && !LogBody::whole(&body),
            "{front:?}"
        );
    }
}

#[test]
fn a_keypoint_has_one_body(rt: HostRuntime) {
    let keypoint = Keypoint {
        number: 3,
        start: 65535,
    };
    let body = body_of(b"\x04\0\0\0\x03\0\0\xff\xff");
    assert!(rt; keypoint.write() == body);
    assert!(rt; Keypoint::read(&body) == Some(keypoint) && KeyBody::whole(&body));
    for front in [
        b"\x04\0\0\0\0\0\0\xff\xff",
        b"\x04\0\0\0\x03\0\x01\0\0",
        b"\x03\0\0\0\x03\0\0\xff\xff",
    ] {
        let body = body_of(front);
        assert!(rt; Keypoint::read(&body).is_none() && !KeyBody::whole(&body));
    }
}
