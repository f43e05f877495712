use crate::{Message, MsgBody, Reader, Writer};
use std::test::Fail;
use xrf_base::Name8;
use xrf_ctl::Signal;
use xrf_gated::BodyRule;

/// The body of USER 2 5 NET1 1 ON OPER, byte by byte.
fn user_body() -> [u8; 63] {
    let mut body = [0; 63];
    body[0] = 4;
    body[4] = 2;
    body[8] = 5;
    body[9..17].copy_from_slice(b"NET1    ");
    body[17] = 1;
    body[18] = 1;
    body[19..27].copy_from_slice(b"OPER    ");
    body
}

#[test]
fn bodies_are_read_and_written(rt: HostRuntime) -> Result<(), Fail> {
    let term = Name8::read(b"NET1").ok_or("no name")?;
    let user = Name8::read(b"OPER").ok_or("no name")?;
    let message = Message::User {
        epoch: 2,
        seq: 5,
        term,
        class: 1,
        on: true,
        user: Some(user),
    };
    assert!(rt; message.write() == user_body());
    assert!(rt; Message::read(&user_body()) == Some(message));
    let mut off = user_body();
    off[18] = 0;
    off[19..27].copy_from_slice(&[0; 8]);
    let message = Message::User {
        epoch: 2,
        seq: 5,
        term,
        class: 1,
        on: false,
        user: None,
    };
    assert!(rt; Message::read(&off) == Some(message));
    let mut begin = [0; 63];
    begin[0] = 1;
    begin[4] = 2;
    assert!(rt; Message::read(&begin) == Some(Message::Begin { epoch: 2 }));
    assert!(rt; Message::Begin { epoch: 2 }.write() == begin);
    Ok(())
}

#[test]
fn bodies_one_byte_away_are_no_messages(rt: HostRuntime) {
    // the place and the byte that is put there
    let table = [
        (0usize, 0u8),
        (0, 3),
        (0, 5),
        (4, 0),
        (8, 0),
        (9, b' '),
        (12, b'a'),
        (16, 0),
        (17, 0),
        (17, 3),
        (18, 0),
        (18, 2),
        (19, 0),
        (19, b' '),
        (26, 0),
        (27, 1),
        (62, 1),
    ];
    for (place, byte) in table {
        let mut body = user_body();
        if place < 63 {
            body[place] = byte;
        }
        assert!(rt; Message::read(&body).is_none(), "{place} {byte}");
        assert!(rt; !MsgBody::whole(&body));
    }
    assert!(rt; MsgBody::whole(&user_body()));
}

#[test]
fn a_message_is_taken_once_in_order(rt: HostRuntime) {
    let mut slot = [0; 64];
    slot[0] = 0xc1;
    slot[1] = 3;
    slot[5] = 7;
    slot[9] = 1;
    let end = Message::End { epoch: 7, seq: 1 };
    let mut reader = Reader {
        epoch: 7,
        expected: 1,
    };
    let mut other = Reader {
        epoch: 8,
        expected: 1,
    };
    assert!(rt; other.take(&slot).is_none());
    assert!(rt; reader.take(&slot) == Some(end));
    assert!(rt; reader.expected == 2);
    assert!(rt; reader.take(&slot).is_none());
    assert!(rt; reader.expected == 2);
    slot[0] = 0xc0;
    let mut again = Reader {
        epoch: 7,
        expected: 1,
    };
    assert!(rt; again.take(&slot).is_none());
}

#[test]
fn a_full_ring_waits_for_the_cursor(rt: HostRuntime) -> Result<(), Fail> {
    let mut writer = Writer {
        epoch: 7,
        seq: 2,
        cursor: 0,
    };
    assert!(rt; !writer.may_write(2));
    assert!(rt; writer.may_write(3));
    let mut sector = Signal {
        inc: 7,
        counter: 1,
        cursor: 3,
    };
    writer.heard(&sector);
    assert!(rt; writer.cursor == 0);
    sector.cursor = 1;
    writer.heard(&sector);
    assert!(rt; writer.cursor == 1);
    assert!(rt; writer.may_write(2));
    Ok(())
}
