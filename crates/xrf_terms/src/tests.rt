use crate::{Applied, How, TermTable};
use std::test::Fail;
use xrf_base::{ItemAnswer, Name8};
use xrf_msg::Message;

fn name(text: &[u8]) -> Result<Name8, Fail> {
    Ok(Name8::read(text).ok_or("no name")?)
}

fn term(term: Name8, class: u8, on: bool) -> Message {
    Message::Term {
        epoch: 2,
        seq: 1,
        term,
        class,
        on,
    }
}

#[test]
fn the_row_of_a_new_terminal_finds_no_place_in_a_full_table(rt: HostRuntime) -> Result<(), Fail> {
    let mut table = TermTable::new(rt.alloc())?;
    for i in 0..64u8 {
        let text = [b'T', b'0' + i / 10, b'0' + i % 10];
        assert!(rt; table.apply(&term(name(&text)?, 1, true)) == Applied::Changed);
    }
    let last = name(b"T64")?;
    assert!(rt; table.apply(&term(last, 1, true)) == Applied::Full);
    assert!(rt; table.count() == 64);
    assert!(rt; table.logon(last, 3) == ItemAnswer::TermsFull);
    let first = name(b"T00")?;
    assert!(rt; table.apply(&term(first, 1, true)) == Applied::Same);
    assert!(rt; table.apply(&term(first, 2, true)) == Applied::Changed);
    assert!(rt; table.backup_count() == 63);
    assert!(rt; table.apply(&term(first, 2, false)) == Applied::Changed);
    assert!(rt; table.apply(&term(first, 2, false)) == Applied::Same);
    assert!(rt; table.apply(&term(last, 1, true)) == Applied::Changed);
    assert!(rt; table.apply(&Message::End { epoch: 2, seq: 9 }) == Applied::Same);
    assert!(rt; table.apply(&Message::Begin { epoch: 2 }) == Applied::Changed);
    assert!(rt; table.apply(&Message::Begin { epoch: 2 }) == Applied::Same);
    Ok(())
}

#[test]
fn each_item_has_its_answers(rt: HostRuntime) -> Result<(), Fail> {
    let mut table = TermTable::new(rt.alloc())?;
    let net = name(b"NET1")?;
    let other = name(b"NET10")?;
    let oper = name(b"OPER")?;
    assert!(rt; table.logoff(net) == ItemAnswer::NotOn);
    assert!(rt; table.signon(net, oper) == ItemAnswer::NotOn);
    assert!(rt; table.signoff(net) == ItemAnswer::NotOn);
    assert!(rt; table.logon(other, 3) == ItemAnswer::Done);
    assert!(rt; table.logon(net, 1) == ItemAnswer::Done);
    assert!(rt; table.logon(net, 2) == ItemAnswer::TermUsed);
    assert!(rt; table.signoff(net) == ItemAnswer::NoUser);
    assert!(rt; table.signon(net, oper) == ItemAnswer::Done);
    assert!(rt; table.signon(net, other) == ItemAnswer::UserOn);
    assert!(rt; table.count() == 2);
    let row = table.row(0);
    assert!(rt; row.term == net && row.class == 1 && row.how == How::On);
    assert!(rt; row.user == Some(oper));
    assert!(rt; table.row(1).term == other);
    assert!(rt; table.signoff(net) == ItemAnswer::Done);
    assert!(rt; table.logoff(net) == ItemAnswer::Done);
    assert!(rt; table.count() == 1);
    table.clear();
    assert!(rt; table.count() == 0);
    Ok(())
}

#[test]
fn tracked_rows_are_settled(rt: HostRuntime) -> Result<(), Fail> {
    let mut table = TermTable::new(rt.alloc())?;
    let user = name(b"OPER")?;
    for (text, class) in [(b"A", 1u8), (b"B", 2)] {
        let message = Message::User {
            epoch: 2,
            seq: 1,
            term: name(text)?,
            class,
            on: true,
            user: Some(user),
        };
        table.apply(&message);
    }
    table.logon(name(b"C")?, 1);
    table.settle(true);
    assert!(rt; table.count() == 3);
    assert!(rt; table.row(0).how == How::Switched && table.row(0).user.is_none());
    assert!(rt; table.row(1).how == How::Acquired && table.row(1).user.is_none());
    assert!(rt; table.row(2).how == How::On);
    Ok(())
}
