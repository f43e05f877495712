//! What kind of act a want is.

ghost use Rattle.std.specs.Prelude.{◌≡◌, None};
ghost use Rattle.xrf_history.specs.Answers.{may_fail};
ghost use Rattle.xrf_world.specs.Wants.{while_left, may_make, is_signal, torn_size, is_write, act_of_want};

use xrf_history::Want;
use xrf_trace::Act;

/// Whether it is an act that may be made, the reserve being free or not and an item being left or not.
pub(crate) fn may_make(is_free: bool, is_left: bool, want: &Want) -> bool
    ensures { result ≡ may_make is_free (while_left want.now is_left) }
{
    match want {
        Want::Nothing => false,
        Want::Exit(_) => false,
        Want::Reserve => is_free,
        Want::Item => is_left,
        _ => true,
    }
}

/// Whether it is a signal.
pub(crate) fn is_signal(want: &Want) -> bool
    ensures { result ≡ is_signal want.now }
{
    match want {
        Want::Signal1(_) => true,
        Want::Signal2(_) => true,
        _ => false,
    }
}

/// How many bytes it has, where it is a write that may be torn.
pub(crate) fn torn_size(want: &Want) -> Option<usize>
    ensures { result ≡ torn_size want.now }
{
    match want {
        Want::MsgClose(_) => Some(1),
        Want::MsgBody(_, _) => Some(63),
        Want::MsgOpen(_, _) => Some(1),
        Want::LogClose(_) => Some(1),
        Want::LogBody(_, _) => Some(63),
        Want::LogOpen(_, _) => Some(1),
        Want::KpClose(_) => Some(1),
        Want::KpBody(_, _) => Some(63),
        Want::KpOpen(_, _) => Some(1),
        Want::FileWrite(_, _, _) => Some(32),
        Want::Undo(_, _) => Some(32),
        _ => None,
    }
}

/// Whether it writes a data set.
pub(crate) fn is_write(want: &Want) -> bool
    ensures { result ≡ is_write want.now }
{
    match want {
        Want::CtlWrite(_) => true,
        Want::Signal1(_) => true,
        Want::Signal2(_) => true,
        other => torn_size(other).is_some(),
    }
}

/// Whether it may fail.
pub(crate) fn may_fail(want: &Want) -> bool
    ensures { result ≡ may_fail want.now }
{
    match want {
        Want::MsgRead(_) => true,
        Want::LogRead(_) => true,
        Want::LogLook(_) => true,
        Want::KpRead(_) => true,
        Want::FileRead(_) => true,
        other => torn_size(other).is_some(),
    }
}

/// The act that it is. An ITEM has no number yet, and a DECIDE no decision.
pub(crate) fn act_of_want(want: &Want) -> Act
    ensures { result ≡ act_of_want 0 None want.now }
{
    match *want {
        Want::Nothing => Act::NoAct,
        Want::Exit(_) => Act::NoAct,
        Want::Reserve => Act::Reserve,
        Want::CtlRead => Act::CtlRead,
        Want::CtlWrite(written) => Act::CtlWrite(written),
        Want::Release => Act::Release,
        Want::Signal1(signal) => Act::Signal1(signal),
        Want::Signal2(signal) => Act::Signal2(signal),
        Want::Look1 => Act::Look1,
        Want::Look2 => Act::Look2,
        Want::Decide => Act::NoAct,
        Want::MsgRead(k) => Act::MsgRead(k),
        Want::MsgClose(k) => Act::MsgClose(k),
        Want::MsgBody(k, message) => Act::MsgBody(k, message),
        Want::MsgOpen(k, message) => Act::MsgOpen(k, message),
        Want::LogRead(block) => Act::LogRead(block),
        Want::LogLook(number) => Act::LogLook(number),
        Want::LogClose(number) => Act::LogClose(number),
        Want::LogBody(number, rec) => Act::LogBody(number, rec),
        Want::LogOpen(number, rec) => Act::LogOpen(number, rec),
        Want::KpRead(k) => Act::KpRead(k),
        Want::KpClose(k) => Act::KpClose(k),
        Want::KpBody(k, keypoint) => Act::KpBody(k, keypoint),
        Want::KpOpen(k, keypoint) => Act::KpOpen(k, keypoint),
        Want::FileRead(k) => Act::FileRead(k),
        Want::FileWrite(unit, k, value) => Act::FileWrite(unit, k, value),
        Want::Undo(k, before) => Act::Undo(k, before),
        Want::Item => Act::Item(0),
        Want::Clt(line) => Act::Clt(line),
        Want::Restarted => Act::Restarted,
        Want::Ended(why) => Act::Ended(why),
    }
}
