//! The new records of the other control writes.

ghost use Rattle.std.specs.Prelude.{◌≡◌, IfSome};
ghost use Rattle.xrf_ctl.specs.Control.{IsControl};
ghost use Rattle.xrf_cavm.specs.Writes.{with_state, as_owner, sign_off, start_takeover, let_through, leave, drop_alternate, WritesControl};

use crate::grants::owner_format;
use crate::known::Known;
use crate::record::{is_alt, is_owner, owner_is, owner_may_run};
use xrf_base::Inc;
use xrf_ctl::{Alt, Cause, Control, Level, Owner, OwnerState, Taking};

fn with_state(state: OwnerState, owner: Option<Owner>) -> Option<Owner>
    ensures { result ≡ with_state state owner }
{
    match owner {
        None => None,
        Some(owner) => Some(Owner { state, ..owner }),
    }
}

fn as_owner(alt: Option<Alt>) -> Option<Owner>
    ensures { result ≡ as_owner alt }
{
    match alt {
        None => None,
        Some(Alt { inc, site }) => Some(Owner {
            inc,
            site,
            state: OwnerState::Running,
        }),
    }
}

/// The record by which the owner signs off, None where another or nobody is the owner.
pub fn sign_off(control: &Control, me: Inc, state: OwnerState) -> Option<Control>
    ensures record { result ≡ sign_off control.now me state }
    ensures control { IfSome result IsControl }
{
    if !is_owner(control, me) {
        return None;
    }
    let owner = with_state(state, control.owner());
    Control::make(
        control.format(),
        control.last(),
        owner,
        control.alt(),
        control.taking(),
    )
}

/// The record by which the alternate starts its takeover, None where another or nobody is the
/// alternate, or the owner signed off normally.
pub fn start_takeover(control: &Control, me: Inc, cause: Cause) -> Option<Control>
    ensures record { result ≡ start_takeover control.now me cause }
    ensures control { IfSome result IsControl }
{
    if !is_alt(control, me) || owner_is(control, OwnerState::OffNormal) {
        return None;
    }
    let taking = Some(Taking { inc: me, cause });
    Control::make(
        control.format(),
        control.last(),
        control.owner(),
        control.alt(),
        taking,
    )
}

/// The record by which the alternate becomes the owner, None where another or nobody is the
/// alternate, no takeover was started, or the owner may still be at work.
pub fn let_through(control: &Control, me: Inc, known: Known, level: Level) -> Option<Control>
    ensures record { result ≡ let_through control.now me known level }
    ensures control { IfSome result IsControl }
{
    if !is_alt(control, me) || control.taking().is_none() || owner_may_run(control, known) {
        return None;
    }
    let format = owner_format(level, control.format());
    let owner = as_owner(control.alt());
    Control::make(format, control.last(), owner, None, None)
}

/// The record by which the alternate leaves, None where another or nobody is the alternate.
pub fn leave(control: &Control, me: Inc) -> Option<Control>
    ensures record { result ≡ leave control.now me }
    ensures control { IfSome result IsControl }
{
    if !is_alt(control, me) {
        return None;
    }
    Control::make(
        control.format(),
        control.last(),
        control.owner(),
        None,
        None,
    )
}

/// What an owner finds that wants to drop its alternate.
#[derive(Clone, Copy)]
pub enum Dropping {
    /// The alternate is there: this record drops it.
    Write(Control),
    /// Another or nobody is the alternate.
    Gone,
    /// A takeover was started.
    Taken,
}

/// How the owner drops this alternate.
pub fn drop_alternate(control: &Control, alt: Inc) -> Dropping
    ensures dropping { result ≡ drop_alternate control.now alt }
    ensures control { WritesControl result }
{
    if control.taking().is_some() {
        return Dropping::Taken;
    }
    if !is_alt(control, alt) {
        return Dropping::Gone;
    }
    let record = Control::make(
        control.format(),
        control.last(),
        control.owner(),
        None,
        None,
    );
    Dropping::Write(record.unwrap())
}
