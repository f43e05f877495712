//! What the availability manager asks of a control record.

ghost use Rattle.std.specs.Prelude.{◌≡◌};
ghost use Rattle.xrf_cavm.specs.Record.{inc_of_owner, inc_of_alt, is_owner, is_alt, owner_is, owner_may_run, alt_may_run};

use crate::known::Known;
use xrf_base::Inc;
use xrf_ctl::{Control, OwnerState};

/// The owner's incarnation, 0 where there is no owner.
pub fn inc_of_owner(control: &Control) -> Inc
    ensures { result ≡ inc_of_owner control.now.owner }
{
    match control.owner() {
        None => 0,
        Some(owner) => owner.inc,
    }
}

/// The alternate's incarnation, 0 where there is no alternate.
pub fn inc_of_alt(control: &Control) -> Inc
    ensures { result ≡ inc_of_alt control.now.alt }
{
    match control.alt() {
        None => 0,
        Some(alt) => alt.inc,
    }
}

pub fn is_owner(control: &Control, inc: Inc) -> bool
    ensures { result ≡ is_owner control.now inc }
{
    control.owner().is_some() && inc_of_owner(control) == inc
}

pub fn is_alt(control: &Control, inc: Inc) -> bool
    ensures { result ≡ is_alt control.now inc }
{
    control.alt().is_some() && inc_of_alt(control) == inc
}

pub fn owner_is(control: &Control, state: OwnerState) -> bool
    ensures { result ≡ owner_is control.now state }
{
    match control.owner() {
        None => false,
        Some(owner) => owner.state == state,
    }
}

/// The owner is Running, and nobody has confirmed that it ended.
pub fn owner_may_run(control: &Control, known: Known) -> bool
    ensures { result ≡ owner_may_run control.now known }
{
    owner_is(control, OwnerState::Running) && !known.owner
}

/// There is an alternate, and nobody has confirmed that it ended.
pub fn alt_may_run(control: &Control, known: Known) -> bool
    ensures { result ≡ alt_may_run control.now known }
{
    control.alt().is_some() && !known.alt
}
