//! The rule that every control record keeps, part by part: each incarnation that is there is from 1
//! to the last that was given. An alternate needs an owner, another incarnation than the owner's and
//! the other site. A taking needs an alternate and has its incarnation.

ghost use Rattle.std.specs.Prelude.{◌≡◌, ◌≤◌, ◌↔◌, IsTrue};
ghost use Rattle.xrf_ctl.specs.Control.{IsFormat, IsGiven, OwnerFits, AltFits, TakingFits};

use crate::parts::{Alt, Owner, Taking};
use xrf_base::Inc;

pub fn is_format(format: u16) -> bool
    ensures { IsTrue result ↔ IsFormat format }
{
    format == 1 || format == 2
}

fn is_given(last: Inc, inc: Inc) -> bool
    ensures { IsTrue result ↔ IsGiven last inc }
{
    1 <= inc && inc <= last
}

pub fn owner_fits(last: Inc, owner: Option<Owner>) -> bool
    ensures { IsTrue result ↔ OwnerFits last owner }
{
    match owner {
        None => true,
        Some(owner) => is_given(last, owner.inc),
    }
}

pub fn alt_fits(last: Inc, owner: Option<Owner>, alt: Option<Alt>) -> bool
    ensures { IsTrue result ↔ AltFits last owner alt }
{
    match (owner, alt) {
        (_, None) => true,
        (None, Some(_)) => false,
        (Some(owner), Some(alt)) => {
            is_given(last, alt.inc) && alt.inc != owner.inc && alt.site != owner.site
        }
    }
}

pub fn taking_fits(last: Inc, alt: Option<Alt>, taking: Option<Taking>) -> bool
    ensures { IsTrue result ↔ TakingFits last alt taking }
{
    match (alt, taking) {
        (_, None) => true,
        (None, Some(_)) => false,
        (Some(alt), Some(taking)) => is_given(last, taking.inc) && taking.inc == alt.inc,
    }
}
