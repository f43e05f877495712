//! The grants of sign-on.

ghost use Rattle.std.specs.Prelude.{◌≡◌, ◌<◌};
ghost use Rattle.xrf_cavm.specs.Grants.{is_foreign, owner_format, is_at, grant_active, grant_standby, GivesControl};

use crate::known::Known;
use crate::record::{alt_may_run, inc_of_alt, inc_of_owner, owner_is, owner_may_run};
use xrf_base::{Inc, Site};
use xrf_ctl::{Alt, Control, Level, Owner, OwnerState};

/// What a region that signs on is answered.
#[derive(Clone, Copy)]
pub enum Grant {
    /// It may sign on, by writing this record.
    Granted(Control),
    /// This incarnation stands in the way.
    Present(Inc),
    /// There is no running owner to stand by for.
    NoActive,
    /// The record has a format that the region does not know.
    Format,
}

fn is_foreign(level: Level, format: u16) -> bool
    ensures { result ≡ is_foreign level format }
{
    match level {
        Level::One => format == 2,
        Level::Two => false,
    }
}

/// The format of a record by which a region of this level becomes owner.
pub fn owner_format(level: Level, format: u16) -> u16
    ensures { result ≡ owner_format level format }
{
    match level {
        Level::One => format,
        Level::Two => 2,
    }
}

fn is_at(owner: Option<Owner>, site: Site) -> bool
    ensures { result ≡ is_at owner site }
{
    match owner {
        None => false,
        Some(owner) => owner.site == site,
    }
}

/// Whether a region may sign on as active at a site, and by which record.
pub fn grant_active(control: &Control, site: Site, known: Known, level: Level) -> Grant
    requires { control.now.last < 4294967295 }
    ensures grant { result ≡ grant_active control.now site known level }
    ensures control { GivesControl result }
{
    let format = control.format();
    if is_foreign(level, format) {
        return Grant::Format;
    }
    if owner_may_run(control, known) {
        return Grant::Present(inc_of_owner(control));
    }
    if alt_may_run(control, known) {
        return Grant::Present(inc_of_alt(control));
    }
    let inc = control.last() + 1;
    let owner = Owner {
        inc,
        site,
        state: OwnerState::Running,
    };
    let record = Control::make(owner_format(level, format), inc, Some(owner), None, None);
    Grant::Granted(record.unwrap())
}

/// Whether a region may sign on to stand by at a site, and by which record.
pub fn grant_standby(control: &Control, site: Site, known: Known, level: Level) -> Grant
    requires { control.now.last < 4294967295 }
    ensures grant { result ≡ grant_standby control.now site known level }
    ensures control { GivesControl result }
{
    let format = control.format();
    if is_foreign(level, format) {
        return Grant::Format;
    }
    if !owner_is(control, OwnerState::Running) {
        return Grant::NoActive;
    }
    let owner = control.owner();
    if is_at(owner, site) {
        return Grant::Present(inc_of_owner(control));
    }
    if alt_may_run(control, known) {
        return Grant::Present(inc_of_alt(control));
    }
    let inc = control.last() + 1;
    let record = Control::make(format, inc, owner, Some(Alt { inc, site }), None);
    Grant::Granted(record.unwrap())
}
