//! The policy that starts jobs in place.

ghost use Rattle.std.specs.Prelude.{◌≡◌, IsTrue, Some};
ghost use Rattle.xrf_ctl.specs.declared.parts.OwnerState.TheVariants.{Running};
ghost use Rattle.xrf_overseer.specs.Views.{advised, at_owner, if_advised, in_place};
ghost use Rattle.xrf_trace.specs.Scenario.{other};

use crate::view::{Advice, PairView, advised};
use xrf_base::Site;
use xrf_ctl::{Owner, OwnerState};

fn if_advised(view: &PairView, advice: Advice) -> Advice
    ensures gives { result ≡ if_advised view.now advice }
    ensures fits { IsTrue (advised view.now result) }
{
    if advised(view, advice) {
        advice
    } else {
        Advice::Leave
    }
}

fn other(site: Site) -> Site
    ensures { result ≡ other site }
{
    match site {
        Site::A => Site::B,
        Site::B => Site::A,
    }
}

fn at_owner(view: &PairView, owner: Owner) -> Advice
    requires { view.now.control.owner ≡ Some owner }
    ensures gives { result ≡ at_owner view.now (Some owner) }
    ensures fits { IsTrue (advised view.now result) }
{
    match owner.state {
        OwnerState::OffAbend => if_advised(view, Advice::StartActive(owner.site)),
        OwnerState::Running => beside(view, owner),
        _ => Advice::Leave,
    }
}

// beside an owner that is Running
fn beside(view: &PairView, owner: Owner) -> Advice
    requires there { view.now.control.owner ≡ Some owner }
    requires running { owner.state ≡ Running }
    ensures gives { result ≡ at_owner view.now (Some owner) }
    ensures fits { IsTrue (advised view.now result) }
{
    if view.known.owner {
        return if_advised(view, Advice::StartActive(owner.site));
    }
    if view.control.alt().is_some() && !view.known.alt {
        return Advice::Leave;
    }
    if_advised(view, Advice::StartStandby(other(owner.site)))
}

/// In place: an owner that signed off by an ABEND, or is Running and confirmed, is started again at its site. Beside
/// an owner that is Running, where the record has no alternate or a confirmed one, a standby is started at the other
/// site. What may not be started is left. It takes no memory.
pub fn in_place(view: &PairView) -> Advice
    ensures gives { result ≡ in_place view.now }
    ensures fits { IsTrue (advised view.now result) }
{
    match view.control.owner() {
        None => Advice::Leave,
        Some(owner) => at_owner(view, owner),
    }
}
