//! What an overseer sees of a pair, and what it may be advised.

ghost use Rattle.std.specs.Prelude.{◌≡◌, ◌<◌, ◌&&◌, not};
ghost use Rattle.xrf_overseer.specs.Views.{has_job, level_seen, grants, active_grant, standby_grant, has_number, advised};

use xrf_base::Site;
use xrf_cavm::{Grant, Known, grant_active, grant_standby};
use xrf_ctl::{Control, Level};

/// A pair as the overseer sees it: its control record, what of it is confirmed, whether a job is at each site, and
/// the level of each site.
#[derive(Clone, Copy)]
pub struct PairView {
    pub control: Control,
    pub known: Known,
    pub job_a: bool,
    pub job_b: bool,
    pub level_a: Level,
    pub level_b: Level,
}

/// What a policy advises for a pair.
#[derive(Clone, Copy, Debug, PartialEq, Eq)]
pub enum Advice {
    /// The pair is left as it is.
    Leave,
    /// A job is started as active at a site.
    StartActive(Site),
    /// A job is started to stand by at a site.
    StartStandby(Site),
}

impl PairView {
    /// Whether a job is at a site.
    pub fn has_job(&self, site: Site) -> bool
        ensures { result ≡ has_job self.now site }
    {
        match site {
            Site::A => self.job_a,
            Site::B => self.job_b,
        }
    }

    /// The level of a site.
    pub fn level(&self, site: Site) -> Level
        ensures { result ≡ level_seen self.now site }
    {
        match site {
            Site::A => self.level_a,
            Site::B => self.level_b,
        }
    }

    fn has_number(&self) -> bool
        ensures { result ≡ has_number self.now }
    {
        self.control.last() < 4294967295
    }
}

fn grants(grant: Grant) -> bool
    ensures { result ≡ grants grant }
{
    match grant {
        Grant::Granted(_) => true,
        _ => false,
    }
}

fn may_start(view: &PairView, site: Site) -> bool
    ensures { result ≡ (not (has_job view.now site) && has_number view.now) }
{
    !view.has_job(site) && view.has_number()
}

/// Whether an advice may be followed: to leave the pair, always; a start where no job is at the site, a number is
/// left, and the job would be granted now. It takes no memory.
pub fn advised(view: &PairView, advice: Advice) -> bool
    ensures { result ≡ advised view.now advice }
{
    match advice {
        Advice::Leave => true,
        Advice::StartActive(site) => {
            if !may_start(view, site) {
                return false;
            }
            grants(grant_active(&view.control, site, view.known, view.level(site)))
        }
        Advice::StartStandby(site) => {
            if !may_start(view, site) {
                return false;
            }
            grants(grant_standby(&view.control, site, view.known, view.level(site)))
        }
    }
}
