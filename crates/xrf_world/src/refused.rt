//! Why a choice is refused.

ghost use Rattle.std.specs.Prelude.{◌≡◌, ◌==◌, length};
ghost use Rattle.xrf_trace.specs.Refusals.{unless, torn_refusal, exit_refusal};
ghost use Rattle.xrf_world.specs.Wants.{stop_refusal, fail_refusal};

use crate::wants::{is_write, may_fail, torn_size};
use xrf_exit::{ExitAnswer, Notice, allowed};
use xrf_history::Want;
use xrf_setup::{Landing, TornBytes};
use xrf_trace::Refused;

/// Refused with this reason where a test is not met.
pub(crate) fn unless(is_met: bool, reason: Refused) -> Option<Refused>
    ensures { result ≡ unless is_met reason }
{
    if is_met { None } else { Some(reason) }
}

fn torn_refused(torn: &TornBytes, size: Option<usize>) -> Option<Refused>
    ensures { result ≡ torn_refusal torn.now size }
{
    match size {
        None => Some(Refused::NotEnabled),
        Some(size) => unless(torn.bytes().len() == size, Refused::TornLength),
    }
}

/// The refusal of a STOP, where a job is there or not that wants this.
pub(crate) fn stop_refused(landing: &Landing, has_job: bool, want: &Want) -> Option<Refused>
    ensures { result ≡ stop_refusal landing.now has_job want.now }
{
    match landing {
        Landing::Nothing => unless(has_job, Refused::NotEnabled),
        Landing::All => unless(is_write(want), Refused::NotEnabled),
        Landing::Torn(torn) => torn_refused(torn, torn_size(want)),
    }
}

/// The refusal of a FAIL of a job that wants this.
pub(crate) fn fail_refused(landing: &Landing, want: &Want) -> Option<Refused>
    ensures { result ≡ fail_refusal landing.now want.now }
{
    match landing {
        Landing::Nothing => unless(may_fail(want), Refused::NotEnabled),
        Landing::All => unless(torn_size(want).is_some(), Refused::NotEnabled),
        Landing::Torn(torn) => torn_refused(torn, torn_size(want)),
    }
}

/// The refusal of an EXIT where this notice is pending, or none is.
pub(crate) fn exit_refused(notice: Option<Notice>, said: ExitAnswer) -> Option<Refused>
    ensures { result ≡ exit_refusal notice said }
{
    match notice {
        None => Some(Refused::NotEnabled),
        Some(notice) => unless(allowed(notice, said), Refused::NotAllowed),
    }
}
