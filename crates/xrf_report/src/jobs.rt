//! How the lines of jobs are written.

ghost use Rattle.std.specs.Prelude.{◌≡◌, ◌++◌, OnOk};
ghost use Rattle.std.specs.Fmt.{decimal};
ghost use Rattle.xrf_report.specs.Jobs.{job_text, job_line};
ghost use Rattle.xrf_report.specs.Fits.{Is32};
ghost use Rattle.xrf_report.specs.ReportFits.{JobFits};

use crate::words::{digits, put_word};
use Piece::Text;
use std::alloc::AllocError;
use xrf_base::{Inc, Site};
use xrf_grammar::writing::{Piece, put, site_word};
use xrf_world::JobState;

fn put_of_inc(out: &mut Vec<u8>, inc: Inc, word: &[u8]) -> Result<(), AllocError>
    ensures text { OnOk result (out.new.items ≡ out.old.items ++ decimal inc ++ word.now) }
    ensures fits { OnOk result (Is32 inc) }
{
    put(out, &[digits(inc), Text(word)])
}

fn put_job(out: &mut Vec<u8>, job: JobState) -> Result<(), AllocError>
    ensures text { OnOk result (out.new.items ≡ out.old.items ++ job_text job) }
    ensures fits { OnOk result (JobFits job) }
{
    match job {
        JobState::Absent => put_word(out, b"NONE"),
        JobState::Starting => put_word(out, b"0 STARTING"),
        JobState::Restarting(inc) => put_of_inc(out, inc, b" RESTARTING"),
        JobState::Active(inc) => put_of_inc(out, inc, b" ACTIVE"),
        JobState::Tracking(inc) => put_of_inc(out, inc, b" TRACKING"),
        JobState::Waiting(inc) => put_of_inc(out, inc, b" WAITING"),
        JobState::Ending(inc) => put_of_inc(out, inc, b" ENDING"),
    }
}

/// Appends the line of the job at a site.
pub(crate) fn put_job_line(out: &mut Vec<u8>, site: Site, job: JobState) -> Result<(), AllocError>
    ensures text { OnOk result (out.new.items ≡ out.old.items ++ job_line site job) }
    ensures fits { OnOk result (JobFits job) }
{
    put(out, &[Text(b"* JOB "), Text(site_word(site)), Text(b" ")])?;
    put_job(out, job)?;
    put_word(out, b"\n")
}
