//! The report of a run: its acts, the answers of the items, and what stands in the end.

ghost use Rattle.std.specs.Prelude.{◌≡◌, ◌++◌, OnOk};
ghost use Rattle.xrf_report.specs.Files.{file_text};
ghost use Rattle.xrf_report.specs.Fits.{RecordsFit};
ghost use Rattle.xrf_report.specs.Report.{taken_text, table_of_site, standing_text, images_if, report};
ghost use Rattle.xrf_report.specs.ReportFits.{TakenFit, TableFits, StandingFits, ImagesFitIf, ReportFits};
ghost use Rattle.xrf_world.specs.Report.{table_at};
ghost use Rattle.xrf_trace.specs.Devices.{image};

use crate::entries::put_acts;
use crate::files::put_file;
use crate::images::put_images;
use crate::items::put_item_line;
use crate::jobs::put_job_line;
use crate::standing::{put_control_line, put_done_line, put_log_line, put_tick_line};
use crate::terminals::put_rows;
use std::alloc::{AllocError, Global};
use xrf_base::Site;
use xrf_setup::Scenario;
use xrf_world::World;

// all items that a site has taken
fn put_taken(out: &mut Vec<u8>, world: &World, site: Site) -> Result<(), AllocError>
    ensures text { OnOk result (out.new.items ≡ out.old.items ++ taken_text world.now.scenario world.now.trace site) }
    ensures fits { OnOk result (TakenFit world.now.scenario world.now.trace site) }
{
    let count = world.item_count(site);
    for k in 0..count {
        put_item_line(out, site, k as u64 + 1, &world.item_state(site, k))?;
    }
    Ok(())
}

// the table of the job at a site, where one is there
fn put_table(
    out: &mut Vec<u8>,
    scenario: &Scenario,
    world: &World,
    site: Site,
) -> Result<(), AllocError>
    requires { world.now.scenario ≡ scenario.now }
    ensures text { OnOk result (out.new.items ≡ out.old.items ++ table_of_site scenario.now world.now.trace site) }
    ensures fits { OnOk result (TableFits (table_at scenario.now world.now.trace site)) }
{
    match world.table(site) {
        Some(table) => put_rows(out, scenario.format(), site, table),
        None => Ok(()),
    }
}

// tick, control record, jobs, terminal tables and log
fn put_standing(out: &mut Vec<u8>, scenario: &Scenario, world: &World) -> Result<(), AllocError>
    requires { world.now.scenario ≡ scenario.now }
    ensures text { OnOk result (out.new.items ≡ out.old.items ++ standing_text scenario.now world.now.trace) }
    ensures fits { OnOk result (StandingFits scenario.now world.now.trace) }
{
    put_tick_line(out, world.now())?;
    put_control_line(out, scenario.format(), &world.control())?;
    put_job_line(out, Site::A, world.job(Site::A))?;
    put_job_line(out, Site::B, world.job(Site::B))?;
    put_table(out, scenario, world, Site::A)?;
    put_table(out, scenario, world, Site::B)?;
    let log = world.log_counts();
    put_log_line(out, log.records, log.committed, log.flight)
}

fn put_records(out: &mut Vec<u8>, scenario: &Scenario, world: &World) -> Result<(), AllocError>
    requires { world.now.scenario ≡ scenario.now }
    ensures text { OnOk result (out.new.items ≡ out.old.items ++ file_text (image scenario.now world.now.trace) scenario.now.settings.file) }
    ensures fits { OnOk result (RecordsFit (image scenario.now world.now.trace) scenario.now.settings.file) }
{
    put_file(out, &world.data_sets().file, scenario.file())
}

// the data sets, where IMAGES is ON
fn put_images_if(out: &mut Vec<u8>, scenario: &Scenario, world: &World) -> Result<(), AllocError>
    requires { world.now.scenario ≡ scenario.now }
    ensures text { OnOk result (out.new.items ≡ out.old.items ++ images_if scenario.now.settings.images scenario.now world.now.trace) }
    ensures fits { OnOk result (ImagesFitIf scenario.now.settings.images scenario.now world.now.trace) }
{
    if scenario.images() {
        return put_images(out, scenario, world.data_sets());
    }
    Ok(())
}

/// Appends the report of a run of a scenario.
pub(crate) fn put_report(
    alloc: Global,
    out: &mut Vec<u8>,
    scenario: &Scenario,
    world: &World,
) -> Result<(), AllocError>
    requires { world.now.scenario ≡ scenario.now }
    ensures text { OnOk result (out.new.items ≡ out.old.items ++ report scenario.now world.now.trace) }
    ensures fits { OnOk result (ReportFits scenario.now world.now.trace) }
{
    put_acts(alloc, out, scenario, world.journal())?;
    put_taken(out, world, Site::A)?;
    put_taken(out, world, Site::B)?;
    put_standing(out, scenario, world)?;
    put_records(out, scenario, world)?;
    put_images_if(out, scenario, world)?;
    put_done_line(out)
}
