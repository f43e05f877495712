//! The settings that a job is started with.

ghost use Rattle.std.specs.Prelude.{◌≡◌};
ghost use Rattle.xrf_trace.specs.Scenario.{settings};

use xrf_base::Site;
use xrf_history::Settings;
use xrf_setup::Scenario;

/// The settings of a job at a site.
pub(crate) fn settings_of(scenario: &Scenario, site: Site) -> Settings
    ensures { result ≡ settings scenario.now site }
{
    let lines = scenario.clt().count_for(scenario.applid(site));
    Settings {
        site,
        limits: scenario.limits(),
        takeovr: scenario.takeovr(),
        adi: scenario.adi(),
        pdi: scenario.pdi(),
        clt_lines: lines as u16,
        level: scenario.level(site),
        force: scenario.xrfsoff_force(),
    }
}
