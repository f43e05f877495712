//! The scenario: settings, first records, the command list, the work of both sites, a plan, and the
//! choices of a run; and the text that spells them.
#![tactic(auto)]

mod canonical;
mod given;
mod last_choice;
mod level;
mod lines;
mod numbered;
mod read_bad;
mod reading;
mod section;
mod setting;
mod settled;
mod stepping;
mod stop;
mod taking;
mod text;

pub use canonical::{put_canonical, put_scenario, read_again, settings_are_lines, write};
pub use lines::{bytes_fault, is_report, is_skipped, next_line};
pub use numbered::Numbered;
pub use read_bad::ReadBad;
pub use reading::Reading;
pub use section::Section;
pub use stop::Stop;
pub use text::{one_reading, read, scenario_of};
pub use xrf_grammar::Reason;
pub use xrf_setup::{Choice, Format, Landing, Scenario, Settings, TornBytes};

#[cfg(test)]
mod line_rows;
#[cfg(test)]
mod line_tests;
#[cfg(test)]
mod tests;
