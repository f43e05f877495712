//! The document of a run of a pair: the canonical scenario, its choices, and the report.
#![tactic(auto)]

mod acts;
mod answers;
mod decisions;
mod entries;
mod files;
mod images;
mod items;
mod jobs;
mod logged;
mod messages;
mod picked;
mod records;
mod reporting;
mod standing;
mod summing;
mod terminals;
#[cfg(test)]
mod tests;
mod whole;
mod words;

pub use summing::summary;
pub use whole::{document, report};
