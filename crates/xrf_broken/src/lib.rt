//! Broken traces: what pairs must not do, each with the part of what is safe or promised that is false of it, by computing.
#![tactic(auto)]

pub mod commands;
pub mod hands;
pub mod jobs;
pub mod lines;
pub mod owners;
pub mod promises;
pub mod purposes;
pub mod restarts;
pub mod rounds;
pub mod silence;
pub mod starts;
pub mod terminals;
pub mod throughs;
pub mod units;
pub mod works;
