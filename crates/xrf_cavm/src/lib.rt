//! The availability manager: the grants of sign-on, the other writes of the control record, the
//! watch of the other site's signals, and the decisions.
#![tactic(auto)]

pub mod decisions;
pub mod grants;
pub mod known;
mod record;
pub mod watch;
pub mod writes;

pub use decisions::{
    Acting, Decided, Decision, Mode, Waiting, Why, decide, decide_active, decide_waiting,
};
pub use grants::{Grant, grant_active, grant_standby};
pub use known::Known;
pub use watch::Watch;
pub use writes::{Dropping, drop_alternate, leave, let_through, sign_off, start_takeover};

#[cfg(test)]
mod tests;
