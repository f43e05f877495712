//! What a job reserves the control data set for.

use xrf_ctl::{Cause, OwnerState};
use xrf_history::EndWhy;

/// What the last RESERVE of a job was made for.
#[derive(Clone, Copy)]
pub enum Purpose {
    SignOnActive,
    SignOnStandby,
    SignOff(OwnerState),
    DropAlternate,
    Leave(EndWhy),
    StartTakeover(Cause),
    GoThrough,
}
