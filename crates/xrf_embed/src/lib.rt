//! An example for those who build on `xrf_world`: a caller that owns a World, makes choices in it as they come, and knows
//! of each update that the running owner made it.
#![tactic(auto)]

mod caller;

pub use caller::{Caller, NotMade};
