//! The overseer: it looks at each pair and starts jobs in place, by a policy of its caller.
#![tactic(auto)]

mod laws;
mod placed;
mod placing;
mod policy;
pub mod view;

pub use laws::{policies_keep, starts_are_granted};
pub use placed::ask_in_place;
pub use placing::in_place;
pub use policy::StoredPolicy;
pub use view::{Advice, PairView, advised};
