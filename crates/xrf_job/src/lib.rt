//! What both kinds of job share: the stages of their sequences, what either kind knows, and the memory
//! that it works in.
#![tactic(auto)]

pub mod common;
pub mod purpose;
pub mod rooms;
pub mod stage;

pub use common::Common;
pub use purpose::Purpose;
pub use rooms::Rooms;
pub use stage::Stage;
