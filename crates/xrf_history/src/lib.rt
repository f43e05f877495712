//! What a job of a pair knows, what it wants to do next, and what it is answered. The definitions of a
//! job's history, of the words over it and of the next act stand in specs/.
#![tactic(auto)]

pub mod answer;
pub mod block;
pub mod settings;
pub mod want;

pub use answer::Answer;
pub use block::Block;
pub use settings::Settings;
pub use want::{EndWhy, Want};
