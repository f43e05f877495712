//! Service is back: what stands at the moment at which a restart is declared that comes by a stated time. It has no code;
//! its proof is the clauses of an empty function, from the headline and from progress.
#![tactic(auto)]

mod laws;

pub use laws::service_is_back;
