//! Progress: that a takeover comes where the alternate is served, and by when. It has no code; its proof is the clauses of
//! empty functions.
#![tactic(auto)]

mod laws;
mod worked;

pub use laws::{
    alternates_stay, operators_are_followed, owners_give_way, starts_restart, steps_never_block,
    takeovers_are_reached, takeovers_come, work_goes_on,
};
pub use worked::{
    a_worked_active_gives_way, a_worked_item_is_answered, a_worked_pair_that_stands_still,
    a_worked_start_restarts, a_worked_takeover_can_begin, a_worked_takeover_is_in_time,
    a_worked_taking_is_in_time,
};
