//! Broken traces on what a control write changes: each function says of which part its trace is none.

ghost use Rattle.xrf_trace.specs.OwnHand.{OwnHand};
ghost use Rattle.xrf_examples.specs.CommandWaitsForCebt as pair;
ghost use Rattle.xrf_broken.specs.Hands as broken;

/// An alternate writes that the owner has ended abnormally.
pub fn an_alternate_signs_the_owner_off()
    ensures { OwnHand pair.scenario broken.an_alternate_signs_the_owner_off → ⊥ }
{}

/// An owner that signed off writes itself as Running again.
pub fn an_owner_that_signed_off_runs_again()
    ensures { OwnHand pair.scenario broken.an_owner_that_signed_off_runs_again → ⊥ }
{}

/// A sign-off takes a tracking alternate out of the record.
pub fn a_sign_off_removes_the_alternate()
    ensures { OwnHand pair.scenario broken.a_sign_off_removes_the_alternate → ⊥ }
{}

/// A sign-off writes another cause into the taking of the alternate.
pub fn a_sign_off_changes_the_cause_of_a_taking()
    ensures { OwnHand pair.scenario broken.a_sign_off_changes_the_cause_of_a_taking → ⊥ }
{}

/// An owner takes its alternate out of the record, and no drop was decided.
pub fn an_alternate_is_removed_without_a_drop()
    ensures { OwnHand pair.scenario broken.an_alternate_is_removed_without_a_drop → ⊥ }
{}

/// A START as standby takes the place of an alternate that is not confirmed.
pub fn a_standby_replaces_a_live_alternate()
    ensures { OwnHand pair.scenario broken.a_standby_replaces_a_live_alternate → ⊥ }
{}

/// An owner takes the taking of its alternate out of the record.
pub fn a_taking_is_removed_by_the_owner()
    ensures { OwnHand pair.scenario broken.a_taking_is_removed_by_the_owner → ⊥ }
{}

/// A waiting alternate takes its taking out of the record, and it could read its messages.
pub fn a_waiting_alternate_withdraws()
    ensures { OwnHand pair.scenario broken.a_waiting_alternate_withdraws → ⊥ }
{}
