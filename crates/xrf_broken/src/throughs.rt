//! Broken traces on throughs: each function says of which part its trace is none.

ghost use Rattle.xrf_trace.specs.ThroughByProof.{ThroughByProof};
ghost use Rattle.xrf_examples.specs.CommandWaitsForCebt as pair;
ghost use Rattle.xrf_broken.specs.Throughs as broken;

/// A waiting alternate decides THROUGH over a Running owner that is not confirmed.
pub fn a_waiting_alternate_decides_through_over_a_running_owner()
    ensures { ThroughByProof pair.scenario broken.a_waiting_alternate_decides_through_over_a_running_owner → ⊥ }
{}

/// A waiting alternate decides WAIT though its owner is confirmed.
pub fn a_proof_is_ignored()
    ensures { ThroughByProof pair.scenario broken.a_proof_is_ignored → ⊥ }
{}

/// A waiting alternate decides to leave.
pub fn a_waiting_alternate_decides_to_leave()
    ensures { ThroughByProof pair.scenario broken.a_waiting_alternate_decides_to_leave → ⊥ }
{}

/// An alternate that decided THROUGH makes another round.
pub fn an_alternate_looks_again_after_through()
    ensures { ThroughByProof pair.scenario broken.an_alternate_looks_again_after_through → ⊥ }
{}

/// An alternate goes through and leaves its taking in the record.
pub fn a_through_keeps_the_taking()
    ensures { ThroughByProof pair.scenario broken.a_through_keeps_the_taking → ⊥ }
{}

/// An alternate that decided to leave as dropped makes itself owner.
pub fn a_dropped_alternate_goes_through()
    ensures { ThroughByProof pair.scenario broken.a_dropped_alternate_goes_through → ⊥ }
{}

/// A START as standby makes itself owner.
pub fn a_standby_becomes_the_active()
    ensures { ThroughByProof pair.scenario broken.a_standby_becomes_the_active → ⊥ }
{}

/// A START as active is granted beside a Running owner.
pub fn a_second_active_is_granted()
    ensures { ThroughByProof pair.scenario broken.a_second_active_is_granted → ⊥ }
{}

/// A START as active is granted beside an alternate that is not confirmed.
pub fn a_sign_on_over_a_live_alternate()
    ensures { ThroughByProof pair.scenario broken.a_sign_on_over_a_live_alternate → ⊥ }
{}

/// An alternate goes through over a Running owner that is not confirmed.
pub fn a_through_over_a_running_owner()
    ensures { ThroughByProof pair.scenario broken.a_through_over_a_running_owner → ⊥ }
{}
