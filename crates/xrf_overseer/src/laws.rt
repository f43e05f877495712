//! What holds of every set that an overseer watches.

ghost use Rattle.xrf_overseer.specs.Theorem.{PoliciesKeep, StartsAreGranted};

/// The trace of each pair is the run of its choices with the overseer's starts among them. What is done at each look is
/// the policy's advice for the view at that moment, or nothing; each start is accepted, and none is made where a live
/// incarnation holds the place.
pub fn policies_keep()
    ensures { PoliciesKeep }
{}

/// A start is granted whose record, with the same confirmations, does not change before its CTLREAD.
pub fn starts_are_granted()
    ensures { StartsAreGranted }
{}
