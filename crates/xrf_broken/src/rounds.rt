//! Broken traces on rounds, and on what owners decide: each function says of which promise its trace is none.

ghost use Rattle.xrf_trace.specs.RoundsAreWhole.{RoundsAreWhole};
ghost use Rattle.xrf_trace.specs.OwnersDecide.{OwnersDecide};
ghost use Rattle.xrf_broken.specs.Conduct.{scenario};
ghost use Rattle.xrf_broken.specs.Others.{AllBut, Whole, Decided};
ghost use Rattle.xrf_broken.specs.Rounds as broken;

/// An alternate misses an active that signals, since it does not look.
pub fn an_alternate_that_does_not_look_misses_the_active()
    ensures refused { RoundsAreWhole scenario broken.an_alternate_that_does_not_look_misses_the_active → ⊥ }
    ensures others { AllBut Whole scenario broken.an_alternate_that_does_not_look_misses_the_active }
{}

/// An active takes items, and makes no rounds.
pub fn an_active_makes_no_rounds()
    ensures refused { RoundsAreWhole scenario broken.an_active_makes_no_rounds → ⊥ }
    ensures others { AllBut Whole scenario broken.an_active_makes_no_rounds }
{}

/// An active gives the same signal at each tick, so it is missed.
pub fn the_signal_of_an_active_stands_still()
    ensures refused { RoundsAreWhole scenario broken.the_signal_of_an_active_stands_still → ⊥ }
    ensures others { AllBut Whole scenario broken.the_signal_of_an_active_stands_still }
{}

/// An active looks at a record with a new alternate, and decides NOTHING.
pub fn an_active_never_catches_its_alternate_up()
    ensures refused { OwnersDecide scenario broken.an_active_never_catches_its_alternate_up → ⊥ }
    ensures others { AllBut Decided scenario broken.an_active_never_catches_its_alternate_up }
{}

/// An active decides SEEN of a record without a taking, and ends for it.
pub fn an_active_says_seen_where_nothing_is()
    ensures refused { OwnersDecide scenario broken.an_active_says_seen_where_nothing_is → ⊥ }
    ensures others { AllBut Decided scenario broken.an_active_says_seen_where_nothing_is }
{}
