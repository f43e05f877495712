//! Broken traces on what jobs reserve, write and end for: each function says of which promise its trace is none.

ghost use Rattle.xrf_trace.specs.ByPurpose.{ByPurpose};
ghost use Rattle.xrf_trace.specs.StopsWhenDue.{StopsWhenDue};
ghost use Rattle.xrf_trace.specs.ReserveIsHeld.{ReserveIsHeld};
ghost use Rattle.xrf_trace.specs.Safe.{Safe};
ghost use Rattle.xrf_broken.specs.Conduct.{scenario};
ghost use Rattle.xrf_broken.specs.Others.{AllBut, Purposeful, Stopping, UnderReserve};
ghost use Rattle.xrf_broken.specs.Purposes as broken;

/// An active signs off as ended abnormally, and nothing ended it.
pub fn an_active_signs_off_for_no_reason()
    ensures refused { ByPurpose scenario broken.an_active_signs_off_for_no_reason → ⊥ }
    ensures others { AllBut Purposeful scenario broken.an_active_signs_off_for_no_reason }
{}

/// An ABEND signs off as a normal end, so that the alternate leaves.
pub fn an_abend_signs_off_as_normal()
    ensures refused { ByPurpose scenario broken.an_abend_signs_off_as_normal → ⊥ }
    ensures others { AllBut Purposeful scenario broken.an_abend_signs_off_as_normal }
{}

/// An ABEND ends the active, and the record has it as Running.
pub fn an_active_ends_without_signing_off()
    ensures refused { ByPurpose scenario broken.an_active_ends_without_signing_off → ⊥ }
    ensures others { AllBut Purposeful scenario broken.an_active_ends_without_signing_off }
{}

/// An active drops its alternate, and nothing asked for it.
pub fn an_active_drops_its_alternate_for_no_reason()
    ensures refused { ByPurpose scenario broken.an_active_drops_its_alternate_for_no_reason → ⊥ }
    ensures others { AllBut Purposeful scenario broken.an_active_drops_its_alternate_for_no_reason }
{}

/// An alternate leaves, and did not decide to.
pub fn an_alternate_leaves_for_no_reason()
    ensures refused { ByPurpose scenario broken.an_alternate_leaves_for_no_reason → ⊥ }
    ensures others { AllBut Purposeful scenario broken.an_alternate_leaves_for_no_reason }
{}

/// An alternate that leaves puts a number that never was in its place.
pub fn a_leaving_alternate_names_a_number_that_never_was()
    ensures refused { ByPurpose scenario broken.a_leaving_alternate_names_a_number_that_never_was → ⊥ }
    ensures others { AllBut Purposeful scenario broken.a_leaving_alternate_names_a_number_that_never_was }
{}

/// A START as standby beside a Running owner ends as if there were none.
pub fn a_standby_is_refused_that_may_sign_on()
    ensures refused { ByPurpose scenario broken.a_standby_is_refused_that_may_sign_on → ⊥ }
    ensures others { AllBut Purposeful scenario broken.a_standby_is_refused_that_may_sign_on }
{}

/// An active takes items after an ABEND.
pub fn an_abend_is_ignored()
    ensures refused { StopsWhenDue scenario broken.an_abend_is_ignored → ⊥ }
    ensures others { AllBut Stopping scenario broken.an_abend_is_ignored }
{}

/// An active writes its sign-off without the reserve.
pub fn a_sign_off_without_the_reserve()
    ensures refused { ReserveIsHeld scenario broken.a_sign_off_without_the_reserve → ⊥ }
    ensures safe { Safe scenario broken.a_sign_off_without_the_reserve }
{}

/// The reserve is given to the alternate while the active holds it.
pub fn two_regions_hold_the_reserve()
    ensures refused { ReserveIsHeld scenario broken.two_regions_hold_the_reserve → ⊥ }
    ensures others { AllBut UnderReserve scenario broken.two_regions_hold_the_reserve }
{}
