//! Broken traces on owners and their numbers: each function says of which part its trace is none.

ghost use Rattle.xrf_trace.specs.OneOwner.{OneOwner};
ghost use Rattle.xrf_trace.specs.OneUpdater.{OneUpdater};
ghost use Rattle.xrf_examples.specs.CommandWaitsForCebt as pair;
ghost use Rattle.xrf_broken.specs.Owners as broken;

/// An alternate writes the file.
pub fn an_alternate_writes_the_file()
    ensures { OneUpdater pair.scenario broken.an_alternate_writes_the_file → ⊥ }
{}

/// An owner that has signed off goes on to write messages.
pub fn an_owner_writes_after_its_sign_off()
    ensures { OneUpdater pair.scenario broken.an_owner_writes_after_its_sign_off → ⊥ }
{}

/// A control write that is no grant raises the last number.
pub fn a_sign_off_raises_the_last_number()
    ensures { OneUpdater pair.scenario broken.a_sign_off_raises_the_last_number → ⊥ }
{}

/// A sign-on is granted and the last number stays.
pub fn a_sign_on_takes_a_number_that_was_given()
    ensures { OneUpdater pair.scenario broken.a_sign_on_takes_a_number_that_was_given → ⊥ }
{}

/// A grant raises the last number by one, and its job holds another.
pub fn a_job_is_given_another_number_than_the_record()
    ensures { OneUpdater pair.scenario broken.a_job_is_given_another_number_than_the_record → ⊥ }
{}

/// A standby is granted and is no alternate of the record.
pub fn a_standby_signs_on_without_a_place()
    ensures { OneUpdater pair.scenario broken.a_standby_signs_on_without_a_place → ⊥ }
{}

/// The active goes on beside the alternate that went through.
pub fn two_owners()
    ensures { OneOwner pair.scenario broken.two_owners → ⊥ }
{}

/// It is confirmed of an incarnation that it has ended, and its job runs.
pub fn an_incarnation_at_work_is_confirmed()
    ensures { OneOwner pair.scenario broken.an_incarnation_at_work_is_confirmed → ⊥ }
{}
