//! Broken traces on entries of jobs that are not there, or at ticks that did not come: each function says of which promise its trace is none.

ghost use Rattle.xrf_trace.specs.JobsAct.{JobsAct};
ghost use Rattle.xrf_trace.specs.Safe.{Safe};
ghost use Rattle.xrf_broken.specs.Conduct.{scenario};
ghost use Rattle.xrf_broken.specs.Others.{AllBut, JobsAreThere};
ghost use Rattle.xrf_broken.specs.Jobs as broken;

/// No region was ever started, and site A is the owner and writes the file.
pub fn a_site_that_nobody_started_is_the_owner()
    ensures refused { JobsAct scenario broken.a_site_that_nobody_started_is_the_owner → ⊥ }
    ensures safe { Safe scenario broken.a_site_that_nobody_started_is_the_owner }
{}

/// An active stops, and writes the file on.
pub fn a_region_that_stopped_writes_the_file()
    ensures refused { JobsAct scenario broken.a_region_that_stopped_writes_the_file → ⊥ }
    ensures safe { Safe scenario broken.a_region_that_stopped_writes_the_file }
{}

/// An active stops, and writes a record with another alternate and another last number.
pub fn a_region_that_stopped_gives_five_numbers()
    ensures refused { JobsAct scenario broken.a_region_that_stopped_gives_five_numbers → ⊥ }
    ensures others { AllBut JobsAreThere scenario broken.a_region_that_stopped_gives_five_numbers }
{}

/// An alternate starts a takeover by loss of a signal that it has just seen.
pub fn a_takeover_by_loss_in_the_tick_of_the_signal()
    ensures refused { JobsAct scenario broken.a_takeover_by_loss_in_the_tick_of_the_signal → ⊥ }
    ensures others { AllBut JobsAreThere scenario broken.a_takeover_by_loss_in_the_tick_of_the_signal }
{}
