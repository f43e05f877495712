//! Broken traces on starts: each function says of which part its trace is none.

ghost use Rattle.xrf_trace.specs.StartByCause.{StartByCause};
ghost use Rattle.xrf_examples.specs.CommandWaitsForCebt as pair;
ghost use Rattle.xrf_examples.specs.AdiAtItsBoundary as loss;
ghost use Rattle.xrf_broken.specs.Starts as broken;

/// An alternate under COMMAND starts by an abnormal sign-off.
pub fn command_mode_is_ignored()
    ensures { StartByCause pair.scenario broken.command_mode_is_ignored → ⊥ }
{}

/// An alternate that has heard nothing for ADI ticks does not start at that tick.
pub fn a_start_comes_a_tick_late()
    ensures { StartByCause loss.scenario broken.a_start_comes_a_tick_late → ⊥ }
{}

/// An alternate that decided to start makes another round.
pub fn an_alternate_looks_again_after_start()
    ensures { StartByCause pair.scenario broken.an_alternate_looks_again_after_start → ⊥ }
{}

/// An alternate decides to start at each round, and writes no taking.
pub fn an_alternate_decides_start_again_and_never_acts()
    ensures { StartByCause pair.scenario broken.an_alternate_decides_start_again_and_never_acts → ⊥ }
{}

/// A taking has another cause than was decided.
pub fn a_start_writes_another_cause()
    ensures { StartByCause pair.scenario broken.a_start_writes_another_cause → ⊥ }
{}

/// A standby signs on with a taking.
pub fn a_sign_on_brings_a_taking()
    ensures { StartByCause pair.scenario broken.a_sign_on_brings_a_taking → ⊥ }
{}

/// An owner signs off and replaces the taking that it read.
pub fn a_taking_is_replaced()
    ensures { StartByCause pair.scenario broken.a_taking_is_replaced → ⊥ }
{}
