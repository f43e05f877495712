//! Broken traces of the other files, which break a promise too, or what holds of every run: each function says what is
//! false of its trace.

ghost use Rattle.xrf_trace.specs.NextIsDue.{NextIsDue};
ghost use Rattle.xrf_trace.specs.StartsAsWritten.{StartsAsWritten};
ghost use Rattle.xrf_trace.specs.TerminalsAreTold.{TerminalsAreTold};
ghost use Rattle.xrf_examples.specs.CommandWaitsForCebt as pair;
ghost use Rattle.xrf_examples.specs.AdiAtItsBoundary as loss;
ghost use Rattle.xrf_examples.specs.AFullRingAndAnUnsentMessage as terminals;
ghost use Rattle.xrf_broken.specs.Restarts;
ghost use Rattle.xrf_broken.specs.Starts;
ghost use Rattle.xrf_broken.specs.Throughs;

/// The terminals of the active that was caught up are not those of the new active.
pub fn the_terminals_are_lost_at_a_takeover()
    ensures { TerminalsAreTold terminals.scenario Restarts.a_takeover_forgets_the_terminals → ⊥ }
{}

/// An alternate under COMMAND starts without a command.
pub fn a_start_without_a_cause()
    ensures { StartsAsWritten pair.scenario Starts.command_mode_is_ignored → ⊥ }
{}

/// An alternate that has heard nothing for ADI ticks does not start.
pub fn a_cause_without_a_start()
    ensures { StartsAsWritten loss.scenario Starts.a_start_comes_a_tick_late → ⊥ }
{}

/// An alternate that decided to start looks on.
pub fn an_alternate_stands_still_after_start()
    ensures { NextIsDue pair.scenario Starts.an_alternate_looks_again_after_start → ⊥ }
{}

/// An alternate that decided THROUGH looks on.
pub fn an_alternate_stands_still_after_through()
    ensures { NextIsDue pair.scenario Throughs.an_alternate_looks_again_after_through → ⊥ }
{}

/// A job holds the reserve and has no next act.
pub fn a_reserve_is_never_released()
    ensures { NextIsDue pair.scenario Throughs.a_reserve_is_never_released → ⊥ }
{}
