//! Broken traces on restarts: each function says of which part its trace is none.

ghost use Rattle.xrf_trace.specs.FileIsBook.{FileIsBook};
ghost use Rattle.xrf_trace.specs.TableIsTracked.{TableIsTracked};
ghost use Rattle.xrf_examples.specs.OrdinaryUnitOfWork as unit;
ghost use Rattle.xrf_examples.specs.AFullRingAndAnUnsentMessage as terminals;
ghost use Rattle.xrf_broken.specs.Restarts as broken;

/// RESTARTED is declared while a unit is in flight.
pub fn a_restart_leaves_a_unit_in_flight()
    ensures { FileIsBook unit.scenario broken.a_restart_leaves_a_unit_in_flight → ⊥ }
{}

/// A committed value is undone before RESTARTED.
pub fn a_restart_undoes_a_committed_unit()
    ensures { FileIsBook unit.scenario broken.a_restart_undoes_a_committed_unit → ⊥ }
{}

/// An active that started in place has a terminal at RESTARTED.
pub fn a_restart_in_place_keeps_a_terminal()
    ensures { TableIsTracked terminals.scenario broken.a_restart_in_place_keeps_a_terminal → ⊥ }
{}

/// The new active is restarted without the terminals that it was told.
pub fn a_takeover_forgets_the_terminals()
    ensures { TableIsTracked terminals.scenario broken.a_takeover_forgets_the_terminals → ⊥ }
{}
