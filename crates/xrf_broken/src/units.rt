//! Broken traces on units and items: each function says of which part its trace is none.

ghost use Rattle.xrf_trace.specs.BookAtRest.{BookAtRest};
ghost use Rattle.xrf_trace.specs.ItemsInOrder.{ItemsInOrder};
ghost use Rattle.xrf_trace.specs.ItemsSeeBook.{ItemsSeeBook};
ghost use Rattle.xrf_trace.specs.UnitsAreItems.{UnitsAreItems};
ghost use Rattle.xrf_examples.specs.OrdinaryUnitOfWork as unit;
ghost use Rattle.xrf_examples.specs.ItemAnswersOfUnits as two_units;
ghost use Rattle.xrf_broken.specs.Conduct.{scenario};
ghost use Rattle.xrf_broken.specs.Others.{AllBut, AtRest, InOrder};
ghost use Rattle.xrf_broken.specs.Units as broken;

/// A COMMIT is answered at a Backout.
pub fn a_commit_is_answered_by_a_backout()
    ensures { UnitsAreItems unit.scenario broken.a_commit_is_answered_by_a_backout → ⊥ }
{}

/// A ROLL is answered at a Commit.
pub fn a_roll_is_answered_by_a_commit()
    ensures { UnitsAreItems two_units.scenario broken.a_roll_is_answered_by_a_commit → ⊥ }
{}

/// A record is logged of a unit that was committed.
pub fn a_record_is_logged_of_a_unit_that_has_ended()
    ensures { UnitsAreItems unit.scenario broken.a_record_is_logged_of_a_unit_that_has_ended → ⊥ }
{}

/// The file is written for a unit that was committed.
pub fn a_value_is_written_of_a_unit_that_has_ended()
    ensures { UnitsAreItems unit.scenario broken.a_value_is_written_of_a_unit_that_has_ended → ⊥ }
{}

/// A PUT writes another value than it was asked.
pub fn a_put_of_another_value()
    ensures { UnitsAreItems unit.scenario broken.a_put_of_another_value → ⊥ }
{}

/// A PUT logs another before-image than the file has.
pub fn a_put_logs_another_before_image()
    ensures { UnitsAreItems unit.scenario broken.a_put_logs_another_before_image → ⊥ }
{}

/// An item is taken before RESTARTED.
pub fn an_item_is_taken_without_a_restart()
    ensures { ItemsSeeBook unit.scenario broken.an_item_is_taken_without_a_restart → ⊥ }
{}

/// A whole unit runs before RESTARTED.
pub fn units_run_without_a_restart()
    ensures { ItemsSeeBook unit.scenario broken.units_run_without_a_restart → ⊥ }
{}

/// A GET reads what another unit has put and not committed.
pub fn a_get_of_a_locked_record()
    ensures { ItemsSeeBook two_units.scenario broken.a_get_of_a_locked_record → ⊥ }
{}

/// A GET reads what a unit put that was rolled back.
pub fn a_get_of_a_value_that_was_not_undone()
    ensures { ItemsSeeBook two_units.scenario broken.a_get_of_a_value_that_was_not_undone → ⊥ }
{}

/// A COMMIT is answered Done whose PUT was passed over.
pub fn a_commit_is_answered_whose_put_was_passed_over()
    ensures refused { ItemsInOrder scenario broken.a_commit_is_answered_whose_put_was_passed_over → ⊥ }
    ensures others { AllBut InOrder scenario broken.a_commit_is_answered_whose_put_was_passed_over }
{}

/// A record is undone while no unit is in flight.
pub fn a_record_is_undone_at_rest()
    ensures refused { BookAtRest scenario broken.a_record_is_undone_at_rest → ⊥ }
    ensures others { AllBut AtRest scenario broken.a_record_is_undone_at_rest }
{}
