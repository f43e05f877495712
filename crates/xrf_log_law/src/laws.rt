//! The law of the log, as clauses of a function that does nothing.

ghost use Rattle.xrf_trace.specs.FileIsBook.{FileIsBook};
ghost use Rattle.xrf_trace.specs.UnitsAreItems.{UnitsAreItems};
ghost use Rattle.xrf_trace.specs.ItemsSeeBook.{ItemsSeeBook};
ghost use Rattle.xrf_trace.specs.Laws.{JobsAnswerAlike};
ghost use Rattle.xrf_owner_law.specs.Laws.{OfRuns};
ghost use Rattle.xrf_log_law.specs.Agreement.{LedgersAgree};
ghost use Rattle.xrf_log_law.specs.DataSets.{DataSetsStand};
ghost use Rattle.xrf_log_law.specs.Conditions.{WorldConditions};

/// Of every run of a scenario in its ranges with at most 8,192 entries: the parts of what is safe and of what users
/// rely on that speak of the log, the file and the units; that the trace answers items and has units as the jobs do;
/// what the data sets hold after every entry; and what the World may rest on at each act.
pub fn log_law()
    ensures file_is_book { OfRuns FileIsBook }
    ensures units_are_items { OfRuns UnitsAreItems }
    ensures items_see_book { OfRuns ItemsSeeBook }
    ensures jobs_answer_alike { JobsAnswerAlike }
    ensures ledgers_agree { OfRuns LedgersAgree }
    ensures data_sets_stand { OfRuns DataSetsStand }
    ensures world_conditions { OfRuns WorldConditions }
{}
