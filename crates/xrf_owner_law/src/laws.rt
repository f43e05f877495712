//! The law of the owner: the control record and the jobs of every run.

ghost use Rattle.xrf_trace.specs.OneUpdater.{OneUpdater};
ghost use Rattle.xrf_trace.specs.OwnHand.{OwnHand};
ghost use Rattle.xrf_trace.specs.StartByCause.{StartByCause};
ghost use Rattle.xrf_trace.specs.ThroughByProof.{ThroughByProof};
ghost use Rattle.xrf_trace.specs.SilentOnceSeen.{SilentOnceSeen};
ghost use Rattle.xrf_trace.specs.FormatByLevel.{FormatByLevel};
ghost use Rattle.xrf_trace.specs.OneOwner.{OneOwner};
ghost use Rattle.xrf_trace.specs.NextIsDue.{NextIsDue};
ghost use Rattle.xrf_trace.specs.StartsAsWritten.{StartsAsWritten};
ghost use Rattle.xrf_owner_law.specs.Laws.{OfRuns, ItemsWait};
ghost use Rattle.xrf_owner_law.specs.Known.{IsKnown, WritesAreKnown};

/// Of every run of a scenario in its ranges with at most 8,192 entries: the parts of what is safe and of what users
/// rely on that speak of the control record and of the jobs, and what is known of both at any time, on which the laws
/// of the log and of the messages and the World rest.
pub fn owner_law()
    ensures one_updater { OfRuns OneUpdater }
    ensures own_hand { OfRuns OwnHand }
    ensures start_by_cause { OfRuns StartByCause }
    ensures through_by_proof { OfRuns ThroughByProof }
    ensures silent_once_seen { OfRuns SilentOnceSeen }
    ensures format_by_level { OfRuns FormatByLevel }
    ensures one_owner { OfRuns OneOwner }
    ensures next_is_due { OfRuns NextIsDue }
    ensures starts_as_written { OfRuns StartsAsWritten }
    ensures items_wait { OfRuns ItemsWait }
    ensures known { OfRuns IsKnown }
    ensures writes_known { OfRuns WritesAreKnown }
{}
