//! The law of conduct: how the jobs of every run act.

ghost use Rattle.xrf_trace.specs.JobsAct.{JobsAct};
ghost use Rattle.xrf_trace.specs.ReserveIsHeld.{ReserveIsHeld};
ghost use Rattle.xrf_trace.specs.ByPurpose.{ByPurpose};
ghost use Rattle.xrf_trace.specs.LinesAsListed.{LinesAsListed};
ghost use Rattle.xrf_trace.specs.RoundsAreWhole.{RoundsAreWhole};
ghost use Rattle.xrf_trace.specs.OwnersDecide.{OwnersDecide};
ghost use Rattle.xrf_trace.specs.StopsWhenDue.{StopsWhenDue};
ghost use Rattle.xrf_trace.specs.ItemsInOrder.{ItemsInOrder};
ghost use Rattle.xrf_trace.specs.BookAtRest.{BookAtRest};
ghost use Rattle.xrf_trace.specs.CutsAsMay.{CutsAsMay};
ghost use Rattle.xrf_conduct_law.specs.CommandsAreTold.{CommandsAreTold};
ghost use Rattle.xrf_conduct_law.specs.WorksAsDue.{WorksAsDue};
ghost use Rattle.xrf_owner_law.specs.Laws.{OfRuns};

/// Of every run of a scenario in its ranges with at most 8,192 entries: what users rely on that speaks of how jobs act:
/// who acts, under the reserve, for which purpose and by the command list, in which order, what of it may be cut,
/// what reaches them from outside, and how the slots are written.
pub fn conduct_law()
    ensures jobs_act { OfRuns JobsAct }
    ensures reserve_is_held { OfRuns ReserveIsHeld }
    ensures by_purpose { OfRuns ByPurpose }
    ensures lines_as_listed { OfRuns LinesAsListed }
    ensures rounds_are_whole { OfRuns RoundsAreWhole }
    ensures owners_decide { OfRuns OwnersDecide }
    ensures stops_when_due { OfRuns StopsWhenDue }
    ensures items_in_order { OfRuns ItemsInOrder }
    ensures book_at_rest { OfRuns BookAtRest }
    ensures cuts_as_may { OfRuns (λ s t. CutsAsMay t) }
    ensures commands_are_told { OfRuns CommandsAreTold }
    ensures works_as_due { OfRuns WorksAsDue }
{}
