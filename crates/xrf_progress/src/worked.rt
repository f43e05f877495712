//! A worked takeover, by computing: what the laws ask is met, and their bounds are sharp.

ghost use Rattle.std.specs.Prelude.{is_some, not, ◌++◌, ◌≡◌, false, true, None, Some};
ghost use Rattle.xrf_base.specs.declared.site.Site.TheVariants as site;
ghost use Rattle.xrf_progress.specs.Alone.{served};
ghost use Rattle.xrf_progress.specs.InPlace.{IsGranted};
ghost use Rattle.xrf_history.specs.Holding.{is_owner};
ghost use Rattle.xrf_history.specs.Notices.{notice};
ghost use Rattle.xrf_progress.specs.Pausing.{is_seen};
ghost use Rattle.xrf_progress.specs.Serving.{has_restart, has_taking_write, serves, was_so};
ghost use Rattle.xrf_progress.specs.Working.{answers, CanWork, takes_item};
ghost use Rattle.xrf_setup.specs.declared.choice.Choice.TheVariants as choice;
ghost use Rattle.xrf_ctl.specs.Signal.{of_numbers};
ghost use Rattle.xrf_trace.specs.Entries.{entry};
ghost use Rattle.xrf_trace.specs.Scenario.{settings};
ghost use Rattle.xrf_progress.specs.Takeovers.{CanGo, CanStart};
ghost use Rattle.xrf_progress.specs.Worked;
ghost use Rattle.xrf_trace.specs.Acts.{next_act};
ghost use Rattle.xrf_trace.specs.Devices.{control};
ghost use Rattle.xrf_trace.specs.Jobs.{hist};
ghost use Rattle.xrf_trace.specs.ThroughByProof.{may_run};
ghost use Rattle.xrf_trace.specs.Words.{now};
ghost use Rattle.xrf_trace.specs.declared.entry.Act.TheVariants as act;

/// The premises of the laws are met, with ADI 5: an alternate at rest can start, beside an owner that is over, at a site that
/// is alone; after 3 choices it can in the midst of a round; and after 45 it can go through.
pub fn a_worked_takeover_can_begin()
    ensures starts { CanStart Worked.scenario Worked.trace site.B Worked.history }
    ensures rests { next_act Worked.scenario Worked.trace site.B ≡ None }
    ensures over { may_run Worked.trace (control Worked.trace) ≡ false }
    ensures gone { hist Worked.scenario Worked.trace site.A ≡ None }
    ensures anywhere { CanStart Worked.scenario Worked.round_trace site.B Worked.round_history }
    ensures busy { next_act Worked.scenario Worked.round_trace site.B ≡ Some act.Look1 }
    ensures goes { CanGo Worked.scenario Worked.waiting_trace site.B Worked.waiting_history }
{}

/// Its taking is written with choice 44: TICK 6 = ADI + 1 has come by then, and none was written before.
pub fn a_worked_taking_is_in_time()
    ensures late { now (served Worked.scenario Worked.trace site.B 43) ≡ 6 }
    ensures not_yet { has_taking_write site.B 2 (served Worked.scenario Worked.trace site.B 43) ≡ false }
    ensures takes { has_taking_write site.B 2 (served Worked.scenario Worked.trace site.B 44) ≡ true }
    ensures in_time { now (served Worked.scenario Worked.trace site.B 44) ≡ 6 }
{}

/// No smaller number of TICKs would do: with choice 46 TICK 7 = ADI + 2 has come, and it has not restarted; with choice 58,
/// before the next TICK, it has.
pub fn a_worked_takeover_is_in_time()
    ensures late { now (served Worked.scenario Worked.trace site.B 46) ≡ 7 }
    ensures not_yet { has_restart site.B 2 (served Worked.scenario Worked.trace site.B 57) ≡ false }
    ensures restarts { has_restart site.B 2 (served Worked.scenario Worked.trace site.B 58) ≡ true }
    ensures in_time { now (served Worked.scenario Worked.trace site.B 58) ≡ 7 }
{}

/// A start in place, after a stop in the midst of a restart: it is granted, and with the eleventh act the restart is declared.
pub fn a_worked_start_restarts()
    ensures granted { IsGranted Worked.scenario Worked.stopped_trace site.A }
    ensures not_yet { has_restart site.A 3 (served Worked.scenario Worked.started_trace site.A 10) ≡ false }
    ensures restarts { has_restart site.A 3 (served Worked.scenario Worked.started_trace site.A 11) ≡ true }
    ensures at_once { now (served Worked.scenario Worked.started_trace site.A 11) ≡ 0 }
{}

/// A paused active sees the taking with the fifth act of its round, and not before; then it rests. Told to end it has signed
/// off with the third act, and not before.
pub fn a_worked_active_gives_way()
    ensures owns { is_owner (Worked.history_at Worked.paused_trace site.A) ≡ true }
    ensures taken { is_some (control Worked.paused_trace).taking ≡ true }
    ensures round { next_act Worked.scenario Worked.paused_trace site.A ≡ Some (act.Signal1 (of_numbers 1 2 0)) }
    ensures unseen { was_so Worked.scenario (λ r g. is_seen (notice g)) Worked.paused_trace site.A (served Worked.scenario Worked.paused_trace site.A 4) ≡ false }
    ensures seen { was_so Worked.scenario (λ r g. is_seen (notice g)) Worked.paused_trace site.A (served Worked.scenario Worked.paused_trace site.A 5) ≡ true }
    ensures rests { next_act Worked.scenario Worked.seen_trace site.A ≡ None }
    ensures not_yet { was_so Worked.scenario (λ r g. not (may_run r (control r))) Worked.ending_trace site.A (served Worked.scenario Worked.ending_trace site.A 2) ≡ false }
    ensures over { was_so Worked.scenario (λ r g. not (may_run r (control r))) Worked.ending_trace site.A (served Worked.scenario Worked.ending_trace site.A 3) ≡ true }
{}

/// An active that has restarted can work, and takes its item at once; its PUT is answered with the fourth act after its ITEM,
/// since no slot of the log is used before.
pub fn a_worked_item_is_answered()
    ensures works { CanWork Worked.working_scenario Worked.restarted_trace site.A (Worked.history_at Worked.restarted_trace site.A) }
    ensures takes { was_so Worked.working_scenario (λ r g. takes_item g) Worked.restarted_trace site.A (served Worked.working_scenario Worked.restarted_trace site.A 1) ≡ true }
    ensures not_yet { was_so Worked.working_scenario (λ r g. answers (settings Worked.working_scenario site.A) g) Worked.put_trace site.A (served Worked.working_scenario Worked.put_trace site.A 3) ≡ false }
    ensures answered { was_so Worked.working_scenario (λ r g. answers (settings Worked.working_scenario site.A) g) Worked.put_trace site.A (served Worked.working_scenario Worked.put_trace site.A 4) ≡ true }
{}

/// A pair that stands still is not served: no TICK serves an alternate that decided THROUGH, nor one that holds the reserve,
/// nor an active that is told to end, and a RESERVE, a CTLREAD and a RESERVE come next there.
pub fn a_worked_pair_that_stands_still()
    ensures through { next_act Worked.scenario Worked.through_trace site.B ≡ Some act.Reserve }
    ensures through_waits { serves Worked.scenario Worked.through_trace site.B (entry Worked.scenario Worked.through_trace choice.Tick) ≡ false }
    ensures reserve { next_act Worked.scenario Worked.reserve_trace site.B ≡ Some act.CtlRead }
    ensures reserve_waits { serves Worked.scenario Worked.reserve_trace site.B (entry Worked.scenario Worked.reserve_trace choice.Tick) ≡ false }
    ensures ends { next_act Worked.scenario Worked.ending_trace site.A ≡ Some act.Reserve }
    ensures ends_waits { serves Worked.scenario Worked.ending_trace site.A (entry Worked.scenario Worked.ending_trace choice.Tick) ≡ false }
{}
