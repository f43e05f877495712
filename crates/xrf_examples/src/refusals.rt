//! Refused choices. Each function says at which place its choices are refused, and why.

ghost use Rattle.std.specs.Prelude.{◌≡◌, [], ◌∷◌, ◌++◌, replicate, true};
ghost use Rattle.xrf_base.specs.declared.site.Site.TheVariants.{A, B};
ghost use Rattle.xrf_cebt.specs.declared.commands.Cebt.TheVariants as cebt;
ghost use Rattle.xrf_exit.specs.declared.ExitAnswer.TheVariants as exit;
ghost use Rattle.xrf_setup.specs.declared.choice.Choice.TheVariants as choice;
ghost use Rattle.xrf_setup.specs.declared.choice.Landing.TheVariants as landing;
ghost use Rattle.xrf_trace.specs.declared.entry.Refused.TheVariants.{NotEnabled, Dishonest, TornLength, NotAllowed};
ghost use Rattle.xrf_trace.specs.Runs.{run};
ghost use Rattle.xrf_examples.specs.Refused.{scenario, started, standing_by, alternate_lost, refused_at};

/// STEP where no job is there.
pub fn a_step_without_a_job()
    ensures { run scenario (choice.Step A ∷ []) ≡ refused_at 0 NotEnabled }
{}

/// STEP where the next act is RESERVE and the other site holds the reserve.
pub fn a_step_while_the_reserve_is_held()
    ensures { run scenario (choice.StartActive A ∷ choice.Step A ∷ choice.StartActive B ∷ choice.Step B ∷ []) ≡ refused_at 3 NotEnabled }
{}

/// STEP where the work is used up and no round is due.
pub fn a_step_where_no_act_is_next()
    ensures { run scenario (started 20 ++ choice.Step A ∷ []) ≡ refused_at 21 NotEnabled }
{}

/// STEP where the status exit is awaited.
pub fn a_step_while_a_notice_is_pending()
    ensures { run scenario (alternate_lost ++ choice.Step A ∷ []) ≡ refused_at 30 NotEnabled }
{}

/// LOSE where the next act is no signal.
pub fn a_loss_of_no_signal()
    ensures { run scenario (started 0 ++ choice.Lose A ∷ []) ≡ refused_at 1 NotEnabled }
{}

/// STOP NONE where no job is there.
pub fn a_stop_without_a_job()
    ensures { run scenario (choice.Stop A landing.Nothing ∷ []) ≡ refused_at 0 NotEnabled }
{}

/// STOP ALL where the next act writes no data set.
pub fn a_stop_that_lands_no_write()
    ensures { run scenario (started 0 ++ choice.Stop A landing.All ∷ []) ≡ refused_at 1 NotEnabled }
{}

/// STOP TORN where the next act writes the control record.
pub fn a_torn_control_write()
    ensures { run scenario (started 2 ++ choice.Stop A (landing.Torn (0 ∷ [])) ∷ []) ≡ refused_at 3 NotEnabled }
{}

/// STOP TORN with other than the 63 bytes of a body.
pub fn torn_bytes_of_a_wrong_length()
    ensures { run scenario (started 14 ++ choice.Stop A (landing.Torn (0 ∷ [])) ∷ []) ≡ refused_at 15 TornLength }
{}

/// FAIL where the next act is on the control data set.
pub fn a_failure_of_an_act_that_does_not_fail()
    ensures { run scenario (started 0 ++ choice.Fail A landing.Nothing ∷ []) ≡ refused_at 1 NotEnabled }
{}

/// FAIL ALL where the next act is a read.
pub fn a_failing_read_that_lands()
    ensures { run scenario (started 9 ++ choice.Fail A landing.All ∷ []) ≡ refused_at 10 NotEnabled }
{}

/// FAIL TORN with other than the 63 bytes of a body.
pub fn a_failing_write_of_a_wrong_length()
    ensures { run scenario (started 14 ++ choice.Fail A (landing.Torn (0 ∷ [])) ∷ []) ≡ refused_at 15 TornLength }
{}

/// START ACTIVE where a job is there.
pub fn a_start_as_active_beside_a_job()
    ensures { run scenario (started 0 ++ choice.StartActive A ∷ []) ≡ refused_at 1 NotEnabled }
{}

/// START STANDBY where a job is there.
pub fn a_start_as_standby_beside_a_job()
    ensures { run scenario (started 0 ++ choice.StartStandby A ∷ []) ≡ refused_at 1 NotEnabled }
{}

/// ABEND where the job is no owner.
pub fn an_abend_before_the_sign_on()
    ensures { run scenario (started 2 ++ choice.Abend A ∷ []) ≡ refused_at 3 NotEnabled }
{}

/// ABEND of an alternate.
pub fn an_abend_of_an_alternate()
    ensures { run scenario (standing_by ++ choice.Abend B ∷ []) ≡ refused_at 17 NotEnabled }
{}

/// ABEND where a notice is pending.
pub fn an_abend_while_a_notice_is_pending()
    ensures { run scenario (alternate_lost ++ choice.Abend A ∷ []) ≡ refused_at 30 NotEnabled }
{}

/// ABEND where a sign-off is due.
pub fn an_abend_while_a_sign_off_is_due()
    ensures { run scenario (started 4 ++ choice.Abend A ∷ choice.Abend A ∷ []) ≡ refused_at 6 NotEnabled }
{}

/// CONFIRM of 0.
pub fn a_confirmation_of_number_0()
    ensures { run scenario (choice.Confirm 0 ∷ []) ≡ refused_at 0 Dishonest }
{}

/// CONFIRM of a number above the last given.
pub fn a_confirmation_of_a_number_not_given()
    ensures { run scenario (choice.Confirm 1 ∷ []) ≡ refused_at 0 Dishonest }
{}

/// CONFIRM of a number that a job holds.
pub fn a_confirmation_of_a_live_incarnation()
    ensures { run scenario (started 3 ++ choice.Confirm 1 ∷ []) ≡ refused_at 4 Dishonest }
{}

/// REPLY to an alternate that has not asked.
pub fn a_reply_to_no_question()
    ensures { run scenario (standing_by ++ choice.Reply B true ∷ []) ≡ refused_at 17 NotEnabled }
{}

/// CEBT to an owner.
pub fn a_command_to_an_owner()
    ensures { run scenario (started 4 ++ choice.Cebt A cebt.PerformShutdown ∷ []) ≡ refused_at 5 NotEnabled }
{}

/// CEBT to an alternate that decided to leave.
pub fn a_command_to_an_alternate_that_leaves()
    ensures { run scenario (standing_by ++ choice.Cebt B cebt.PerformShutdown ∷ replicate 5 (choice.Step B) ++ choice.Cebt B cebt.InquireTakeover ∷ []) ≡ refused_at 23 NotEnabled }
{}

/// EXIT where no notice is pending.
pub fn an_exit_without_a_notice()
    ensures { run scenario (started 4 ++ choice.Exit A exit.Keep ∷ []) ≡ refused_at 5 NotEnabled }
{}

/// EXIT ABEND upon the loss of the alternate.
pub fn an_exit_that_is_not_allowed()
    ensures { run scenario (alternate_lost ++ choice.Exit A exit.Abend ∷ []) ≡ refused_at 30 NotAllowed }
{}
