//! Worked runs. Each function says what the run of its choices comes to.

ghost use Rattle.std.specs.Prelude.{◌≡◌, Ok};
ghost use Rattle.xrf_trace.specs.Runs.{run};
ghost use Rattle.xrf_trace.specs.Safe.{Safe};
ghost use Rattle.xrf_trace.specs.Promises.{Promises};
ghost use Rattle.xrf_examples.specs.Making.{told_of};
ghost use Rattle.xrf_examples.specs.GrantingWritesThatAreStopped;
ghost use Rattle.xrf_examples.specs.ASecondActiveIsRefused;
ghost use Rattle.xrf_examples.specs.OrdinaryUnitOfWork;
ghost use Rattle.xrf_examples.specs.ItemAnswersOfUnits;
ghost use Rattle.xrf_examples.specs.ItemAnswers;
ghost use Rattle.xrf_examples.specs.TheCommandListOfTheOwnApplid;
ghost use Rattle.xrf_examples.specs.TornFileWrite;
ghost use Rattle.xrf_examples.specs.CebtCommandsAndTheirReplies;
ghost use Rattle.xrf_examples.specs.StopInTheOpeningWriteOfACommit;
ghost use Rattle.xrf_examples.specs.AFailingReadOfAMessageSlotDropsTheAlternate;
ghost use Rattle.xrf_examples.specs.AFailingMessageWriteDropsTheAlternate;
ghost use Rattle.xrf_examples.specs.AFailingGateThatLandedAndTheDrop;
ghost use Rattle.xrf_examples.specs.AFailingDeviceInTheOpeningWriteOfACommit;
ghost use Rattle.xrf_examples.specs.StopInTheOpeningWriteOfACommitThatLeavesItClosed;
ghost use Rattle.xrf_examples.specs.AFailingReadOfAWaitingAlternate;
ghost use Rattle.xrf_examples.specs.CommandWaitsForCebtUpToTheDecisionToGoThrough;
ghost use Rattle.xrf_examples.specs.RecordPutTwiceAndTwoStops;
ghost use Rattle.xrf_examples.specs.MigrationOfAPairToFormat2;
ghost use Rattle.xrf_examples.specs.CommandWaitsForCebt;
ghost use Rattle.xrf_examples.specs.AnExitInsideASignOff;
ghost use Rattle.xrf_examples.specs.TheStatusExitOfThePausedActive;
ghost use Rattle.xrf_examples.specs.AGarbageBodyThatIsNotOpened;
ghost use Rattle.xrf_examples.specs.TheAlternateIsDropped;
ghost use Rattle.xrf_examples.specs.AStartThatIsOvertakenByANormalSignOff;
ghost use Rattle.xrf_examples.specs.UsersAtATakeoverAreSignedOffByForce;
ghost use Rattle.xrf_examples.specs.UsersAtATakeoverStayWithNoforce;
ghost use Rattle.xrf_examples.specs.ThePausedActive;
ghost use Rattle.xrf_examples.specs.TheSecondPathCarriesTheSignal;
ghost use Rattle.xrf_examples.specs.AFullRingAndAnUnsentMessage;
ghost use Rattle.xrf_examples.specs.TheOperatorIsAsked;
ghost use Rattle.xrf_examples.specs.AdiAtItsBoundary;
ghost use Rattle.xrf_examples.specs.ThreadsRunAPlanToATakeover;

/// A granting write that a stop loses leaves its number to the next sign-on; one that a stop lands keeps it, and it is confirmed.
pub fn granting_writes_that_are_stopped()
    ensures runs { run GrantingWritesThatAreStopped.scenario GrantingWritesThatAreStopped.choices ≡ Ok GrantingWritesThatAreStopped.trace }
    ensures told { told_of GrantingWritesThatAreStopped.scenario GrantingWritesThatAreStopped.trace ≡ GrantingWritesThatAreStopped.told }
    ensures safe { Safe GrantingWritesThatAreStopped.scenario GrantingWritesThatAreStopped.trace }
    ensures keeps { Promises GrantingWritesThatAreStopped.scenario GrantingWritesThatAreStopped.trace }
{}

/// A START as active beside a Running owner ends as refused and writes nothing.
pub fn a_second_active_is_refused()
    ensures runs { run ASecondActiveIsRefused.scenario ASecondActiveIsRefused.choices ≡ Ok ASecondActiveIsRefused.trace }
    ensures told { told_of ASecondActiveIsRefused.scenario ASecondActiveIsRefused.trace ≡ ASecondActiveIsRefused.told }
    ensures safe { Safe ASecondActiveIsRefused.scenario ASecondActiveIsRefused.trace }
    ensures keeps { Promises ASecondActiveIsRefused.scenario ASecondActiveIsRefused.trace }
{}

/// A unit of two PUTs is committed: each PUT logs what was there and writes the file, and COMMIT logs its end.
pub fn ordinary_unit_of_work()
    ensures runs { run OrdinaryUnitOfWork.scenario OrdinaryUnitOfWork.choices ≡ Ok OrdinaryUnitOfWork.trace }
    ensures told { told_of OrdinaryUnitOfWork.scenario OrdinaryUnitOfWork.trace ≡ OrdinaryUnitOfWork.told }
    ensures safe { Safe OrdinaryUnitOfWork.scenario OrdinaryUnitOfWork.trace }
    ensures keeps { Promises OrdinaryUnitOfWork.scenario OrdinaryUnitOfWork.trace }
{}

/// Two units meet at a record: the second is locked out until the first rolls back, and then finds the record empty.
pub fn item_answers_of_units()
    ensures runs { run ItemAnswersOfUnits.scenario ItemAnswersOfUnits.choices ≡ Ok ItemAnswersOfUnits.trace }
    ensures told { told_of ItemAnswersOfUnits.scenario ItemAnswersOfUnits.trace ≡ ItemAnswersOfUnits.told }
    ensures safe { Safe ItemAnswersOfUnits.scenario ItemAnswersOfUnits.trace }
    ensures keeps { Promises ItemAnswersOfUnits.scenario ItemAnswersOfUnits.trace }
{}

/// Each answer of an item of two units and a terminal: a lock, a number outside the file, a name in use, a unit and a terminal that are not there.
pub fn item_answers()
    ensures runs { run ItemAnswers.scenario ItemAnswers.choices ≡ Ok ItemAnswers.trace }
    ensures told { told_of ItemAnswers.scenario ItemAnswers.trace ≡ ItemAnswers.told }
    ensures safe { Safe ItemAnswers.scenario ItemAnswers.trace }
    ensures keeps { Promises ItemAnswers.scenario ItemAnswers.trace }
{}

/// An alternate that has started its takeover goes through the lines of the command list that name its own applid.
pub fn the_command_list_of_the_own_applid()
    ensures runs { run TheCommandListOfTheOwnApplid.scenario TheCommandListOfTheOwnApplid.choices ≡ Ok TheCommandListOfTheOwnApplid.trace }
    ensures told { told_of TheCommandListOfTheOwnApplid.scenario TheCommandListOfTheOwnApplid.trace ≡ TheCommandListOfTheOwnApplid.told }
    ensures safe { Safe TheCommandListOfTheOwnApplid.scenario TheCommandListOfTheOwnApplid.trace }
    ensures keeps { Promises TheCommandListOfTheOwnApplid.scenario TheCommandListOfTheOwnApplid.trace }
{}

/// A stop tears a file write to bytes that are no slot; the restart undoes it from the log.
pub fn torn_file_write()
    ensures runs { run TornFileWrite.scenario TornFileWrite.choices ≡ Ok TornFileWrite.trace }
    ensures told { told_of TornFileWrite.scenario TornFileWrite.trace ≡ TornFileWrite.told }
    ensures safe { Safe TornFileWrite.scenario TornFileWrite.trace }
    ensures keeps { Promises TornFileWrite.scenario TornFileWrite.trace }
{}

/// INQUIRE and SET tell mode and surveillance, and PERFORM SHUTDOWN makes the alternate leave.
pub fn cebt_commands_and_their_replies()
    ensures runs { run CebtCommandsAndTheirReplies.scenario CebtCommandsAndTheirReplies.choices ≡ Ok CebtCommandsAndTheirReplies.trace }
    ensures told { told_of CebtCommandsAndTheirReplies.scenario CebtCommandsAndTheirReplies.trace ≡ CebtCommandsAndTheirReplies.told }
    ensures safe { Safe CebtCommandsAndTheirReplies.scenario CebtCommandsAndTheirReplies.trace }
    ensures keeps { Promises CebtCommandsAndTheirReplies.scenario CebtCommandsAndTheirReplies.trace }
{}

/// A stop in the opening write of a COMMIT that still opened the slot: the unit is committed though its item is lost.
pub fn stop_in_the_opening_write_of_a_commit()
    ensures runs { run StopInTheOpeningWriteOfACommit.scenario StopInTheOpeningWriteOfACommit.choices ≡ Ok StopInTheOpeningWriteOfACommit.trace }
    ensures told { told_of StopInTheOpeningWriteOfACommit.scenario StopInTheOpeningWriteOfACommit.trace ≡ StopInTheOpeningWriteOfACommit.told }
    ensures safe { Safe StopInTheOpeningWriteOfACommit.scenario StopInTheOpeningWriteOfACommit.trace }
    ensures keeps { Promises StopInTheOpeningWriteOfACommit.scenario StopInTheOpeningWriteOfACommit.trace }
{}

/// An active whose read of a message slot fails drops the alternate and goes on.
pub fn a_failing_read_of_a_message_slot_drops_the_alternate()
    ensures runs { run AFailingReadOfAMessageSlotDropsTheAlternate.scenario AFailingReadOfAMessageSlotDropsTheAlternate.choices ≡ Ok AFailingReadOfAMessageSlotDropsTheAlternate.trace }
    ensures told { told_of AFailingReadOfAMessageSlotDropsTheAlternate.scenario AFailingReadOfAMessageSlotDropsTheAlternate.trace ≡ AFailingReadOfAMessageSlotDropsTheAlternate.told }
    ensures safe { Safe AFailingReadOfAMessageSlotDropsTheAlternate.scenario AFailingReadOfAMessageSlotDropsTheAlternate.trace }
    ensures keeps { Promises AFailingReadOfAMessageSlotDropsTheAlternate.scenario AFailingReadOfAMessageSlotDropsTheAlternate.trace }
{}

/// An active whose message write fails drops the alternate and goes on.
pub fn a_failing_message_write_drops_the_alternate()
    ensures runs { run AFailingMessageWriteDropsTheAlternate.scenario AFailingMessageWriteDropsTheAlternate.choices ≡ Ok AFailingMessageWriteDropsTheAlternate.trace }
    ensures told { told_of AFailingMessageWriteDropsTheAlternate.scenario AFailingMessageWriteDropsTheAlternate.trace ≡ AFailingMessageWriteDropsTheAlternate.told }
    ensures safe { Safe AFailingMessageWriteDropsTheAlternate.scenario AFailingMessageWriteDropsTheAlternate.trace }
    ensures keeps { Promises AFailingMessageWriteDropsTheAlternate.scenario AFailingMessageWriteDropsTheAlternate.trace }
{}

/// An opening write that lands and still fails is a failure: the alternate is dropped.
pub fn a_failing_gate_that_landed_and_the_drop()
    ensures runs { run AFailingGateThatLandedAndTheDrop.scenario AFailingGateThatLandedAndTheDrop.choices ≡ Ok AFailingGateThatLandedAndTheDrop.trace }
    ensures told { told_of AFailingGateThatLandedAndTheDrop.scenario AFailingGateThatLandedAndTheDrop.trace ≡ AFailingGateThatLandedAndTheDrop.told }
    ensures safe { Safe AFailingGateThatLandedAndTheDrop.scenario AFailingGateThatLandedAndTheDrop.trace }
    ensures keeps { Promises AFailingGateThatLandedAndTheDrop.scenario AFailingGateThatLandedAndTheDrop.trace }
{}

/// An owner whose log write fails signs off as ended abnormally; that write opened the slot, so the next active finds the unit committed.
pub fn a_failing_device_in_the_opening_write_of_a_commit()
    ensures runs { run AFailingDeviceInTheOpeningWriteOfACommit.scenario AFailingDeviceInTheOpeningWriteOfACommit.choices ≡ Ok AFailingDeviceInTheOpeningWriteOfACommit.trace }
    ensures told { told_of AFailingDeviceInTheOpeningWriteOfACommit.scenario AFailingDeviceInTheOpeningWriteOfACommit.trace ≡ AFailingDeviceInTheOpeningWriteOfACommit.told }
    ensures safe { Safe AFailingDeviceInTheOpeningWriteOfACommit.scenario AFailingDeviceInTheOpeningWriteOfACommit.trace }
    ensures keeps { Promises AFailingDeviceInTheOpeningWriteOfACommit.scenario AFailingDeviceInTheOpeningWriteOfACommit.trace }
{}

/// The same stop where the slot stays closed: the restart undoes both PUTs and logs the Backout.
pub fn stop_in_the_opening_write_of_a_commit_that_leaves_it_closed()
    ensures runs { run StopInTheOpeningWriteOfACommitThatLeavesItClosed.scenario StopInTheOpeningWriteOfACommitThatLeavesItClosed.choices ≡ Ok StopInTheOpeningWriteOfACommitThatLeavesItClosed.trace }
    ensures told { told_of StopInTheOpeningWriteOfACommitThatLeavesItClosed.scenario StopInTheOpeningWriteOfACommitThatLeavesItClosed.trace ≡ StopInTheOpeningWriteOfACommitThatLeavesItClosed.told }
    ensures safe { Safe StopInTheOpeningWriteOfACommitThatLeavesItClosed.scenario StopInTheOpeningWriteOfACommitThatLeavesItClosed.trace }
    ensures keeps { Promises StopInTheOpeningWriteOfACommitThatLeavesItClosed.scenario StopInTheOpeningWriteOfACommitThatLeavesItClosed.trace }
{}

/// An alternate that waits and fails to read a message leaves, and its taking goes with it.
pub fn a_failing_read_of_a_waiting_alternate()
    ensures runs { run AFailingReadOfAWaitingAlternate.scenario AFailingReadOfAWaitingAlternate.choices ≡ Ok AFailingReadOfAWaitingAlternate.trace }
    ensures told { told_of AFailingReadOfAWaitingAlternate.scenario AFailingReadOfAWaitingAlternate.trace ≡ AFailingReadOfAWaitingAlternate.told }
    ensures safe { Safe AFailingReadOfAWaitingAlternate.scenario AFailingReadOfAWaitingAlternate.trace }
    ensures keeps { Promises AFailingReadOfAWaitingAlternate.scenario AFailingReadOfAWaitingAlternate.trace }
{}

/// The alternate that was commanded decides THROUGH once it sees that the owner has signed off.
pub fn command_waits_for_cebt_up_to_the_decision_to_go_through()
    ensures runs { run CommandWaitsForCebtUpToTheDecisionToGoThrough.scenario CommandWaitsForCebtUpToTheDecisionToGoThrough.choices ≡ Ok CommandWaitsForCebtUpToTheDecisionToGoThrough.trace }
    ensures told { told_of CommandWaitsForCebtUpToTheDecisionToGoThrough.scenario CommandWaitsForCebtUpToTheDecisionToGoThrough.trace ≡ CommandWaitsForCebtUpToTheDecisionToGoThrough.told }
    ensures safe { Safe CommandWaitsForCebtUpToTheDecisionToGoThrough.scenario CommandWaitsForCebtUpToTheDecisionToGoThrough.trace }
    ensures keeps { Promises CommandWaitsForCebtUpToTheDecisionToGoThrough.scenario CommandWaitsForCebtUpToTheDecisionToGoThrough.trace }
{}

/// A record put twice, a stop in the second write and a stop in the undoing of the first: the second restart gives the first value back.
pub fn record_put_twice_and_two_stops()
    ensures runs { run RecordPutTwiceAndTwoStops.scenario RecordPutTwiceAndTwoStops.choices ≡ Ok RecordPutTwiceAndTwoStops.trace }
    ensures told { told_of RecordPutTwiceAndTwoStops.scenario RecordPutTwiceAndTwoStops.trace ≡ RecordPutTwiceAndTwoStops.told }
    ensures safe { Safe RecordPutTwiceAndTwoStops.scenario RecordPutTwiceAndTwoStops.trace }
    ensures keeps { Promises RecordPutTwiceAndTwoStops.scenario RecordPutTwiceAndTwoStops.trace }
{}

/// A takeover by a job of level 2 gives the record format 2; a job of level 1 that starts then ends, since it cannot read it.
pub fn migration_of_a_pair_to_format_2()
    ensures runs { run MigrationOfAPairToFormat2.scenario MigrationOfAPairToFormat2.choices ≡ Ok MigrationOfAPairToFormat2.trace }
    ensures told { told_of MigrationOfAPairToFormat2.scenario MigrationOfAPairToFormat2.trace ≡ MigrationOfAPairToFormat2.told }
    ensures safe { Safe MigrationOfAPairToFormat2.scenario MigrationOfAPairToFormat2.trace }
    ensures keeps { Promises MigrationOfAPairToFormat2.scenario MigrationOfAPairToFormat2.trace }
{}

/// Under COMMAND an abnormal sign-off alone starts no takeover; PERFORM TAKEOVER does, up to the restart at the new site.
pub fn command_waits_for_cebt()
    ensures runs { run CommandWaitsForCebt.scenario CommandWaitsForCebt.choices ≡ Ok CommandWaitsForCebt.trace }
    ensures told { told_of CommandWaitsForCebt.scenario CommandWaitsForCebt.trace ≡ CommandWaitsForCebt.told }
    ensures safe { Safe CommandWaitsForCebt.scenario CommandWaitsForCebt.trace }
    ensures keeps { Promises CommandWaitsForCebt.scenario CommandWaitsForCebt.trace }
{}

/// EXIT DROP that comes inside a sign-off changes nothing: the sign-off is written and the alternate stays.
pub fn an_exit_inside_a_sign_off()
    ensures runs { run AnExitInsideASignOff.scenario AnExitInsideASignOff.choices ≡ Ok AnExitInsideASignOff.trace }
    ensures told { told_of AnExitInsideASignOff.scenario AnExitInsideASignOff.trace ≡ AnExitInsideASignOff.told }
    ensures safe { Safe AnExitInsideASignOff.scenario AnExitInsideASignOff.trace }
    ensures keeps { Promises AnExitInsideASignOff.scenario AnExitInsideASignOff.trace }
{}

/// An active that was paused ends its last act, sees the taking at its next round, and its status exit answers ABEND.
pub fn the_status_exit_of_the_paused_active()
    ensures runs { run TheStatusExitOfThePausedActive.scenario TheStatusExitOfThePausedActive.choices ≡ Ok TheStatusExitOfThePausedActive.trace }
    ensures told { told_of TheStatusExitOfThePausedActive.scenario TheStatusExitOfThePausedActive.trace ≡ TheStatusExitOfThePausedActive.told }
    ensures safe { Safe TheStatusExitOfThePausedActive.scenario TheStatusExitOfThePausedActive.trace }
    ensures keeps { Promises TheStatusExitOfThePausedActive.scenario TheStatusExitOfThePausedActive.trace }
{}

/// A message body of garbage, in a slot that no stop opened, is never read; the next epoch writes over it.
pub fn a_garbage_body_that_is_not_opened()
    ensures runs { run AGarbageBodyThatIsNotOpened.scenario AGarbageBodyThatIsNotOpened.choices ≡ Ok AGarbageBodyThatIsNotOpened.trace }
    ensures told { told_of AGarbageBodyThatIsNotOpened.scenario AGarbageBodyThatIsNotOpened.trace ≡ AGarbageBodyThatIsNotOpened.told }
    ensures safe { Safe AGarbageBodyThatIsNotOpened.scenario AGarbageBodyThatIsNotOpened.trace }
    ensures keeps { Promises AGarbageBodyThatIsNotOpened.scenario AGarbageBodyThatIsNotOpened.trace }
{}

/// An alternate that makes no round for PDI ticks is dropped by the active, and ends once it sees that.
pub fn the_alternate_is_dropped()
    ensures runs { run TheAlternateIsDropped.scenario TheAlternateIsDropped.choices ≡ Ok TheAlternateIsDropped.trace }
    ensures told { told_of TheAlternateIsDropped.scenario TheAlternateIsDropped.trace ≡ TheAlternateIsDropped.told }
    ensures safe { Safe TheAlternateIsDropped.scenario TheAlternateIsDropped.trace }
    ensures keeps { Promises TheAlternateIsDropped.scenario TheAlternateIsDropped.trace }
{}

/// An alternate that decided to start finds that the owner signed off normally, and abandons its start.
pub fn a_start_that_is_overtaken_by_a_normal_sign_off()
    ensures runs { run AStartThatIsOvertakenByANormalSignOff.scenario AStartThatIsOvertakenByANormalSignOff.choices ≡ Ok AStartThatIsOvertakenByANormalSignOff.trace }
    ensures told { told_of AStartThatIsOvertakenByANormalSignOff.scenario AStartThatIsOvertakenByANormalSignOff.trace ≡ AStartThatIsOvertakenByANormalSignOff.told }
    ensures safe { Safe AStartThatIsOvertakenByANormalSignOff.scenario AStartThatIsOvertakenByANormalSignOff.trace }
    ensures keeps { Promises AStartThatIsOvertakenByANormalSignOff.scenario AStartThatIsOvertakenByANormalSignOff.trace }
{}

/// Under FORCE the terminals go to the new active without their users.
pub fn users_at_a_takeover_are_signed_off_by_force()
    ensures runs { run UsersAtATakeoverAreSignedOffByForce.scenario UsersAtATakeoverAreSignedOffByForce.choices ≡ Ok UsersAtATakeoverAreSignedOffByForce.trace }
    ensures told { told_of UsersAtATakeoverAreSignedOffByForce.scenario UsersAtATakeoverAreSignedOffByForce.trace ≡ UsersAtATakeoverAreSignedOffByForce.told }
    ensures safe { Safe UsersAtATakeoverAreSignedOffByForce.scenario UsersAtATakeoverAreSignedOffByForce.trace }
    ensures keeps { Promises UsersAtATakeoverAreSignedOffByForce.scenario UsersAtATakeoverAreSignedOffByForce.trace }
{}

/// Under NOFORCE the terminals go to the new active with their users.
pub fn users_at_a_takeover_stay_with_noforce()
    ensures runs { run UsersAtATakeoverStayWithNoforce.scenario UsersAtATakeoverStayWithNoforce.choices ≡ Ok UsersAtATakeoverStayWithNoforce.trace }
    ensures told { told_of UsersAtATakeoverStayWithNoforce.scenario UsersAtATakeoverStayWithNoforce.trace ≡ UsersAtATakeoverStayWithNoforce.told }
    ensures safe { Safe UsersAtATakeoverStayWithNoforce.scenario UsersAtATakeoverStayWithNoforce.trace }
    ensures keeps { Promises UsersAtATakeoverStayWithNoforce.scenario UsersAtATakeoverStayWithNoforce.trace }
{}

/// The paused active sees the taking and signs off; the new active undoes its unit.
pub fn the_paused_active()
    ensures runs { run ThePausedActive.scenario ThePausedActive.choices ≡ Ok ThePausedActive.trace }
    ensures told { told_of ThePausedActive.scenario ThePausedActive.trace ≡ ThePausedActive.told }
    ensures safe { Safe ThePausedActive.scenario ThePausedActive.trace }
    ensures keeps { Promises ThePausedActive.scenario ThePausedActive.trace }
{}

/// An active whose first path is lost in each round is still seen by the second path.
pub fn the_second_path_carries_the_signal()
    ensures runs { run TheSecondPathCarriesTheSignal.scenario TheSecondPathCarriesTheSignal.choices ≡ Ok TheSecondPathCarriesTheSignal.trace }
    ensures told { told_of TheSecondPathCarriesTheSignal.scenario TheSecondPathCarriesTheSignal.trace ≡ TheSecondPathCarriesTheSignal.told }
    ensures safe { Safe TheSecondPathCarriesTheSignal.scenario TheSecondPathCarriesTheSignal.trace }
    ensures keeps { Promises TheSecondPathCarriesTheSignal.scenario TheSecondPathCarriesTheSignal.trace }
{}

/// The ring fills and is read; a message that a stop cut is not tracked at the takeover.
pub fn a_full_ring_and_an_unsent_message()
    ensures runs { run AFullRingAndAnUnsentMessage.scenario AFullRingAndAnUnsentMessage.choices ≡ Ok AFullRingAndAnUnsentMessage.trace }
    ensures told { told_of AFullRingAndAnUnsentMessage.scenario AFullRingAndAnUnsentMessage.trace ≡ AFullRingAndAnUnsentMessage.told }
    ensures safe { Safe AFullRingAndAnUnsentMessage.scenario AFullRingAndAnUnsentMessage.trace }
    ensures keeps { Promises AFullRingAndAnUnsentMessage.scenario AFullRingAndAnUnsentMessage.trace }
{}

/// Under MANUAL the operator is asked: IGNORE waits for the next loss, GO starts the takeover.
pub fn the_operator_is_asked()
    ensures runs { run TheOperatorIsAsked.scenario TheOperatorIsAsked.choices ≡ Ok TheOperatorIsAsked.trace }
    ensures told { told_of TheOperatorIsAsked.scenario TheOperatorIsAsked.trace ≡ TheOperatorIsAsked.told }
    ensures safe { Safe TheOperatorIsAsked.scenario TheOperatorIsAsked.trace }
    ensures keeps { Promises TheOperatorIsAsked.scenario TheOperatorIsAsked.trace }
{}

/// The loss is decided at the tick at which ADI has passed and not before; the taking then waits for a proof.
pub fn adi_at_its_boundary()
    ensures runs { run AdiAtItsBoundary.scenario AdiAtItsBoundary.choices ≡ Ok AdiAtItsBoundary.trace }
    ensures told { told_of AdiAtItsBoundary.scenario AdiAtItsBoundary.trace ≡ AdiAtItsBoundary.told }
    ensures safe { Safe AdiAtItsBoundary.scenario AdiAtItsBoundary.trace }
    ensures keeps { Promises AdiAtItsBoundary.scenario AdiAtItsBoundary.trace }
{}

/// A plan of starts and an ABEND runs to a takeover, with the terminals at the new site.
pub fn threads_run_a_plan_to_a_takeover()
    ensures runs { run ThreadsRunAPlanToATakeover.scenario ThreadsRunAPlanToATakeover.choices ≡ Ok ThreadsRunAPlanToATakeover.trace }
    ensures told { told_of ThreadsRunAPlanToATakeover.scenario ThreadsRunAPlanToATakeover.trace ≡ ThreadsRunAPlanToATakeover.told }
    ensures safe { Safe ThreadsRunAPlanToATakeover.scenario ThreadsRunAPlanToATakeover.trace }
    ensures keeps { Promises ThreadsRunAPlanToATakeover.scenario ThreadsRunAPlanToATakeover.trace }
{}
