//! Worked runs of several hundred acts. Each function says what the run of its choices comes to.

ghost use Rattle.std.specs.Prelude.{◌≡◌, Ok};
ghost use Rattle.xrf_trace.specs.Runs.{run};
ghost use Rattle.xrf_trace.specs.Safe.{Safe};
ghost use Rattle.xrf_trace.specs.Promises.{Promises};
ghost use Rattle.xrf_examples.specs.Making.{told_of};
ghost use Rattle.xrf_long_runs.specs.TakeoverWithTheDefaultIntervals;
ghost use Rattle.xrf_long_runs.specs.TheFullLog;
ghost use Rattle.xrf_long_runs.specs.KeypointsAndARingLogThatGoesRound;
ghost use Rattle.xrf_long_runs.specs.ATornKeypointCloseThatClosesTheSlot;
ghost use Rattle.xrf_long_runs.specs.ATornKeypointCloseThatLeavesTheSlotOpen;
ghost use Rattle.xrf_long_runs.specs.ATornKeypointBodyThatSpellsANewerKeypoint;

/// The active stops in the middle of a unit: the alternate misses it for ADI, goes through once that is confirmed, and undoes the unit.
pub fn takeover_with_the_default_intervals()
    ensures runs { run TakeoverWithTheDefaultIntervals.scenario TakeoverWithTheDefaultIntervals.choices ≡ Ok TakeoverWithTheDefaultIntervals.trace }
    ensures told { told_of TakeoverWithTheDefaultIntervals.scenario TakeoverWithTheDefaultIntervals.trace ≡ TakeoverWithTheDefaultIntervals.told }
    ensures safe { Safe TakeoverWithTheDefaultIntervals.scenario TakeoverWithTheDefaultIntervals.trace }
    ensures keeps { Promises TakeoverWithTheDefaultIntervals.scenario TakeoverWithTheDefaultIntervals.trace }
{}

/// A log of 64 slots that is used up answers LOGFULL to a PUT and still takes the COMMIT.
pub fn the_full_log()
    ensures runs { run TheFullLog.scenario TheFullLog.choices ≡ Ok TheFullLog.trace }
    ensures told { told_of TheFullLog.scenario TheFullLog.trace ≡ TheFullLog.told }
    ensures safe { Safe TheFullLog.scenario TheFullLog.trace }
    ensures keeps { Promises TheFullLog.scenario TheFullLog.trace }
{}

/// Keypoints move the start of the log, so that it goes round and is never full.
pub fn keypoints_and_a_ring_log_that_goes_round()
    ensures runs { run KeypointsAndARingLogThatGoesRound.scenario KeypointsAndARingLogThatGoesRound.choices ≡ Ok KeypointsAndARingLogThatGoesRound.trace }
    ensures told { told_of KeypointsAndARingLogThatGoesRound.scenario KeypointsAndARingLogThatGoesRound.trace ≡ KeypointsAndARingLogThatGoesRound.told }
    ensures safe { Safe KeypointsAndARingLogThatGoesRound.scenario KeypointsAndARingLogThatGoesRound.trace }
    ensures keeps { Promises KeypointsAndARingLogThatGoesRound.scenario KeypointsAndARingLogThatGoesRound.trace }
{}

/// A stop tears the close of a keypoint slot to a byte that closes it: the restart goes by the keypoint of the other slot.
pub fn a_torn_keypoint_close_that_closes_the_slot()
    ensures runs { run ATornKeypointCloseThatClosesTheSlot.scenario ATornKeypointCloseThatClosesTheSlot.choices ≡ Ok ATornKeypointCloseThatClosesTheSlot.trace }
    ensures told { told_of ATornKeypointCloseThatClosesTheSlot.scenario ATornKeypointCloseThatClosesTheSlot.trace ≡ ATornKeypointCloseThatClosesTheSlot.told }
    ensures safe { Safe ATornKeypointCloseThatClosesTheSlot.scenario ATornKeypointCloseThatClosesTheSlot.trace }
    ensures keeps { Promises ATornKeypointCloseThatClosesTheSlot.scenario ATornKeypointCloseThatClosesTheSlot.trace }
{}

/// A stop tears the close of a keypoint slot so that it stays open: the restart goes by the newer of the two keypoints.
pub fn a_torn_keypoint_close_that_leaves_the_slot_open()
    ensures runs { run ATornKeypointCloseThatLeavesTheSlotOpen.scenario ATornKeypointCloseThatLeavesTheSlotOpen.choices ≡ Ok ATornKeypointCloseThatLeavesTheSlotOpen.trace }
    ensures told { told_of ATornKeypointCloseThatLeavesTheSlotOpen.scenario ATornKeypointCloseThatLeavesTheSlotOpen.trace ≡ ATornKeypointCloseThatLeavesTheSlotOpen.told }
    ensures safe { Safe ATornKeypointCloseThatLeavesTheSlotOpen.scenario ATornKeypointCloseThatLeavesTheSlotOpen.trace }
    ensures keeps { Promises ATornKeypointCloseThatLeavesTheSlotOpen.scenario ATornKeypointCloseThatLeavesTheSlotOpen.trace }
{}

/// A torn body that spells a newer keypoint is not opened, so the restart does not go by it.
pub fn a_torn_keypoint_body_that_spells_a_newer_keypoint()
    ensures runs { run ATornKeypointBodyThatSpellsANewerKeypoint.scenario ATornKeypointBodyThatSpellsANewerKeypoint.choices ≡ Ok ATornKeypointBodyThatSpellsANewerKeypoint.trace }
    ensures told { told_of ATornKeypointBodyThatSpellsANewerKeypoint.scenario ATornKeypointBodyThatSpellsANewerKeypoint.trace ≡ ATornKeypointBodyThatSpellsANewerKeypoint.told }
    ensures safe { Safe ATornKeypointBodyThatSpellsANewerKeypoint.scenario ATornKeypointBodyThatSpellsANewerKeypoint.trace }
    ensures keeps { Promises ATornKeypointBodyThatSpellsANewerKeypoint.scenario ATornKeypointBodyThatSpellsANewerKeypoint.trace }
{}
