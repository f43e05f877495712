//! Broken traces on RESTARTED, keypoints and slots: each function says of which promise its trace is none.

ghost use Rattle.xrf_trace.specs.Safe.{Safe};
ghost use Rattle.xrf_trace.specs.Promises.{Promises};
ghost use Rattle.xrf_conduct_law.specs.WorksAsDue.{WorksAsDue};
ghost use Rattle.xrf_examples.specs.CebtCommandsAndTheirReplies as pair;
ghost use Rattle.xrf_examples.specs.OrdinaryUnitOfWork as unit;
ghost use Rattle.xrf_broken.specs.Works as broken;

/// An active makes RESTARTED twice.
pub fn an_active_is_restarted_twice()
    ensures refused { WorksAsDue pair.scenario broken.an_active_is_restarted_twice → ⊥ }
    ensures safe { Safe pair.scenario broken.an_active_is_restarted_twice }
    ensures keeps { Promises pair.scenario broken.an_active_is_restarted_twice }
{}

/// A keypoint is written that is not due.
pub fn a_keypoint_is_written_that_is_not_due()
    ensures refused { WorksAsDue pair.scenario broken.a_keypoint_is_written_that_is_not_due → ⊥ }
    ensures safe { Safe pair.scenario broken.a_keypoint_is_written_that_is_not_due }
    ensures keeps { Promises pair.scenario broken.a_keypoint_is_written_that_is_not_due }
{}

/// A log slot is written over without its close.
pub fn a_log_slot_is_written_over_without_its_close()
    ensures refused { WorksAsDue unit.scenario broken.a_log_slot_is_written_over_without_its_close → ⊥ }
    ensures safe { Safe unit.scenario broken.a_log_slot_is_written_over_without_its_close }
    ensures keeps { Promises unit.scenario broken.a_log_slot_is_written_over_without_its_close }
{}

/// A message slot is written over without its close.
pub fn a_message_slot_is_written_over_without_its_close()
    ensures refused { WorksAsDue pair.scenario broken.a_message_slot_is_written_over_without_its_close → ⊥ }
    ensures safe { Safe pair.scenario broken.a_message_slot_is_written_over_without_its_close }
    ensures keeps { Promises pair.scenario broken.a_message_slot_is_written_over_without_its_close }
{}
