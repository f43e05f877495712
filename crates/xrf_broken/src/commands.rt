//! Broken traces on what reaches a job from outside: each function says of which promise its trace is none.

ghost use Rattle.xrf_trace.specs.Safe.{Safe};
ghost use Rattle.xrf_trace.specs.Promises.{Promises};
ghost use Rattle.xrf_conduct_law.specs.CommandsAreTold.{CommandsAreTold};
ghost use Rattle.xrf_examples.specs.CebtCommandsAndTheirReplies as pair;
ghost use Rattle.xrf_broken.specs.Commands as broken;

/// A CEBT INQUIRE tells a mode that is not in force.
pub fn a_cebt_tells_a_wrong_mode()
    ensures refused { CommandsAreTold pair.scenario broken.a_cebt_tells_a_wrong_mode → ⊥ }
    ensures safe { Safe pair.scenario broken.a_cebt_tells_a_wrong_mode }
    ensures keeps { Promises pair.scenario broken.a_cebt_tells_a_wrong_mode }
{}

/// A GO of the operator is taken that answers no question.
pub fn a_go_answers_no_question()
    ensures refused { CommandsAreTold pair.scenario broken.a_go_answers_no_question → ⊥ }
    ensures safe { Safe pair.scenario broken.a_go_answers_no_question }
    ensures keeps { Promises pair.scenario broken.a_go_answers_no_question }
{}

/// An EXIT is taken that answers no notice.
pub fn an_exit_answers_no_notice()
    ensures refused { CommandsAreTold pair.scenario broken.an_exit_answers_no_notice → ⊥ }
    ensures safe { Safe pair.scenario broken.an_exit_answers_no_notice }
    ensures keeps { Promises pair.scenario broken.an_exit_answers_no_notice }
{}
