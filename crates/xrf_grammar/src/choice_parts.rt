//! The parts of the forms of a choice, as a line of its own and behind PLAN and a tick.

ghost use Rattle.std.specs.Prelude.{◌≡◌};
ghost use Rattle.xrf_grammar.specs.Table.{choice_parts, planned_parts};

use crate::form::{ChoiceForm, Part};
use crate::keyword::Keyword;
use crate::reason::Reason;
use xrf_base::Takeovr;
use xrf_cebt::Cebt;
use xrf_exit::ExitAnswer;
use xrf_setup::ranges::{NUMBER_MOST, TICKS_MOST};

/// The keyword of a choice behind PLAN, which takes START, STOP, ABEND, CONFIRM, REPLY and CEBT.
macro_rules! behind_plan {
    (Start) => { Part::Keyword(Keyword::Start, Reason::BadPlan) };
    (Stop) => { Part::Keyword(Keyword::Stop, Reason::BadPlan) };
    (Abend) => { Part::Keyword(Keyword::Abend, Reason::BadPlan) };
    (Confirm) => { Part::Keyword(Keyword::Confirm, Reason::BadPlan) };
    (Reply) => { Part::Keyword(Keyword::Reply, Reason::BadPlan) };
    (Cebt) => { Part::Keyword(Keyword::Cebt, Reason::BadPlan) };
    ($other:ident) => { Part::Refused(Keyword::$other, Reason::BadPlan) };
}

/// The parts of a choice, by its keyword and the parts behind it, as a line or behind PLAN.
macro_rules! parts {
    (line $keyword:ident $(, $part:expr)*) => {
        &[Part::Keyword(Keyword::$keyword, Reason::UnknownWord) $(, $part)*]
    };
    (plan $keyword:ident $(, $part:expr)*) => {
        &[
            Part::Keyword(Keyword::Plan, Reason::UnknownWord),
            Part::Number(0, TICKS_MOST),
            behind_plan!($keyword) $(, $part)*
        ]
    };
}

/// A keyword behind that of a choice.
macro_rules! option {
    ($keyword:ident) => { Part::Keyword(Keyword::$keyword, Reason::BadOption) };
}

/// A keyword of a command to an alternate.
macro_rules! word {
    ($keyword:ident) => { Part::Keyword(Keyword::$keyword, Reason::BadCebt) };
}

/// The parts of each choice, with functions for those of CEBT and of EXIT.
macro_rules! parts_of_choice {
    ($form:expr, $place:ident, $command_parts:ident, $answer_parts:ident) => {
        match $form {
            ChoiceForm::Tick => parts!($place Tick),
            ChoiceForm::TickTimes => parts!($place Tick, Part::Number(1, 9999)),
            ChoiceForm::Step => parts!($place Step, Part::Site),
            ChoiceForm::StepTimes => parts!($place Step, Part::Site, Part::Number(1, 9999)),
            ChoiceForm::Lose => parts!($place Lose, Part::Site),
            ChoiceForm::StopNothing => parts!($place Stop, Part::Site, option!(NoneWord)),
            ChoiceForm::StopAll => parts!($place Stop, Part::Site, option!(All)),
            ChoiceForm::StopTorn => parts!($place Stop, Part::Site, option!(Torn), Part::Hex),
            ChoiceForm::FailNothing => parts!($place Fail, Part::Site, option!(NoneWord)),
            ChoiceForm::FailAll => parts!($place Fail, Part::Site, option!(All)),
            ChoiceForm::FailTorn => parts!($place Fail, Part::Site, option!(Torn), Part::Hex),
            ChoiceForm::StartActive => parts!($place Start, Part::Site, option!(Active)),
            ChoiceForm::StartStandby => parts!($place Start, Part::Site, option!(Standby)),
            ChoiceForm::Abend => parts!($place Abend, Part::Site),
            ChoiceForm::Confirm => parts!($place Confirm, Part::Number(0, NUMBER_MOST)),
            ChoiceForm::Reply(true) => parts!($place Reply, Part::Site, option!(Go)),
            ChoiceForm::Reply(false) => parts!($place Reply, Part::Site, option!(Ignore)),
            ChoiceForm::Cebt(command) => $command_parts(command),
            ChoiceForm::Exit(answer) => $answer_parts(answer),
        }
    };
}

/// The parts of each command to an alternate.
macro_rules! parts_of_command {
    ($command:expr, $place:ident) => {
        match $command {
            Cebt::PerformTakeover => parts!($place Cebt, Part::Site, word!(Perform), word!(Takeover)),
            Cebt::PerformShutdown => parts!($place Cebt, Part::Site, word!(Perform), word!(Shutdown)),
            Cebt::InquireTakeover => parts!($place Cebt, Part::Site, word!(Inquire), word!(Takeover)),
            Cebt::InquireSurveillance => parts!($place Cebt, Part::Site, word!(Inquire), word!(Surveillance)),
            Cebt::SetTakeover(Takeovr::Auto) => parts!($place Cebt, Part::Site, word!(Set), word!(Takeover), word!(Auto)),
            Cebt::SetTakeover(Takeovr::Manual) => parts!($place Cebt, Part::Site, word!(Set), word!(Takeover), word!(Manual)),
            Cebt::SetTakeover(Takeovr::Command) => parts!($place Cebt, Part::Site, word!(Set), word!(Takeover), word!(Command)),
            Cebt::SetSurveillance(true) => parts!($place Cebt, Part::Site, word!(Set), word!(Surveillance), word!(On)),
            Cebt::SetSurveillance(false) => parts!($place Cebt, Part::Site, word!(Set), word!(Surveillance), word!(Off)),
        }
    };
}

/// The parts of each answer of the exit.
macro_rules! parts_of_answer {
    ($answer:expr, $place:ident) => {
        match $answer {
            ExitAnswer::Abend => parts!($place Exit, Part::Site, option!(Abend)),
            ExitAnswer::Keep => parts!($place Exit, Part::Site, option!(Keep)),
            ExitAnswer::Drop => parts!($place Exit, Part::Site, option!(Drop)),
        }
    };
}

/// The parts of a choice.
pub(crate) fn choice_parts(form: ChoiceForm) -> &'static [Part]
    ensures { result.now ≡ choice_parts form }
{
    parts_of_choice!(form, line, command_parts, answer_parts)
}

fn command_parts(command: Cebt) -> &'static [Part]
    ensures { result.now ≡ choice_parts (ChoiceForm.Cebt command) }
{
    parts_of_command!(command, line)
}

fn answer_parts(answer: ExitAnswer) -> &'static [Part]
    ensures { result.now ≡ choice_parts (ChoiceForm.Exit answer) }
{
    parts_of_answer!(answer, line)
}

/// The parts of a choice behind PLAN and a tick.
pub(crate) fn planned_parts(form: ChoiceForm) -> &'static [Part]
    ensures { result.now ≡ planned_parts form }
{
    parts_of_choice!(form, plan, planned_command_parts, planned_answer_parts)
}

fn planned_command_parts(command: Cebt) -> &'static [Part]
    ensures { result.now ≡ planned_parts (ChoiceForm.Cebt command) }
{
    parts_of_command!(command, plan)
}

fn planned_answer_parts(answer: ExitAnswer) -> &'static [Part]
    ensures { result.now ≡ planned_parts (ChoiceForm.Exit answer) }
{
    parts_of_answer!(answer, plan)
}
