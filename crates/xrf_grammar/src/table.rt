//! The forms of each part of the text.

ghost use Rattle.std.specs.Prelude.{◌≡◌};
ghost use Rattle.xrf_grammar.specs.Table.{settings_of, choices_table};

use crate::form::{ChoiceForm, Form, ItemForm};
use crate::quantity::Quantity;
use xrf_base::Takeovr;
use xrf_cebt::Cebt;
use xrf_exit::ExitAnswer;
use xrf_setup::Format;

/// Some forms, then a form for each choice, then a last form.
macro_rules! with_choices {
    ([$($before:expr,)*], $form:ident, $last:expr) => {
        [
            $($before,)*
            Form::$form(ChoiceForm::Tick),
            Form::$form(ChoiceForm::TickTimes),
            Form::$form(ChoiceForm::Step),
            Form::$form(ChoiceForm::StepTimes),
            Form::$form(ChoiceForm::Lose),
            Form::$form(ChoiceForm::StopNothing),
            Form::$form(ChoiceForm::StopAll),
            Form::$form(ChoiceForm::StopTorn),
            Form::$form(ChoiceForm::FailNothing),
            Form::$form(ChoiceForm::FailAll),
            Form::$form(ChoiceForm::FailTorn),
            Form::$form(ChoiceForm::StartActive),
            Form::$form(ChoiceForm::StartStandby),
            Form::$form(ChoiceForm::Abend),
            Form::$form(ChoiceForm::Confirm),
            Form::$form(ChoiceForm::Reply(true)),
            Form::$form(ChoiceForm::Reply(false)),
            Form::$form(ChoiceForm::Cebt(Cebt::PerformTakeover)),
            Form::$form(ChoiceForm::Cebt(Cebt::PerformShutdown)),
            Form::$form(ChoiceForm::Cebt(Cebt::InquireTakeover)),
            Form::$form(ChoiceForm::Cebt(Cebt::InquireSurveillance)),
            Form::$form(ChoiceForm::Cebt(Cebt::SetTakeover(Takeovr::Auto))),
            Form::$form(ChoiceForm::Cebt(Cebt::SetTakeover(Takeovr::Manual))),
            Form::$form(ChoiceForm::Cebt(Cebt::SetTakeover(Takeovr::Command))),
            Form::$form(ChoiceForm::Cebt(Cebt::SetSurveillance(true))),
            Form::$form(ChoiceForm::Cebt(Cebt::SetSurveillance(false))),
            Form::$form(ChoiceForm::Exit(ExitAnswer::Abend)),
            Form::$form(ChoiceForm::Exit(ExitAnswer::Keep)),
            Form::$form(ChoiceForm::Exit(ExitAnswer::Drop)),
            $last,
        ]
    };
}

/// The forms before the choices, with those of levels and those of users where there are any.
macro_rules! settings {
    ([$($level:expr,)*], [$($user:expr,)*]) => {
        with_choices!(
            [
                Form::Applid,
                Form::Takeovr(Takeovr::Auto),
                Form::Takeovr(Takeovr::Manual),
                Form::Takeovr(Takeovr::Command),
                Form::Quantity(Quantity::Adi),
                Form::Quantity(Quantity::Pdi),
                Form::Quantity(Quantity::Log),
                Form::Quantity(Quantity::Ring),
                Form::Quantity(Quantity::File),
                Form::Quantity(Quantity::Pace),
                Form::Quantity(Quantity::Ticks),
                Form::Images(true),
                Form::Images(false),
                $($level,)*
                Form::Record,
                Form::CltCancel,
                Form::CltCommand,
                Form::CltWto,
                Form::Work(ItemForm::Begin),
                Form::Work(ItemForm::Put),
                Form::Work(ItemForm::Get),
                Form::Work(ItemForm::Commit),
                Form::Work(ItemForm::Roll),
                Form::Work(ItemForm::Logon),
                Form::Work(ItemForm::Logoff),
                $($user,)*
                Form::Work(ItemForm::Shutdown),
                Form::Work(ItemForm::ShutdownTakeover),
            ],
            Plan,
            Form::Choices
        )
    };
}

/// The forms before the choices under the header XRF 2.
const SETTINGS_OF_TWO: [Form; 61] = settings!(
    [Form::Level, Form::Xrfsoff(true), Form::Xrfsoff(false),],
    [Form::Work(ItemForm::Signon), Form::Work(ItemForm::Signoff),]
);

/// Those under the header XRF 1, which has no levels and no users.
const SETTINGS_OF_ONE: [Form; 56] = settings!([], []);

/// The forms behind the line CHOICES.
const CHOICES: [Form; 30] = with_choices!([], Choice, Form::End);

/// The forms of the lines between the header and the line CHOICES, with that line.
pub(crate) fn settings(format: Format) -> &'static [Form]
    ensures { result.now ≡ settings_of format }
{
    match format {
        Format::One => &SETTINGS_OF_ONE,
        Format::Two => &SETTINGS_OF_TWO,
    }
}

/// The forms of the lines behind the line CHOICES.
pub(crate) fn choices() -> &'static [Form]
    ensures { result.now ≡ choices_table }
{
    &CHOICES
}
