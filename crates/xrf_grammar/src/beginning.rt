//! The forms of a choice that begin with a word.

ghost use Rattle.xrf_grammar.specs.Grammar.{AreAmong};
ghost use Rattle.xrf_grammar.specs.Table.{choices_table};

use crate::form::{ChoiceForm, Form};
use xrf_base::Takeovr;
use xrf_cebt::Cebt;
use xrf_exit::ExitAnswer;

/// The forms behind the line CHOICES that begin with a word; each is one of them.
pub(crate) fn choices_beginning(word: &[u8]) -> &'static [Form]
    ensures { AreAmong result.now choices_table }
{
    match word {
        b"STEP" => &[
            Form::Choice(ChoiceForm::Step),
            Form::Choice(ChoiceForm::StepTimes),
        ],
        b"TICK" => &[
            Form::Choice(ChoiceForm::Tick),
            Form::Choice(ChoiceForm::TickTimes),
        ],
        b"START" => &[
            Form::Choice(ChoiceForm::StartActive),
            Form::Choice(ChoiceForm::StartStandby),
        ],
        b"STOP" => &[
            Form::Choice(ChoiceForm::StopNothing),
            Form::Choice(ChoiceForm::StopAll),
            Form::Choice(ChoiceForm::StopTorn),
        ],
        b"FAIL" => &[
            Form::Choice(ChoiceForm::FailNothing),
            Form::Choice(ChoiceForm::FailAll),
            Form::Choice(ChoiceForm::FailTorn),
        ],
        _ => further_choices(word),
    }
}

/// The same of the choices that are made less often.
fn further_choices(word: &[u8]) -> &'static [Form]
    ensures { AreAmong result.now choices_table }
{
    match word {
        b"LOSE" => &[Form::Choice(ChoiceForm::Lose)],
        b"ABEND" => &[Form::Choice(ChoiceForm::Abend)],
        b"CONFIRM" => &[Form::Choice(ChoiceForm::Confirm)],
        b"REPLY" => &[
            Form::Choice(ChoiceForm::Reply(true)),
            Form::Choice(ChoiceForm::Reply(false)),
        ],
        b"EXIT" => &[
            Form::Choice(ChoiceForm::Exit(ExitAnswer::Abend)),
            Form::Choice(ChoiceForm::Exit(ExitAnswer::Keep)),
            Form::Choice(ChoiceForm::Exit(ExitAnswer::Drop)),
        ],
        b"END" => &[Form::End],
        _ => commands(word),
    }
}

/// The same of the commands to an alternate.
fn commands(word: &[u8]) -> &'static [Form]
    ensures { AreAmong result.now choices_table }
{
    match word {
        b"CEBT" => &[
            Form::Choice(ChoiceForm::Cebt(Cebt::PerformTakeover)),
            Form::Choice(ChoiceForm::Cebt(Cebt::PerformShutdown)),
            Form::Choice(ChoiceForm::Cebt(Cebt::InquireTakeover)),
            Form::Choice(ChoiceForm::Cebt(Cebt::InquireSurveillance)),
            Form::Choice(ChoiceForm::Cebt(Cebt::SetTakeover(Takeovr::Auto))),
            Form::Choice(ChoiceForm::Cebt(Cebt::SetTakeover(Takeovr::Manual))),
            Form::Choice(ChoiceForm::Cebt(Cebt::SetTakeover(Takeovr::Command))),
            Form::Choice(ChoiceForm::Cebt(Cebt::SetSurveillance(true))),
            Form::Choice(ChoiceForm::Cebt(Cebt::SetSurveillance(false))),
        ],
        _ => &[],
    }
}
