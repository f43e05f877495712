//! The forms between the header and the line CHOICES of which some words can be.

ghost use Rattle.xrf_grammar.specs.Grammar.{AreAmong};
ghost use Rattle.xrf_grammar.specs.Table.{settings_of, settings_of_two};

use crate::form::{ChoiceForm, Form, ItemForm};
use crate::quantity::Quantity;
use crate::word::{fifth, first, third};
use xrf_base::Takeovr;
use xrf_cebt::Cebt;
use xrf_setup::Format;

/// The forms of a line of work with this item. Those of the other items are read word by word.
fn work_beginning(format: Format, item: &[u8]) -> &'static [Form]
    ensures { AreAmong result.now (settings_of format) }
{
    match item {
        b"CEMT" => &[
            Form::Work(ItemForm::Shutdown),
            Form::Work(ItemForm::ShutdownTakeover),
        ],
        _ => match format {
            Format::One => &[],
            Format::Two => &[Form::Work(ItemForm::Signon), Form::Work(ItemForm::Signoff)],
        },
    }
}

/// The forms of a line of the command list of this kind. Its messages are read at once.
fn clt_beginning(format: Format, kind: &[u8]) -> &'static [Form]
    ensures { AreAmong result.now (settings_of format) }
{
    match kind {
        b"COMMAND" => &[Form::CltCommand],
        _ => &[Form::CltCancel],
    }
}

/// The forms of a planned command to an alternate, by the words behind the site.
fn plan_of_command(format: Format, verb: &[u8]) -> &'static [Form]
    ensures { AreAmong result.now (settings_of format) }
{
    match verb {
        b"INQUIRE" => &[
            Form::Plan(ChoiceForm::Cebt(Cebt::InquireTakeover)),
            Form::Plan(ChoiceForm::Cebt(Cebt::InquireSurveillance)),
        ],
        b"PERFORM" => &[
            Form::Plan(ChoiceForm::Cebt(Cebt::PerformTakeover)),
            Form::Plan(ChoiceForm::Cebt(Cebt::PerformShutdown)),
        ],
        _ => &[
            Form::Plan(ChoiceForm::Cebt(Cebt::SetTakeover(Takeovr::Auto))),
            Form::Plan(ChoiceForm::Cebt(Cebt::SetTakeover(Takeovr::Manual))),
            Form::Plan(ChoiceForm::Cebt(Cebt::SetTakeover(Takeovr::Command))),
            Form::Plan(ChoiceForm::Cebt(Cebt::SetSurveillance(true))),
            Form::Plan(ChoiceForm::Cebt(Cebt::SetSurveillance(false))),
        ],
    }
}

/// The forms of a planned choice, by its words. A plan takes no choice but these.
fn plan_beginning(format: Format, words: &[&[u8]]) -> &'static [Form]
    ensures { AreAmong result.now (settings_of format) }
{
    let choice = third(words);
    match choice {
        b"START" => &[
            Form::Plan(ChoiceForm::StartActive),
            Form::Plan(ChoiceForm::StartStandby),
        ],
        b"STOP" => &[
            Form::Plan(ChoiceForm::StopNothing),
            Form::Plan(ChoiceForm::StopAll),
            Form::Plan(ChoiceForm::StopTorn),
        ],
        b"CEBT" => plan_of_command(format, fifth(words)),
        b"CONFIRM" => &[Form::Plan(ChoiceForm::Confirm)],
        b"ABEND" => &[Form::Plan(ChoiceForm::Abend)],
        _ => &[
            Form::Plan(ChoiceForm::Reply(true)),
            Form::Plan(ChoiceForm::Reply(false)),
        ],
    }
}

/// The forms of a setting that begins with a word.
fn setting_beginning(format: Format, word: &[u8]) -> &'static [Form]
    ensures { AreAmong result.now (settings_of format) }
{
    match word {
        b"APPLID" => &[Form::Applid],
        b"TAKEOVR" => &[
            Form::Takeovr(Takeovr::Auto),
            Form::Takeovr(Takeovr::Manual),
            Form::Takeovr(Takeovr::Command),
        ],
        b"IMAGES" => &[Form::Images(true), Form::Images(false)],
        b"CHOICES" => &[Form::Choices],
        _ => number_beginning(format, word),
    }
}

/// The form of a setting that is one number.
fn number_beginning(format: Format, word: &[u8]) -> &'static [Form]
    ensures { AreAmong result.now (settings_of format) }
{
    match word {
        b"ADI" => &[Form::Quantity(Quantity::Adi)],
        b"PDI" => &[Form::Quantity(Quantity::Pdi)],
        b"LOG" => &[Form::Quantity(Quantity::Log)],
        b"RING" => &[Form::Quantity(Quantity::Ring)],
        b"FILE" => &[Form::Quantity(Quantity::File)],
        b"PACE" => &[Form::Quantity(Quantity::Pace)],
        b"TICKS" => &[Form::Quantity(Quantity::Ticks)],
        _ => match format {
            Format::One => &[],
            Format::Two => level_beginning(word),
        },
    }
}

/// The forms that the header XRF 2 has beside those of XRF 1.
fn level_beginning(word: &[u8]) -> &'static [Form]
    ensures { AreAmong result.now settings_of_two }
{
    match word {
        b"LEVEL" => &[Form::Level],
        b"XRFSOFF" => &[Form::Xrfsoff(true), Form::Xrfsoff(false)],
        _ => &[],
    }
}

/// The forms between the header and the line CHOICES of which some words can be, by the first and,
/// where several begin so, by later ones; each is one of them. A first record is read at once,
/// and most work word by word.
pub(crate) fn settings_beginning(format: Format, words: &[&[u8]]) -> &'static [Form]
    ensures { AreAmong result.now (settings_of format) }
{
    let word = first(words);
    match word {
        b"PLAN" => plan_beginning(format, words),
        b"CLT" => clt_beginning(format, third(words)),
        b"WORK" => work_beginning(format, third(words)),
        _ => setting_beginning(format, word),
    }
}
