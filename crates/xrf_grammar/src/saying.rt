//! What the words of a form say.

ghost use Rattle.std.specs.Prelude.{◌≡◌};
ghost use Rattle.xrf_text.specs.Text.{texts};
ghost use Rattle.xrf_grammar.specs.Saying.{torn_said, site_said, choice_said, once_said, item_said, work_said, plan_said, applid_said, level_said, record_said, said};

use crate::form::{ChoiceForm, Form, ItemForm};
use crate::hex::read_hex;
use crate::line::Line;
use crate::number::read_number;
use crate::operand::{read_class, read_site};
use crate::word::{behind, fifth, fourth, second, sixth, third};
use xrf_base::{Inc, Item, Name8, Site, Value};
use xrf_setup::{Choice, Landing};

fn torn(words: &[&[u8]]) -> Option<Landing>
    ensures { result ≡ torn_said (texts words.now) }
{
    Some(Landing::Torn(read_hex(fourth(words))?))
}

// the choices that name a site alone, or a site and keywords
#[inline(always)]
fn choice_of_site(form: ChoiceForm, site: Site, words: &[&[u8]]) -> Option<Choice>
    ensures { result ≡ site_said form site (texts words.now) }
{
    match form {
        ChoiceForm::Step | ChoiceForm::StepTimes => Some(Choice::Step(site)),
        ChoiceForm::Lose => Some(Choice::Lose(site)),
        ChoiceForm::StopNothing => Some(Choice::Stop(site, Landing::Nothing)),
        ChoiceForm::StopAll => Some(Choice::Stop(site, Landing::All)),
        ChoiceForm::StopTorn => Some(Choice::Stop(site, torn(words)?)),
        ChoiceForm::FailNothing => Some(Choice::Fail(site, Landing::Nothing)),
        ChoiceForm::FailAll => Some(Choice::Fail(site, Landing::All)),
        ChoiceForm::FailTorn => Some(Choice::Fail(site, torn(words)?)),
        ChoiceForm::StartActive => Some(Choice::StartActive(site)),
        ChoiceForm::StartStandby => Some(Choice::StartStandby(site)),
        ChoiceForm::Abend => Some(Choice::Abend(site)),
        ChoiceForm::Reply(go) => Some(Choice::Reply(site, go)),
        ChoiceForm::Cebt(command) => Some(Choice::Cebt(site, command)),
        ChoiceForm::Exit(answer) => Some(Choice::Exit(site, answer)),
        ChoiceForm::Tick | ChoiceForm::TickTimes | ChoiceForm::Confirm => None,
    }
}

/// The choice that a line of a form says, its count left out.
#[inline(always)]
fn say_choice(form: ChoiceForm, words: &[&[u8]]) -> Option<Choice>
    ensures { result ≡ choice_said form (texts words.now) }
{
    match form {
        ChoiceForm::Tick | ChoiceForm::TickTimes => Some(Choice::Tick),
        ChoiceForm::Confirm => Some(Choice::Confirm(read_number(second(words))? as Inc)),
        _ => choice_of_site(form, read_site(second(words))?, words),
    }
}

/// A choice with its count, where it has one.
#[inline(always)]
fn say_once(form: ChoiceForm, words: &[&[u8]]) -> Option<Line>
    ensures { result ≡ once_said form (texts words.now) }
{
    let choice = say_choice(form, words)?;
    match form {
        ChoiceForm::TickTimes => Some(Line::Times(choice, read_number(second(words))?)),
        ChoiceForm::StepTimes => Some(Line::Times(choice, read_number(third(words))?)),
        _ => Some(Line::Once(choice)),
    }
}

// the item of a line of work, whose operands stand from the fourth word on
#[inline(always)]
fn say_item(form: ItemForm, words: &[&[u8]]) -> Option<Item>
    ensures { result ≡ item_said form (texts words.now) }
{
    match form {
        ItemForm::Begin => Some(Item::Begin(Name8::read(fourth(words))?)),
        ItemForm::Put => {
            let unit = Name8::read(fourth(words))?;
            let number = read_number(fifth(words))?;
            Some(Item::Put(unit, number, Value::read(sixth(words))?))
        }
        ItemForm::Get => {
            let unit = Name8::read(fourth(words))?;
            Some(Item::Get(unit, read_number(fifth(words))?))
        }
        ItemForm::Commit => Some(Item::Commit(Name8::read(fourth(words))?)),
        ItemForm::Roll => Some(Item::Roll(Name8::read(fourth(words))?)),
        ItemForm::Logon => {
            let terminal = Name8::read(fourth(words))?;
            Some(Item::Logon(terminal, read_class(fifth(words))?))
        }
        ItemForm::Logoff => Some(Item::Logoff(Name8::read(fourth(words))?)),
        ItemForm::Signon => {
            let terminal = Name8::read(fourth(words))?;
            Some(Item::Signon(terminal, Name8::read(fifth(words))?))
        }
        ItemForm::Signoff => Some(Item::Signoff(Name8::read(fourth(words))?)),
        ItemForm::Shutdown => Some(Item::Shutdown),
        ItemForm::ShutdownTakeover => Some(Item::ShutdownTakeover),
    }
}

#[inline(always)]
fn say_work(form: ItemForm, words: &[&[u8]]) -> Option<Line>
    ensures { result ≡ work_said form (texts words.now) }
{
    let site = read_site(second(words))?;
    Some(Line::Work(site, say_item(form, words)?))
}

fn say_plan(form: ChoiceForm, words: &[&[u8]]) -> Option<Line>
    ensures { result ≡ plan_said form (texts words.now) }
{
    let tick = read_number(second(words))?;
    Some(Line::Plan(tick, say_choice(form, behind(behind(words)))?))
}

fn say_applid(words: &[&[u8]]) -> Option<Line>
    ensures { result ≡ applid_said (texts words.now) }
{
    let site = read_site(second(words))?;
    Some(Line::Applid(site, Name8::read(third(words))?))
}

fn say_level(words: &[&[u8]]) -> Option<Line>
    ensures { result ≡ level_said (texts words.now) }
{
    let site = read_site(second(words))?;
    Some(Line::Level(site, read_number(third(words))?))
}

#[inline(always)]
fn say_record(words: &[&[u8]]) -> Option<Line>
    ensures { result ≡ record_said (texts words.now) }
{
    let number = read_number(second(words))?;
    Some(Line::Record(number, Value::read(third(words))?))
}

/// What a line of a form says.
#[inline(always)]
pub(crate) fn say(form: Form, words: &[&[u8]]) -> Option<Line>
    ensures { result ≡ said form (texts words.now) }
{
    match form {
        Form::Applid => say_applid(words),
        Form::Takeovr(mode) => Some(Line::Takeovr(mode)),
        Form::Quantity(quantity) => Some(Line::Quantity(quantity, read_number(second(words))?)),
        Form::Images(on) => Some(Line::Images(on)),
        Form::Level => say_level(words),
        Form::Xrfsoff(force) => Some(Line::Xrfsoff(force)),
        Form::Record => say_record(words),
        Form::CltCancel | Form::CltCommand | Form::CltWto => Some(Line::Clt),
        Form::Work(item) => say_work(item, words),
        Form::Plan(choice) => say_plan(choice, words),
        Form::Choices => Some(Line::Choices),
        Form::Choice(choice) => say_once(choice, words),
        Form::End => Some(Line::End),
    }
}
