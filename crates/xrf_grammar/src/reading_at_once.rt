//! First records, messages of the command list and puts, which most lines before the choices are,
//! read while their words are split.

ghost use Rattle.std.specs.Prelude.{◌≡◌, ◌∷◌, codes, IfSome, Ok};
ghost use Rattle.xrf_text.specs.Text.{words};
ghost use Rattle.xrf_grammar.specs.Grammar.{Spells};
ghost use Rattle.xrf_grammar.specs.Reading.{line_of};
ghost use Rattle.xrf_grammar.specs.Table.{settings_of};

use crate::line::Line;
use crate::number::{number_within, read_number};
use crate::operand::read_site;
use xrf_base::names::spells_name;
use xrf_base::{Item, Name8, Value};
use xrf_setup::Format;
use xrf_setup::ranges::{FILE_LEAST, FILE_MOST};
use xrf_text::{has_word, split_word};

/// The first record whose number and value are the words of a line.
#[inline(always)]
fn record_behind(format: Format, line: &[u8]) -> Option<Line>
    ensures { IfSome result (λ says. Spells (settings_of format) (codes "RECORD" ∷ words line.now) says) }
{
    let (number, rest) = split_word(line)?;
    let (value, rest) = split_word(rest)?;
    if has_word(rest) {
        return None;
    }
    let number = number_within(FILE_LEAST, FILE_MOST, number)?;
    Some(Line::Record(number, Value::read(value)?))
}

/// The line of the command list whose words behind CLT are those of a line, where it is a message.
#[inline(always)]
fn message_behind(format: Format, line: &[u8]) -> Option<Line>
    ensures { IfSome result (λ says. Spells (settings_of format) (codes "CLT" ∷ words line.now) says) }
{
    let (region, rest) = split_word(line)?;
    let (kind, rest) = split_word(rest)?;
    if kind != b"WTO".as_slice() {
        return None;
    }
    if !spells_name(region) {
        return None;
    }
    let (_, _) = split_word(rest)?;
    Some(Line::Clt)
}

/// The line of work whose words behind WORK are those of a line, where it puts a record.
#[inline(always)]
fn put_behind(format: Format, line: &[u8]) -> Option<Line>
    ensures { IfSome result (λ says. Spells (settings_of format) (codes "WORK" ∷ words line.now) says) }
{
    let (site, rest) = split_word(line)?;
    let (item, rest) = split_word(rest)?;
    if item != b"PUT".as_slice() {
        return None;
    }
    let (unit, rest) = split_word(rest)?;
    let (number, rest) = split_word(rest)?;
    let (value, rest) = split_word(rest)?;
    if has_word(rest) {
        return None;
    }
    let site = read_site(site)?;
    let unit = Name8::read(unit)?;
    let number = read_number(number)?;
    Some(Line::Work(site, Item::Put(unit, number, Value::read(value)?)))
}

/// What a line before the choices says, where it is a first record, a message of the command list or
/// a put. None says nothing of the line.
#[inline(always)]
pub(crate) fn setting_at_once(format: Format, line: &[u8]) -> Option<Line>
    ensures { IfSome result (λ says. Ok says ≡ line_of (settings_of format) (words line.now)) }
{
    let (word, rest) = split_word(line)?;
    if word == b"RECORD".as_slice() {
        return record_behind(format, rest);
    }
    if word == b"CLT".as_slice() {
        return message_behind(format, rest);
    }
    if word == b"WORK".as_slice() {
        return put_behind(format, rest);
    }
    None
}
