//! The items that most lines of work have beside puts, read word by word.

ghost use Rattle.std.specs.Prelude.{◌≡◌, ◌∷◌, [], IfSome};
ghost use Rattle.xrf_text.specs.Text.{texts};
ghost use Rattle.xrf_grammar.specs.Grammar.{SpellsItem, Spells};
ghost use Rattle.xrf_grammar.specs.Table.{settings_of};

use crate::line::Line;
use crate::number::read_number;
use crate::operand::{read_class, read_site};
use xrf_base::{Item, Name8};
use xrf_setup::Format;

/// The item that a word and a name spell.
fn read_named(format: Format, word: &[u8], name: &[u8]) -> Option<Item>
    ensures { IfSome result (λ item. SpellsItem format (word.now ∷ name.now ∷ []) item) }
{
    let name = Name8::read(name)?;
    if word == b"BEGIN".as_slice() {
        return Some(Item::Begin(name));
    }
    if word == b"COMMIT".as_slice() {
        return Some(Item::Commit(name));
    }
    if word == b"ROLL".as_slice() {
        return Some(Item::Roll(name));
    }
    if word == b"LOGOFF".as_slice() {
        return Some(Item::Logoff(name));
    }
    None
}

/// The item that a word, a name and a number spell.
fn read_numbered(format: Format, word: &[u8], name: &[u8], number: &[u8]) -> Option<Item>
    ensures { IfSome result (λ item. SpellsItem format (word.now ∷ name.now ∷ number.now ∷ []) item) }
{
    let name = Name8::read(name)?;
    if word == b"GET".as_slice() {
        return Some(Item::Get(name, read_number(number)?));
    }
    if word == b"LOGON".as_slice() {
        return Some(Item::Logon(name, read_class(number)?));
    }
    None
}

/// The item that a word and its operands spell.
fn read_item(format: Format, word: &[u8], operands: &[&[u8]]) -> Option<Item>
    ensures { IfSome result (λ item. SpellsItem format (word.now ∷ texts operands.now) item) }
{
    match operands {
        [name, number] => read_numbered(format, word, name, number),
        [name] => read_named(format, word, name),
        _ => None,
    }
}

/// The line of work that some words spell.
fn read_work(
    format: Format,
    word: &[u8],
    site: &[u8],
    item: &[u8],
    operands: &[&[u8]],
) -> Option<Line>
    ensures { IfSome result (λ says. Spells (settings_of format) (word.now ∷ site.now ∷ item.now ∷ texts operands.now) says) }
{
    if word != b"WORK".as_slice() {
        return None;
    }
    let site = read_site(site)?;
    Some(Line::Work(site, read_item(format, item, operands)?))
}

/// The line of work that some words spell.
#[inline(never)]
pub(crate) fn read_by_words(format: Format, words: &[&[u8]]) -> Option<Line>
    ensures { IfSome result (λ says. Spells (settings_of format) (texts words.now) says) }
{
    match words {
        [word, site, item, operands @ ..] => read_work(format, word, site, item, operands),
        _ => None,
    }
}
