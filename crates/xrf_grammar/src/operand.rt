//! Words that are no keywords, and what is wrong with them.

ghost use Rattle.std.specs.Prelude.{◌≡◌};
ghost use Rattle.xrf_grammar.specs.Operands.{site_of, range_fault, multiple_fault, fault_unless, operand_fault, class_of, is_multiple_of};

use crate::form::Part;
use crate::hex::spells_hex;
use crate::number::read_number;
use crate::reason::Reason;
use xrf_base::Site;
use xrf_base::names::spells_name;
use xrf_base::values::spells_value;

/// The site that a word names.
pub(crate) fn read_site(word: &[u8]) -> Option<Site>
    ensures { result ≡ site_of word.now }
{
    if word == b"A".as_slice() {
        return Some(Site::A);
    }
    if word == b"B".as_slice() {
        return Some(Site::B);
    }
    None
}

/// The class that a word spells.
pub(crate) fn read_class(word: &[u8]) -> Option<u8>
    ensures { result ≡ class_of word.now }
{
    match read_number(word) {
        Some(1) => Some(1),
        Some(2) => Some(2),
        Some(3) => Some(3),
        _ => None,
    }
}

#[inline(always)]
fn fault_unless_kept(kept: bool, reason: Reason) -> Option<Reason>
    ensures { result ≡ fault_unless kept reason }
{
    if kept { None } else { Some(reason) }
}

#[inline(always)]
fn fault_in_range(least: u16, most: u16, word: &[u8]) -> Option<Reason>
    ensures { result ≡ range_fault least most word.now }
{
    let Some(number) = read_number(word) else {
        return Some(Reason::BadNumber);
    };
    fault_unless_kept(least <= number && number <= most, Reason::OutOfRange)
}

#[inline(always)]
fn fault_in_multiple(least: u16, most: u16, unit: u16, word: &[u8]) -> Option<Reason>
    ensures { result ≡ multiple_fault least most unit word.now }
{
    let Some(number) = read_number(word) else {
        return Some(Reason::BadNumber);
    };
    fault_unless_kept(
        least <= number && number <= most && is_multiple(number, unit),
        Reason::OutOfRange,
    )
}

fn is_multiple(number: u16, unit: u16) -> bool
    ensures { result ≡ is_multiple_of number unit }
{
    if unit == 0 {
        return false;
    }
    number % unit == 0
}

/// What is wrong with a word in the place of a part that is no keyword.
#[inline(always)]
pub(crate) fn fault_of_operand(part: Part, word: &[u8]) -> Option<Reason>
    ensures { result ≡ operand_fault part word.now }
{
    match part {
        Part::Site => fault_unless_kept(read_site(word).is_some(), Reason::BadSite),
        Part::Number(least, most) => fault_in_range(least, most, word),
        Part::Multiple(least, most, unit) => fault_in_multiple(least, most, unit, word),
        Part::Name => fault_unless_kept(spells_name(word), Reason::BadName),
        Part::Value => fault_unless_kept(spells_value(word), Reason::BadValue),
        Part::Hex => fault_unless_kept(spells_hex(word), Reason::BadHex),
        Part::Words | Part::Keyword(_, _) | Part::Refused(_, _) => None,
    }
}
