//! How a choice and a work item are written: one spelling of each.

ghost use Rattle.std.specs.Prelude.{◌≡◌, ◌≤◌, ◌+◌, ◌<◌, ◌++◌, ◌∷◌, [], OnOk, codes};
ghost use Rattle.std.specs.Fmt.{decimal};
ghost use Rattle.xrf_cebt.specs.Command.{command_text};
ghost use Rattle.xrf_grammar.specs.Spelling.{hex_digit, hex_text, piece_text, pieces_text, site_text, site_word, answer_word, landed_text, go_text, choice_text, item_text};

use Piece::{Hex, Number, Text};
use std::alloc::AllocError;
use xrf_base::{Item, Site};
use xrf_cebt::Cebt;
use xrf_exit::ExitAnswer;
use xrf_setup::{Choice, Landing};

/// A piece of a text.
#[derive(Clone, Copy)]
pub enum Piece<'a> {
    /// Bytes as they are.
    Text(&'a [u8]),
    /// A number in decimal digits.
    Number(u64),
    /// Bytes in hex, in lower case.
    Hex(&'a [u8]),
}

#[inline(always)]
pub(crate) fn put_text(out: &mut Vec<u8>, text: &[u8]) -> Result<(), AllocError>
    ensures { OnOk result (out.new.items ≡ out.old.items ++ text.now) }
{
    out.extend_from_slice(text)?;
    Ok(())
}

// the digit of a number below 10
fn decimal_digit(number: u64) -> u8
    requires { number < 10 }
    ensures { result ≡ 48 + number }
{
    b'0' + number as u8
}

// up to four digits at once, or three behind those of the thousands
#[tactic(auto, using(crate::proofs::NumberLaws::one_digit, crate::proofs::NumberLaws::two_digits, crate::proofs::NumberLaws::three_digits, crate::proofs::NumberLaws::four_digits, crate::proofs::NumberLaws::thousands))]
fn put_digits(out: &mut Vec<u8>, number: u64) -> Result<(), AllocError>
    ensures { OnOk result (out.new.items ≡ out.old.items ++ decimal number) }
{
    if number < 10 {
        return put_text(out, &[decimal_digit(number)]);
    }
    let one = decimal_digit(number % 10);
    if number < 100 {
        return put_text(out, &[decimal_digit(number / 10), one]);
    }
    let ten = decimal_digit(number / 10 % 10);
    if number < 1000 {
        return put_text(out, &[decimal_digit(number / 100), ten, one]);
    }
    let hundred = decimal_digit(number / 100 % 10);
    if number < 10000 {
        return put_text(out, &[decimal_digit(number / 1000), hundred, ten, one]);
    }
    put_digits(out, number / 1000)?;
    put_text(out, &[hundred, ten, one])
}

// a number of two or three digits, as most of the others are, or of more
#[tactic(auto, using(crate::proofs::NumberLaws::two_digits, crate::proofs::NumberLaws::three_digits))]
fn put_two_or_more(out: &mut Vec<u8>, number: u64) -> Result<(), AllocError>
    requires { 10 ≤ number }
    ensures { OnOk result (out.new.items ≡ out.old.items ++ decimal number) }
{
    if number < 100 {
        return put_text(
            out,
            &[decimal_digit(number / 10), decimal_digit(number % 10)],
        );
    }
    if number < 1000 {
        let ten = decimal_digit(number / 10 % 10);
        return put_text(
            out,
            &[decimal_digit(number / 100), ten, decimal_digit(number % 10)],
        );
    }
    put_digits(out, number)
}

// a number of one digit, as most are, is written in place
#[inline(always)]
#[tactic(auto, using(crate::proofs::NumberLaws::one_digit))]
fn put_number(out: &mut Vec<u8>, number: u64) -> Result<(), AllocError>
    ensures { OnOk result (out.new.items ≡ out.old.items ++ decimal number) }
{
    if number < 10 {
        return put_text(out, &[decimal_digit(number)]);
    }
    put_two_or_more(out, number)
}

const HEX_DIGITS: [u8; 16] = *b"0123456789abcdef";

// the digit of a number below 16
fn digit(number: u8) -> u8
    requires { number < 16 }
    ensures { result ≡ hex_digit number }
{
    HEX_DIGITS[number as usize]
}

// four bytes at once
fn put_four(out: &mut Vec<u8>, a: u8, b: u8, c: u8, d: u8) -> Result<(), AllocError>
    ensures { OnOk result (out.new.items ≡ out.old.items ++ hex_text (a ∷ b ∷ c ∷ d ∷ [])) }
{
    let digits = [
        digit(a / 16),
        digit(a % 16),
        digit(b / 16),
        digit(b % 16),
        digit(c / 16),
        digit(c % 16),
        digit(d / 16),
        digit(d % 16),
    ];
    put_text(out, &digits)
}

#[inline(never)]
fn put_hex(out: &mut Vec<u8>, bytes: &[u8]) -> Result<(), AllocError>
    ensures { OnOk result (out.new.items ≡ out.old.items ++ hex_text bytes.now) }
{
    let mut rest = bytes;
    while let [a, b, c, d, more @ ..] = rest {
        put_four(out, *a, *b, *c, *d)?;
        rest = more;
    }
    for byte in rest {
        put_text(out, &[digit(*byte / 16), digit(*byte % 16)])?;
    }
    Ok(())
}

#[inline(always)]
fn put_piece(out: &mut Vec<u8>, piece: &Piece) -> Result<(), AllocError>
    ensures { OnOk result (out.new.items ≡ out.old.items ++ piece_text piece.now) }
{
    match piece {
        Piece::Text(text) => put_text(out, text),
        Piece::Number(number) => put_number(out, *number),
        Piece::Hex(bytes) => put_hex(out, bytes),
    }
}

// the pieces one after the other, where there are many
fn put_many(out: &mut Vec<u8>, pieces: &[Piece]) -> Result<(), AllocError>
    ensures { OnOk result (out.new.items ≡ out.old.items ++ pieces_text pieces.now) }
{
    for piece in pieces {
        put_piece(out, piece)?;
    }
    Ok(())
}

/// Appends the pieces to a text. The first six are written in a row with no loop: where a call is
/// inlined, each is then a few moves of known lengths.
#[inline(always)]
pub fn put(out: &mut Vec<u8>, pieces: &[Piece]) -> Result<(), AllocError>
    ensures { OnOk result (out.new.items ≡ out.old.items ++ pieces_text pieces.now) }
{
    let [first, more @ ..] = pieces else {
        return Ok(());
    };
    put_piece(out, first)?;
    let [second, more @ ..] = more else {
        return Ok(());
    };
    put_piece(out, second)?;
    let [third, more @ ..] = more else {
        return Ok(());
    };
    put_piece(out, third)?;
    let [fourth, more @ ..] = more else {
        return Ok(());
    };
    put_piece(out, fourth)?;
    let [fifth, more @ ..] = more else {
        return Ok(());
    };
    put_piece(out, fifth)?;
    let [sixth, more @ ..] = more else {
        return Ok(());
    };
    put_piece(out, sixth)?;
    put_many(out, more)
}

/// The word of a site.
pub fn site_word(site: Site) -> &'static [u8]
    ensures { result.now ≡ site_word site }
{
    match site {
        Site::A => b"A",
        Site::B => b"B",
    }
}

fn answer_word(answer: ExitAnswer) -> &'static [u8]
    ensures { result.now ≡ answer_word answer }
{
    match answer {
        ExitAnswer::Abend => b"ABEND",
        ExitAnswer::Keep => b"KEEP",
        ExitAnswer::Drop => b"DROP",
    }
}

// a blank and the word of a site
fn behind_blank(site: Site) -> &'static [u8]
    ensures { result.now ≡ 32 ∷ site_word site }
{
    match site {
        Site::A => b" A",
        Site::B => b" B",
    }
}

// a word, a site and what stands behind it
#[inline(always)]
pub(crate) fn put_of_site<'a>(
    out: &mut Vec<u8>,
    word: &'a [u8],
    site: Site,
    behind: &'a [u8],
) -> Result<(), AllocError>
    ensures { OnOk result (out.new.items ≡ out.old.items ++ site_text word.now site behind.now) }
{
    put(out, &[Text(word), Text(behind_blank(site)), Text(behind)])
}

// most choices are steps
fn put_step(out: &mut Vec<u8>, site: Site) -> Result<(), AllocError>
    ensures { OnOk result (out.new.items ≡ out.old.items ++ site_text (codes "STEP") site []) }
{
    match site {
        Site::A => put_text(out, b"STEP A"),
        Site::B => put_text(out, b"STEP B"),
    }
}

fn put_landed(
    out: &mut Vec<u8>,
    word: &[u8],
    site: Site,
    landing: &Landing,
) -> Result<(), AllocError>
    ensures { OnOk result (out.new.items ≡ out.old.items ++ landed_text word.now site landing.now) }
{
    match landing {
        Landing::Nothing => put_of_site(out, word, site, b" NONE"),
        Landing::All => put_of_site(out, word, site, b" ALL"),
        Landing::Torn(torn) => {
            put_of_site(out, word, site, b" TORN ")?;
            put_hex(out, torn.bytes())
        }
    }
}

fn put_command(out: &mut Vec<u8>, site: Site, command: Cebt) -> Result<(), AllocError>
    ensures { OnOk result (out.new.items ≡ out.old.items ++ site_text (codes "CEBT") site (codes " " ++ command_text command)) }
{
    put_of_site(out, b"CEBT", site, b" ")?;
    put_text(out, command.text())
}

fn put_exit(out: &mut Vec<u8>, site: Site, answer: ExitAnswer) -> Result<(), AllocError>
    ensures { OnOk result (out.new.items ≡ out.old.items ++ site_text (codes "EXIT") site (codes " " ++ answer_word answer)) }
{
    put_of_site(out, b"EXIT", site, b" ")?;
    put_text(out, answer_word(answer))
}

fn put_number_choice(out: &mut Vec<u8>, number: u32) -> Result<(), AllocError>
    ensures { OnOk result (out.new.items ≡ out.old.items ++ codes "CONFIRM " ++ decimal number) }
{
    put(out, &[Text(b"CONFIRM "), Number(number as u64)])
}

fn put_reply(out: &mut Vec<u8>, site: Site, go: bool) -> Result<(), AllocError>
    ensures { OnOk result (out.new.items ≡ out.old.items ++ go_text site go) }
{
    if go {
        put_of_site(out, b"REPLY", site, b" GO")
    } else {
        put_of_site(out, b"REPLY", site, b" IGNORE")
    }
}

/// Appends a choice as its line spells it, without a count and without a line feed.
pub fn put_choice(out: &mut Vec<u8>, choice: &Choice) -> Result<(), AllocError>
    ensures { OnOk result (out.new.items ≡ out.old.items ++ choice_text choice.now) }
{
    match choice {
        Choice::Tick => put_text(out, b"TICK"),
        Choice::Step(site) => put_step(out, *site),
        Choice::Lose(site) => put_of_site(out, b"LOSE", *site, b""),
        Choice::Stop(site, landing) => put_landed(out, b"STOP", *site, landing),
        Choice::Fail(site, landing) => put_landed(out, b"FAIL", *site, landing),
        Choice::StartActive(site) => put_of_site(out, b"START", *site, b" ACTIVE"),
        Choice::StartStandby(site) => put_of_site(out, b"START", *site, b" STANDBY"),
        Choice::Abend(site) => put_of_site(out, b"ABEND", *site, b""),
        Choice::Confirm(number) => put_number_choice(out, *number),
        Choice::Reply(site, go) => put_reply(out, *site, *go),
        Choice::Cebt(site, command) => put_command(out, *site, *command),
        Choice::Exit(site, answer) => put_exit(out, *site, *answer),
    }
}

#[inline(always)]
pub(crate) fn put_named<'a>(
    out: &mut Vec<u8>,
    word: &'a [u8],
    name: &'a [u8],
) -> Result<(), AllocError>
    ensures { OnOk result (out.new.items ≡ out.old.items ++ word.now ++ name.now) }
{
    put(out, &[Text(word), Text(name)])
}

// a word behind a blank
#[inline(always)]
pub(crate) fn put_word(out: &mut Vec<u8>, word: &[u8]) -> Result<(), AllocError>
    ensures { OnOk result (out.new.items ≡ out.old.items ++ codes " " ++ word.now) }
{
    out.push(b' ')?;
    put_text(out, word)
}

fn put_numbered<'a>(
    out: &mut Vec<u8>,
    word: &'a [u8],
    name: &'a [u8],
    number: u16,
) -> Result<(), AllocError>
    ensures { OnOk result (out.new.items ≡ out.old.items ++ word.now ++ name.now ++ codes " " ++ decimal number) }
{
    put(
        out,
        &[Text(word), Text(name), Text(b" "), Number(number as u64)],
    )
}

/// Appends a work item as its line spells it, from the word of the item on.
pub fn put_item(out: &mut Vec<u8>, item: &Item) -> Result<(), AllocError>
    ensures { OnOk result (out.new.items ≡ out.old.items ++ item_text item.now) }
{
    match item {
        Item::Begin(unit) => put_named(out, b"BEGIN ", unit.text()),
        Item::Put(unit, number, value) => {
            put_numbered(out, b"PUT ", unit.text(), *number)?;
            put_word(out, value.text())
        }
        Item::Get(unit, number) => put_numbered(out, b"GET ", unit.text(), *number),
        Item::Commit(unit) => put_named(out, b"COMMIT ", unit.text()),
        Item::Roll(unit) => put_named(out, b"ROLL ", unit.text()),
        Item::Logon(terminal, class) => {
            put_numbered(out, b"LOGON ", terminal.text(), *class as u16)
        }
        Item::Logoff(terminal) => put_named(out, b"LOGOFF ", terminal.text()),
        Item::Shutdown => put_text(out, b"CEMT SHUTDOWN"),
        Item::ShutdownTakeover => put_text(out, b"CEMT SHUTDOWN TAKEOVER"),
        Item::Signon(terminal, user) => {
            put_named(out, b"SIGNON ", terminal.text())?;
            put_word(out, user.text())
        }
        Item::Signoff(terminal) => put_named(out, b"SIGNOFF ", terminal.text()),
    }
}
