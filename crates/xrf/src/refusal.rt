//! Why an input is refused.

ghost use Rattle.std.specs.Prelude.{◌≡◌, IfOk};
ghost use Rattle.xrf.specs.Refusals.{grammar_text, choosing_text, reason_text, refusal_line};

use Piece::{Number, Text};
use std::alloc::{AllocError, Global};
use xrf_grammar::writing::{Piece, put};
use xrf_scenario::Reason as Fault;
use xrf_trace::Refused;

/// Why an input is refused.
#[derive(Clone, Copy)]
pub enum Reason {
    /// It is too large, or a line is refused.
    Grammar(Fault),
    /// A choice is refused.
    Choosing(Refused),
}

fn grammar_word(reason: Fault) -> &'static [u8]
    ensures { result.now ≡ grammar_text reason }
{
    match reason {
        Fault::TooLarge => b"TOO-LARGE",
        Fault::BadByte => b"BAD-BYTE",
        Fault::LongLine => b"LONG-LINE",
        Fault::NoHeader => b"NO-HEADER",
        Fault::BadFormat => b"BAD-FORMAT",
        Fault::ChoicesGiven => b"CHOICES-GIVEN",
        Fault::AfterEnd => b"AFTER-END",
        Fault::UnknownWord => b"UNKNOWN-WORD",
        Fault::WordCount => b"WORD-COUNT",
        Fault::BadSite => b"BAD-SITE",
        Fault::BadNumber => b"BAD-NUMBER",
        Fault::OutOfRange => b"OUT-OF-RANGE",
        Fault::BadName => b"BAD-NAME",
        Fault::BadValue => b"BAD-VALUE",
        Fault::BadHex => b"BAD-HEX",
        Fault::BadOption => b"BAD-OPTION",
        Fault::BadItem => b"BAD-ITEM",
        Fault::BadCebt => b"BAD-CEBT",
        Fault::BadPlan => b"BAD-PLAN",
        Fault::PlanOrder => b"PLAN-ORDER",
        Fault::Twice => b"TWICE",
        Fault::TooMany => b"TOO-MANY",
        Fault::RrnRange => b"RRN-RANGE",
        Fault::NoEnd => b"NO-END",
    }
}

fn choosing_word(refused: Refused) -> &'static [u8]
    ensures { result.now ≡ choosing_text refused }
{
    match refused {
        Refused::NotEnabled => b"NOT-ENABLED",
        Refused::Dishonest => b"DISHONEST",
        Refused::TornLength => b"TORN-LENGTH",
        Refused::NotAllowed => b"NOT-ALLOWED",
    }
}

fn word(reason: Reason) -> &'static [u8]
    ensures { result.now ≡ reason_text reason }
{
    match reason {
        Reason::Grammar(reason) => grammar_word(reason),
        Reason::Choosing(refused) => choosing_word(refused),
    }
}

/// The line that refuses an input, at the number of its line.
pub fn refusal_text(alloc: Global, number: u32, reason: Reason) -> Result<Vec<u8>, AllocError>
    ensures { IfOk result (λ text. text.items ≡ refusal_line number reason) }
{
    let mut out = Vec::new(alloc);
    put(
        &mut out,
        &[
            Text(b"XRF REFUSED LINE "),
            Number(number as u64),
            Text(b" "),
            Text(word(reason)),
            Text(b"\n"),
        ],
    )?;
    Ok(out)
}
