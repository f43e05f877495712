//! Words and numbers of a report.

ghost use Rattle.std.specs.Prelude.{◌≡◌, ◌<◌, ◌^◌, ◌++◌, OnOk};
ghost use Rattle.std.specs.Fmt.{decimal};
ghost use Rattle.xrf_grammar.specs.declared.writing.Piece.TheVariants.{Number};
ghost use Rattle.xrf_report.specs.Fits.{Is32};

use Piece::{Number, Text};
use std::alloc::AllocError;
use xrf_grammar::writing::{Piece, put};

/// The piece of a number.
pub(crate) fn digits<'a>(number: u32) -> Piece<'a>
    ensures piece { result ≡ Number number }
    ensures fits { Is32 number }
{
    Number(number as u64)
}

/// The piece of a number of 64 bits.
pub(crate) fn counter<'a>(number: u64) -> Piece<'a>
    ensures piece { result ≡ Number number }
    ensures fits { number < 2 ^ 64 }
{
    Number(number)
}

/// Appends a word.
pub(crate) fn put_word(out: &mut Vec<u8>, word: &[u8]) -> Result<(), AllocError>
    ensures { OnOk result (out.new.items ≡ out.old.items ++ word.now) }
{
    out.extend_from_slice(word)?;
    Ok(())
}

/// Appends a word and a number.
pub(crate) fn put_numbered(out: &mut Vec<u8>, word: &[u8], number: u32) -> Result<(), AllocError>
    ensures text { OnOk result (out.new.items ≡ out.old.items ++ word.now ++ decimal number) }
    ensures fits { OnOk result (Is32 number) }
{
    put(out, &[Text(word), digits(number)])
}

/// Appends two words.
pub(crate) fn put_both(out: &mut Vec<u8>, word: &[u8], next: &[u8]) -> Result<(), AllocError>
    ensures { OnOk result (out.new.items ≡ out.old.items ++ word.now ++ next.now) }
{
    put_word(out, word)?;
    put_word(out, next)
}
