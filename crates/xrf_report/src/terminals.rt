//! How terminal tables are written.

ghost use Rattle.std.specs.Prelude.{◌≡◌, ◌≤◌, ◌++◌, OnOk, length};
ghost use Rattle.std.specs.List.{AllByRecursion};
ghost use Rattle.xrf_report.specs.Terminals.{how_word, row_user_text, row_text, row_line, rows_text};
ghost use Rattle.xrf_report.specs.Fits.{UserFits, RowFits};

use crate::messages::user_word;
use crate::words::{digits, put_both, put_word};
use Piece::Text;
use std::alloc::AllocError;
use xrf_base::{Name8, Site};
use xrf_grammar::writing::{Piece, put, site_word};
use xrf_setup::Format;
use xrf_terms::{How, Row, TermTable};

fn how_word(how: How) -> &'static [u8]
    ensures { result.now ≡ how_word how }
{
    match how {
        How::On => b"ON",
        How::Tracked => b"TRACKED",
        How::Switched => b"SWITCHED",
        How::Acquired => b"ACQUIRED",
    }
}

fn put_row_user(out: &mut Vec<u8>, xrf: Format, user: &Option<Name8>) -> Result<(), AllocError>
    ensures text { OnOk result (out.new.items ≡ out.old.items ++ row_user_text xrf user.now) }
    ensures fits { OnOk result (UserFits user.now) }
{
    let word = user_word(user);
    match xrf {
        Format::One => Ok(()),
        Format::Two => put_both(out, b" ", word),
    }
}

fn put_row(out: &mut Vec<u8>, xrf: Format, row: &Row) -> Result<(), AllocError>
    ensures text { OnOk result (out.new.items ≡ out.old.items ++ row_text xrf row.now) }
    ensures fits { OnOk result (RowFits row.now) }
{
    put(
        out,
        &[
            Text(row.term.text()),
            Text(b" "),
            digits(row.class as u32),
            Text(b" "),
            Text(how_word(row.how)),
        ],
    )?;
    put_row_user(out, xrf, &row.user)
}

fn put_row_line(out: &mut Vec<u8>, xrf: Format, site: Site, row: &Row) -> Result<(), AllocError>
    ensures text { OnOk result (out.new.items ≡ out.old.items ++ row_line xrf site row.now) }
    ensures fits { OnOk result (RowFits row.now) }
{
    put(out, &[Text(b"* TERM "), Text(site_word(site)), Text(b" ")])?;
    put_row(out, xrf, row)?;
    put_word(out, b"\n")
}

/// Appends the rows of a site's table, in their order.
pub(crate) fn put_rows(
    out: &mut Vec<u8>,
    xrf: Format,
    site: Site,
    table: &TermTable,
) -> Result<(), AllocError>
    ensures text { OnOk result (out.new.items ≡ out.old.items ++ rows_text xrf site table.now) }
    ensures fits { OnOk result (AllByRecursion RowFits table.now) }
    ensures few { length table.now ≤ 64 }
{
    for k in 0..table.count() {
        put_row_line(out, xrf, site, &table.row(k))?;
    }
    Ok(())
}
