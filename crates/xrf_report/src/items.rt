//! How the lines of items are written.

ghost use Rattle.std.specs.Prelude.{◌≡◌, ◌++◌, OnOk};
ghost use Rattle.xrf_report.specs.Items.{state_text, item_line};
ghost use Rattle.xrf_report.specs.ReportFits.{StateFits};

use crate::answers::put_answer;
use crate::words::{counter, put_word};
use Piece::Text;
use std::alloc::AllocError;
use xrf_base::Site;
use xrf_grammar::writing::{Piece, put, site_word};
use xrf_world::ItemState;

fn put_state(out: &mut Vec<u8>, state: &ItemState) -> Result<(), AllocError>
    ensures text { OnOk result (out.new.items ≡ out.old.items ++ state_text state.now) }
    ensures fits { OnOk result (StateFits state.now) }
{
    match state {
        ItemState::Answered(answer) => put_answer(out, answer),
        ItemState::Pending => put_word(out, b"OPEN"),
        ItemState::Lost => put_word(out, b"LOST"),
    }
}

/// Appends the line of an item of a site, by its number from 1.
pub(crate) fn put_item_line(
    out: &mut Vec<u8>,
    site: Site,
    number: u64,
    state: &ItemState,
) -> Result<(), AllocError>
    ensures text { OnOk result (out.new.items ≡ out.old.items ++ item_line site number state.now) }
    ensures fits { OnOk result (StateFits state.now) }
{
    put(
        out,
        &[
            Text(b"* ITEM "),
            Text(site_word(site)),
            Text(b" "),
            counter(number),
            Text(b" "),
        ],
    )?;
    put_state(out, state)?;
    put_word(out, b"\n")
}
