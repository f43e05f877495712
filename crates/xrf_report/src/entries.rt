//! How entries are written: an act with what of it landed, and its line.

ghost use Rattle.std.specs.Prelude.{◌≡◌, ◌++◌, OnOk, codes};
ghost use Rattle.xrf_trace.specs.declared.entry.Land.TheVariants.{Lost};
ghost use Rattle.xrf_report.specs.Entries.{who_word, landing_text, cut_text, stop_text, made_text, entry_text, act_line, acts_text};
ghost use Rattle.std.specs.List.{AllByRecursion};
ghost use Rattle.xrf_report.specs.Fits.{ActFits, EntryFits};

use crate::acts::put_act;
use crate::picked::Picked;
use crate::words::{counter, digits, put_word};
use Piece::{Hex, Text};
use std::alloc::{AllocError, Global};
use xrf_grammar::writing::{Piece, put};
use xrf_setup::{Landing, Scenario};
use xrf_trace::{Act, Entry, Land, Who};

fn who_word(who: Who) -> &'static [u8]
    ensures { result.now ≡ who_word who }
{
    match who {
        Who::A => b"A",
        Who::B => b"B",
        Who::Env => b"-",
    }
}

fn put_landing(out: &mut Vec<u8>, landing: &Landing) -> Result<(), AllocError>
    ensures { OnOk result (out.new.items ≡ out.old.items ++ landing_text landing.now) }
{
    match landing {
        Landing::Nothing => put_word(out, b"NONE"),
        Landing::All => put_word(out, b"ALL"),
        Landing::Torn(torn) => put(out, &[Text(b"TORN "), Hex(torn.bytes())]),
    }
}

// an act that was cut off, and what of it landed
fn put_cut(
    out: &mut Vec<u8>,
    scenario: &Picked,
    who: Who,
    act: &Act,
    landing: &Landing,
) -> Result<(), AllocError>
    ensures text { OnOk result (out.new.items ≡ out.old.items ++ cut_text scenario.now who act.now landing.now) }
    ensures fits { OnOk result (ActFits act.now) }
{
    put_act(out, scenario, who, act)?;
    put_word(out, b" ")?;
    put_landing(out, landing)
}

fn put_stop(
    out: &mut Vec<u8>,
    scenario: &Picked,
    who: Who,
    act: &Act,
    landing: &Landing,
) -> Result<(), AllocError>
    ensures text { OnOk result (out.new.items ≡ out.old.items ++ stop_text scenario.now who act.now landing.now) }
    ensures fits { OnOk result (ActFits act.now) }
{
    match act {
        Act::NoAct => put_word(out, b"STOP"),
        _ => {
            put_word(out, b"STOP ")?;
            put_cut(out, scenario, who, act, landing)
        }
    }
}

fn put_fail(
    out: &mut Vec<u8>,
    scenario: &Picked,
    who: Who,
    act: &Act,
    landing: &Landing,
) -> Result<(), AllocError>
    ensures text { OnOk result (out.new.items ≡ out.old.items ++ codes "FAIL " ++ cut_text scenario.now who act.now landing.now) }
    ensures fits { OnOk result (ActFits act.now) }
{
    put_word(out, b"FAIL ")?;
    put_cut(out, scenario, who, act, landing)
}

fn put_lost(out: &mut Vec<u8>, scenario: &Picked, who: Who, act: &Act) -> Result<(), AllocError>
    ensures text { OnOk result (out.new.items ≡ out.old.items ++ made_text scenario.now who act.now Lost) }
    ensures fits { OnOk result (ActFits act.now) }
{
    put_act(out, scenario, who, act)?;
    put_word(out, b" LOST")
}

fn put_made(out: &mut Vec<u8>, scenario: &Picked, entry: &Entry) -> Result<(), AllocError>
    ensures text { OnOk result (out.new.items ≡ out.old.items ++ made_text scenario.now entry.now.who entry.now.act entry.now.land) }
    ensures fits { OnOk result (ActFits entry.now.act) }
{
    match &entry.land {
        Land::Full => put_act(out, scenario, entry.who, &entry.act),
        Land::Lost => put_lost(out, scenario, entry.who, &entry.act),
        Land::Stop(landing) => put_stop(out, scenario, entry.who, &entry.act, landing),
        Land::Fail(landing) => put_fail(out, scenario, entry.who, &entry.act, landing),
    }
}

fn put_entry(out: &mut Vec<u8>, scenario: &Picked, entry: &Entry) -> Result<(), AllocError>
    ensures text { OnOk result (out.new.items ≡ out.old.items ++ entry_text scenario.now entry.now) }
    ensures fits { OnOk result (EntryFits entry.now) }
{
    put(
        out,
        &[
            digits(entry.tick),
            Text(b" "),
            Text(who_word(entry.who)),
            Text(b" "),
            digits(entry.inc),
            Text(b" "),
        ],
    )?;
    put_made(out, scenario, entry)
}

fn put_act_line(
    out: &mut Vec<u8>,
    scenario: &Picked,
    number: u64,
    entry: &Entry,
) -> Result<(), AllocError>
    ensures text { OnOk result (out.new.items ≡ out.old.items ++ act_line scenario.now number entry.now) }
    ensures fits { OnOk result (EntryFits entry.now) }
{
    put(out, &[Text(b"* ACT "), counter(number), Text(b" ")])?;
    put_entry(out, scenario, entry)?;
    put_word(out, b"\n")
}

fn put_act_lines(out: &mut Vec<u8>, scenario: &Picked, journal: &[Entry]) -> Result<(), AllocError>
    ensures text { OnOk result (out.new.items ≡ out.old.items ++ acts_text scenario.now 1 journal.now) }
    ensures fits { OnOk result (AllByRecursion EntryFits journal.now) }
{
    let mut number = 1u64;
    for entry in journal {
        put_act_line(out, scenario, number, entry)?;
        number += 1;
    }
    Ok(())
}

/// Appends the lines of the entries, the oldest first.
pub(crate) fn put_acts(
    alloc: Global,
    out: &mut Vec<u8>,
    scenario: &Scenario,
    journal: &[Entry],
) -> Result<(), AllocError>
    ensures text { OnOk result (out.new.items ≡ out.old.items ++ acts_text scenario.now 1 journal.now) }
    ensures fits { OnOk result (AllByRecursion EntryFits journal.now) }
{
    put_act_lines(out, &Picked::new(alloc, scenario)?, journal)
}
