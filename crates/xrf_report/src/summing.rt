//! The summary of a generated run.

ghost use Rattle.std.specs.Prelude.{◌≡◌, ◌++◌, ◌&&◌, OnOk, IfOk, reverse};
ghost use Rattle.xrf_cavm.specs.Record.{inc_of_owner};
ghost use Rattle.xrf_ctl.specs.Control.{ControlRecord};
ghost use Rattle.xrf_report.specs.Summary as summary;
ghost use Rattle.xrf_report.specs.Summary.{stops, throughs, counted_line, made_lines, owner_lines, unit_lines, head_line, summary_text};
ghost use Rattle.xrf_trace.specs.Landing.{is_stop, lands};
ghost use Rattle.xrf_trace.specs.Throughs.{changes_owner};
ghost use Rattle.xrf_trace.specs.Devices.{control_after};

use Piece::{Number, Text};
use std::alloc::{AllocError, Global};
use xrf_base::Inc;
use xrf_ctl::Owner;
use xrf_grammar::writing::{Piece, put};
use xrf_setup::Landing;
use xrf_trace::{Act, Entry, Land};
use xrf_world::World;

fn is_stop(land: &Land) -> bool
    ensures { result ≡ is_stop land.now }
{
    matches!(land, Land::Stop(_))
}

fn lands(land: &Land) -> bool
    ensures { result ≡ lands land.now }
{
    match land {
        Land::Full => true,
        Land::Lost => false,
        Land::Stop(landing) => matches!(landing, Landing::All),
        Land::Fail(landing) => matches!(landing, Landing::All),
    }
}

fn inc_of(owner: Option<Owner>) -> Inc
    ensures { result ≡ inc_of_owner owner }
{
    match owner {
        Some(owner) => owner.inc,
        None => 0,
    }
}

// whether an entry writes another owner than this incarnation
fn is_through(owner: Inc, entry: &Entry) -> bool
    ensures { (before : ControlRecord) → inc_of_owner before.owner ≡ owner → result ≡ (lands entry.now.land && changes_owner before entry.now.act) }
{
    match &entry.act {
        Act::CtlWrite(written) => lands(&entry.land) && inc_of(written.owner()) != owner,
        _ => false,
    }
}

// the owner's incarnation as an entry leaves it
fn owner_after(owner: Inc, entry: &Entry) -> Inc
    ensures { (before : ControlRecord) → inc_of_owner before.owner ≡ owner → result ≡ inc_of_owner (control_after entry.now.act entry.now.land before).owner }
{
    match &entry.act {
        Act::CtlWrite(written) => {
            if lands(&entry.land) {
                inc_of(written.owner())
            } else {
                owner
            }
        }
        _ => owner,
    }
}

/// How many entries of a journal are stops, and how many are throughs.
#[derive(Drop)]
struct EntryCounts {
    stops: u64,
    throughs: u64,
}

fn count_entries(journal: &[Entry]) -> EntryCounts
    ensures stops { result.stops ≡ stops (reverse journal.now) }
    ensures throughs { result.throughs ≡ throughs (reverse journal.now) }
{
    let mut stops = 0u64;
    let mut throughs = 0u64;
    let mut owner = 0;
    for entry in journal {
        if is_stop(&entry.land) {
            stops += 1;
        }
        if is_through(owner, entry) {
            throughs += 1;
        }
        owner = owner_after(owner, entry);
    }
    EntryCounts { stops, throughs }
}

fn put_counted(out: &mut Vec<u8>, word: &[u8], number: u64) -> Result<(), AllocError>
    ensures { OnOk result (out.new.items ≡ out.old.items ++ counted_line word.now number) }
{
    put(out, &[Text(word), Number(number), Text(b"\n")])
}

fn put_made_lines(out: &mut Vec<u8>, world: &World, stops: u64) -> Result<(), AllocError>
    requires { stops ≡ summary.stops world.now.trace }
    ensures { OnOk result (out.new.items ≡ out.old.items ++ made_lines world.now.trace) }
{
    put_counted(out, b"CHOICES ", world.journal().len() as u64)?;
    put_counted(out, b"TICKS ", world.now() as u64)?;
    put_counted(out, b"STOPS ", stops)
}

fn put_owner_lines(out: &mut Vec<u8>, world: &World, throughs: u64) -> Result<(), AllocError>
    requires { throughs ≡ summary.throughs world.now.trace }
    ensures { OnOk result (out.new.items ≡ out.old.items ++ owner_lines world.now.trace) }
{
    put_counted(out, b"INCARNATIONS ", world.control().last() as u64)?;
    put_counted(out, b"THROUGHS ", throughs)
}

fn put_unit_lines(out: &mut Vec<u8>, world: &World) -> Result<(), AllocError>
    ensures { OnOk result (out.new.items ≡ out.old.items ++ unit_lines world.now.trace) }
{
    let log = world.log_counts();
    put_counted(out, b"COMMITTED ", log.committed as u64)?;
    put_counted(out, b"FLIGHT ", log.flight as u64)
}

fn put_head(out: &mut Vec<u8>, seed: u64, turns: u32) -> Result<(), AllocError>
    ensures { OnOk result (out.new.items ≡ out.old.items ++ head_line seed turns) }
{
    put(
        out,
        &[
            Text(b"DRIVE "),
            Number(seed),
            Text(b" "),
            Number(turns as u64),
            Text(b"\n"),
        ],
    )
}

/// The nine lines that a generated run is told in, by the seed and the number of turns that it was drawn with.
pub fn summary(alloc: Global, seed: u64, turns: u32, world: &World) -> Result<Vec<u8>, AllocError>
    ensures { IfOk result (λ text. text.items ≡ summary_text seed turns world.now.trace) }
{
    let mut out = Vec::new(alloc);
    put_head(&mut out, seed, turns)?;
    let counts = count_entries(world.journal());
    put_made_lines(&mut out, world, counts.stops)?;
    put_owner_lines(&mut out, world, counts.throughs)?;
    put_unit_lines(&mut out, world)?;
    put(&mut out, &[Text(b"DONE\n")])?;
    Ok(out)
}
