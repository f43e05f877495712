//! The scenario of the generated run.

ghost use Rattle.std.specs.Prelude.{◌≡◌, ◌++◌, ◌<◌, ◌≤◌, [], ◌∷◌, IfOk, OnOk, Some, vec_capacity, length};
ghost use Rattle.xrf_base.specs.Names.{IsName};
ghost use Rattle.xrf_base.specs.Values.{IsValue};
ghost use Rattle.xrf_drive.specs.Scenario.{generated, settings, unit, unit_name, units, value};

use Piece::{Number, Text};
use std::alloc::{AllocError, Global};
use xrf_base::{Item, Name8, Site, Takeovr, Value};
use xrf_clt::Clt;
use xrf_ctl::Level;
use xrf_grammar::writing::{Piece, put, site_word};
use xrf_setup::{Format, Scenario, Settings};

/// How many units of work a site has.
pub const UNITS: u16 = 100;

fn named(text: &[u8]) -> Name8
    requires { IsName text.now }
    ensures { result ≡ text.now }
{
    match Name8::read(text) {
        Some(name) => name,
        None => unreachable!(),
    }
}

fn settings() -> Settings
    ensures { result ≡ settings }
{
    Settings {
        format: Format::One,
        applid_a: named(b"CICSA"),
        applid_b: named(b"CICSB"),
        takeovr: Takeovr::Auto,
        adi: 5,
        pdi: 5,
        log: 1024,
        ring: 16,
        file: 16,
        pace: 40,
        ticks: 60,
        images: false,
        level_a: Level::One,
        level_b: Level::One,
        force: false,
    }
}

fn valued(text: &[u8]) -> Value
    requires { IsValue text.now }
    ensures { result ≡ text.now }
{
    match Value::read(text) {
        Some(value) => value,
        None => unreachable!(),
    }
}

// the value that the unit of a number of a site puts, by its letter
fn value(text: &mut Vec<u8>, letter: &[u8], site: Site, number: u16) -> Result<Value, AllocError>
    requires { IsValue (value letter.now site number) }
    ensures { IfOk result (λ found. found ≡ value letter.now site number) }
{
    text.clear();
    put(
        text,
        &[Text(letter), Number(number as u64), Text(site_word(site))],
    )?;
    Ok(valued(text))
}

#[tactic(auto, using(crate::proofs::ValueLaws::is_put))]
fn push_unit(
    work: &mut Vec<Item>,
    text: &mut Vec<u8>,
    site: Site,
    number: u16,
) -> Result<(), AllocError>
    requires { number < UNITS }
    ensures { OnOk result (work.new.items ≡ work.old.items ++ unit site number) }
{
    let name = named(b"U1");
    let first = value(text, b"V", site, number)?;
    let second = value(text, b"W", site, number)?;
    work.push(Item::Begin(name))?;
    work.push(Item::Put(name, 1 + number % 16, first))?;
    work.push(Item::Put(name, 1 + (7 * number + 3) % 16, second))?;
    work.push(Item::Commit(name))?;
    Ok(())
}

// the work of a site
#[tactic(auto, using(crate::proofs::UnitLaws::no_units, crate::proofs::UnitLaws::one_more))]
fn work(alloc: Global, site: Site) -> Result<Vec<Item>, AllocError>
    ensures { IfOk result (λ work. work.items ≡ units site UNITS) }
{
    let mut text = Vec::new(alloc);
    let mut work = Vec::with_capacity(alloc, 4 * UNITS as usize)?;
    for number in 0..UNITS {
        push_unit(&mut work, &mut text, site, number)?;
    }
    Ok(work)
}

/// The scenario of the generated run.
pub fn generated(alloc: Global) -> Result<Scenario, AllocError>
    ensures { IfOk result (λ scenario. scenario ≡ generated) }
{
    Ok(Scenario::new(
        settings(),
        Vec::new(alloc),
        Clt::new(alloc),
        work(alloc, Site::A)?,
        work(alloc, Site::B)?,
        Vec::new(alloc),
    ))
}
