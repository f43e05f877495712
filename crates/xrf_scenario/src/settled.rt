//! The settings of what is said, with the defaults of those that no line gave.

ghost use Rattle.std.specs.Prelude.{◌≡◌, unwrap_or};
ghost use Rattle.xrf_base.specs.Names.{IsName};
ghost use Rattle.xrf_scenario.specs.Settled.{level_of, settled};

use crate::given::Given;
use crate::level::level_named;
use xrf_base::{Name8, Takeovr};
use xrf_ctl::Level;
use xrf_grammar::Quantity;
use xrf_setup::{Format, Settings};

fn name_or(given: Option<Name8>, default: &[u8]) -> Name8
    requires { IsName default.now }
    ensures { result ≡ unwrap_or given default.now }
{
    match given {
        Some(name) => name,
        None => named(default),
    }
}

fn named(text: &[u8]) -> Name8
    requires { IsName text.now }
    ensures { result ≡ text.now }
{
    match Name8::read(text) {
        Some(name) => name,
        None => unreachable!(),
    }
}

fn level_of(format: Format, given: Option<u16>) -> Level
    ensures { result ≡ level_of format given }
{
    match format {
        Format::One => Level::One,
        Format::Two => level_named(given.unwrap_or(2)),
    }
}

/// The settings of a text of this format that gives these.
pub fn settled(format: Format, given: &Given) -> Settings
    ensures { result ≡ settled format given.now }
{
    Settings {
        format,
        applid_a: name_or(given.applid_a, b"CICSA"),
        applid_b: name_or(given.applid_b, b"CICSB"),
        takeovr: given.takeovr.unwrap_or(Takeovr::Manual),
        adi: given.quantity(Quantity::Adi),
        pdi: given.quantity(Quantity::Pdi),
        log: given.quantity(Quantity::Log),
        ring: given.quantity(Quantity::Ring),
        file: given.quantity(Quantity::File),
        pace: given.quantity(Quantity::Pace),
        ticks: given.quantity(Quantity::Ticks),
        images: given.images.unwrap_or(false),
        level_a: level_of(format, given.level_a),
        level_b: level_of(format, given.level_b),
        force: given.force.unwrap_or(false),
    }
}
