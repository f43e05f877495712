//! The settings that are one number: how each is spelled, its range, its default, and where it stands.

ghost use Rattle.std.specs.Prelude.{◌≡◌, ◌<◌, ◌∷◌, []};
ghost use Rattle.xrf_grammar.specs.Quantities.{default_of, place_of, quantities, quantity_of, quantity_text, range_of};
ghost use Rattle.xrf_grammar.specs.declared.form.Part.TheVariants.{Keyword as Key};
ghost use Rattle.xrf_grammar.specs.declared.keyword.Keyword.TheVariants as key;
ghost use Rattle.xrf_grammar.specs.declared.quantity.TheConstants.{QUANTITIES};
ghost use Rattle.xrf_grammar.specs.declared.reason.Reason.TheVariants.{UnknownWord};

use crate::form::Part;
use crate::keyword::Keyword;
use crate::reason::Reason;
use xrf_setup::Settings;
use xrf_setup::ranges::{
    FILE_LEAST, FILE_MOST, INTERVAL_LEAST, INTERVAL_MOST, LOG_LEAST, LOG_MOST, LOG_UNIT,
    PACE_LEAST, PACE_MOST, RING_LEAST, RING_MOST, TICKS_MOST,
};

/// A setting that is one number.
#[derive(Clone, Copy, Debug, PartialEq, Eq)]
pub enum Quantity {
    Adi,
    Pdi,
    Log,
    Ring,
    File,
    Pace,
    Ticks,
}

/// How many quantities there are.
pub const QUANTITIES: usize = 7;

const ALL: [Quantity; QUANTITIES] = [
    Quantity::Adi,
    Quantity::Pdi,
    Quantity::Log,
    Quantity::Ring,
    Quantity::File,
    Quantity::Pace,
    Quantity::Ticks,
];

/// The quantities, in the order in which they are written.
pub fn quantities() -> &'static [Quantity]
    ensures { result.now ≡ quantities }
{
    &ALL
}

/// The parts of a line, by its quantity and the range of its number.
macro_rules! line_of {
    ($quantity:ident, $range:expr) => {
        &[
            Part::Keyword(Keyword::Quantity(Quantity::$quantity), Reason::UnknownWord),
            $range,
        ]
    };
}

impl Quantity {
    /// How it is spelled.
    pub fn text(self) -> &'static [u8]
        ensures { result.now ≡ quantity_text self }
    {
        match self {
            Quantity::Adi => b"ADI",
            Quantity::Pdi => b"PDI",
            Quantity::Log => b"LOG",
            Quantity::Ring => b"RING",
            Quantity::File => b"FILE",
            Quantity::Pace => b"PACE",
            Quantity::Ticks => b"TICKS",
        }
    }

    /// The parts of its line.
    pub(crate) fn parts(self) -> &'static [Part]
        ensures { result.now ≡ Key (key.Quantity self) UnknownWord ∷ range_of self ∷ [] }
    {
        match self {
            Quantity::Adi => line_of!(Adi, Part::Number(INTERVAL_LEAST, INTERVAL_MOST)),
            Quantity::Pdi => line_of!(Pdi, Part::Number(INTERVAL_LEAST, INTERVAL_MOST)),
            Quantity::Log => line_of!(Log, Part::Multiple(LOG_LEAST, LOG_MOST, LOG_UNIT)),
            Quantity::Ring => line_of!(Ring, Part::Number(RING_LEAST, RING_MOST)),
            Quantity::File => line_of!(File, Part::Number(FILE_LEAST, FILE_MOST)),
            Quantity::Pace => line_of!(Pace, Part::Number(PACE_LEAST, PACE_MOST)),
            Quantity::Ticks => line_of!(Ticks, Part::Number(0, TICKS_MOST)),
        }
    }

    /// Its number where no line gives it.
    pub fn default(self) -> u16
        ensures { result ≡ default_of self }
    {
        match self {
            Quantity::Adi | Quantity::Pdi => 30,
            Quantity::Log => 64,
            Quantity::Ring | Quantity::File => 16,
            Quantity::Pace => 40,
            Quantity::Ticks => 60,
        }
    }

    /// Its number among settings.
    pub fn of(self, settings: &Settings) -> u16
        ensures { result ≡ quantity_of settings.now self }
    {
        match self {
            Quantity::Adi => settings.adi,
            Quantity::Pdi => settings.pdi,
            Quantity::Log => settings.log,
            Quantity::Ring => settings.ring,
            Quantity::File => settings.file,
            Quantity::Pace => settings.pace,
            Quantity::Ticks => settings.ticks,
        }
    }

    /// Its place among the quantities.
    pub fn place(self) -> usize
        ensures place { result ≡ place_of self }
        ensures within { result < QUANTITIES }
    {
        match self {
            Quantity::Adi => 0,
            Quantity::Pdi => 1,
            Quantity::Log => 2,
            Quantity::Ring => 3,
            Quantity::File => 4,
            Quantity::Pace => 5,
            Quantity::Ticks => 6,
        }
    }
}
