//! The settings that lines gave so far.

use xrf_base::{Name8, Takeovr};
use xrf_grammar::{QUANTITIES, Quantity};

/// The settings that lines gave, each at most once.
#[derive(Clone, Copy)]
pub struct Given {
    pub applid_a: Option<Name8>,
    pub applid_b: Option<Name8>,
    pub takeovr: Option<Takeovr>,
    /// Each setting that is one number, at its place.
    pub quantities: [Option<u16>; QUANTITIES],
    pub images: Option<bool>,
    pub level_a: Option<u16>,
    pub level_b: Option<u16>,
    pub force: Option<bool>,
}

impl Given {
    ghost use Rattle.std.specs.Prelude.{◌≡◌};
    ghost use Rattle.xrf_scenario.specs.SoFar.{quantity_or_default};

    /// The number of a quantity, or its default.
    pub fn quantity(&self, quantity: Quantity) -> u16
        ensures { result ≡ quantity_or_default self.now quantity }
    {
        self.quantities[quantity.place()].unwrap_or(quantity.default())
    }
}
