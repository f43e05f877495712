//! The signal that a region gives again and again.

ghost use Rattle.std.specs.Prelude.{◌≡◌, ◌↔◌, Some, IsTrue, take, codes};
ghost use Rattle.xrf_ctl.specs.Places.{number_at};
ghost use Rattle.xrf_ctl.specs.Signal.{SignalRecord, SpellsSignal, of_numbers, signal_bytes};

use crate::places::{lay, lay_u32, lay_u64, u32_at, u64_at};
use std::marker::Model;
use xrf_base::{Inc, is_zero_from};

const EYE: [u8; 4] = *b"XSIG";

/// A sign of life: of which incarnation, from 1 on, the how manyth, and how many messages that
/// incarnation has taken.
#[derive(Clone, Copy, PartialEq, Eq)]
pub struct Signal {
    pub inc: Inc,
    pub counter: u64,
    pub cursor: u32,
}

impl Model for Signal {
    ghost use Rattle.xrf_ctl.specs.Signal.{SignalRecord, IsSignal, of_numbers};

    ghost Value = { SignalRecord };

    ghost view = { λ s. of_numbers s.inc s.counter s.cursor };

    ghost invariant = { λ s. IsSignal (of_numbers s.inc s.counter s.cursor) };

    ghost inverse = { λ s. record { inc = s.inc; counter = s.counter; cursor = s.cursor } };
}

impl Signal {
    /// The signal that 64 bytes spell, where they spell one. A fresh sector, all zero, spells none.
    pub fn read(bytes: &[u8; 64]) -> Option<Signal>
        ensures { (s : SignalRecord) → (result ≡ Some s) ↔ SpellsSignal bytes.now s }
    {
        let inc = u32_at(bytes, 4);
        if inc == 0 {
            return None;
        }
        let counter = u64_at(bytes, 8);
        let cursor = u32_at(bytes, 16);
        let signal = Signal {
            inc,
            counter,
            cursor,
        };
        if signal.is_alone_in(bytes) {
            Some(signal)
        } else {
            None
        }
    }

    // Whether bytes that have this signal's numbers have the eye before them and nothing behind them.
    fn is_alone_in(&self, bytes: &[u8; 64]) -> bool
        requires { self.now ≡ of_numbers (number_at bytes.now 4 4) (number_at bytes.now 8 8) (number_at bytes.now 16 4) }
        ensures { IsTrue result ↔ (bytes.now ≡ signal_bytes self.now) }
    {
        has_eye(bytes) && is_zero_from(bytes, 20)
    }

    /// The one spelling of the signal.
    pub fn write(&self) -> [u8; 64]
        ensures { SpellsSignal result self.now }
    {
        let mut bytes = [0; 64];
        lay(&mut bytes, 0, &EYE);
        lay_u32(&mut bytes, 4, self.inc);
        lay_u64(&mut bytes, 8, self.counter);
        lay_u32(&mut bytes, 16, self.cursor);
        bytes
    }
}

fn has_eye(bytes: &[u8; 64]) -> bool
    ensures { IsTrue result ↔ (take 4 bytes.now ≡ codes "XSIG") }
{
    &bytes[..4] == EYE.as_slice()
}
