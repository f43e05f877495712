//! The bytes that a write leaves behind when it is cut off.

ghost use Rattle.std.specs.Prelude.{◌≡◌, ◌≤◌, ℕ, List, length, take};
ghost use Rattle.xrf_base.specs.Padding.{padded, made_again};
ghost use Rattle.xrf_setup.specs.Torn.{torn_of};
ghost use Rattle.xrf_setup.specs.declared.ranges.TheConstants.{TORN_MOST};

use crate::ranges::TORN_MOST;
use std::marker::Model;
use xrf_base::padded_array;

/// Torn bytes, 1 to 63 of them. Contracts see the bytes.
#[derive(Clone, Copy)]
pub struct TornBytes {
    // padded with blanks
    bytes: [u8; TORN_MOST],
    count: u8,
}

impl Model for TornBytes {
    ghost Value = { List ℕ };

    ghost view = { λ n. take n.count n.bytes };

    ghost invariant = { λ n. (n.count ≤ TORN_MOST) × (n.bytes ≡ padded TORN_MOST (take n.count n.bytes)) × (1 ≤ n.count) };

    ghost inverse = { λ text. record { bytes = padded TORN_MOST text; count = length text } };

    ghost inverse_ok = { λ n fits. made_again (λ bytes count. record { bytes = bytes; count = count }) TORN_MOST n.bytes n.count fits.0 fits.1 };
}

impl TornBytes {
    /// These bytes; none where there are 0 or more than 63 of them.
    pub fn new(bytes: &[u8]) -> Option<TornBytes>
        ensures { result ≡ torn_of bytes.now }
    {
        if bytes.is_empty() {
            return None;
        }
        if bytes.len() > TORN_MOST {
            return None;
        }
        Some(TornBytes {
            bytes: padded_array(bytes),
            count: bytes.len() as u8,
        })
    }

    /// The bytes.
    pub fn bytes(&self) -> &[u8]
        ensures bytes { result.now ≡ self.now }
        ensures least { 1 ≤ length result.now }
        ensures most { length result.now ≤ TORN_MOST }
    {
        &self.bytes[..self.count as usize]
    }
}
