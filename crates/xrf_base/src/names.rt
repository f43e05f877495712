//! Names of applids, units, terminals, users and commands.

ghost use Rattle.std.specs.Prelude.{◌≡◌, ◌≤◌, ℕ, List, length, take, nat_eq};
ghost use Rattle.std.specs.List.{list_all};
ghost use Rattle.std.specs.Cmp.{partial_equiv_from_equiv};
ghost use Rattle.std.specs.Cmp.Lexicographic.{pointwise, nat_list_eq_equiv};
ghost use Rattle.xrf_base.specs.Padding.{padded, made_again};
ghost use Rattle.xrf_base.specs.Names.{IsName, is_name, is_name_byte, name_of, padded_name};

use crate::blanks::{before_blank, padded_array};
use std::marker::Model;

/// A name: 1 to 8 characters of A-Z, 0-9, `@`, `#` and `$`. Contracts see its characters.
#[derive(Clone, Copy)]
pub struct Name8 {
    // padded with blanks
    bytes: [u8; 8],
    count: u8,
}

impl Model for Name8 {
    ghost Value = { List ℕ };

    ghost view = { λ n. take n.count n.bytes };

    ghost invariant = { λ n. (n.count ≤ 8) × (n.bytes ≡ padded 8 (take n.count n.bytes)) × IsName (take n.count n.bytes) };

    ghost inverse = { λ text. record { bytes = padded 8 text; count = length text } };

    ghost inverse_ok = { λ n fits. made_again (λ bytes count. record { bytes = bytes; count = count }) 8 n.bytes n.count fits.0 fits.1 };
}

/// Whether a character may stand in a name.
pub fn is_name_character(character: u8) -> bool
    ensures { result ≡ is_name_byte character }
{
    matches!(character, b'A'..=b'Z' | b'0'..=b'9' | b'@' | b'#' | b'$')
}

fn all_name_characters(text: &[u8]) -> bool
    ensures { result ≡ list_all is_name_byte text.now }
{
    text.iter().all(|b| is_name_character(*b))
}

/// Whether a text is a name.
pub fn spells_name(text: &[u8]) -> bool
    ensures { result ≡ is_name text.now }
{
    if text.is_empty() {
        return false;
    }
    if text.len() > 8 {
        return false;
    }
    all_name_characters(text)
}

impl Name8 {
    /// The name that a text spells, or none where it spells no name.
    pub fn read(text: &[u8]) -> Option<Name8>
        ensures { result ≡ name_of text.now }
    {
        if !spells_name(text) {
            return None;
        }
        Some(Name8 {
            bytes: padded_array(text),
            count: text.len() as u8,
        })
    }

    /// The name that a field of a record spells: the name, and blanks up to 8 bytes.
    pub fn from_padded(field: &[u8; 8]) -> Option<Name8>
        ensures { result ≡ padded_name field.now }
    {
        let name = Name8::read(before_blank(field))?;
        if name.bytes != *field {
            return None;
        }
        Some(name)
    }

    /// Its characters.
    pub fn text(&self) -> &[u8]
        ensures text { result.now ≡ self.now }
        ensures name { IsName result.now }
    {
        &self.bytes[..self.count as usize]
    }

    /// Its characters and blanks up to 8, as records keep it.
    pub fn padded(&self) -> [u8; 8]
        ensures text { result ≡ padded 8 self.now }
        ensures name { IsName self.now }
    {
        self.bytes
    }
}

impl PartialEq for Name8 {
    ghost eq = { pointwise nat_eq };

    ghost laws = { partial_equiv_from_equiv nat_list_eq_equiv };

    fn eq(&self, other: &Name8) -> bool {
        self.text() == other.text()
    }
}

impl Eq for Name8 {
    ghost laws = { nat_list_eq_equiv };
}
