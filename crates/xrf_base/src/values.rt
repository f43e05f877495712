//! Values of file records, and the file slot in which a record lies.

ghost use Rattle.std.specs.Prelude.{◌≡◌, ◌==◌, ◌≤◌, ℕ, List, Option, Some, IfSome, IfNone, length, take, drop, nat_eq};
ghost use Rattle.std.specs.List.{list_all};
ghost use Rattle.std.specs.Cmp.{partial_equiv_from_equiv};
ghost use Rattle.std.specs.Cmp.Lexicographic.{pointwise, nat_list_eq_equiv};
ghost use Rattle.xrf_base.specs.Padding.{padded, made_again};
ghost use Rattle.xrf_base.specs.Values.{IsValue, is_value, is_value_byte, value_of, padded_value, slot_of, SlotIs, slot_reading};

use crate::blanks::{before_blank, padded_array};
use crate::zeros::{from_place, is_zero_from};
use byteorder::{BigEndian, ByteOrder};
use std::marker::Model;

/// The value of a record: 1 to 24 characters from `!` to `~`. Contracts see its characters.
#[derive(Clone, Copy)]
pub struct Value {
    // padded with blanks
    bytes: [u8; 24],
    count: u8,
}

impl Model for Value {
    ghost Value = { List ℕ };

    ghost view = { λ v. take v.count v.bytes };

    ghost invariant = { λ v. (v.count ≤ 24) × (v.bytes ≡ padded 24 (take v.count v.bytes)) × IsValue (take v.count v.bytes) };

    ghost inverse = { λ text. record { bytes = padded 24 text; count = length text } };

    ghost inverse_ok = { λ v fits. made_again (λ bytes count. record { bytes = bytes; count = count }) 24 v.bytes v.count fits.0 fits.1 };
}

/// Whether a character may stand in a value.
pub fn is_value_character(character: u8) -> bool
    ensures { result ≡ is_value_byte character }
{
    matches!(character, b'!'..=b'~')
}

fn all_value_characters(text: &[u8]) -> bool
    ensures { result ≡ list_all is_value_byte text.now }
{
    text.iter().all(|b| is_value_character(*b))
}

/// Whether a text is a value.
pub fn spells_value(text: &[u8]) -> bool
    ensures { result ≡ is_value text.now }
{
    if text.is_empty() {
        return false;
    }
    if text.len() > 24 {
        return false;
    }
    all_value_characters(text)
}

impl Value {
    /// The value that a text spells, or none where it spells no value.
    pub fn read(text: &[u8]) -> Option<Value>
        ensures { result ≡ value_of text.now }
    {
        if !spells_value(text) {
            return None;
        }
        Some(Value {
            bytes: padded_array(text),
            count: text.len() as u8,
        })
    }

    /// Its characters.
    pub fn text(&self) -> &[u8]
        ensures text { result.now ≡ self.now }
        ensures value { IsValue result.now }
    {
        &self.bytes[..self.count as usize]
    }

    /// The 32 bytes of a file slot that holds a record with this value: 1, seven zero bytes, and
    /// the value padded with blanks to 24.
    pub fn to_slot(self) -> [u8; 32]
        ensures slot { result ≡ slot_of (Some self) }
        ensures value { IsValue self }
    {
        let mut slot = [0; 32];
        slot[0] = 1;
        slot[8..].copy_from_slice(&self.bytes);
        slot
    }
}

impl PartialEq for Value {
    ghost eq = { pointwise nat_eq };

    ghost laws = { partial_equiv_from_equiv nat_list_eq_equiv };

    fn eq(&self, other: &Value) -> bool {
        self.text() == other.text()
    }
}

impl Eq for Value {
    ghost laws = { nat_list_eq_equiv };
}

// the number that the first 8 bytes of a record's slot spell: 1, and seven zero bytes
const RECORD_FRONT: u64 = 0x0100_0000_0000_0000;

fn are_blank(bytes: &[u8]) -> bool
    ensures { result ≡ list_all (λ b. b == 32) bytes.now }
{
    bytes.iter().all(|b| *b == b' ')
}

fn is_blank_from(bytes: &[u8], place: usize) -> bool
    requires { place ≤ length bytes.now }
    ensures { result ≡ list_all (λ b. b == 32) (drop place bytes.now) }
{
    are_blank(from_place(bytes, place))
}

impl Value {
    // the value that a field spells: the value, and blanks up to 24 bytes
    fn from_padded(field: &[u8; 24]) -> Option<Value>
        ensures { result ≡ padded_value field.now }
    {
        let text = before_blank(field);
        if spells_value(text) && is_blank_from(field, text.len()) {
            Some(Value {
                bytes: *field,
                count: text.len() as u8,
            })
        } else {
            None
        }
    }
}

// what stands behind the first 8 bytes
fn value_field(slot: &[u8; 32]) -> [u8; 24]
    ensures { result ≡ drop 8 slot.now }
{
    let mut field = [0; 24];
    field.copy_from_slice(from_place(slot, 8));
    field
}

fn held(slot: &[u8; 32]) -> Option<Option<Value>>
    ensures { result ≡ slot_reading slot.now }
{
    let front = BigEndian::read_u64(slot);
    if front == RECORD_FRONT {
        return Value::from_padded(&value_field(slot)).map(Some);
    }
    if front == 0 && is_zero_from(slot, 8) {
        return Some(None);
    }
    None
}

/// What a file slot holds: a record's value, or nothing where it is empty. None where the bytes are
/// no slot.
pub fn slot_read(slot: &[u8; 32]) -> Option<Option<Value>>
    ensures found { IfSome result (λ held. SlotIs slot.now held) }
    ensures none { IfNone result ((held : Option (List ℕ)) → SlotIs slot.now held → ⊥) }
    ensures exact { result ≡ slot_reading slot.now }
{
    held(slot)
}
