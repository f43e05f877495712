//! Bytes in hex.

ghost use Rattle.std.specs.Prelude.{◌≡◌, ◌≤◌, length, replicate, true};
ghost use Rattle.std.specs.List.{list_all};
ghost use Rattle.xrf_grammar.specs.Hex.{is_hex, is_hex_digit, digit_value, byte_of, torn_of_hex};
ghost use Rattle.xrf_grammar.specs.Filling.{one_more, filled, front_of};

use xrf_setup::TornBytes;
use xrf_setup::ranges::TORN_MOST;

/// The bytes that pairs of digits spelled so far.
#[derive(Clone, Copy)]
struct Filling {
    bytes: [u8; TORN_MOST],
    count: u8,
}

fn is_digit(byte: u8) -> bool
    ensures { result ≡ is_hex_digit byte }
{
    byte.is_ascii_hexdigit()
}

fn all_digits(text: &[u8]) -> bool
    ensures { result ≡ list_all is_hex_digit text.now }
{
    text.iter().all(|b| is_digit(*b))
}

/// Whether a text is hex of 1 to 63 bytes.
pub(crate) fn spells_hex(text: &[u8]) -> bool
    ensures { result ≡ is_hex text.now }
{
    if text.is_empty() {
        return false;
    }
    if text.len() > 2 * TORN_MOST {
        return false;
    }
    if text.len() % 2 != 0 {
        return false;
    }
    all_digits(text)
}

// the number that a digit stands for
fn digit(byte: u8) -> u8
    requires { is_hex_digit byte ≡ true }
    ensures value { result ≡ digit_value byte }
    ensures low { result ≤ 15 }
{
    if byte >= b'a' {
        return byte - 87;
    }
    if byte >= b'A' {
        return byte - 55;
    }
    byte - 48
}

// the byte that two digits spell
fn byte(high: u8, low: u8) -> u8
    requires high { is_hex_digit high ≡ true }
    requires low { is_hex_digit low ≡ true }
    ensures { result ≡ byte_of high low }
{
    16 * digit(high) + digit(low)
}

// one byte more, as long as there is room
fn with_byte(filling: Filling, byte: u8) -> Filling
    ensures { result ≡ one_more filling byte }
{
    if filling.count as usize >= TORN_MOST {
        return filling;
    }
    let mut bytes = filling.bytes;
    bytes[filling.count as usize] = byte;
    Filling {
        bytes,
        count: filling.count + 1,
    }
}

// the bytes so far, and those that the text spells
fn fill(filling: Filling, text: &[u8]) -> Filling
    requires { list_all is_hex_digit text.now ≡ true }
    ensures { result ≡ filled filling text.now }
{
    match text {
        [high, low, more @ ..] => fill(with_byte(filling, byte(*high, *low)), more),
        _ => filling,
    }
}

// the bytes that a text of hex digits spells, up to 63 of them
fn fill_all(text: &[u8]) -> Filling
    requires { list_all is_hex_digit text.now ≡ true }
    ensures { result ≡ filled (record { bytes = replicate TORN_MOST 0; count = 0 }) text.now }
{
    fill(
        Filling {
            bytes: [0; TORN_MOST],
            count: 0,
        },
        text,
    )
}

impl Filling {
    // the bytes so far
    fn front(&self) -> &[u8]
        ensures { result.now ≡ front_of self.now }
    {
        if self.count as usize >= TORN_MOST {
            return &self.bytes;
        }
        &self.bytes[..self.count as usize]
    }
}

/// The bytes that a text spells in hex, or none where it spells none.
pub(crate) fn read_hex(text: &[u8]) -> Option<TornBytes>
    ensures { result ≡ torn_of_hex text.now }
{
    if !spells_hex(text) {
        return None;
    }
    TornBytes::new(fill_all(text).front())
}
