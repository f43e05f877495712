//! Bytes that are zero, tested eight at a time.

ghost use Rattle.std.specs.Prelude.{◌≡◌, ◌≤◌, ◌+◌, length, take, drop, true, IsTrue};
ghost use Rattle.std.specs.List.{list_all};
ghost use Rattle.xrf_base.specs.Zeros.{is_zero, are_zeros};

use byteorder::{BigEndian, ByteOrder};

/// How many bytes a word has.
const WORD: usize = 8;

fn is_word_zero(bytes: &[u8]) -> bool
    requires { 8 ≤ length bytes.now }
    ensures { IsTrue result → are_zeros (take 8 bytes.now) ≡ true }
{
    BigEndian::read_u64(bytes) == 0
}

/// What stands from a place on.
pub fn from_place(bytes: &[u8], place: usize) -> &[u8]
    requires { place ≤ length bytes.now }
    ensures behind { result.now ≡ drop place bytes.now }
    ensures shorter { length result.now + place ≡ length bytes.now }
{
    &bytes[place..]
}

fn is_zero_throughout(bytes: &[u8]) -> bool
    ensures { result ≡ are_zeros bytes.now }
{
    bytes.iter().all(|b| *b == 0)
}

#[inline]
fn is_all_zero(bytes: &[u8]) -> bool
    ensures { result ≡ are_zeros bytes.now }
{
    let mut rest = bytes;
    while rest.len() >= WORD && is_word_zero(rest) {
        rest = from_place(rest, WORD);
    }
    is_zero_throughout(rest)
}

/// Whether all bytes from a place on are zero.
#[inline]
pub fn is_zero_from(bytes: &[u8], place: usize) -> bool
    requires { place ≤ length bytes.now }
    ensures { result ≡ are_zeros (drop place bytes.now) }
{
    is_all_zero(from_place(bytes, place))
}
