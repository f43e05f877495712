//! Bytes and numbers at a place of a record.

ghost use Rattle.std.specs.Prelude.{◌≡◌, ◌≤◌, ◌+◌, length};
ghost use Rattle.byteorder.specs.Endian.{big_bytes};
ghost use Rattle.xrf_ctl.specs.Places.{laid_at, number_at};

use byteorder::{BigEndian, ByteOrder};

/// Lays a text at a place, with the rest as before.
pub fn lay(bytes: &mut [u8], place: usize, text: &[u8])
    requires { place + length text.now ≤ length bytes.old }
    ensures { bytes.new ≡ laid_at bytes.old place text.now }
{
    bytes[place..place + text.len()].copy_from_slice(text);
}

/// The same for a number.
pub fn lay_u16(bytes: &mut [u8], place: usize, number: u16)
    requires { place + 2 ≤ length bytes.old }
    ensures { bytes.new ≡ laid_at bytes.old place (big_bytes 2 number) }
{
    let mut text = [0; 2];
    BigEndian::write_u16(&mut text, number);
    lay(bytes, place, &text);
}

pub fn lay_u32(bytes: &mut [u8], place: usize, number: u32)
    requires { place + 4 ≤ length bytes.old }
    ensures { bytes.new ≡ laid_at bytes.old place (big_bytes 4 number) }
{
    let mut text = [0; 4];
    BigEndian::write_u32(&mut text, number);
    lay(bytes, place, &text);
}

pub fn lay_u64(bytes: &mut [u8], place: usize, number: u64)
    requires { place + 8 ≤ length bytes.old }
    ensures { bytes.new ≡ laid_at bytes.old place (big_bytes 8 number) }
{
    let mut text = [0; 8];
    BigEndian::write_u64(&mut text, number);
    lay(bytes, place, &text);
}

/// The number at a place.
pub fn u16_at(bytes: &[u8], place: usize) -> u16
    requires { place + 2 ≤ length bytes.now }
    ensures { result ≡ number_at bytes.now place 2 }
{
    BigEndian::read_u16(&bytes[place..])
}

pub fn u32_at(bytes: &[u8], place: usize) -> u32
    requires { place + 4 ≤ length bytes.now }
    ensures { result ≡ number_at bytes.now place 4 }
{
    BigEndian::read_u32(&bytes[place..])
}

pub fn u64_at(bytes: &[u8], place: usize) -> u64
    requires { place + 8 ≤ length bytes.now }
    ensures { result ≡ number_at bytes.now place 8 }
{
    BigEndian::read_u64(&bytes[place..])
}
