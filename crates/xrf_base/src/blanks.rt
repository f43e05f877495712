//! Texts of fixed length, padded with blanks.

ghost use Rattle.std.specs.Prelude.{◌≡◌, ◌==◌, ◌≤◌, length, position};
ghost use Rattle.xrf_base.specs.Padding.{padded, unpadded};

/// The text and blanks up to the array's length.
pub fn padded_array<const N: usize>(text: &[u8]) -> [u8; N]
    requires { length text.now ≤ N }
    ensures { result ≡ padded N text.now }
{
    let mut bytes = [b' '; N];
    bytes[..text.len()].copy_from_slice(text);
    bytes
}

fn first_blank(field: &[u8]) -> Option<usize>
    ensures { result ≡ position (λ b. b == 32) field.now }
{
    field.iter().position(|b| *b == b' ')
}

/// What stands before the first blank, or all where there is none.
pub fn before_blank(field: &[u8]) -> &[u8]
    ensures { result.now ≡ unpadded field.now }
{
    match first_blank(field) {
        Some(count) => &field[..count],
        None => field,
    }
}
