//! Numbers in texts.

ghost use Rattle.std.specs.Prelude.{◌≡◌, ◌≤◌, length, IfSome, Some};
ghost use Rattle.xrf_grammar.specs.Numbers.{digits_behind, number_of};

// the number that at most five digits write, or none where one is no digit
fn value(text: &[u8]) -> Option<u32>
    requires { length text.now ≤ 5 }
    ensures { result ≡ digits_behind 0 text.now }
{
    let mut number = 0u32;
    for digit in text {
        if !digit.is_ascii_digit() {
            return None;
        }
        number = 10 * number + (*digit - b'0') as u32;
    }
    Some(number)
}

/// The number that a text spells: decimal digits without a leading zero, except 0 itself, and at
/// most 65535. None where it spells none.
pub(crate) fn read_number(text: &[u8]) -> Option<u16>
    ensures { result ≡ number_of text.now }
{
    if text.is_empty() {
        return None;
    }
    if text.len() > 5 {
        return None;
    }
    if text[0] == b'0' && text.len() > 1 {
        return None;
    }
    u16::try_from(value(text)?).ok()
}

/// The number that a word spells, where it is from the first to the second.
#[inline(always)]
pub(crate) fn number_within(least: u16, most: u16, word: &[u8]) -> Option<u16>
    ensures { IfSome result (λ n. (number_of word.now ≡ Some n) × ((least ≤ n) × (n ≤ most))) }
{
    let number = read_number(word)?;
    if number < least {
        return None;
    }
    if number > most {
        return None;
    }
    Some(number)
}
