//! What the words `drive SEED N` ask.

ghost use Rattle.std.specs.Prelude.{◌≡◌, ◌≤◌, ◌+◌, ◌*◌, ◌-◌, ◌&&◌, nat_eq, nat_le, true, Some, None, IfSome, if◌then◌else◌, codes, string_bytes, length};
ghost use Rattle.std.specs.Char.{is_ascii_digit};
ghost use Rattle.std.specs.Cmp.Lexicographic.{pointwise};
ghost use Rattle.std.specs.List.{list_all};
ghost use Rattle.xrf_grammar.specs.Numbers.{value_behind};
ghost use Rattle.xrf.specs.DriveWords.{asked_of, drive_asked, is_decimal, number_to};

use xrf_setup::ranges::CHOICES_MOST;

/// A seed, and how many turns.
#[derive(Clone, Copy)]
pub struct Asked {
    pub seed: u64,
    pub turns: u32,
}

fn all_digits(text: &[u8]) -> bool
    ensures { result ≡ list_all is_ascii_digit text.now }
{
    text.iter().all(|b| b.is_ascii_digit())
}

fn is_decimal(text: &[u8]) -> bool
    ensures { result ≡ is_decimal text.now }
{
    if text.is_empty() {
        return false;
    }
    if !all_digits(text) {
        return false;
    }
    text[0] != b'0' || text.len() == 1
}

// a number with a digit behind it, none where it has more than 64 bits
fn with_digit(number: u64, digit: u8) -> Option<u64>
    requires { 48 ≤ digit }
    ensures { result ≡ if nat_le (10 * number + (digit - 48)) 18446744073709551615 then Some (10 * number + (digit - 48)) else None }
{
    number.checked_mul(10)?.checked_add((digit - b'0') as u64)
}

// the number that digits write, none where it has more than 64 bits
fn value(digits: &[u8]) -> Option<u64>
    requires digits { list_all is_ascii_digit digits.now ≡ true }
    ensures { result ≡ if nat_le (value_behind 0 digits.now) 18446744073709551615 then Some (value_behind 0 digits.now) else None }
{
    let mut number = 0u64;
    for digit in digits {
        match with_digit(number, *digit) {
            Some(next) => number = next,
            None => return None,
        }
    }
    Some(number)
}

// the number that a text spells, at most a limit
fn number_to(most: u64, text: &[u8]) -> Option<u64>
    ensures { result ≡ number_to most text.now }
{
    if !is_decimal(text) {
        return None;
    }
    let number = value(text)?;
    if number <= most { Some(number) } else { None }
}

fn is_drive_word(word: &str) -> bool
    ensures { result ≡ pointwise nat_eq word.now (codes "drive") }
{
    word == "drive"
}

fn asked_of(seed: &str, turns: &str) -> Option<Asked>
    ensures { result ≡ asked_of (number_to 18446744073709551615 seed.now) (number_to CHOICES_MOST turns.now) }
{
    let seed = number_to(u64::MAX, seed.as_bytes())?;
    let turns = number_to(CHOICES_MOST as u64, turns.as_bytes())?;
    Some(Asked {
        seed,
        turns: turns as u32,
    })
}

/// What the words ask, none where they are not `drive SEED N`. It takes no memory.
pub fn drive_asked(words: &[String]) -> Option<Asked>
    ensures asked { result ≡ drive_asked words.now }
    ensures few { IfSome result (λ asked. asked.turns ≤ CHOICES_MOST) }
{
    match words {
        [word, seed, turns] => {
            if is_drive_word(word.as_str()) {
                asked_of(seed.as_str(), turns.as_str())
            } else {
                None
            }
        }
        _ => None,
    }
}
