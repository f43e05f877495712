//! Numbers in records: unsigned, the highest byte first. The crate `byteorder` lays and reads them;
//! its clauses lead from a number to its bytes and back.

ghost use Rattle.xrf_base.specs.Numbers.{OneSpelling, SpelledAgain};

/// The other way: two byte lists of one length that spell the same number are equal, so the bytes
/// of the number that a list spells are that list.
pub fn one_spelling()
    ensures equal { OneSpelling }
    ensures again { SpelledAgain }
{}
