//! The commands, and how a text is read as one.

ghost use Rattle.std.specs.Prelude.{◌≡◌, IfOk, IfErr};
ghost use Rattle.xrf_text.specs.Text.{words};
ghost use Rattle.xrf_cebt.specs.Command.{command_text, command_words, IsFault};
ghost use Rattle.xrf_cebt.specs.Reading.{command_read, end_read, inquire_read, mode_read, perform_read, set_read, switch_read};

use xrf_base::Takeovr;
use xrf_text::split_word;

/// A command of the operator to the alternate.
#[derive(Clone, Copy, PartialEq, Eq)]
pub enum Cebt {
    PerformTakeover,
    PerformShutdown,
    InquireTakeover,
    InquireSurveillance,
    /// What the alternate may do by itself.
    SetTakeover(Takeovr),
    /// Whether the alternate watches the active.
    SetSurveillance(bool),
}

/// The place of the first wrong word, from 0.
#[derive(Clone, Copy, Debug, PartialEq, Eq)]
pub struct CebtFault {
    pub word: usize,
}

impl Cebt {
    /// The text of the command, with one blank between words.
    pub fn text(self) -> &'static [u8]
        ensures { result.now ≡ command_text self }
    {
        match self {
            Cebt::PerformTakeover => b"PERFORM TAKEOVER",
            Cebt::PerformShutdown => b"PERFORM SHUTDOWN",
            Cebt::InquireTakeover => b"INQUIRE TAKEOVER",
            Cebt::InquireSurveillance => b"INQUIRE SURVEILLANCE",
            Cebt::SetTakeover(Takeovr::Auto) => b"SET TAKEOVER AUTO",
            Cebt::SetTakeover(Takeovr::Manual) => b"SET TAKEOVER MANUAL",
            Cebt::SetTakeover(Takeovr::Command) => b"SET TAKEOVER COMMAND",
            Cebt::SetSurveillance(true) => b"SET SURVEILLANCE ON",
            Cebt::SetSurveillance(false) => b"SET SURVEILLANCE OFF",
        }
    }

    /// The command that a text spells, with any blanks between its words. The fault is the place,
    /// from 0, of the first word such that no command begins with the words up to and with it.
    /// Where a command begins with all the words and has more, it is the place after the last.
    pub fn read(text: &[u8]) -> Result<Cebt, CebtFault>
        ensures found { IfOk result (λ command. words text.now ≡ command_words command) }
        ensures only { (command : Cebt) → words text.now ≡ command_words command → result ≡ Ok command }
        ensures fault { IfErr result (λ f. IsFault (words text.now) f.word) }
    {
        first(text)
    }
}

/// A command that is complete, where no word is left. The next place is that of a further word.
fn complete(command: Cebt, next: usize, rest: &[u8]) -> Result<Cebt, CebtFault>
    ensures { result ≡ end_read command next (words rest.now) }
{
    match split_word(rest) {
        None => Ok(command),
        Some(_) => Err(CebtFault { word: next }),
    }
}

/// What stands behind PERFORM.
fn perform(rest: &[u8]) -> Result<Cebt, CebtFault>
    ensures { result ≡ perform_read (words rest.now) }
{
    let Some((word, rest)) = split_word(rest) else {
        return Err(CebtFault { word: 1 });
    };
    if word == b"TAKEOVER".as_slice() {
        return complete(Cebt::PerformTakeover, 2, rest);
    }
    if word == b"SHUTDOWN".as_slice() {
        return complete(Cebt::PerformShutdown, 2, rest);
    }
    Err(CebtFault { word: 1 })
}

/// What stands behind INQUIRE.
fn inquire(rest: &[u8]) -> Result<Cebt, CebtFault>
    ensures { result ≡ inquire_read (words rest.now) }
{
    let Some((word, rest)) = split_word(rest) else {
        return Err(CebtFault { word: 1 });
    };
    if word == b"TAKEOVER".as_slice() {
        return complete(Cebt::InquireTakeover, 2, rest);
    }
    if word == b"SURVEILLANCE".as_slice() {
        return complete(Cebt::InquireSurveillance, 2, rest);
    }
    Err(CebtFault { word: 1 })
}

/// What stands behind SET TAKEOVER.
fn set_takeover(rest: &[u8]) -> Result<Cebt, CebtFault>
    ensures { result ≡ mode_read (words rest.now) }
{
    let Some((word, rest)) = split_word(rest) else {
        return Err(CebtFault { word: 2 });
    };
    if word == b"AUTO".as_slice() {
        return complete(Cebt::SetTakeover(Takeovr::Auto), 3, rest);
    }
    if word == b"MANUAL".as_slice() {
        return complete(Cebt::SetTakeover(Takeovr::Manual), 3, rest);
    }
    if word == b"COMMAND".as_slice() {
        return complete(Cebt::SetTakeover(Takeovr::Command), 3, rest);
    }
    Err(CebtFault { word: 2 })
}

/// What stands behind SET SURVEILLANCE.
fn set_surveillance(rest: &[u8]) -> Result<Cebt, CebtFault>
    ensures { result ≡ switch_read (words rest.now) }
{
    let Some((word, rest)) = split_word(rest) else {
        return Err(CebtFault { word: 2 });
    };
    if word == b"ON".as_slice() {
        return complete(Cebt::SetSurveillance(true), 3, rest);
    }
    if word == b"OFF".as_slice() {
        return complete(Cebt::SetSurveillance(false), 3, rest);
    }
    Err(CebtFault { word: 2 })
}

/// What stands behind SET.
fn set(rest: &[u8]) -> Result<Cebt, CebtFault>
    ensures { result ≡ set_read (words rest.now) }
{
    let Some((word, rest)) = split_word(rest) else {
        return Err(CebtFault { word: 1 });
    };
    if word == b"TAKEOVER".as_slice() {
        return set_takeover(rest);
    }
    if word == b"SURVEILLANCE".as_slice() {
        return set_surveillance(rest);
    }
    Err(CebtFault { word: 1 })
}

/// A command from its first word on.
fn first(rest: &[u8]) -> Result<Cebt, CebtFault>
    ensures { result ≡ command_read (words rest.now) }
{
    let Some((word, rest)) = split_word(rest) else {
        return Err(CebtFault { word: 0 });
    };
    if word == b"PERFORM".as_slice() {
        return perform(rest);
    }
    if word == b"INQUIRE".as_slice() {
        return inquire(rest);
    }
    if word == b"SET".as_slice() {
        return set(rest);
    }
    Err(CebtFault { word: 0 })
}

#[cfg(test)]
mod tests {
    use super::*;

    #[test]
    fn each_command_is_read_and_written(rt: HostRuntime) {
        let commands = [
            Cebt::PerformTakeover,
            Cebt::PerformShutdown,
            Cebt::InquireTakeover,
            Cebt::InquireSurveillance,
            Cebt::SetTakeover(Takeovr::Auto),
            Cebt::SetTakeover(Takeovr::Manual),
            Cebt::SetTakeover(Takeovr::Command),
            Cebt::SetSurveillance(true),
            Cebt::SetSurveillance(false),
        ];
        for command in commands {
            assert!(rt; Cebt::read(command.text()) == Ok(command));
        }
        assert!(rt; Cebt::read(b"  SET  SURVEILLANCE   ON ") == Ok(Cebt::SetSurveillance(true)));
    }

    #[test]
    fn the_first_wrong_word_is_the_fault(rt: HostRuntime) {
        let texts: [(&[u8], usize); 18] = [
            (b"", 0),
            (b"CANCEL", 0),
            (b"perform TAKEOVER", 0),
            (b"PERFORM", 1),
            (b"PERFORM SURVEILLANCE", 1),
            (b"PERFORM TAKEOVER AUTO", 2),
            (b"PERFORM SHUTDOWN NOW", 2),
            (b"INQUIRE", 1),
            (b"INQUIRE SHUTDOWN", 1),
            (b"INQUIRE TAKEOVER X Y", 2),
            (b"SET", 1),
            (b"SET SHUTDOWN", 1),
            (b"SET TAKEOVER", 2),
            (b"SET TAKEOVER ON", 2),
            (b"SET TAKEOVER AUTO AUTO", 3),
            (b"SET SURVEILLANCE", 2),
            (b"SET SURVEILLANCE AUTO", 2),
            (b"SET SURVEILLANCE OFF OFF", 3),
        ];
        for (text, place) in texts {
            assert!(rt;
                Cebt::read(text) == Err(CebtFault { word: place }),
                "{place}"
            );
        }
    }
}
