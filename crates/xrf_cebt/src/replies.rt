//! The replies to CEBT commands.

ghost use Rattle.std.specs.Prelude.{◌≡◌};
ghost use Rattle.xrf_cebt.specs.Reply.{reply_text, reply_to};

use crate::commands::Cebt;
use xrf_base::Takeovr;

/// What a region replies to a command.
#[derive(Clone, Copy, PartialEq, Eq)]
pub enum CebtReply {
    TakeoverAccepted,
    ShutdownAccepted,
    /// A takeover is under way, so nothing can be performed.
    InProgress,
    /// What the alternate may do by itself.
    TakeoverMode(Takeovr),
    /// Whether the alternate watches the active.
    Surveillance(bool),
}

impl CebtReply {
    /// The text of the reply.
    pub fn text(self) -> &'static [u8]
        ensures { result.now ≡ reply_text self }
    {
        match self {
            CebtReply::TakeoverAccepted => b"TAKEOVER ACCEPTED",
            CebtReply::ShutdownAccepted => b"SHUTDOWN ACCEPTED",
            CebtReply::InProgress => b"TAKEOVER IN PROGRESS",
            CebtReply::TakeoverMode(Takeovr::Auto) => b"TAKEOVER AUTO",
            CebtReply::TakeoverMode(Takeovr::Manual) => b"TAKEOVER MANUAL",
            CebtReply::TakeoverMode(Takeovr::Command) => b"TAKEOVER COMMAND",
            CebtReply::Surveillance(true) => b"SURVEILLANCE ON",
            CebtReply::Surveillance(false) => b"SURVEILLANCE OFF",
        }
    }
}

/// The reply to a command. `waiting` says whether the alternate waits to be let through, and
/// `takeovr` and `surveillance` are its settings after the command.
pub fn reply(command: Cebt, waiting: bool, takeovr: Takeovr, surveillance: bool) -> CebtReply
    ensures { result ≡ reply_to command waiting takeovr surveillance }
{
    match command {
        Cebt::PerformTakeover | Cebt::PerformShutdown if waiting => CebtReply::InProgress,
        Cebt::PerformTakeover => CebtReply::TakeoverAccepted,
        Cebt::PerformShutdown => CebtReply::ShutdownAccepted,
        Cebt::InquireTakeover | Cebt::SetTakeover(_) => CebtReply::TakeoverMode(takeovr),
        Cebt::InquireSurveillance | Cebt::SetSurveillance(_) => CebtReply::Surveillance(
            surveillance,
        ),
    }
}

#[cfg(test)]
mod tests {
    use super::*;

    #[test]
    fn replies_by_the_state_of_the_alternate(rt: HostRuntime) {
        let table: [(Cebt, bool, &[u8]); 8] = [
            (Cebt::PerformTakeover, false, b"TAKEOVER ACCEPTED"),
            (Cebt::PerformTakeover, true, b"TAKEOVER IN PROGRESS"),
            (Cebt::PerformShutdown, false, b"SHUTDOWN ACCEPTED"),
            (Cebt::PerformShutdown, true, b"TAKEOVER IN PROGRESS"),
            (Cebt::InquireTakeover, true, b"TAKEOVER MANUAL"),
            (
                Cebt::SetTakeover(Takeovr::Manual),
                false,
                b"TAKEOVER MANUAL",
            ),
            (Cebt::InquireSurveillance, false, b"SURVEILLANCE OFF"),
            (Cebt::SetSurveillance(false), true, b"SURVEILLANCE OFF"),
        ];
        for (command, waiting, want) in table {
            assert_eq!(rt;
                reply(command, waiting, Takeovr::Manual, false).text(),
                want
            );
        }
        assert_eq!(rt;
            CebtReply::TakeoverMode(Takeovr::Auto).text(),
            b"TAKEOVER AUTO".as_slice()
        );
        assert_eq!(rt;
            CebtReply::TakeoverMode(Takeovr::Command).text(),
            b"TAKEOVER COMMAND".as_slice()
        );
        assert_eq!(rt;
            CebtReply::Surveillance(true).text(),
            b"SURVEILLANCE ON".as_slice()
        );
    }
}
