//! The words in capitals of which the lines of a scenario are made.

ghost use Rattle.std.specs.Prelude.{◌≡◌};
ghost use Rattle.xrf_grammar.specs.Keywords.{keyword_text};

use crate::quantity::Quantity;

/// A word in capitals of a form.
#[derive(Clone, Copy, Debug, PartialEq, Eq)]
pub enum Keyword {
    Applid,
    Takeovr,
    Auto,
    Manual,
    Command,
    Quantity(Quantity),
    Images,
    On,
    Off,
    Level,
    Xrfsoff,
    Force,
    Noforce,
    Record,
    Clt,
    Cancel,
    Wto,
    Work,
    Begin,
    Put,
    Get,
    Commit,
    Roll,
    Logon,
    Logoff,
    Signon,
    Signoff,
    Cemt,
    Shutdown,
    Takeover,
    Plan,
    Choices,
    End,
    Tick,
    Step,
    Lose,
    Stop,
    /// NONE: nothing lands.
    NoneWord,
    All,
    Torn,
    Fail,
    Start,
    Active,
    Standby,
    Abend,
    Confirm,
    Reply,
    Go,
    Ignore,
    Cebt,
    Perform,
    Inquire,
    Set,
    Surveillance,
    Exit,
    Keep,
    Drop,
}

/// The text of a keyword, by the spelling of each that is no quantity.
macro_rules! spelled_by {
    ($keyword:expr; $($name:ident $text:literal,)*) => {
        match $keyword {
            Keyword::Quantity(quantity) => quantity.text(),
            $(Keyword::$name => $text,)*
        }
    };
}

impl Keyword {
    /// How it is spelled.
    pub fn text(self) -> &'static [u8]
        ensures { result.now ≡ keyword_text self }
    {
        spelled_by! { self;
            Applid b"APPLID", Takeovr b"TAKEOVR", Auto b"AUTO", Manual b"MANUAL",
            Command b"COMMAND", Images b"IMAGES", On b"ON", Off b"OFF", Level b"LEVEL",
            Xrfsoff b"XRFSOFF", Force b"FORCE", Noforce b"NOFORCE", Record b"RECORD", Clt b"CLT",
            Cancel b"CANCEL", Wto b"WTO", Work b"WORK", Begin b"BEGIN", Put b"PUT", Get b"GET",
            Commit b"COMMIT", Roll b"ROLL", Logon b"LOGON", Logoff b"LOGOFF", Signon b"SIGNON",
            Signoff b"SIGNOFF", Cemt b"CEMT", Shutdown b"SHUTDOWN", Takeover b"TAKEOVER",
            Plan b"PLAN", Choices b"CHOICES", End b"END", Tick b"TICK", Step b"STEP", Lose b"LOSE",
            Stop b"STOP", NoneWord b"NONE", All b"ALL", Torn b"TORN", Fail b"FAIL", Start b"START",
            Active b"ACTIVE", Standby b"STANDBY", Abend b"ABEND", Confirm b"CONFIRM",
            Reply b"REPLY", Go b"GO", Ignore b"IGNORE", Cebt b"CEBT", Perform b"PERFORM",
            Inquire b"INQUIRE", Set b"SET", Surveillance b"SURVEILLANCE", Exit b"EXIT",
            Keep b"KEEP", Drop b"DROP",
        }
    }
}
