//! Why a line is refused.

ghost use Rattle.std.specs.Prelude.{◌≡◌};
ghost use Rattle.xrf_grammar.specs.Reasons.{rank, earlier};

/// Why a text is refused, in the order in which the reasons of one line are told.
#[derive(Clone, Copy, Debug, PartialEq, Eq)]
pub enum Reason {
    /// More than 4,194,304 bytes.
    TooLarge,
    /// A byte outside blank to `~`.
    BadByte,
    /// More than 300 bytes.
    LongLine,
    /// The first line does not begin with the word XRF.
    NoHeader,
    /// That line is neither `XRF 1` nor `XRF 2`.
    BadFormat,
    /// A choice line where there may be none.
    ChoicesGiven,
    /// A line behind END that may not come.
    AfterEnd,
    /// A first word that this part of the text does not have.
    UnknownWord,
    /// Words are missing or too many.
    WordCount,
    /// Neither A nor B.
    BadSite,
    BadNumber,
    /// A number outside its range.
    OutOfRange,
    BadName,
    BadValue,
    /// Not an even number of hex digits for 1 to 63 bytes.
    BadHex,
    /// A word other than those of its place.
    BadOption,
    /// An unknown item word.
    BadItem,
    BadCebt,
    /// A choice that PLAN does not take.
    BadPlan,
    /// A tick below that of the PLAN line before.
    PlanOrder,
    /// A setting or a record number that was given before.
    Twice,
    /// More work items, PLAN lines, CLT lines or choices than there may be.
    TooMany,
    /// A record number above FILE, at the line CHOICES.
    RrnRange,
    /// The text ends without END.
    NoEnd,
}

impl Reason {
    /// The place of the reason in the order.
    fn rank(self) -> u8
        ensures { result ≡ rank self }
    {
        match self {
            Reason::TooLarge => 0,
            Reason::BadByte => 1,
            Reason::LongLine => 2,
            Reason::NoHeader => 3,
            Reason::BadFormat => 4,
            Reason::ChoicesGiven => 5,
            Reason::AfterEnd => 6,
            Reason::UnknownWord => 7,
            Reason::WordCount => 8,
            Reason::BadSite => 9,
            Reason::BadNumber => 10,
            Reason::OutOfRange => 11,
            Reason::BadName => 12,
            Reason::BadValue => 13,
            Reason::BadHex => 14,
            Reason::BadOption => 15,
            Reason::BadItem => 16,
            Reason::BadCebt => 17,
            Reason::BadPlan => 18,
            Reason::PlanOrder => 19,
            Reason::Twice => 20,
            Reason::TooMany => 21,
            Reason::RrnRange => 22,
            Reason::NoEnd => 23,
        }
    }
}

/// The reason that comes first in the order, of those that there are.
pub fn earlier_reason(first: Option<Reason>, second: Option<Reason>) -> Option<Reason>
    ensures { result ≡ earlier first second }
{
    let Some(one) = first else {
        return second;
    };
    let Some(other) = second else {
        return first;
    };
    if other.rank() < one.rank() {
        second
    } else {
        first
    }
}
