//! The parts of the forms of a work item.

ghost use Rattle.std.specs.Prelude.{◌≡◌};
ghost use Rattle.xrf_grammar.specs.Table.{work_parts};

use crate::form::{ItemForm, Part};
use crate::keyword::Keyword;
use crate::reason::Reason;
use xrf_setup::ranges::{CLASS_LEAST, CLASS_MOST, NUMBER_MOST};

/// The parts of a line of work, by the keyword of its item and the parts behind it.
macro_rules! item {
    ($keyword:ident $(, $part:expr)*) => {
        &[
            Part::Keyword(Keyword::Work, Reason::UnknownWord),
            Part::Site,
            Part::Keyword(Keyword::$keyword, Reason::BadItem) $(, $part)*
        ]
    };
}

/// A keyword behind that of an item.
macro_rules! option {
    ($keyword:ident) => { Part::Keyword(Keyword::$keyword, Reason::BadOption) };
}

/// The parts of a line of work.
pub(crate) fn work_parts(form: ItemForm) -> &'static [Part]
    ensures { result.now ≡ work_parts form }
{
    match form {
        ItemForm::Begin => item!(Begin, Part::Name),
        ItemForm::Put => item!(Put, Part::Name, Part::Number(0, NUMBER_MOST), Part::Value),
        ItemForm::Get => item!(Get, Part::Name, Part::Number(0, NUMBER_MOST)),
        ItemForm::Commit => item!(Commit, Part::Name),
        ItemForm::Roll => item!(Roll, Part::Name),
        ItemForm::Logon => item!(Logon, Part::Name, Part::Number(CLASS_LEAST, CLASS_MOST)),
        ItemForm::Logoff => item!(Logoff, Part::Name),
        ItemForm::Signon => item!(Signon, Part::Name, Part::Name),
        ItemForm::Signoff => item!(Signoff, Part::Name),
        ItemForm::Shutdown => item!(Cemt, option!(Shutdown)),
        ItemForm::ShutdownTakeover => item!(Cemt, option!(Shutdown), option!(Takeover)),
    }
}
