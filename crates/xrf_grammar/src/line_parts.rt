//! The parts of each form.

ghost use Rattle.std.specs.Prelude.{◌≡◌};
ghost use Rattle.xrf_grammar.specs.Table.{parts_of};

use crate::choice_parts::{choice_parts, planned_parts};
use crate::form::{Form, Part};
use crate::keyword::Keyword;
use crate::reason::Reason;
use crate::work_parts::work_parts;
use xrf_base::Takeovr;
use xrf_setup::ranges::{FILE_LEAST, FILE_MOST};

/// The parts of a line, by its keyword and the parts behind it.
macro_rules! line_of {
    ($keyword:ident $(, $part:expr)*) => {
        &[Part::Keyword(Keyword::$keyword, Reason::UnknownWord) $(, $part)*]
    };
}

/// A keyword behind that of a line.
macro_rules! option {
    ($keyword:ident) => { Part::Keyword(Keyword::$keyword, Reason::BadOption) };
}

impl Form {
    /// Its parts.
    pub(crate) fn parts(self) -> &'static [Part]
        ensures { result.now ≡ parts_of self }
    {
        match self {
            Form::Applid => line_of!(Applid, Part::Site, Part::Name),
            Form::Takeovr(Takeovr::Auto) => line_of!(Takeovr, option!(Auto)),
            Form::Takeovr(Takeovr::Manual) => line_of!(Takeovr, option!(Manual)),
            Form::Takeovr(Takeovr::Command) => line_of!(Takeovr, option!(Command)),
            Form::Quantity(quantity) => quantity.parts(),
            Form::Images(true) => line_of!(Images, option!(On)),
            Form::Images(false) => line_of!(Images, option!(Off)),
            Form::Level => line_of!(Level, Part::Site, Part::Number(1, 2)),
            Form::Xrfsoff(true) => line_of!(Xrfsoff, option!(Force)),
            Form::Xrfsoff(false) => line_of!(Xrfsoff, option!(Noforce)),
            Form::Record => line_of!(Record, Part::Number(FILE_LEAST, FILE_MOST), Part::Value),
            Form::CltCancel => line_of!(Clt, Part::Name, option!(Cancel), Part::Name),
            Form::CltCommand => line_of!(Clt, Part::Name, option!(Command), Part::Words),
            Form::CltWto => line_of!(Clt, Part::Name, option!(Wto), Part::Words),
            Form::Choices => line_of!(Choices),
            Form::End => line_of!(End),
            Form::Work(item) => work_parts(item),
            Form::Plan(choice) => planned_parts(choice),
            Form::Choice(choice) => choice_parts(choice),
        }
    }
}
