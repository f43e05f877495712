//! The forms of the lines of a scenario, as a table, and how a line is read by it.
#![tactic(auto)]

mod beginning;
mod choice_parts;
mod fitting;
pub mod form;
mod hex;
pub mod keyword;
pub mod line;
mod line_parts;
pub mod line_writing;
mod number;
mod operand;
pub mod quantity;
pub mod reading;
mod reading_at_once;
pub mod reason;
mod saying;
mod settings_beginning;
mod spelled;
mod table;
mod word;
mod work_parts;
mod work_reading;
pub mod writing;

pub use form::Form;
pub use keyword::Keyword;
pub use line::Line;
pub use line_writing::{lines_are_plain, lines_read_again, put_header, put_line};
pub use quantity::{QUANTITIES, Quantity, quantities};
pub use reading::{read_choice, read_header, read_setting};
pub use reason::Reason;
pub use writing::{put_choice, put_item};
pub use xrf_setup::{Choice, Format, Landing, TornBytes};

#[cfg(test)]
mod tests;
