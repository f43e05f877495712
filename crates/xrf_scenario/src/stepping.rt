//! One line of a text, in the section of the text that it is of.

ghost use Rattle.std.specs.Prelude.{◌≡◌, ℕ, List, false, None, Ok, IfSome};
ghost use Rattle.xrf_grammar.specs.Reading.{header_of, line_of};
ghost use Rattle.xrf_grammar.specs.Table.{settings_of, choices_table};
ghost use Rattle.xrf_scenario.specs.Outcomes.{Takes};
ghost use Rattle.xrf_scenario.specs.declared.section.Section.TheVariants.{Start, Settings, Making};
ghost use Rattle.xrf_scenario.specs.Lines.{bytes_fault, is_skipped};
ghost use Rattle.xrf_scenario.specs.Machine.{SaysOnce, take_header, take_line, take_words, step};
ghost use Rattle.xrf_text.specs.Text.{words};

use crate::last_choice::LastChoice;
use crate::lines::{bytes_fault, is_report, is_skipped};
use crate::reading::Reading;
use crate::section::Section;
use crate::stop::Stop;
use xrf_grammar::{Line, Reason, read_choice, read_header, read_setting};
use xrf_setup::Choice;

impl<'a> Reading<'a> {
    fn take_header(&mut self, text: &[u8]) -> Result<(), Stop>
        requires { self.old.section ≡ Start }
        ensures { Takes result self.old self.new (take_header self.old (header_of (words text.now))) }
    {
        match read_header(text) {
            Ok(format) => {
                self.section = Section::Settings;
                self.format = format;
                Ok(())
            }
            Err(reason) => Err(Stop::Fault(reason)),
        }
    }

    fn take_setting_line(&mut self, text: &[u8]) -> Result<(), Stop>
        requires section { self.old.section ≡ Settings }
        requires bytes { bytes_fault text.now ≡ None }
        ensures { (number : ℕ) → Takes result self.old self.new (take_line number self.old (words text.now) (line_of (settings_of self.old.format) (words text.now))) }
    {
        match read_setting(self.format, text) {
            Ok(line) => self.take_setting(text, &line),
            Err(reason) => Err(Stop::Fault(reason)),
        }
    }

    // keeps a line that says a choice once
    fn keep_choice(&mut self, text: &'a [u8], line: &Line)
        requires shown { is_skipped text.now ≡ false }
        requires bytes { bytes_fault text.now ≡ None }
        requires line { line_of choices_table (words text.now) ≡ Ok line.now }
        ensures { self.new ≡ self.old }
    {
        if let Line::Once(choice) = line {
            self.last_choice = LastChoice::new(text, *choice);
        }
    }

    fn take_choice_line(&mut self, number: u32, text: &'a [u8]) -> Result<(), Stop>
        requires section { self.old.section ≡ Making }
        requires shown { is_skipped text.now ≡ false }
        requires bytes { bytes_fault text.now ≡ None }
        ensures { Takes result self.old self.new (take_line number self.old (words text.now) (line_of choices_table (words text.now))) }
    {
        match read_choice(text) {
            Ok(line) => {
                self.keep_choice(text, &line);
                self.take_choosing(number, &line)
            }
            Err(reason) => Err(Stop::Fault(reason)),
        }
    }

    // the choice that a line says once, where it is the same as the last that did
    fn choice_again(&self, line: &[u8]) -> Option<Choice>
        ensures { IfSome result (λ c. (self.now.section ≡ Making) × SaysOnce line.now c) }
    {
        match self.section {
            Section::Making => self.last_choice.of(line),
            _ => None,
        }
    }

    fn take_words(&mut self, number: u32, text: &'a [u8]) -> Result<(), Stop>
        requires shown { is_skipped text.now ≡ false }
        requires bytes { bytes_fault text.now ≡ None }
        ensures { Takes result self.old self.new (take_words self.old.section number self.old (words text.now)) }
    {
        match self.section {
            Section::Start => self.take_header(text),
            Section::Settings => self.take_setting_line(text),
            Section::Making => self.take_choice_line(number, text),
            Section::Whole => Err(Stop::Fault(Reason::AfterEnd)),
        }
    }

    /// Takes the next line, which has this number, or answers why it may not come, and then stays
    /// as it was.
    pub fn step(&mut self, number: u32, line: &'a [u8]) -> Result<(), Stop>
        ensures { Takes result self.old self.new (step number self.old line.now) }
    {
        if is_skipped(line) {
            return Ok(());
        }
        if let Some(choice) = self.choice_again(line) {
            return self.take_choice(number, choice, 1);
        }
        if self.section.is_whole() {
            if is_report(line) {
                return Ok(());
            }
            return Err(Stop::Fault(Reason::AfterEnd));
        }
        match bytes_fault(line) {
            Some(reason) => Err(Stop::Fault(reason)),
            None => self.take_words(number, line),
        }
    }
}
