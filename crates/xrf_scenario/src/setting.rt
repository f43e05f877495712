//! The settings, each of which is given once.

ghost use Rattle.std.specs.Prelude.{◌<◌, ℕ, List, length, get_or, slice_set, Option, None, Some};
ghost use Rattle.xrf_scenario.specs.Outcomes.{Takes};
ghost use Rattle.xrf_scenario.specs.SoFar.{SoFar};
ghost use Rattle.xrf_scenario.specs.Taking.{once, take_setting};
ghost use Rattle.xrf_scenario.specs.declared.given.Given.{Given};
ghost use Rattle.xrf_grammar.specs.declared.line.Line.TheVariants.{Applid, Level};

use crate::given::Given;
use crate::stop::Stop;
use xrf_base::{Name8, Site};
use xrf_grammar::{Line, Reason};

fn once<T: Copy>(slot: &mut Option<T>, value: T) -> Result<(), Stop>
    ensures { (so : SoFar) (put : Option T → Given) → Takes result (record so { given = put slot.old }) (record so { given = put slot.new }) (once slot.old so (put (Some value))) }
{
    if slot.is_some() {
        return Err(Stop::Fault(Reason::Twice));
    }
    *slot = Some(value);
    Ok(())
}

fn take_quantity(quantities: &mut [Option<u16>], place: usize, n: u16) -> Result<(), Stop>
    requires { place < length quantities.old }
    ensures { (so : SoFar) (put : List (Option ℕ) → Given) → Takes result (record so { given = put quantities.old }) (record so { given = put quantities.new }) (once (get_or quantities.old place None) so (put (slice_set quantities.old place (Some n)))) }
{
    if quantities[place].is_some() {
        return Err(Stop::Fault(Reason::Twice));
    }
    quantities[place] = Some(n);
    Ok(())
}

impl Given {
    fn take_applid(&mut self, site: Site, name: Name8) -> Result<(), Stop>
        ensures { (so : SoFar) → Takes result (record so { given = self.old }) (record so { given = self.new }) (take_setting so self.old (Applid site name)) }
    {
        match site {
            Site::A => once(&mut self.applid_a, name),
            Site::B => once(&mut self.applid_b, name),
        }
    }

    fn take_level(&mut self, site: Site, n: u16) -> Result<(), Stop>
        ensures { (so : SoFar) → Takes result (record so { given = self.old }) (record so { given = self.new }) (take_setting so self.old (Level site n)) }
    {
        match site {
            Site::A => once(&mut self.level_a, n),
            Site::B => once(&mut self.level_b, n),
        }
    }

    /// Takes a setting, which must not have been given before. A line that gives none adds nothing.
    pub fn take(&mut self, line: &Line) -> Result<(), Stop>
        ensures { (so : SoFar) → Takes result (record so { given = self.old }) (record so { given = self.new }) (take_setting (record so { given = self.old }) self.old line.now) }
    {
        match line {
            Line::Applid(site, name) => self.take_applid(*site, *name),
            Line::Takeovr(mode) => once(&mut self.takeovr, *mode),
            Line::Quantity(quantity, n) => {
                take_quantity(&mut self.quantities, quantity.place(), *n)
            }
            Line::Images(on) => once(&mut self.images, *on),
            Line::Level(site, n) => self.take_level(*site, *n),
            Line::Xrfsoff(force) => once(&mut self.force, *force),
            _ => Ok(()),
        }
    }
}
