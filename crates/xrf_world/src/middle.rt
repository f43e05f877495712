//! What both sites share: the scenario, the data sets, what is counted, and the journal.

ghost use Rattle.std.specs.Prelude.{◌≡◌, ◌==◌, List, ◌∷◌, length};
ghost use Rattle.xrf_trace.specs.declared.entry.Entry.{Entry as Made};
ghost use Rattle.xrf_world.specs.Making.{CanFollow};
ghost use Rattle.xrf_world.specs.Standing.{MiddleIs};

use crate::counts::Counts;
use crate::journal::push_entry;
use xrf_devices::DataSets;
use xrf_setup::Scenario;
use xrf_setup::ranges::CHOICES_MOST;
use xrf_trace::Entry;

/// What both sites share.
#[derive(Drop)]
pub(crate) struct Middle {
    pub(crate) scenario: Scenario,
    pub(crate) data_sets: DataSets,
    pub(crate) counts: Counts,
    // oldest first
    pub(crate) journal: Vec<Entry>,
    // where a block of the log is copied for the job that reads it
    pub(crate) block: Box<[u8; 4096]>,
}

impl Middle {
    /// Whether the journal has no room for another entry.
    pub(crate) fn is_full(&self) -> bool
        ensures { (t : List Made) → MiddleIs self.now t → result ≡ (length t == CHOICES_MOST) }
    {
        self.journal.len() == CHOICES_MOST
    }

    /// After one entry more, which joins the journal.
    pub(crate) fn follow(&mut self, entry: &Entry)
        requires { (t : List Made) × MiddleIs self.old t × CanFollow self.old.scenario t entry.now }
        ensures stands { (t : List Made) → MiddleIs self.old t → CanFollow self.old.scenario t entry.now → MiddleIs self.new (entry.now ∷ t) }
        ensures scenario { self.new.scenario ≡ self.old.scenario }
    {
        self.data_sets.land(&self.scenario, entry);
        self.counts.follow(entry);
        push_entry(&mut self.journal, entry);
    }
}
