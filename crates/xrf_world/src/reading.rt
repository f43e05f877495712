//! What an act is answered, read off the data sets.

ghost use Rattle.std.specs.Prelude.{◌≡◌, ◌+◌, ◌*◌, ◌≤◌, true, false, List, Some, slice_get};
ghost use Rattle.xrf_base.specs.declared.site.Site.{Site as Of};
ghost use Rattle.xrf_devices.specs.Standing.{StandsFor};
ghost use Rattle.xrf_history.specs.declared.answer.Answer.{Answer as An};
ghost use Rattle.xrf_history.specs.Events.{Event};
ghost use Rattle.xrf_trace.specs.Devices.{control};
ghost use Rattle.xrf_trace.specs.declared.entry.Entry.{Entry as Made};
ghost use Rattle.xrf_trace.specs.Handing.{answer_of, block_answer, item_handed};
ghost use Rattle.xrf_trace.specs.Jobs.{hist, known_of};
ghost use Rattle.xrf_trace.specs.Scenario.{Scen, other};
ghost use Rattle.xrf_trace.specs.Words.{now};
ghost use Rattle.xrf_world.specs.Making.{MayRead};
ghost use Rattle.xrf_world.specs.Standing.{MiddleIs, StandsAt};
ghost use Rattle.xrf_world.specs.Wants.{reads_block};

use crate::middle::Middle;
use crate::place::Place;
use xrf_base::{Item, Site, Tick};
use xrf_devices::DataSets;
use xrf_history::{Answer, Block, Want};

fn other(site: Site) -> Site
    ensures { result ≡ other site }
{
    match site {
        Site::A => Site::B,
        Site::B => Site::A,
    }
}

fn item_handed<'a>(at: Tick, item: Option<Item>) -> Answer<'a>
    ensures { result ≡ item_handed at item }
{
    match item {
        Some(item) => Answer::Item(item),
        None => Answer::Tick(at),
    }
}

fn item_at(items: &[Item], place: usize) -> Option<Item>
    ensures { result ≡ slice_get items.now place }
{
    items.get(place).copied()
}

/// Whether a job is told of an act that it wants nothing but that it is done.
pub(crate) fn is_only_done(want: &Want) -> bool
    ensures { result ≡ true → (s : Scen) (t : List Made) (x : Of) (h : List Event) → answer_of s t x h want.now ≡ An.Done (now t) }
{
    match want {
        Want::CtlRead => false,
        Want::Look1 => false,
        Want::Look2 => false,
        Want::Decide => false,
        Want::MsgRead(_) => false,
        Want::LogRead(_) => false,
        Want::LogLook(_) => false,
        Want::KpRead(_) => false,
        Want::FileRead(_) => false,
        Want::Item => false,
        _ => true,
    }
}

/// What a job is answered for the read of a block of the log, of which a copy is made here. The first block of a restart
/// is handed with both keypoint slots.
pub(crate) fn block_answer<'a>(
    data_sets: &DataSets,
    block: u32,
    has_read: bool,
    bytes: &'a mut [u8; 4096],
) -> Answer<'a>
    requires { (s : Scen) × (t : List Made) × StandsFor data_sets.now s t × (64 * block + 64 ≤ s.settings.log) }
    ensures { (s : Scen) (t : List Made) → StandsFor data_sets.now s t → result ≡ block_answer s t block has_read }
{
    data_sets.log_block(block, bytes);
    let block = Block::new(bytes);
    if has_read {
        Answer::LogBlock(block)
    } else {
        Answer::Anchored(block, data_sets.key_slots())
    }
}

impl Middle {
    // the control record, and what of it is confirmed
    fn control_answer<'a>(&self) -> Answer<'a>
        requires { (t : List Made) × MiddleIs self.now t }
        ensures { (t : List Made) → MiddleIs self.now t → result ≡ An.Ctl (control t) (known_of t (control t)) }
    {
        let held = self.data_sets.control();
        let known = self.counts.known(&held);
        Answer::Ctl(held, known)
    }

    /// What the job at a site is answered for an act that it wants, which reads no block of the log.
    pub(crate) fn answer<'a>(&self, place: &Place, site: Site, want: &Want) -> Answer<'a>
        requires small { reads_block want.now ≡ false }
        requires stands { (t : List Made) × (h : List Event) × StandsAt self.now place.now t site × (hist self.now.scenario t site ≡ Some h) × MayRead self.now.scenario want.now }
        ensures { (t : List Made) (h : List Event) → StandsAt self.now place.now t site → hist self.now.scenario t site ≡ Some h
            → result ≡ answer_of self.now.scenario t site h want.now }
    {
        let data_sets = &self.data_sets;
        let at = self.counts.tick;
        match *want {
            Want::CtlRead => self.control_answer(),
            Want::Look1 => Answer::Look1(data_sets.control(), data_sets.signal1(other(site))),
            Want::Look2 => Answer::Look2(data_sets.signal2(other(site)), at),
            Want::Decide => Answer::Decide(self.counts.known(&place.seat.seen), at),
            Want::MsgRead(k) => Answer::MsgSlot(data_sets.message_slot(k)),
            Want::LogLook(number) => Answer::Gate(data_sets.log_gate(&self.scenario, number)),
            Want::KpRead(k) => Answer::Gate(data_sets.key_gate(k)),
            Want::FileRead(k) => Answer::FileSlot(data_sets.file_slot(&self.scenario, k)),
            Want::Item => {
                let taken = place.kept.items.answers.len();
                item_handed(at, item_at(self.scenario.work(site), taken))
            }
            _ => Answer::Done(at),
        }
    }
}
