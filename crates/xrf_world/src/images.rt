//! The images of the data sets: all their bytes, those of each data set as a list of their own.

ghost use Rattle.std.specs.Prelude.{◌≡◌, ◌+◌, ◌*◌, ◌++◌, length, IfOk};
ghost use Rattle.std.specs.List.{flat_map};
ghost use Rattle.xrf_base.specs.declared.limits.Limits.{Limits as Sizes};
ghost use Rattle.xrf_gated.specs.Slots.{bytes_of};
ghost use Rattle.xrf_world.specs.Images.{HaveSizes, AreZero, AreAsLong, AreBytesOf};

use std::alloc::{AllocError, Global};
use xrf_base::Limits;
use xrf_devices::DataSets;
use xrf_gated::{BodyRule, Extent, Slots};
use xrf_msg::MsgBody;

/// The bytes of the data sets.
#[derive(Drop)]
pub struct ImageBytes {
    /// DFHXRCTL: 384 bytes.
    pub ctl: Vec<u8>,
    /// DFHXRMSG: 128 bytes, and 64 for each slot of the ring.
    pub msg: Vec<u8>,
    /// The log: 64 bytes for each slot.
    pub log: Vec<u8>,
    /// The file: 32 bytes for each record.
    pub file: Vec<u8>,
    /// KEY: 128 bytes.
    pub key: Vec<u8>,
}

fn copy_extent(extent: &Extent, into: &mut [u8])
    requires { length into.old ≡ length extent.now }
    ensures { into.new ≡ extent.now }
{
    extent.read(0, into);
}

// one slot behind the other
fn copy_slots<B: BodyRule>(slots: &Slots<B>, into: &mut [u8])
    requires { length into.old ≡ 64 * length slots.now }
    ensures { into.new ≡ flat_map bytes_of slots.now }
{
    for k in 0..into.len() / 64 {
        into[64 * k..64 * k + 64].copy_from_slice(&slots.slot(k));
    }
}

// DFHXRMSG: its signal sectors, and its slots behind them
fn copy_messages(signals: &Extent, messages: &Slots<MsgBody>, into: &mut [u8])
    requires signals { length signals.now ≡ 128 }
    requires size { length into.old ≡ 128 + 64 * length messages.now }
    ensures { into.new ≡ signals.now ++ flat_map bytes_of messages.now }
{
    let (sectors, slots) = into.split_at_mut(128);
    copy_extent(signals, sectors);
    copy_slots(messages, slots);
}

impl ImageBytes {
    /// The images of data sets of these sizes, all bytes zero.
    pub fn new(alloc: Global, limits: &Limits) -> Result<ImageBytes, AllocError>
        ensures zero { IfOk result (λ images. AreZero images limits.now) }
        ensures sizes { IfOk result (λ images. HaveSizes images limits.now) }
    {
        let ctl = vec![in alloc; 0; 384]?;
        let msg = vec![in alloc; 0; 128 + 64 * limits.ring as usize]?;
        let log = vec![in alloc; 0; 64 * limits.log as usize]?;
        let file = vec![in alloc; 0; 32 * limits.file as usize]?;
        let key = vec![in alloc; 0; 128]?;
        Ok(ImageBytes {
            ctl,
            msg,
            log,
            file,
            key,
        })
    }

    /// Makes them those of data sets that have as many bytes.
    pub(crate) fn copy_from(&mut self, sets: &DataSets)
        requires { AreAsLong self.old sets.now }
        ensures bytes { AreBytesOf self.new sets.now }
        ensures sizes { (sizes : Sizes) → HaveSizes self.old sizes → HaveSizes self.new sizes }
    {
        copy_extent(&sets.ctl, &mut self.ctl);
        copy_messages(&sets.signals, &sets.messages, &mut self.msg);
        copy_slots(&sets.log, &mut self.log);
        copy_extent(&sets.file, &mut self.file);
        copy_slots(&sets.key, &mut self.key);
    }
}
