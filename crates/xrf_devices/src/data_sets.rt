//! The data sets.

ghost use Rattle.std.specs.Prelude.{◌≡◌, ◌*◌, ◌+◌, ◌%◌, ◌<◌, ◌≤◌, ℕ, List, [], ◌∷◌, ◌++◌, IfOk};
ghost use Rattle.xrf_devices.specs.Standing.{StandsFor};
ghost use Rattle.xrf_devices.specs.Writing.{MayLand};
ghost use Rattle.xrf_gated.specs.Slots.{bytes_of};
ghost use Rattle.xrf_trace.specs.Devices as trace;
ghost use Rattle.xrf_trace.specs.Scenario.{Scen};
ghost use Rattle.xrf_trace.specs.declared.entry.Entry.{Entry};

use crate::control::{first_ctl, land_control, read_control};
use crate::file::{first_file, land_file, read_record};
use crate::keys::land_key;
use crate::log::{land_log, place_of};
use crate::messages::land_message;
use crate::signals::{land_signal1, land_signal2, read_signal1, read_signal2};
use std::alloc::{AllocError, Global};
use xrf_base::Site;
use xrf_ctl::{Control, Signal};
use xrf_gated::{Extent, Slots};
use xrf_logrec::{KeyBody, LogBody};
use xrf_msg::MsgBody;
use xrf_setup::Scenario;
use xrf_trace::{Act, Entry};

/// The data sets of the pair, as bytes.
#[derive(Drop)]
pub struct DataSets {
    /// DFHXRCTL, 384 bytes: the control record, and the signal sectors of A at 256 and of B at 320.
    pub ctl: Extent,
    /// The first 128 bytes of DFHXRMSG: the signal sectors of A and of B.
    pub signals: Extent,
    /// The other bytes of DFHXRMSG: RING slots of messages.
    pub messages: Slots<MsgBody>,
    /// LOG slots of log records.
    pub log: Slots<LogBody>,
    /// The file: 32 bytes for each record, from record number 1 on.
    pub file: Extent,
    /// KEY: two slots of keypoints.
    pub key: Slots<KeyBody>,
}

// one slot behind the other
fn joined(first: &[u8; 64], second: &[u8; 64]) -> [u8; 128]
    ensures { result ≡ first.now ++ second.now }
{
    let mut both = [0; 128];
    both[64..].copy_from_slice(second);
    both[..64].copy_from_slice(first);
    both
}

impl DataSets {
    /// The data sets of a scenario before the first choice. They take all their memory here.
    pub fn new(alloc: Global, scenario: &Scenario) -> Result<DataSets, AllocError>
        ensures { IfOk result (λ d. StandsFor d scenario.now []) }
    {
        let ctl = first_ctl(alloc)?;
        let signals = Extent::new(alloc, 128)?;
        let messages = Slots::new(alloc, scenario.ring() as usize)?;
        let log = Slots::new(alloc, scenario.log() as usize)?;
        let file = first_file(alloc, scenario.file(), scenario.records())?;
        let key = Slots::new(alloc, 2)?;
        Ok(DataSets {
            ctl,
            signals,
            messages,
            log,
            file,
            key,
        })
    }

    /// Lands what an entry lands: nothing for an act that is no write, and for a write what its landing says.
    pub fn land(&mut self, scenario: &Scenario, entry: &Entry)
        requires { (t : List Entry) × StandsFor self.old scenario.now t × MayLand scenario.now t entry.now.act entry.now.land }
        ensures { (t : List Entry) → StandsFor self.old scenario.now t → StandsFor self.new scenario.now (entry.now ∷ t) }
    {
        let act = &entry.act;
        let land = &entry.land;
        match act {
            Act::CtlWrite(_) => land_control(&mut self.ctl, act, land),
            Act::Signal1(_) => land_signal1(&mut self.ctl, entry.who, act, land),
            Act::Signal2(_) => land_signal2(&mut self.signals, entry.who, act, land),
            Act::MsgClose(..) | Act::MsgBody(..) | Act::MsgOpen(..) => {
                land_message(&mut self.messages, act, land);
            }
            Act::LogClose(..) | Act::LogBody(..) | Act::LogOpen(..) => {
                land_log(&mut self.log, scenario.log(), act, land);
            }
            Act::KpClose(..) | Act::KpBody(..) | Act::KpOpen(..) => {
                land_key(&mut self.key, act, land);
            }
            Act::FileWrite(..) | Act::Undo(..) => {
                land_file(&mut self.file, scenario.file(), act, land);
            }
            _ => {}
        }
    }

    /// The control record.
    pub fn control(&self) -> Control
        requires { (s : Scen) × (t : List Entry) × StandsFor self.now s t }
        ensures { (s : Scen) (t : List Entry) → StandsFor self.now s t → result ≡ trace.control t }
    {
        read_control(&self.ctl)
    }

    /// The signal of a site in DFHXRCTL, where it has given one.
    pub fn signal1(&self, site: Site) -> Option<Signal>
        requires { (s : Scen) × (t : List Entry) × StandsFor self.now s t }
        ensures { (s : Scen) (t : List Entry) → StandsFor self.now s t → result ≡ trace.sector1 t site }
    {
        read_signal1(&self.ctl, site)
    }

    /// The signal of a site in DFHXRMSG, where it has given one.
    pub fn signal2(&self, site: Site) -> Option<Signal>
        requires { (s : Scen) × (t : List Entry) × StandsFor self.now s t }
        ensures { (s : Scen) (t : List Entry) → StandsFor self.now s t → result ≡ trace.sector2 t site }
    {
        read_signal2(&self.signals, site)
    }

    /// The 64 bytes of a message slot, from 0 and below RING.
    pub fn message_slot(&self, k: u32) -> [u8; 64]
        requires { (s : Scen) × (t : List Entry) × StandsFor self.now s t × (k < s.settings.ring) }
        ensures { (s : Scen) (t : List Entry) → StandsFor self.now s t → result ≡ bytes_of (trace.message_slot t k) }
    {
        self.messages.slot(k as usize)
    }

    /// A block of the log, 64 slots, copied.
    pub fn log_block(&self, block: u32, into: &mut [u8; 4096])
        requires { (s : Scen) × (t : List Entry) × StandsFor self.now s t × (64 * block + 64 ≤ s.settings.log) }
        ensures { (s : Scen) (t : List Entry) → StandsFor self.now s t → into.new ≡ trace.log_block s t block }
    {
        self.log.block(block as usize, into);
    }

    /// The gate of the slot of a log record.
    pub fn log_gate(&self, scenario: &Scenario, number: u32) -> u8
        requires { (t : List Entry) × StandsFor self.now scenario.now t }
        ensures { (t : List Entry) → StandsFor self.now scenario.now t
            → result ≡ (trace.log_slot scenario.now t (number % scenario.now.settings.log)).gate }
    {
        self.log.gate(place_of(number, scenario.log()))
    }

    /// The gate of a keypoint slot, 0 or 1.
    pub fn key_gate(&self, k: u8) -> u8
        requires { (s : Scen) × (t : List Entry) × StandsFor self.now s t × (k < 2) }
        ensures { (s : Scen) (t : List Entry) → StandsFor self.now s t → result ≡ (trace.key_slot t k).gate }
    {
        self.key.gate(k as usize)
    }

    /// Both keypoint slots.
    pub fn key_slots(&self) -> [u8; 128]
        requires { (s : Scen) × (t : List Entry) × StandsFor self.now s t }
        ensures { (s : Scen) (t : List Entry) → StandsFor self.now s t → result ≡ trace.key_slots t }
    {
        joined(&self.key.slot(0), &self.key.slot(1))
    }

    /// The slot of a file record, from 1 to FILE.
    pub fn file_slot(&self, scenario: &Scenario, k: u16) -> [u8; 32]
        requires { (t : List Entry) × StandsFor self.now scenario.now t × (1 ≤ k) × (k ≤ scenario.now.settings.file) }
        ensures { (t : List Entry) → StandsFor self.now scenario.now t → result ≡ trace.image scenario.now t k }
    {
        read_record(&self.file, scenario.file(), k)
    }
}
