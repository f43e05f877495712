//! The signal sectors: each site has one beside the control record and one before the message slots.

ghost use Rattle.std.specs.Prelude.{◌≡◌, ℕ, ◌+◌, ◌≤◌, ◌&&◌, length, Option, Some, None};
ghost use Rattle.xrf_base.specs.declared.site.Site.{Site};
ghost use Rattle.xrf_ctl.specs.Control.{ControlRecord};
ghost use Rattle.xrf_ctl.specs.Signal.{SignalRecord, SpellsSignal};
ghost use Rattle.xrf_devices.specs.Places.{sector1_place, sector2_place};
ghost use Rattle.xrf_devices.specs.Standing.{ControlIs, SectorIs, SectorsAre};
ghost use Rattle.xrf_gated.specs.Landing.{part};
ghost use Rattle.xrf_trace.specs.Devices.{signal_if, sector1_after, sector2_after};
ghost use Rattle.xrf_trace.specs.Landing.{lands};
ghost use Rattle.xrf_trace.specs.Words.{is_of};

use crate::landing::lands;
use xrf_base::Site;
use xrf_ctl::Signal;
use xrf_gated::Extent;
use xrf_trace::{Act, Land, Who};

// writes the sector at a place
fn write_sector(bytes: &mut Extent, place: usize, signal: &Signal)
    requires inside { place + 64 ≤ length bytes.old }
    ensures sector { SpellsSignal (part bytes.new place 64) signal.now }
    ensures before { (other n : ℕ) → other + n ≤ place → part bytes.new other n ≡ part bytes.old other n }
    ensures behind { (other n : ℕ) → place + 64 ≤ other → part bytes.new other n ≡ part bytes.old other n }
    ensures size { length bytes.new ≡ length bytes.old }
{
    bytes.land(place, &signal.write());
}

// the signal in the sector at a place
fn read_sector(bytes: &Extent, place: usize) -> Option<Signal>
    requires inside { place + 64 ≤ length bytes.now }
    ensures { (signal : Option SignalRecord) → SectorIs (part bytes.now place 64) signal → result ≡ signal }
{
    let mut sector = [0; 64];
    bytes.read(place, &mut sector);
    Signal::read(&sector)
}

fn write_signal1(ctl: &mut Extent, who: Who, signal: &Signal, land: &Land)
    requires size { length ctl.old ≡ 384 }
    ensures sectors { (before : Site → Option SignalRecord) → SectorsAre sector1_place ctl.old before
        → SectorsAre sector1_place ctl.new (λ x. signal_if (is_of who x && lands land.now) signal.now (before x)) }
    ensures control { part ctl.new 0 256 ≡ part ctl.old 0 256 }
    ensures size { length ctl.new ≡ 384 }
{
    if lands(land) {
        match who {
            Who::A => write_sector(ctl, 256, signal),
            Who::B => write_sector(ctl, 320, signal),
            Who::Env => {}
        }
    }
}

/// What an act of a site lands on its sector beside the control record.
pub(crate) fn land_signal1(ctl: &mut Extent, who: Who, act: &Act, land: &Land)
    requires size { length ctl.old ≡ 384 }
    ensures sectors { (before : Site → Option SignalRecord) → SectorsAre sector1_place ctl.old before
        → SectorsAre sector1_place ctl.new (λ x. sector1_after act.now (is_of who x && lands land.now) (before x)) }
    ensures control { part ctl.new 0 256 ≡ part ctl.old 0 256 }
    ensures size { length ctl.new ≡ 384 }
{
    if let Act::Signal1(signal) = act {
        write_signal1(ctl, who, signal, land);
    }
}

fn write_signal2(signals: &mut Extent, who: Who, signal: &Signal, land: &Land)
    requires size { length signals.old ≡ 128 }
    ensures sectors { (before : Site → Option SignalRecord) → SectorsAre sector2_place signals.old before
        → SectorsAre sector2_place signals.new (λ x. signal_if (is_of who x && lands land.now) signal.now (before x)) }
    ensures size { length signals.new ≡ 128 }
{
    if lands(land) {
        match who {
            Who::A => write_sector(signals, 0, signal),
            Who::B => write_sector(signals, 64, signal),
            Who::Env => {}
        }
    }
}

/// What it lands on its sector before the message slots.
pub(crate) fn land_signal2(signals: &mut Extent, who: Who, act: &Act, land: &Land)
    requires size { length signals.old ≡ 128 }
    ensures sectors { (before : Site → Option SignalRecord) → SectorsAre sector2_place signals.old before
        → SectorsAre sector2_place signals.new (λ x. sector2_after act.now (is_of who x && lands land.now) (before x)) }
    ensures size { length signals.new ≡ 128 }
{
    if let Act::Signal2(signal) = act {
        write_signal2(signals, who, signal, land);
    }
}

/// The signal of a site beside the control record, where it has given one.
pub(crate) fn read_signal1(ctl: &Extent, site: Site) -> Option<Signal>
    requires size { length ctl.now ≡ 384 }
    ensures { (signal : Site → Option SignalRecord) → SectorsAre sector1_place ctl.now signal → result ≡ signal site }
{
    match site {
        Site::A => read_sector(ctl, 256),
        Site::B => read_sector(ctl, 320),
    }
}

/// The signal of a site before the message slots, where it has given one.
pub(crate) fn read_signal2(signals: &Extent, site: Site) -> Option<Signal>
    requires size { length signals.now ≡ 128 }
    ensures { (signal : Site → Option SignalRecord) → SectorsAre sector2_place signals.now signal → result ≡ signal site }
{
    match site {
        Site::A => read_sector(signals, 0),
        Site::B => read_sector(signals, 64),
    }
}
