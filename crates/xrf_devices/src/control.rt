//! The control record, at the head of DFHXRCTL.

ghost use Rattle.std.specs.Prelude.{◌≡◌, ℕ, length, Option, None, IfOk};
ghost use Rattle.xrf_base.specs.declared.site.Site.{Site};
ghost use Rattle.xrf_ctl.specs.Control.{ControlRecord, empty};
ghost use Rattle.xrf_ctl.specs.Signal.{SignalRecord};
ghost use Rattle.xrf_devices.specs.Places.{sector1_place};
ghost use Rattle.xrf_devices.specs.Standing.{ControlIs, SectorsAre};
ghost use Rattle.xrf_trace.specs.Devices.{control_after};

use crate::landing::lands;
use std::alloc::{AllocError, Global};
use xrf_ctl::Control;
use xrf_gated::Extent;
use xrf_trace::{Act, Land};

/// DFHXRCTL before the first sign-on.
pub(crate) fn first_ctl(alloc: Global) -> Result<Extent, AllocError>
    ensures size { IfOk result (λ ctl. length ctl ≡ 384) }
    ensures control { IfOk result (λ ctl. ControlIs ctl empty) }
    ensures sectors { IfOk result (λ ctl. SectorsAre sector1_place ctl (λ x. None)) }
{
    let mut ctl = Extent::new(alloc, 384)?;
    write_control(&mut ctl, &Control::empty());
    Ok(ctl)
}

fn write_control(ctl: &mut Extent, control: &Control)
    requires size { length ctl.old ≡ 384 }
    ensures control { ControlIs ctl.new control.now }
    ensures sectors { (signal : Site → Option SignalRecord) → SectorsAre sector1_place ctl.old signal → SectorsAre sector1_place ctl.new signal }
    ensures size { length ctl.new ≡ 384 }
{
    ctl.land(0, &control.write());
}

/// What an act lands on the control record.
pub(crate) fn land_control(ctl: &mut Extent, act: &Act, land: &Land)
    requires size { length ctl.old ≡ 384 }
    ensures control { (r : ControlRecord) → ControlIs ctl.old r → ControlIs ctl.new (control_after act.now land.now r) }
    ensures sectors { (signal : Site → Option SignalRecord) → SectorsAre sector1_place ctl.old signal → SectorsAre sector1_place ctl.new signal }
    ensures size { length ctl.new ≡ 384 }
{
    if let Act::CtlWrite(control) = act {
        if lands(land) {
            write_control(ctl, control);
        }
    }
}

/// The control record.
pub(crate) fn read_control(ctl: &Extent) -> Control
    requires size { length ctl.now ≡ 384 }
    ensures { (r : ControlRecord) → ControlIs ctl.now r → result ≡ r }
{
    let mut bytes = [0; 256];
    ctl.read(0, &mut bytes);
    // the bytes that stand for a trace are those of its record
    Control::read(&bytes).unwrap_or(Control::empty())
}
