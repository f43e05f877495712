//! The decisions of a region that stands by, that waits, and that owns.

ghost use Rattle.std.specs.Prelude.{◌≡◌, ◌≤◌};
ghost use Rattle.xrf_cavm.specs.Decisions.{is_auto, is_manual, starts_itself, misses_owner, is_of_epoch, decide, decide_waiting, decide_active};

use crate::known::Known;
use crate::record::{inc_of_alt, is_alt, owner_is, owner_may_run};
use crate::watch::Watch;
use xrf_base::{Inc, Takeovr, Tick};
use xrf_ctl::{Cause, Control, OwnerState};

/// What an alternate that tracks the owner goes by, beside the control record and its watch.
#[derive(Clone, Copy, Debug, PartialEq, Eq)]
pub struct Mode {
    pub takeovr: Takeovr,
    /// After how many ticks without a change the owner's signal is lost.
    pub adi: u32,
    /// The owner's signal is watched.
    pub surveillance: bool,
    /// A takeover was commanded.
    pub commanded: bool,
    /// The shutdown of the alternate was commanded.
    pub shutdown: bool,
    /// The operator was asked, and has not said to go on waiting.
    pub asked: bool,
    /// The operator said go.
    pub go: bool,
}

/// Why an alternate leaves.
#[derive(Clone, Copy, Debug, PartialEq, Eq)]
pub enum Why {
    /// It was commanded.
    Shutdown,
    /// The control record does not name it any more.
    Dropped,
    /// The owner signed off normally.
    Normal,
}

/// The decision of an alternate that tracks the owner.
#[derive(Clone, Copy, Debug, PartialEq, Eq)]
pub enum Decision {
    Nothing,
    Ask,
    Start(Cause),
    Leave(Why),
}

/// The decision of an alternate that has started its takeover.
#[derive(Clone, Copy, Debug, PartialEq, Eq)]
pub enum Waiting {
    Wait,
    Through,
}

/// The decision of an owner.
#[derive(Clone, Copy, Debug, PartialEq, Eq)]
pub enum Acting {
    Nothing,
    /// A takeover was started.
    Seen,
    /// This new alternate is to be told the terminals.
    CatchUp(Inc),
    /// The alternate is gone.
    Forget,
    /// The alternate's signal is lost.
    Lost,
}

/// The decision of any region.
#[derive(Clone, Copy, Debug, PartialEq, Eq)]
pub enum Decided {
    Alternate(Decision),
    Waiting(Waiting),
    Owner(Acting),
}

fn starts_itself(takeovr: Takeovr) -> bool
    ensures { result ≡ starts_itself takeovr }
{
    takeovr != Takeovr::Command
}

// What the owner's end asks for, where it has ended.
fn misses_owner(watch: &Watch, control: &Control, mode: Mode, now: Tick) -> bool
    requires { watch.now.change ≤ now }
    ensures { result ≡ misses_owner watch.now.change control.now mode now }
{
    owner_is(control, OwnerState::Running) && mode.surveillance && watch.is_lost(mode.adi, now)
}

/// What the alternate `me` does, by the control record that it read last: the first of its rules
/// that applies.
pub fn decide(watch: &Watch, control: &Control, me: Inc, mode: Mode, now: Tick) -> Decision
    requires { watch.now.change ≤ now }
    ensures { result ≡ decide watch.now.change control.now me mode now }
{
    if mode.shutdown {
        return Decision::Leave(Why::Shutdown);
    }
    if !is_alt(control, me) {
        return Decision::Leave(Why::Dropped);
    }
    if owner_is(control, OwnerState::OffNormal) {
        return Decision::Leave(Why::Normal);
    }
    if mode.commanded {
        return Decision::Start(Cause::Command);
    }
    if owner_is(control, OwnerState::OffAbend) && starts_itself(mode.takeovr) {
        return Decision::Start(Cause::Abend);
    }
    if owner_is(control, OwnerState::OffTakeover) && starts_itself(mode.takeovr) {
        return Decision::Start(Cause::Shutdown);
    }
    if !misses_owner(watch, control, mode, now) {
        return Decision::Nothing;
    }
    match mode.takeovr {
        Takeovr::Auto => Decision::Start(Cause::Lost),
        Takeovr::Manual if mode.go => Decision::Start(Cause::Lost),
        Takeovr::Manual if !mode.asked => Decision::Ask,
        _ => Decision::Nothing,
    }
}

/// What an alternate does that has started its takeover.
pub fn decide_waiting(control: &Control, known: Known) -> Waiting
    ensures { result ≡ decide_waiting control.now known }
{
    if owner_may_run(control, known) {
        Waiting::Wait
    } else {
        Waiting::Through
    }
}

fn is_of_epoch(control: &Control, epoch: Option<Inc>) -> bool
    ensures { result ≡ is_of_epoch control.now epoch }
{
    match epoch {
        None => false,
        Some(inc) => is_alt(control, inc),
    }
}

/// What an owner does that writes the messages of an epoch, or of none: the first of its rules that
/// applies.
pub fn decide_active(
    watch: &Watch,
    control: &Control,
    epoch: Option<Inc>,
    pdi: u32,
    now: Tick,
) -> Acting
    requires { watch.now.change ≤ now }
    ensures { result ≡ decide_active watch.now.change control.now epoch pdi now }
{
    if control.taking().is_some() {
        return Acting::Seen;
    }
    let is_of_epoch = is_of_epoch(control, epoch);
    if control.alt().is_some() && !is_of_epoch {
        return Acting::CatchUp(inc_of_alt(control));
    }
    if control.alt().is_none() && epoch.is_some() {
        return Acting::Forget;
    }
    if is_of_epoch && watch.is_lost(pdi, now) {
        return Acting::Lost;
    }
    Acting::Nothing
}
