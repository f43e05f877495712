// Faults, and the schedule of those of an end in memory.
ghost use Rattle.std.specs.Prelude.{◌≡◌, ◌≤◌, ◌↔◌, IsTrue};
ghost use Rattle.xrf_edge.specs.Faults.{NextFails, after_call, after_fault};

use std::marker::Model;

/// A call of a source or a sink failed, and did nothing.
#[derive(Clone, Copy, Debug, PartialEq, Eq)]
pub struct Failed;

/// Which calls fail, by their numbers from 1, how many were counted, and how many failed.
#[derive(Drop)]
pub(crate) struct FaultSchedule {
    fails: Vec<u32>,
    calls: u32,
    faults: u64,
}

impl Model for FaultSchedule {
    ghost use Rattle.xrf_edge.specs.Faults.{Schedule};

    ghost Value = { Schedule };

    ghost view = { λ p. record { fails = p.fails.items; calls = p.calls; faults = p.faults } };
}

impl FaultSchedule {
    pub(crate) fn new(fails: Vec<u32>) -> Self
        ensures { result ≡ record { fails = fails.items; calls = 0; faults = 0 } }
    {
        FaultSchedule {
            fails,
            calls: 0,
            faults: 0,
        }
    }

    /// Counts a call, and says whether it is to fail.
    pub(crate) fn call(&mut self) -> bool
        ensures fails { IsTrue result ↔ NextFails self.old }
        ensures counted { self.new ≡ after_call self.old }
    {
        if self.calls == u32::MAX {
            return false;
        }
        self.calls += 1;
        self.fails.contains(&self.calls)
    }

    /// Counts a fault.
    pub(crate) fn fail(&mut self)
        ensures counted { self.new ≡ after_fault self.old }
        ensures count { self.old.faults ≤ self.new.faults }
    {
        self.faults = self.faults.saturating_add(1);
    }
}
