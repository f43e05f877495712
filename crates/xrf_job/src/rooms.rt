//! The memory that a job works in.

ghost use Rattle.std.specs.Prelude.{◌≡◌, [], IfOk};
ghost use Rattle.xrf_base.specs.Ranges.{AreLimits};
ghost use Rattle.xrf_log.specs.Scan.{cleared};
ghost use Rattle.xrf_file.specs.Ledger.{started};
ghost use Rattle.xrf_job.specs.Rooms.{AreFor};

use std::alloc::{AllocError, Global};
use xrf_base::Limits;
use xrf_file::Units;
use xrf_log::Scan;
use xrf_terms::TermTable;

/// The units, the scan and the terminal table of a site. Only their making takes memory.
#[derive(Drop)]
pub struct Rooms {
    pub units: Units,
    pub scan: Scan,
    pub table: TermTable,
}

impl Rooms {
    /// Empty ones, for data sets of these sizes.
    pub fn new(alloc: Global, limits: &Limits) -> Result<Rooms, AllocError>
        requires { AreLimits limits.now }
        ensures { IfOk result (λ rooms. AreFor rooms limits.now) }
    {
        let units = Units::new(alloc, limits)?;
        let scan = Scan::new(alloc, limits)?;
        let table = TermTable::new(alloc)?;
        Ok(Rooms { units, scan, table })
    }

    /// Empties them.
    pub fn clear(&mut self)
        ensures units { self.new.units ≡ started self.old.units 0 0 0 }
        ensures scan { self.new.scan ≡ cleared self.old.scan.slots }
        ensures table { self.new.table ≡ [] }
    {
        self.units.start(0, 0, 0);
        self.scan.clear();
        self.table.clear();
    }
}
