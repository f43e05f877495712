//! The restart of an owner: the scan of the log, what is undone, and RESTARTED.

ghost use Rattle.std.specs.Prelude.{◌≡◌, ℕ, ◌<◌, ◌∷◌, List, Some, None, true, false, length};
ghost use Rattle.xrf_log.specs.Scan.{anchor_of};
ghost use Rattle.xrf_history.specs.Events.{Event, FirstBlockRead, BlockRead, RecordUndone, RestartDeclared};
ghost use Rattle.xrf_history.specs.Holding.{is_restarted};
ghost use Rattle.xrf_history.specs.Taking.{is_draining};
ghost use Rattle.xrf_history.specs.Restarting.{scan};
ghost use Rattle.xrf_active.specs.Standing.{Stands};

use crate::active::Active;
use xrf_job::Stage;
use xrf_log::ScanNext;
use xrf_logrec::{Keypoint, Undo};

impl Active {
    /// It read the first block of the log, beside both keypoint slots.
    #[tactic(auto, using(crate::proofs::Backouts::filter_none))]
    pub(crate) fn first_block_read(&mut self, block: &[u8; 4096], keys: &[u8; 128])
        requires { self.old.rooms.scan.ended ≡ false }
        ensures settings { self.new.settings ≡ self.old.settings }
        ensures stands { (h : List Event) → Stands self.old h → (anchor_of keys.now).number < 16384 → (anchor_of keys.now).start < 16384 → Stands self.new (FirstBlockRead block.now keys.now ∷ h) }
    {
        let scan = &mut self.rooms.scan;
        scan.anchors(keys);
        self.keypoint = Keypoint {
            number: scan.keypoint(),
            start: scan.start(),
        };
        self.has_scanned = match scan.take(block) {
            ScanNext::More => false,
            ScanNext::End => true,
        };
        self.undone = 0;
        self.common.stage = Stage::Boundary;
    }

    /// It read a further block of the log.
    #[tactic(auto, using(crate::proofs::Backouts::filter_none))]
    pub(crate) fn block_read(&mut self, block: &[u8; 4096])
        requires { self.old.rooms.scan.ended ≡ false }
        ensures settings { self.new.settings ≡ self.old.settings }
        ensures stands { (h : List Event) → Stands self.old h → Stands self.new (BlockRead block.now ∷ h) }
    {
        self.has_scanned = match self.rooms.scan.take(block) {
            ScanNext::More => false,
            ScanNext::End => true,
        };
        self.undone = 0;
        self.common.stage = Stage::Boundary;
    }

    /// It wrote an undo row of the restart back.
    #[tactic(auto, using(xrf_job::proofs::Counts::counts))]
    pub(crate) fn undo_made(&mut self, undo: &Undo)
        requires { (h : List Event) × Stands self.old h × (length h < 16385) }
        ensures settings { self.new.settings ≡ self.old.settings }
        ensures stands { (h : List Event) → Stands self.old h → is_restarted h ≡ false → Stands self.new (RecordUndone undo.now.rrn undo.now.before ∷ h) }
    {
        self.undone += 1;
        self.rolled += 1;
        self.common.stage = Stage::Boundary;
    }

    /// It declared that the restart is done.
    #[tactic(auto, using(xrf_job::proofs::Counts::counts, crate::proofs::Small::small_numbers))]
    pub(crate) fn restart_declared(&mut self)
        requires { (h : List Event) × Stands self.old h × (length h < 16385) × (is_restarted h ≡ false) }
        ensures settings { self.new.settings ≡ self.old.settings }
        ensures stands { (h : List Event) → Stands self.old h → is_restarted h ≡ false → (scan self.old.settings h).ended ≡ true → is_draining h ≡ false → Stands self.new (RestartDeclared ∷ h) }
    {
        let next = self.rooms.scan.next() + self.opened;
        self.rooms
            .units
            .start(self.common.inc, next, self.keypoint.start);
        self.rooms.table.settle(self.settings.force);
        self.has_restarted = true;
        self.common.stage = Stage::Boundary;
    }
}
