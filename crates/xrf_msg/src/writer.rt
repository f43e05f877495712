ghost use Rattle.std.specs.Prelude.{◌≡◌, ◌↔◌, ◌+◌, ◌-◌, ◌<◌, ◌≤◌, IsTrue};
ghost use Rattle.xrf_msg.specs.Numbers.{cursor_after};

use xrf_base::Inc;
use xrf_ctl::Signal;

/// The numbers of an active that writes messages: the epoch, how many messages of it were sent, and
/// how many of them the alternate is known to have taken.
#[derive(Clone, Copy)]
pub struct Writer {
    pub epoch: Inc,
    pub seq: u32,
    pub cursor: u32,
    pub ghost behind: { cursor ≤ seq },
}

impl Writer {
    /// Whether the next message finds a slot whose message was taken, in a ring of so many slots.
    pub fn may_write(&self, ring: u8) -> bool
        ensures { IsTrue result ↔ (self.now.seq - self.now.cursor < ring) }
    {
        self.seq - self.cursor < u32::from(ring)
    }

    /// Counts a message that was sent.
    pub fn wrote(&mut self)
        requires { self.old.seq < 4294967295 }
        ensures seq { self.new.seq ≡ self.old.seq + 1 }
        ensures epoch { self.new.epoch ≡ self.old.epoch }
        ensures cursor { self.new.cursor ≡ self.old.cursor }
    {
        self.seq += 1;
    }

    /// Takes the cursor of a signal of the alternate, where it is of this epoch, greater than the one
    /// known, and not above what was sent.
    pub fn heard(&mut self, signal: &Signal)
        ensures cursor { self.new.cursor ≡ cursor_after self.old.epoch self.old.seq self.old.cursor signal.now }
        ensures epoch { self.new.epoch ≡ self.old.epoch }
        ensures seq { self.new.seq ≡ self.old.seq }
    {
        if signal.inc == self.epoch && signal.cursor <= self.seq {
            self.cursor = self.cursor.max(signal.cursor);
        }
    }
}
