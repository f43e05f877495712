// Where bytes go.
ghost use Rattle.std.specs.Prelude.{◌≡◌, ◌≤◌, ◌<◌, length, IfOk, OnOk, OnErr};
ghost use Rattle.std.specs.Io.KnownBytes.{Appends, WriteAppends};
ghost use Rattle.xrf_edge.specs.Ends.{End, AppendsPrefix};
ghost use Rattle.xrf_edge.specs.Faults.{HasRisen};

use crate::Failed;

/// A sink of bytes. It may tell the bytes that it holds, and it counts its faults.
pub trait Sink {
    /// The bytes that writes have appended, where the sink tells them, and how often it has failed.
    /// The count never falls, and stays at 2^64 - 1.
    ghost end: { Self → End };

    /// Appends the first bytes of the slice, and answers how many: at least one where there are
    /// any. Where it fails it appends nothing.
    fn write(&mut self, from: &[u8]) -> Result<usize, Failed>
        ensures within { IfOk result (λ n. n ≤ length from.now) }
        ensures goes_on { IfOk result (λ n. 0 < length from.now → 0 < n) }
        ensures bytes { WriteAppends (end self.old).bytes (end self.new).bytes result from.now }
        ensures cause { OnErr result (HasRisen (end self.old).faults (end self.new).faults) }
        ensures count { (end self.old).faults ≤ (end self.new).faults };
}

/// The sink failed before the whole text was written.
#[derive(Clone, Copy, Debug, PartialEq, Eq)]
pub struct WriteFault;

/// Writes a text whole. It takes no memory. Where the sink fails, the text is written up to there.
pub fn write_all<K: Sink>(sink: &mut K, text: &[u8]) -> Result<(), WriteFault>
    ensures ok { OnOk result (Appends (K.end sink.old).bytes (K.end sink.new).bytes text.now) }
    ensures err { OnErr result (AppendsPrefix (K.end sink.old).bytes (K.end sink.new).bytes text.now) }
    ensures cause { OnErr result (HasRisen (K.end sink.old).faults (K.end sink.new).faults) }
    ensures count { (K.end sink.old).faults ≤ (K.end sink.new).faults }
{
    let mut written = 0;
    while written < text.len() {
        match sink.write(&text[written..]) {
            Ok(n) => written += n,
            Err(Failed) => return Err(WriteFault),
        }
    }
    Ok(())
}
