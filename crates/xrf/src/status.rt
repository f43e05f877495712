//! The program's status.

ghost use Rattle.std.specs.Prelude.{◌≡◌};

/// How a call of the program ended.
#[derive(Clone, Copy, Debug, PartialEq, Eq)]
pub enum Status {
    /// The document was written.
    Done,
    /// The input is refused, and the refusal was written.
    Refused,
    /// The words are none that the program knows, and the usage was written.
    Usage,
    /// The source failed.
    ReadFault,
    /// The sink failed.
    WriteFault,
    /// Memory ran out before anything was written.
    NoMemory,
}

impl Status {
    ghost use Rattle.xrf.specs.Status.{code_of};

    /// The number with which the process ends.
    pub fn code(self) -> u8
        ensures { result ≡ code_of self }
    {
        match self {
            Status::Done => 0,
            Status::Refused => 8,
            Status::Usage => 12,
            Status::ReadFault => 16,
            Status::WriteFault => 20,
            Status::NoMemory => 24,
        }
    }
}
