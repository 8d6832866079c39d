//! How a run of the program ends.
ghost use Rattle.std.specs.Prelude.{◌≡◌};
ghost use Rattle.educe_core_devices.specs.Status.{code_of};

use educe_tokens::EduceError;

/// The answer of a run.
#[derive(Drop)]
pub enum Status {
    /// The input was read to its end, and the whole text was written.
    Done,
    /// The input is rejected. The kind of the error is never `Alloc`.
    Refused(EduceError),
    /// The words are no known command.
    Usage,
    /// The source failed.
    ReadFault,
    /// The sink or the notes failed.
    WriteFault,
    /// The input is longer than `SOURCE_LIMIT`.
    TooLong,
    /// The input is not UTF-8.
    NotUtf8,
    /// Memory did not suffice.
    NoMemory,
}

impl Status {
    /// The exit status of the program.
    pub fn code(&self) -> u8
        ensures { result ≡ code_of self.now }
    {
        match self {
            Status::Done => 0,
            Status::Refused(_) => 1,
            Status::Usage => 2,
            Status::ReadFault => 3,
            Status::WriteFault => 4,
            Status::TooLong => 5,
            Status::NotUtf8 => 6,
            Status::NoMemory => 7,
        }
    }
}
