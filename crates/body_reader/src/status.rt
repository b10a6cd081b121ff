// How a run ended.
ghost use Rattle.std.specs.Prelude.{◌≡◌};
ghost use Rattle.body_reader.specs.Table.{number_of, status_after};

use ce_base::Stop;

/// How a run ended.
#[derive(Clone, Copy, Debug, PartialEq, Eq)]
pub enum ReadStatus {
    /// The bytes are a body, and its entries were written.
    Done,
    /// The bytes are no body, and that was written.
    Refused,
    /// The words were refused, and nothing was read.
    Usage,
    /// A read failed.
    ReadFault,
    /// A write failed.
    WriteFault,
    /// Memory was refused.
    NoMemory,
    /// There are more bytes than a body may have.
    TooLong,
}

impl ReadStatus {
    /// The exit status of the program.
    pub fn number(self) -> u8
        ensures { result ≡ number_of self }
    {
        match self {
            ReadStatus::Done => 0,
            ReadStatus::Refused => 1,
            ReadStatus::Usage => 2,
            ReadStatus::ReadFault => 4,
            ReadStatus::WriteFault => 5,
            ReadStatus::NoMemory => 6,
            ReadStatus::TooLong => 7,
        }
    }

    // This status where what was to be written was written whole, else why it was not.
    pub(crate) fn after(self, end: Result<(), Stop>) -> ReadStatus
        ensures { result ≡ status_after end self }
    {
        match end {
            Ok(()) => self,
            Err(Stop::NoMemory) => ReadStatus::NoMemory,
            Err(Stop::WriteFault) => ReadStatus::WriteFault,
        }
    }
}
