// How a check ended.
ghost use Rattle.std.specs.Prelude.{◌≡◌};
ghost use Rattle.trace_check.specs.Table.{number_of, status_of};

use crate::Verdict;
use ce_base::Stop;

/// How a check ended.
#[derive(Clone, Copy, Debug, PartialEq, Eq)]
pub enum CheckStatus {
    /// The trace was read whole, and its lines are those of a lawful log.
    Lawful,
    /// The trace was read whole, and its lines are those of no lawful log.
    Unlawful,
    /// There were words, and nothing was read.
    Usage,
    /// A read failed.
    ReadFault,
    /// A write failed.
    WriteFault,
    /// Memory was refused.
    NoMemory,
    /// The trace is longer than it may be.
    TooLong,
}

impl CheckStatus {
    /// The exit status of the program.
    pub fn number(self) -> u8
        ensures { result ≡ number_of self }
    {
        match self {
            CheckStatus::Lawful => 0,
            CheckStatus::Unlawful => 1,
            CheckStatus::Usage => 2,
            CheckStatus::ReadFault => 4,
            CheckStatus::WriteFault => 5,
            CheckStatus::NoMemory => 6,
            CheckStatus::TooLong => 7,
        }
    }

    /// The status of a verdict that was told, or of what stopped it.
    pub(crate) fn of(outcome: Result<Verdict, Stop>) -> CheckStatus
        ensures { result ≡ status_of outcome }
    {
        match outcome {
            Ok(Verdict::Yes(_)) => CheckStatus::Lawful,
            Ok(Verdict::No(_)) => CheckStatus::Unlawful,
            Err(Stop::WriteFault) => CheckStatus::WriteFault,
            Err(Stop::NoMemory) => CheckStatus::NoMemory,
        }
    }
}
