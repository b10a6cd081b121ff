// How a run ended.
ghost use Rattle.std.specs.Prelude.{◌≡◌};
ghost use Rattle.script_runner.specs.Table.{number_of, status_of, status_at};

use crate::Session;
use ce_base::Stop;
use ce_machine::End;

/// How a run ended.
#[derive(Clone, Copy, Debug, PartialEq, Eq)]
pub enum Status {
    /// The whole script was run, and no line was refused.
    Done,
    /// The whole script was run, and some line was refused.
    BadLines,
    /// The words were refused, and nothing was run.
    Usage,
    /// The session ended where its fuel was spent.
    Fuel,
    /// A read failed.
    ReadFault,
    /// A write failed.
    WriteFault,
    /// Memory was refused.
    NoMemory,
    /// The script is longer than it may be.
    TooLong,
}

impl Status {
    /// The exit status of the program.
    pub fn number(self) -> u8
        ensures { result ≡ number_of self }
    {
        match self {
            Status::Done => 0,
            Status::BadLines => 1,
            Status::Usage => 2,
            Status::Fuel => 3,
            Status::ReadFault => 4,
            Status::WriteFault => 5,
            Status::NoMemory => 6,
            Status::TooLong => 7,
        }
    }

    // The status at the end of the script.
    pub(crate) fn at_end(session: Session, end: End) -> Status
        ensures { result ≡ status_at end session.bad }
    {
        let bad = session.is_bad();
        session.close();
        match end {
            End::FuelSpent => Status::Fuel,
            End::Replied if bad => Status::BadLines,
            End::Replied => Status::Done,
        }
    }

    /// The status of a run that ended or stopped.
    pub fn of(outcome: Result<Status, Stop>) -> Status
        ensures { result ≡ status_of outcome }
    {
        match outcome {
            Ok(status) => status,
            Err(Stop::NoMemory) => Status::NoMemory,
            Err(Stop::WriteFault) => Status::WriteFault,
        }
    }
}
