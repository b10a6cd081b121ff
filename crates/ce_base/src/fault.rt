// What a script's operation may throw.
use crate::{NoMemory, Text};
use std::alloc::{AllocError, AllocFailed};

/// A fault that an operation throws: an exception of the DOM and HTML Standards (Web IDL, sections
/// "Exceptions" and "DOMException"), or one that a body threw itself, with its text.
#[derive(Debug, Drop)]
pub enum Fault {
    /// A value isn't of the kind that is wanted.
    TypeError,
    /// A name or a value isn't there.
    ReferenceError,
    /// A text doesn't have the form that is wanted.
    SyntaxError,
    /// The operation isn't supported here.
    NotSupportedError,
    /// The operation would give an incorrect node tree.
    HierarchyRequestError,
    /// The object isn't found here.
    NotFoundError,
    /// A text has characters that it can't have.
    InvalidCharacterError,
    /// A body threw this text itself.
    UserThrow(Text),
}

/// Why a call refused.
#[derive(Debug, Drop)]
pub enum Refused {
    /// The operation throws. Nothing has changed.
    Fault(Fault),
    /// Memory was refused. The value is only dropped.
    NoMemory,
}

impl From<Fault> for Refused {
    ghost use Rattle.std.specs.Prelude.{◌≡◌};
    ghost use Rattle.ce_base.specs.declared.fault.Refused.TheVariants.{Fault as IsFault};

    ghost from_gives = { λ fault refused. refused ≡ IsFault fault };

    fn from(fault: Fault) -> Self {
        Refused::Fault(fault)
    }
}

impl From<NoMemory> for Refused {
    ghost use Rattle.std.specs.Prelude.{◌≡◌};
    ghost use Rattle.ce_base.specs.declared.fault.Refused.TheVariants.{NoMemory};

    ghost from_gives = { λ _ refused. refused ≡ NoMemory };

    fn from(_: NoMemory) -> Self {
        Refused::NoMemory
    }
}

impl From<AllocError> for Refused {
    ghost use Rattle.std.specs.Prelude.{◌≡◌};
    ghost use Rattle.ce_base.specs.declared.fault.Refused.TheVariants.{NoMemory};

    ghost from_gives = { λ _ refused. refused ≡ NoMemory };

    fn from(_: AllocError) -> Self {
        Refused::NoMemory
    }
}

impl<T: Drop> From<AllocFailed<T>> for Refused {
    ghost use Rattle.std.specs.Prelude.{◌≡◌};
    ghost use Rattle.ce_base.specs.declared.fault.Refused.TheVariants.{NoMemory};

    ghost from_gives = { λ _ refused. refused ≡ NoMemory };

    fn from(_: AllocFailed<T>) -> Self {
        Refused::NoMemory
    }
}
