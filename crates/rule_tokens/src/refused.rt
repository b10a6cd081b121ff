// Why a line is refused.
ghost use Rattle.std.specs.Prelude.{◌≡◌};
ghost use Rattle.rule_tokens.specs.declared.refused.LineRefused.TheVariants.{NoMemory as IsNoMemory};

use ce_base::NoMemory;
use std::alloc::{AllocError, AllocFailed};

/// What is wrong with a line. Of several faults it is the first in this order.
#[derive(Clone, Copy, Debug, PartialEq, Eq)]
pub enum Bad {
    /// The line has too many bytes.
    Long,
    /// It is not UTF-8.
    Utf8,
    /// A quoted token has no end, something other than a space follows its end, or a quote stands in a
    /// bare token.
    Quote,
    /// A backslash in a quoted token begins no escape.
    Escape,
    /// A control character or a bare backslash stands in the line, its first word is none of the forms,
    /// or an operand does not have its form.
    Word,
    /// An operand is missing, or one is left over.
    Arity,
    /// The form stands where it is not allowed.
    Place,
}

/// Why a line was not read.
#[derive(Drop)]
pub enum LineRefused {
    /// The line is refused for this.
    Bad(Bad),
    /// Memory was refused. It tells nothing of the line.
    NoMemory,
}

impl From<NoMemory> for LineRefused {
    ghost from_gives = { λ _ refused. refused ≡ IsNoMemory };

    fn from(_: NoMemory) -> Self {
        LineRefused::NoMemory
    }
}

impl From<AllocError> for LineRefused {
    ghost from_gives = { λ _ refused. refused ≡ IsNoMemory };

    fn from(_: AllocError) -> Self {
        LineRefused::NoMemory
    }
}

impl<T: Drop> From<AllocFailed<T>> for LineRefused {
    ghost from_gives = { λ _ refused. refused ≡ IsNoMemory };

    fn from(_: AllocFailed<T>) -> Self {
        LineRefused::NoMemory
    }
}
