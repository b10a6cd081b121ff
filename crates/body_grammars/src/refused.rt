// Why no list was read.
ghost use Rattle.std.specs.Prelude.{◌≡◌};
ghost use Rattle.body_grammars.specs.declared.refused.BodyRefused.TheVariants.{NoMemory as IsNoMemory};

use ce_base::NoMemory;
use std::alloc::AllocFailed;
use thiserror::Error;

/// Why no entry list was read.
#[derive(Clone, Copy, Debug, PartialEq, Eq, Error)]
pub enum BodyRefused {
    /// The bytes are no body of the type.
    #[error("not a body of this type")]
    NotABody,
    /// Memory was refused. It tells nothing of the bytes.
    #[error("out of memory")]
    NoMemory,
}

impl From<NoMemory> for BodyRefused {
    ghost from_gives = { λ _ refused. refused ≡ IsNoMemory };

    fn from(_: NoMemory) -> Self {
        BodyRefused::NoMemory
    }
}

impl<T: Drop> From<AllocFailed<T>> for BodyRefused {
    ghost from_gives = { λ _ refused. refused ≡ IsNoMemory };

    fn from(_: AllocFailed<T>) -> Self {
        BodyRefused::NoMemory
    }
}
