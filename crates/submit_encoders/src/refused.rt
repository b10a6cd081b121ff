// Why a body is not written.
use ce_base::NoMemory;
use thiserror::Error;

/// Why no multipart body was written.
#[derive(Debug, Drop, Error)]
pub enum PartRefused {
    /// The boundary stands in a name or a value of the list.
    #[error("the boundary occurs in an entry")]
    Occurs,
    /// Memory was refused.
    #[error("out of memory")]
    NoMemory,
}

impl From<NoMemory> for PartRefused {
    ghost use Rattle.std.specs.Prelude.{◌≡◌};
    ghost use Rattle.submit_encoders.specs.declared.refused.PartRefused.TheVariants.{NoMemory as IsNoMemory};

    ghost from_gives = { λ _ refused. refused ≡ IsNoMemory };

    fn from(_: NoMemory) -> Self {
        PartRefused::NoMemory
    }
}
