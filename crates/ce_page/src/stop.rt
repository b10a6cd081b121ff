// Why a call of the page stops.
use ce_base::{Fault, NoMemory, Refused};
use std::alloc::{AllocError, AllocFailed};

/// Why a call of the page stopped. A call that enqueues reactions spends one unit of fuel for each, as `create_text`,
/// `create_in_state` and `clone_node` do for each node; so each of them may stop with FuelSpent, and any with NoMemory.
#[derive(Drop)]
pub enum PageStop {
    /// The operation throws this fault. Nothing of the page has changed.
    Refused(Fault),
    /// One unit of fuel was to be spent, and none was left. The page still tells its notes, and is then
    /// only read or dropped.
    FuelSpent,
    /// Memory was refused, or the page is not settled. The page is only dropped.
    NoMemory,
}

impl From<Fault> for PageStop {
    ghost use Rattle.std.specs.Prelude.{◌≡◌};
    ghost use Rattle.ce_page.specs.declared.stop.PageStop.TheVariants.{Refused};

    ghost from_gives = { λ fault stop. stop ≡ Refused fault };

    fn from(fault: Fault) -> Self {
        PageStop::Refused(fault)
    }
}

impl From<NoMemory> for PageStop {
    ghost use Rattle.std.specs.Prelude.{◌≡◌};
    ghost use Rattle.ce_page.specs.declared.stop.PageStop.TheVariants.{NoMemory};

    ghost from_gives = { λ _ stop. stop ≡ NoMemory };

    fn from(_: NoMemory) -> Self {
        PageStop::NoMemory
    }
}

impl From<AllocError> for PageStop {
    ghost use Rattle.std.specs.Prelude.{◌≡◌};
    ghost use Rattle.ce_page.specs.declared.stop.PageStop.TheVariants.{NoMemory};

    ghost from_gives = { λ _ stop. stop ≡ NoMemory };

    fn from(_: AllocError) -> Self {
        PageStop::NoMemory
    }
}

impl<T: Drop> From<AllocFailed<T>> for PageStop {
    ghost use Rattle.std.specs.Prelude.{◌≡◌};
    ghost use Rattle.ce_page.specs.declared.stop.PageStop.TheVariants.{NoMemory};

    ghost from_gives = { λ _ stop. stop ≡ NoMemory };

    fn from(_: AllocFailed<T>) -> Self {
        PageStop::NoMemory
    }
}

impl From<Refused> for PageStop {
    ghost use Rattle.std.specs.Prelude.{◌≡◌};
    ghost use Rattle.ce_page.specs.Parts.{stop_of};

    ghost from_gives = { λ refused stop. stop ≡ stop_of refused };

    fn from(refused: Refused) -> Self {
        match refused {
            Refused::Fault(fault) => PageStop::Refused(fault),
            Refused::NoMemory => PageStop::NoMemory,
        }
    }
}
