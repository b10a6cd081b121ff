// Why bytes are not read as an event.
ghost use Rattle.std.specs.Prelude.{◌≡◌};
ghost use Rattle.event_reader.specs.declared.refused.EventRefused.TheVariants.{NoMemory as IsNoMemory};
ghost use Rattle.event_reader.specs.Refused.{refused_for};

use ce_base::NoMemory;
use rule_tokens::LineRefused;

/// Why bytes were not read as an event.
#[derive(Clone, Copy, Debug, PartialEq, Eq)]
pub enum EventRefused {
    /// No event has the bytes as its text.
    NotAnEvent,
    /// Memory was refused. It tells nothing of the bytes.
    NoMemory,
}

impl From<NoMemory> for EventRefused {
    ghost from_gives = { λ _ refused. refused ≡ IsNoMemory };

    fn from(_: NoMemory) -> Self {
        EventRefused::NoMemory
    }
}

impl From<LineRefused> for EventRefused {
    ghost from_gives = { λ line refused. refused ≡ refused_for line };

    fn from(line: LineRefused) -> Self {
        match line {
            LineRefused::Bad(_) => EventRefused::NotAnEvent,
            LineRefused::NoMemory => EventRefused::NoMemory,
        }
    }
}
