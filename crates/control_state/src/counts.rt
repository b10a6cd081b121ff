// The length of a text that stands in several pieces, none of which is kept.
ghost use Rattle.std.specs.Prelude.{◌≡◌, ◌==◌, ◌||◌, ◌+◌, ◌-◌, ◌^◌, ◌++◌, ℕ, List, [], min, not};
ghost use Rattle.std.specs.Char.{is_ascii_whitespace};
ghost use Rattle.form_controls.specs.Texts.{carriage_return, collapsed, normal_byte, normalized, units_of};
ghost use Rattle.control_state.specs.Counts.{CountsCollapsed, CountsNormalized};
ghost use Rattle.control_state.specs.Reading.{collapsed_byte};

use crate::bytes::{collapsed_units, normal_units};
use std::marker::Model;

/// The length of a text whose newlines are normalized (Infra Standard, "normalize newlines"), piece by piece. A U+000D CR may end
/// a piece and the U+000A LF begin the next one.
#[derive(Drop)]
pub struct NormalizedUnits {
    units: u64,
    behind: bool,
}

impl Model for NormalizedUnits {
    ghost use Rattle.control_state.specs.Counts.{NormalizedCount};

    ghost Value = { NormalizedCount };

    ghost view = { λ c. record { units = c.units; behind = c.behind } };
}

impl NormalizedUnits {
    /// No piece was read yet.
    pub fn make() -> Self
        ensures { CountsNormalized result [] }
    {
        NormalizedUnits {
            units: 0,
            behind: false,
        }
    }

    /// Reads the next piece.
    pub fn take(&mut self, piece: &str)
        ensures { (before : List ℕ) → CountsNormalized self.old before → CountsNormalized self.new (before ++ piece.now) }
    {
        for b in piece.as_bytes() {
            self.read(*b);
        }
    }

    // Reads one byte.
    fn read(&mut self, b: u8)
        ensures units { self.new.units ≡ min (self.old.units + units_of (normal_byte self.old.behind b)) (2 ^ 64 - 1) }
        ensures behind { self.new.behind ≡ (b == carriage_return) }
    {
        self.units = self.units.saturating_add(normal_units(self.behind, b));
        self.behind = b == b'\r';
    }

    /// How many code units the pieces that were read take, once their newlines are normalized. The greatest u64 where there are
    /// more than that.
    pub fn count(&self) -> u64
        ensures { (text : List ℕ) → CountsNormalized self.now text → result ≡ min (units_of (normalized text)) (2 ^ 64 - 1) }
    {
        self.units
    }
}

/// The length of a text whose white space is stripped and collapsed (Infra Standard, "strip and collapse ASCII whitespace"), piece
/// by piece. A word may stand in several pieces.
#[derive(Drop)]
pub struct CollapsedUnits {
    units: u64,
    begun: bool,
    apart: bool,
}

impl Model for CollapsedUnits {
    ghost use Rattle.control_state.specs.Counts.{CollapsedCount};

    ghost Value = { CollapsedCount };

    ghost view = { λ c. record { units = c.units; begun = c.begun; apart = c.apart } };
}

impl CollapsedUnits {
    /// No piece was read yet.
    pub fn make() -> Self
        ensures { CountsCollapsed result [] }
    {
        CollapsedUnits {
            units: 0,
            begun: false,
            apart: false,
        }
    }

    /// Reads the next piece.
    pub fn take(&mut self, piece: &str)
        ensures { (before : List ℕ) → CountsCollapsed self.old before → CountsCollapsed self.new (before ++ piece.now) }
    {
        for b in piece.as_bytes() {
            self.read(*b);
        }
    }

    // Reads one byte.
    fn read(&mut self, b: u8)
        ensures units { self.new.units ≡ min (self.old.units + units_of (collapsed_byte self.old.begun self.old.apart b)) (2 ^ 64 - 1) }
        ensures begun { self.new.begun ≡ (self.old.begun || not (is_ascii_whitespace b)) }
        ensures apart { self.new.apart ≡ is_ascii_whitespace b }
    {
        self.units = self
            .units
            .saturating_add(collapsed_units(self.begun, self.apart, b));
        self.apart = b.is_ascii_whitespace();
        self.begun |= !self.apart;
    }

    /// How many code units the pieces that were read take, once their white space is stripped and collapsed. The greatest u64 where
    /// there are more than that.
    pub fn count(&self) -> u64
        ensures { (text : List ℕ) → CountsCollapsed self.now text → result ≡ min (units_of (collapsed text)) (2 ^ 64 - 1) }
    {
        self.units
    }
}
