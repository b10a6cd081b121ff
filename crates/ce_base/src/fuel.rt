// What a session may still spend.
ghost use Rattle.std.specs.Prelude.{◌≡◌, ◌+◌, MatchBool};

use std::marker::Model;

/// The fuel of a session, a number of units that only falls. A contract sees how many are left.
#[derive(Drop)]
pub struct Fuel {
    units: u32,
}

impl Model for Fuel {
    ghost use Rattle.std.specs.Prelude.{ℕ};

    ghost Value = { ℕ };

    ghost view = { λ f. f.units };
}

impl Fuel {
    /// So many units.
    pub fn make(n: u32) -> Fuel
        ensures { result ≡ n }
    {
        Fuel { units: n }
    }

    /// How many units are left.
    pub fn left(&self) -> u32
        ensures { result ≡ self.now }
    {
        self.units
    }

    /// Spends one unit. It is false exactly where none is left, and then nothing is spent.
    pub fn spend(&mut self) -> bool
        ensures { MatchBool result (self.new + 1 ≡ self.old) ((self.old ≡ 0) × (self.new ≡ 0)) }
    {
        if self.units == 0 {
            return false;
        }
        self.units -= 1;
        true
    }
}
