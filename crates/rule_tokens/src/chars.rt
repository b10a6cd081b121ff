// A list of characters.
ghost use Rattle.std.specs.Prelude.{◌≡◌, ◌++◌, ◌∷◌, [], OnOk};

use ce_base::NoMemory;
use std::alloc::Global;
use std::marker::Model;

/// A list of characters. A contract sees it as the list of their code points.
#[derive(Drop)]
pub struct Chars {
    items: Vec<char>,
}

impl Model for Chars {
    ghost use Rattle.std.specs.Prelude.{ℕ, List};

    ghost Value = { List ℕ };

    ghost view = { λ c. c.items.items };
}

impl Chars {
    /// No characters.
    pub fn make(alloc: Global) -> Chars
        ensures { result ≡ [] }
    {
        Chars {
            items: Vec::new(alloc),
        }
    }

    /// Puts a character at the end. NoMemory: memory was refused, and the list is only dropped.
    pub fn push(&mut self, c: char) -> Result<(), NoMemory>
        ensures { OnOk result (self.new ≡ self.old ++ c ∷ []) }
    {
        self.items.push(c)?;
        Ok(())
    }

    /// The characters, borrowed.
    pub fn as_slice(&self) -> &[char]
        ensures { result.now ≡ self.now }
    {
        self.items.as_slice()
    }
}
