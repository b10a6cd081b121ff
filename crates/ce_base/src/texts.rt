// A list of texts.
ghost use Rattle.std.specs.Prelude.{◌≡◌, ◌++◌, ◌∷◌, [], length, IfOk, OnOk, option_copied, slice_get};

use crate::{NoMemory, Text};
use std::alloc::Global;
use std::marker::Model;

/// A list of texts.
#[derive(Drop)]
pub struct Texts {
    items: Vec<Text>,
}

impl Model for Texts {
    ghost use Rattle.std.specs.Prelude.{ℕ, List};

    ghost Value = { List (List ℕ) };

    ghost view = { λ t. t.items.items };
}

impl Texts {
    /// No texts.
    pub fn make(alloc: Global) -> Texts
        ensures { result ≡ [] }
    {
        Texts {
            items: Vec::new(alloc),
        }
    }

    /// Puts a text at the end. NoMemory: memory was refused, and the list is only dropped.
    pub fn push(&mut self, alloc: Global, t: Text) -> Result<(), NoMemory>
        ensures { OnOk result (self.new ≡ self.old ++ t ∷ []) }
    {
        self.items.push(t)?;
        Ok(())
    }

    /// How many texts there are.
    pub fn len(&self) -> usize
        ensures { result ≡ length self.now }
    {
        self.items.len()
    }

    /// The text at a place, from 0. None exactly where the list ends before it.
    pub fn get(&self, i: usize) -> Option<&Text>
        ensures { option_copied result ≡ slice_get self.now i }
    {
        self.items.get(i)
    }

    /// The texts, borrowed.
    pub fn as_slice(&self) -> &[Text]
        ensures { result.now ≡ self.now }
    {
        self.items.as_slice()
    }

    /// A second list with the same texts. NoMemory: memory was refused.
    pub fn copy(&self, alloc: Global) -> Result<Texts, NoMemory>
        ensures { IfOk result (λ t. t ≡ self.now) }
    {
        let mut items = Vec::new(alloc);
        for t in &self.items {
            items.push(t.copy(alloc)?)?;
        }
        Ok(Texts { items })
    }
}
