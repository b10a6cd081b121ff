// What a class remembers.
ghost use Rattle.std.specs.Prelude.{◌≡◌, IfOk};
ghost use Rattle.std.specs.Fmt.{decimal};
ghost use Rattle.ce_algorithms.specs.Body.{bumped};
ghost use Rattle.ce_algorithms.specs.State.{blank_memory};

use ce_base::{NoMemory, Text};
use std::alloc::Global;
use std::marker::Model;

/// What a class remembers: a counter and a text, which all its instances and callbacks share.
#[derive(Drop)]
pub struct Memory {
    count: u64,
    kept: Text,
}

impl Model for Memory {
    ghost use Rattle.ce_algorithms.specs.State.{Memory as IsMemory};

    ghost Value = { IsMemory };

    ghost view = { λ m. record { count = m.count; kept = m.kept } };
}

impl Memory {
    /// The counter is 0, and the text is empty. NoMemory: memory was refused.
    pub fn blank(alloc: Global) -> Result<Memory, NoMemory>
        ensures { IfOk result (λ m. m ≡ blank_memory) }
    {
        Ok(Memory {
            count: 0,
            kept: Text::of(alloc, "")?,
        })
    }

    /// The counter, in decimal. NoMemory: memory was refused.
    pub fn count(&self, alloc: Global) -> Result<Text, NoMemory>
        ensures { IfOk result (λ t. t ≡ decimal self.now.count) }
    {
        Ok(Text::from(format!(in alloc; "{}", self.count)?))
    }

    /// The kept text.
    pub fn kept(&self) -> &Text
        ensures { result.now ≡ self.now.kept }
    {
        &self.kept
    }

    /// Adds 1 to the counter, which stays at the greatest.
    pub(crate) fn bump(&mut self)
        ensures { self.new ≡ record self.old { count = bumped self.old.count } }
    {
        if self.count < u64::MAX {
            self.count += 1;
        }
    }

    /// Sets the kept text.
    pub(crate) fn keep(&mut self, text: Text)
        ensures { self.new ≡ record self.old { kept = text } }
    {
        self.kept = text;
    }
}
