// The construction stack of one definition.
ghost use Rattle.std.specs.Prelude.{◌≡◌, ◌∷◌, [], OnErr, OnOk, Some};
ghost use Rattle.construction.specs.Stacks.{base_of, marked, without_last};

use crate::Base;
use ce_base::{NoMemory, NodeNo};
use std::alloc::Global;
use std::marker::Model;

/// A construction stack, the last entry last; None is the already constructed marker. A contract sees the
/// last entry first.
#[derive(Drop)]
pub(crate) struct Stack {
    entries: Vec<Option<NodeNo>>,
}

impl Model for Stack {
    ghost use Rattle.std.specs.Prelude.{ℕ, List, Option, reverse};

    ghost Value = { List (Option ℕ) };

    ghost view = { λ s. reverse s.entries.items };
}

impl Stack {
    /// A stack without entries.
    pub(crate) fn make(alloc: Global) -> Stack
        ensures { result ≡ [] }
    {
        Stack {
            entries: Vec::new(alloc),
        }
    }

    /// Puts an element last.
    pub(crate) fn push(&mut self, node: NodeNo) -> Result<(), NoMemory>
        ensures ok { OnOk result (self.new ≡ Some node ∷ self.old) }
        ensures err { OnErr result (self.new ≡ self.old) }
    {
        self.entries.push(Some(node))?;
        Ok(())
    }

    /// Says what the last entry is. Where it is an element, the marker takes its place.
    pub(crate) fn base(&mut self) -> Base
        ensures last { result ≡ base_of self.old }
        ensures entries { self.new ≡ marked self.old }
    {
        let count = self.entries.len();
        if count == 0 {
            return Base::Fresh;
        }
        let last = &mut self.entries[count - 1];
        match last.take() {
            None => Base::Already,
            Some(node) => Base::Of(node),
        }
    }

    /// Takes the last entry away.
    pub(crate) fn pop(&mut self)
        ensures { self.new ≡ without_last self.old }
    {
        self.entries.pop();
    }
}
