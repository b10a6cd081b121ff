// The construction stacks of all definitions.
ghost use Rattle.std.specs.Prelude.{◌≡◌, ◌+◌, ◌<◌, ◌∷◌, [], ℕ, vec_len, OnErr, OnOk, Some};
ghost use Rattle.construction.specs.Stacks.{base_of, grown, marked, popped, pushed, stack_of, with_marker, without_last};

use crate::Base;
use crate::stack::Stack;
use ce_base::{DefNo, NoMemory, NodeNo};
use std::alloc::Global;
use std::marker::Model;

/// The construction stack of each custom element definition (HTML Standard, section "Core concepts",
/// "construction stack"): the elements that are constructed for it, or the already constructed marker in
/// the place of one that a base call gave. A contract sees a list of stacks, that of definition 0 first, and
/// of each stack the last entry first; None is the marker. A definition that the list has no stack for has
/// an empty one.
#[derive(Drop)]
pub struct Stacks {
    stacks: Vec<Stack>,
}

impl Model for Stacks {
    ghost use Rattle.std.specs.Prelude.{ℕ, List, Option};

    ghost Value = { List (List (Option ℕ)) };

    ghost view = { λ s. s.stacks.items };
}

impl Stacks {
    /// Each stack is empty.
    pub fn make(alloc: Global) -> Stacks
        ensures { result ≡ [] }
    {
        Stacks {
            stacks: Vec::new(alloc),
        }
    }

    /// Puts an element last on a definition's construction stack (HTML Standard, section "Upgrades", "upgrade
    /// an element"). `NoMemory` comes only where memory was refused, and then each stack is as it was.
    pub fn push(&mut self, alloc: Global, d: DefNo, node: NodeNo) -> Result<(), NoMemory>
        ensures stacks { OnOk result (self.new ≡ pushed d node self.old) }
        ensures stack { OnOk result (stack_of d self.new ≡ Some node ∷ stack_of d self.old) }
        ensures others { OnOk result ((e : ℕ) → ¬ (e ≡ d) → stack_of e self.new ≡ stack_of e self.old) }
        ensures err { OnErr result ((e : ℕ) → stack_of e self.new ≡ stack_of e self.old) }
    {
        let place = d.0 as usize;
        grow(alloc, &mut self.stacks, place)?;
        let stack = &mut self.stacks[place];
        stack.push(node)?;
        Ok(())
    }

    /// What the base call of a constructor finds (HTML Standard, section "HTML element constructors"): Fresh
    /// exactly where the definition's construction stack is empty, Already exactly where its last entry is the
    /// already constructed marker. Else that is an element, which is given, and the marker takes its place;
    /// nothing else changes.
    pub fn base(&mut self, d: DefNo) -> Base
        ensures last { result ≡ base_of (stack_of d self.old) }
        ensures stacks { self.new ≡ with_marker d (stack_of d self.old) self.old }
        ensures stack { stack_of d self.new ≡ marked (stack_of d self.old) }
        ensures others { (e : ℕ) → ¬ (e ≡ d) → stack_of e self.new ≡ stack_of e self.old }
    {
        let place = d.0 as usize;
        if place >= self.stacks.len() {
            return Base::Fresh;
        }
        let stack = &mut self.stacks[place];
        stack.base()
    }

    /// Takes the last entry of a definition's construction stack away (HTML Standard, section "Upgrades",
    /// "upgrade an element"). From an empty stack it takes nothing.
    pub fn pop(&mut self, d: DefNo)
        ensures stacks { self.new ≡ popped d self.old }
        ensures stack { stack_of d self.new ≡ without_last (stack_of d self.old) }
        ensures others { (e : ℕ) → ¬ (e ≡ d) → stack_of e self.new ≡ stack_of e self.old }
    {
        let place = d.0 as usize;
        if place >= self.stacks.len() {
            return;
        }
        let stack = &mut self.stacks[place];
        stack.pop();
    }
}

// Adds empty stacks until there is one in the place.
fn grow(alloc: Global, stacks: &mut Vec<Stack>, place: usize) -> Result<(), NoMemory>
    ensures within { OnOk result (place < vec_len stacks.new) }
    ensures grown { OnOk result (stacks.new.items ≡ grown (place + 1) stacks.old.items) }
    ensures same { (e : ℕ) → stack_of e stacks.new.items ≡ stack_of e stacks.old.items }
{
    while stacks.len() <= place {
        stacks.push(Stack::make(alloc))?;
    }
    Ok(())
}
