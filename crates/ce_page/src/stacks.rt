// The construction stacks.
ghost use Rattle.std.specs.Prelude.{◌≡◌, OnOk};
ghost use Rattle.node_trees.specs.Kinds.{IsElement};
ghost use Rattle.construction.specs.Stacks.{base_of, popped, pushed, stack_of, with_marker};
ghost use Rattle.ce_algorithms.specs.Construction.{with_stacks};
ghost use Rattle.ce_page.specs.Elements.{FindsElement};
ghost use Rattle.ce_page.specs.Numbers.{SameNumbers};

use crate::Page;
use ce_base::{DefNo, NoMemory, NodeNo};
use construction::Base;
use std::alloc::Global;

impl Page {
    /// Puts an element last on a definition's construction stack (HTML Standard, section "Upgrades", "upgrade
    /// an element"). NoMemory: memory was refused, and the page is only dropped.
    pub fn push(&mut self, alloc: Global, d: DefNo, n: NodeNo) -> Result<(), NoMemory>
        requires { IsElement self.old.forest n }
        ensures page { OnOk result (self.new ≡ with_stacks (pushed d n) self.old) }
        ensures forest { self.new.forest ≡ self.old.forest }
        ensures numbers { SameNumbers self.old self.new }
    {
        self.stacks.push(alloc, d, n)
    }

    /// What the base call of a constructor finds as the last entry of its definition's construction stack
    /// (HTML Standard, section "HTML element constructors"). An element is given once: the already
    /// constructed marker takes its place. Nothing else changes.
    pub fn base(&mut self, d: DefNo) -> Base
        ensures last { result ≡ base_of (stack_of d self.old.stacks) }
        ensures page { self.new ≡ with_stacks (with_marker d (stack_of d self.old.stacks)) self.old }
        ensures element { FindsElement self.old.forest result }
        ensures numbers { SameNumbers self.old self.new }
    {
        self.stacks.base(d)
    }

    /// Takes the last entry of a definition's construction stack away (HTML Standard, section "Upgrades",
    /// "upgrade an element"). From an empty stack it takes nothing.
    pub fn pop(&mut self, d: DefNo)
        ensures page { self.new ≡ with_stacks (popped d) self.old }
        ensures numbers { SameNumbers self.old self.new }
    {
        self.stacks.pop(d)
    }
}
