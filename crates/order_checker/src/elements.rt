// Elements, the one added last first.
ghost use Rattle.std.specs.Prelude.{◌≡◌, ◌∷◌, [], IfOk};
ghost use Rattle.order_law.specs.Reads.{is_one_of};

use ce_base::{NoMemory, NodeNo};
use std::alloc::Global;
use std::collections::BTreeSet;
use std::marker::Model;

/// Elements. A contract sees the one added last first.
#[derive(Drop)]
pub(crate) struct Elements {
    list: Vec<u64>,
    set: BTreeSet<u64>,
}

impl Model for Elements {
    ghost use Rattle.std.specs.Prelude.{ℕ, List, reverse};

    ghost Value = { List ℕ };

    ghost use Rattle.order_checker.specs.Sets.{AreInSet};

    ghost view = { λ e. reverse e.list.items };

    ghost invariant = { λ e. AreInSet (reverse e.list.items) e.set };
}

impl Elements {
    /// No elements.
    pub(crate) fn make(alloc: Global) -> Elements
        ensures { result ≡ [] }
    {
        Elements {
            list: Vec::new(alloc),
            set: BTreeSet::new(alloc),
        }
    }

    /// Whether an element is one of them.
    pub(crate) fn has(&self, element: NodeNo) -> bool
        ensures { result ≡ is_one_of element self.now }
    {
        self.set.contains(&element.0)
    }

    /// One more.
    pub(crate) fn with(self, element: NodeNo) -> Result<Elements, NoMemory>
        ensures { IfOk result (λ e. e ≡ element ∷ self) }
    {
        let Elements { mut list, mut set } = self;
        list.push(element.0)?;
        set.insert(element.0)?;
        Ok(Elements { list, set })
    }
}
