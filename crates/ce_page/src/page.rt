// The page.
ghost use Rattle.std.specs.Prelude.{◌≡◌, IfOk, length};
ghost use Rattle.ce_page.specs.Parts.{row_place};
ghost use Rattle.ce_algorithms.specs.Page.{blank_page};

use crate::element::Element;
use ce_algorithms::Note;
use ce_base::{NoMemory, NodeNo};
use ce_registry::Registry;
use construction::Stacks;
use control_state::ControlTable;
use element_internals::InternalsTable;
use form_owner::OwnerTable;
use node_arena::Tree;
use reaction_queue::Queues;
use std::alloc::Global;
use std::collections::VecDeque;
use std::marker::Model;

/// A page: its nodes, what each is as a custom element, its definitions and their construction stacks, what
/// waits, the enqueues that were not told yet, what controls and internals keep, and its form owners and disabled states.
#[derive(Drop)]
pub struct Page {
    pub(crate) tree: Tree,
    pub(crate) elements: Vec<Element>,
    pub(crate) registry: Registry,
    pub(crate) stacks: Stacks,
    pub(crate) queues: Queues,
    pub(crate) notes: VecDeque<Note>,
    pub(crate) controls: ControlTable,
    pub(crate) internals: InternalsTable,
    pub(crate) owners: OwnerTable,
    pub(crate) settled: bool,
}

impl Model for Page {
    ghost use Rattle.ce_algorithms.specs.Page.{Page as PageState};
    ghost use Rattle.ce_page.specs.Settled.{IsWhole};
    ghost use Rattle.std.specs.Coded.{codes};
    ghost use Rattle.node_trees.specs.TreesCode.{trees_code};

    ghost Value = { PageState };

    ghost coded = { Prim.hlevel (codes, trees_code) };

    ghost view = { λ p. record {
      forest = p.tree;
      elements = p.elements.items;
      definitions = p.registry;
      stacks = p.stacks;
      queues = p.queues;
      notes = p.notes.items;
      controls = p.controls;
      internals = p.internals;
      settled = p.settled;
    } };

    ghost invariant = { λ p. IsWhole p.elements.items p.registry p.queues.waiting p.stacks p.tree p.owners p.settled };
}

impl Page {
    /// A page with its document alone. NoMemory: memory was refused.
    pub fn make(alloc: Global) -> Result<Page, NoMemory>
        ensures { IfOk result (λ p. p ≡ blank_page) }
    {
        let tree = Tree::make(alloc)?;
        let mut elements = Vec::new(alloc);
        elements.push(Element::uncustomized())?;
        Ok(Page {
            tree,
            elements,
            registry: Registry::make(alloc),
            stacks: Stacks::make(alloc),
            queues: Queues::make(alloc),
            notes: VecDeque::new(alloc),
            controls: ControlTable::make(alloc),
            internals: InternalsTable::make(alloc),
            owners: OwnerTable::make(alloc),
            settled: true,
        })
    }

    /// The place of a node's row. None exactly where it has none.
    pub(crate) fn row_of(&self, n: NodeNo) -> Option<usize>
        ensures { result ≡ row_place (length self.now.elements) n }
    {
        let i = n.place();
        if i < self.elements.len() {
            Some(i)
        } else {
            None
        }
    }
}
