// What is read of a page.
ghost use Rattle.std.specs.Prelude.{◌≡◌, ◌<◌, true, not, option_copied, IfSome};
ghost use Rattle.node_trees.specs.Kinds.{IsElement};
ghost use Rattle.ce_algorithms.specs.Forms.{forms_of, is_form_associated};
ghost use Rattle.form_controls.specs.Owners.{is_associated};
ghost use Rattle.ce_algorithms.specs.Page.{element_of, state_of, definition_of, is_custom};
ghost use Rattle.reaction_queue.specs.ElementQueues.{is_empty};
ghost use Rattle.ce_page.specs.Settled.{OwnersStand};
ghost use Rattle.ce_page.specs.Sound.{IsSoundPage};

use crate::Page;
use crate::element::is_custom_state;
use ce_base::{CustomState, DefNo, NodeNo};
use ce_registry::{Definition, Registry};
use form_owner::OwnerTable;
use node_arena::Tree;

impl Page {
    /// The page's nodes. Node 1 is the page's document.
    pub fn tree(&self) -> &Tree
        ensures tree { result.now ≡ self.now.forest }
        ensures sound { IsSoundPage self.now }
    {
        &self.tree
    }

    /// The page's definitions.
    pub fn registry(&self) -> &Registry
        ensures { result.now ≡ self.now.definitions }
    {
        &self.registry
    }

    /// The form owners, the disabled states and the controls of the page's forms (HTML Standard, sections "Association of
    /// controls and forms", "Enabling and disabling form controls: the disabled attribute"): where the page is settled they
    /// stand for its trees and definitions, also inside a callback.
    pub fn owners(&self) -> &OwnerTable
        ensures { OwnersStand result.now self.now }
    {
        &self.owners
    }

    /// Whether the page is settled: what is kept of form owners and disabled states stands for its trees and definitions. A
    /// change that was cut short for want of memory may leave a page that isn't. Then they are not known, and no insertion,
    /// no removal, and no change of an attribute or of an element's definition is taken: NoMemory.
    pub fn is_settled(&self) -> bool
        ensures { result ≡ self.now.settled }
    {
        self.settled
    }

    /// The custom element state of a node (DOM Standard, section "Interface Element", "custom element
    /// state"): that of its making, until `set_state` gives it another.
    pub fn state(&self, n: NodeNo) -> CustomState
        ensures { result ≡ state_of self.now n }
    {
        match self.elements.get(n.0.saturating_sub(1) as usize) {
            None => CustomState::Uncustomized,
            Some(e) => e.state(),
        }
    }

    /// The number of an element's custom element definition (DOM Standard, section "Interface Element").
    /// None exactly where it has none. What has one is an element.
    pub fn definition(&self, n: NodeNo) -> Option<DefNo>
        ensures definition { result ≡ (element_of self.now n).definition }
        ensures element { IfSome result (λ d. IsElement self.now.forest n) }
    {
        // What has a definition is an element: the clause of `tree` says so.
        let _tree = self.tree();
        self.definition_in_row(n)
    }

    fn definition_in_row(&self, n: NodeNo) -> Option<DefNo>
        ensures { result ≡ (element_of self.now n).definition }
    {
        match self.elements.get(n.0.saturating_sub(1) as usize) {
            None => None,
            Some(e) => e.definition(),
        }
    }

    /// The definition of a node, itself. None exactly where the node has none that was given. What has a
    /// definition is an element.
    pub fn definition_of(&self, n: NodeNo) -> Option<&Definition>
        ensures definition { option_copied result ≡ definition_of self.now n }
        ensures element { IfSome result (λ d. IsElement self.now.forest n) }
    {
        match self.definition(n) {
            None => None,
            Some(d) => self.registry.at(d),
        }
    }

    /// Whether an element is in the backup element queue.
    pub fn has_backup(&self) -> bool
        ensures { result ≡ not (is_empty self.now.queues.backup) }
    {
        self.queues.has_backup()
    }

    /// Whether the node is a custom element: its state is "custom".
    pub(crate) fn is_custom(&self, n: NodeNo) -> bool
        ensures { result ≡ is_custom self.now n }
    {
        is_custom_state(self.state(n))
    }

    /// Whether a node is a form-associated custom element (HTML Standard, section "Core concepts"): its definition is
    /// autonomous, and of a class that is form-associated.
    pub fn is_form_associated(&self, n: NodeNo) -> bool
        ensures definition { result ≡ is_form_associated (definition_of self.now n) }
        ensures among { 0 < n → result ≡ is_associated (forms_of self.now) n }
        ensures element { result ≡ true → IsElement self.now.forest n }
    {
        self.goes_by_class(n)
    }

    fn goes_by_class(&self, n: NodeNo) -> bool
        ensures definition { result ≡ is_form_associated (definition_of self.now n) }
        ensures element { result ≡ true → IsElement self.now.forest n }
    {
        match self.definition_of(n) {
            None => false,
            Some(d) => d.local.as_str() == d.name.as_str() && d.facts.associated,
        }
    }
}
