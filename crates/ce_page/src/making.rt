// New nodes, and what they are as custom elements.
ghost use Rattle.std.specs.Prelude.{◌≡◌, ◌+◌, None, IfOk, IfSome, OnOk};
ghost use Rattle.node_trees.specs.declared.kind.NodeKind.TheVariants.{Document, Element as ElementKind, ShadowRoot, TextNode};
ghost use Rattle.node_trees.specs.Facts.{blank, new_element, new_text};
ghost use Rattle.node_trees.specs.Trees.{single, with_node, with_shadow};
ghost use Rattle.node_trees.specs.Spots.{document_at, kind_at, shadow_at};
ghost use Rattle.node_trees.specs.Nodes.{size, IsNode};
ghost use Rattle.node_trees.specs.Kinds.{IsElement};
ghost use Rattle.ce_algorithms.specs.Page.{with_state, with_definition};
ghost use Rattle.ce_algorithms.specs.Making.{next_number, with_new};
ghost use Rattle.ce_page.specs.Numbers.{SameNumbers};
ghost use Rattle.ce_page.specs.Copies.{IsFresh};
ghost use Rattle.ce_page.specs.Settled.{KeepsSettled};

use crate::Page;
use crate::element::Element;
use ce_base::{CustomState, DefNo, NoMemory, NodeNo, Text};
use std::alloc::Global;

impl Page {
    /// Makes an inert document, which is its own node document (DOM Standard, section "Interface
    /// DOMImplementation", `createHTMLDocument`). Like each new node it gets the next number. NoMemory: memory was
    /// refused, and the page is only dropped.
    pub fn make_document(&mut self, alloc: Global) -> Result<NodeNo, NoMemory>
        ensures number { IfOk result (λ n. n ≡ next_number self.old) }
        ensures page { IfOk result (λ n. self.new ≡ with_new (with_node n (blank Document n) self.old.forest) self.old) }
        ensures made { IfOk result (IsNode self.new.forest) }
        ensures nodes { OnOk result (size self.new.forest ≡ size self.old.forest + 1) }
        ensures numbers { SameNumbers self.old self.new }
    {
        let n = self.tree.make_document(alloc)?;
        self.elements.push(Element::uncustomized())?;
        Ok(n)
    }

    /// Makes an element, uncustomized and without a definition (DOM Standard, section "Interface Element",
    /// "create an element internal"). NoMemory: memory was refused, and the page is only dropped.
    pub fn make_element(
        &mut self,
        alloc: Global,
        local: Text,
        is_value: Option<Text>,
        document: NodeNo,
    ) -> Result<NodeNo, NoMemory>
        ensures number { IfOk result (λ n. n ≡ next_number self.old) }
        ensures page { IfOk result (λ n. self.new ≡ with_new (with_node n (new_element local is_value document) self.old.forest) self.old) }
        ensures made { IfOk result (IsNode self.new.forest) }
        ensures nodes { OnOk result (size self.new.forest ≡ size self.old.forest + 1) }
        ensures numbers { SameNumbers self.old self.new }
        ensures element { IfOk result (IsElement self.new.forest) }
        ensures fresh { IfOk result (IsFresh self.old.forest self.new.forest ElementKind) }
    {
        let n = self.tree.make_element(alloc, local, is_value, document)?;
        self.elements.push(Element::uncustomized())?;
        Ok(n)
    }

    /// Makes a text node (DOM Standard, section "Interface Document", `createTextNode`). NoMemory: memory was refused,
    /// and the page is only dropped.
    pub fn make_text(
        &mut self,
        alloc: Global,
        chars: Text,
        document: NodeNo,
    ) -> Result<NodeNo, NoMemory>
        ensures number { IfOk result (λ n. n ≡ next_number self.old) }
        ensures page { IfOk result (λ n. self.new ≡ with_new (with_node n (new_text chars document) self.old.forest) self.old) }
        ensures made { IfOk result (IsNode self.new.forest) }
        ensures nodes { OnOk result (size self.new.forest ≡ size self.old.forest + 1) }
        ensures numbers { SameNumbers self.old self.new }
        ensures fresh { IfOk result (IsFresh self.old.forest self.new.forest TextNode) }
    {
        let n = self.tree.make_text(alloc, chars, document)?;
        self.elements.push(Element::uncustomized())?;
        Ok(n)
    }

    /// Makes a shadow root at an element that has none (DOM Standard, section "Interface Element", "attach a
    /// shadow root"). Its node document is its host's. NoMemory: memory was refused, and the page is only dropped.
    pub fn attach_root(&mut self, alloc: Global, host: NodeNo) -> Result<NodeNo, NoMemory>
        requires node { IsNode self.old.forest host }
        requires element { kind_at self.old.forest host ≡ ElementKind }
        requires bare { shadow_at self.old.forest host ≡ None }
        ensures number { IfOk result (λ n. n ≡ next_number self.old) }
        ensures page { IfOk result
            (λ n. self.new ≡ with_new (with_shadow host (single n (blank ShadowRoot (document_at self.old.forest host))) self.old.forest) self.old) }
        ensures made { IfOk result (IsNode self.new.forest) }
        ensures nodes { OnOk result (size self.new.forest ≡ size self.old.forest + 1) }
        ensures numbers { SameNumbers self.old self.new }
    {
        let n = self.tree.attach_root(alloc, host)?;
        self.elements.push(Element::uncustomized())?;
        Ok(n)
    }

    /// Sets the custom element state of an element (DOM Standard, section "Interface Element", "custom element
    /// state"), and tells nobody. A number past those of the page's nodes changes nothing.
    pub fn set_state(&mut self, n: NodeNo, state: CustomState)
        ensures page { self.new ≡ with_state n state self.old }
        ensures numbers { SameNumbers self.old self.new }
    {
        if let Some(i) = self.row_of(n) {
            let e = &mut self.elements[i];
            e.set_state(state);
        }
    }

    /// Sets or clears the custom element definition of an element (DOM Standard, section "Interface Element"). The
    /// form owners are settled, since the element may be a form-associated custom element from now on, or none any
    /// more; nobody is told. NoMemory: memory was refused, the page is not settled, or the registry did not give the
    /// number.
    pub fn set_definition(
        &mut self,
        alloc: Global,
        n: NodeNo,
        d: Option<DefNo>,
    ) -> Result<(), NoMemory>
        requires { IfSome d (λ x. IsElement self.old.forest n) }
        ensures page { OnOk result (self.new ≡ with_definition n d self.old) }
        ensures forest { self.new.forest ≡ self.old.forest }
        ensures numbers { SameNumbers self.old self.new }
        ensures settled { OnOk result (KeepsSettled self.old self.new) }
    {
        match d {
            Some(d) => self.redefine(alloc, n, Some(d)),
            None => match self.definition(n) {
                None => Ok(()),
                Some(_) => self.redefine(alloc, n, None),
            },
        }
    }
}
