// Changes of one node's facts.
ghost use Rattle.std.specs.Prelude.{◌≡◌, ℕ, [], Option, Some, None, false, length, nat_lt, IfOk, OnOk, OnErr, option_copied};
ghost use Rattle.node_trees.specs.declared.kind.NodeKind.TheVariants.{Element};
ghost use Rattle.node_trees.specs.Facts.{is_element, value_in, with_value, without_value};
ghost use Rattle.node_trees.specs.Trees.{with_attribute, without_attribute, with_document};
ghost use Rattle.node_trees.specs.Spots.{parent_at, Spot, facts_at, kind_at, attribute_at};
ghost use Rattle.node_trees.specs.Nodes.{size, IsNode, IsTidy};
ghost use Rattle.node_trees.specs.Kinds.{KeepsKinds};
ghost use Rattle.node_trees.specs.Links.{IsAlone, KeepsApart, KeepsSpots};
ghost use Rattle.node_trees.specs.Insertion.{may_insert};
ghost use Rattle.node_arena.specs.Covers.{Covers};
ghost use Rattle.node_arena.specs.Links.{Link, link_at};
ghost use Rattle.node_arena.specs.NodeLinks.{links, IsPlace};
ghost use Rattle.node_arena.specs.Writes.{edit_facts};

use crate::Tree;
use crate::node::Node;
use crate::noting::{forget, note};
use crate::siblings::index_of;
use ce_base::{NoMemory, NodeNo, Text};
use ordered_tables::IdIndex;
use std::alloc::Global;

// Sets an attribute, and notes an id.
fn set_attribute(
    alloc: Global,
    nodes: &mut [Node],
    ids: &mut IdIndex,
    node: NodeNo,
    name: Text,
    value: Text,
) -> Result<Option<Text>, NoMemory>
    requires { IsPlace (length nodes.old) node }
    ensures ok { OnOk result (links nodes.new ≡ edit_facts node (λ x. record x { attributes = with_value name value x.attributes }) (links nodes.old)) }
    ensures was { (l : Link) → link_at (links nodes.old) node ≡ Some l → IfOk result (λ old. old ≡ value_in l.facts.attributes name) }
    ensures err { OnErr result (links nodes.new ≡ links nodes.old) }
    ensures covers { Covers ids.old (links nodes.old) → Covers ids.new (links nodes.new) }
{
    let is_id = name.as_str() == "id";
    note(alloc, ids, is_id, value.as_str(), node)?;
    let at = index_of(node);
    let old = nodes[at].attributes.set(alloc, name, value)?;
    forget(ids, is_id, &old, nodes[at].attributes.get("id"), node);
    Ok(old)
}

// Takes an attribute away, and an id out of the index.
fn remove_attribute(nodes: &mut [Node], ids: &mut IdIndex, node: NodeNo, name: &str) -> Option<Text>
    requires { IsPlace (length nodes.old) node }
    ensures left { links nodes.new ≡ edit_facts node (λ x. record x { attributes = without_value name.now x.attributes }) (links nodes.old) }
    ensures was { (l : Link) → link_at (links nodes.old) node ≡ Some l → result ≡ value_in l.facts.attributes name.now }
    ensures covers { Covers ids.old (links nodes.old) → Covers ids.new (links nodes.new) }
{
    let is_id = name == "id";
    let at = index_of(node);
    let old = nodes[at].attributes.remove(name);
    forget(ids, is_id, &old, None, node);
    old
}

fn move_to(nodes: &mut [Node], node: NodeNo, document: NodeNo)
    requires { IsPlace (length nodes.old) node }
    ensures { links nodes.new ≡ edit_facts node (λ x. record x { document = document }) (links nodes.old) }
{
    let at = index_of(node);
    nodes[at].document = document;
}

impl Tree {
    /// The value of an attribute (DOM Standard, section "Interface Element", "get an attribute by name").
    /// None exactly where there is none of that name.
    pub fn attr(&self, n: NodeNo, name: &str) -> Option<&str>
        requires { IsNode self.now n }
        ensures value { option_copied result ≡ attribute_at self.now n name.now }
        ensures lacking { is_element (kind_at self.now n) ≡ false → option_copied result ≡ None }
    {
        self.node(n).attributes.get(name)
    }

    /// Whether a node has attributes. One that is no element has none.
    pub fn has_attributes(&self, n: NodeNo) -> bool
        requires { IsNode self.now n }
        ensures any { result ≡ nat_lt 0 (length (facts_at self.now n).attributes) }
        ensures lacking { is_element (kind_at self.now n) ≡ false → result ≡ false }
    {
        self.node(n).attributes.len() > 0
    }

    /// A copy of the attributes of a node, names and values, in the order in which they came in: an element's, for another
    /// node none. NoMemory: memory was refused.
    pub fn attributes(&self, alloc: Global, n: NodeNo) -> Result<Vec<(Text, Text)>, NoMemory>
        requires { IsNode self.now n }
        ensures list { IfOk result (λ list. list.items ≡ (facts_at self.now n).attributes) }
        ensures lacking { is_element (kind_at self.now n) ≡ false → IfOk result (λ list. list.items ≡ []) }
    {
        self.node(n).attributes.listed(alloc)
    }

    /// Sets an attribute of an element and answers its old value (DOM Standard, section "Interface
    /// Element", "set an attribute value"). One that is there keeps its place, another comes last. NoMemory: memory was
    /// refused, and nothing has changed.
    pub fn set_attr(
        &mut self,
        alloc: Global,
        node: NodeNo,
        name: Text,
        value: Text,
    ) -> Result<Option<Text>, NoMemory>
        requires node { IsNode self.old node }
        requires element { kind_at self.old node ≡ Element }
        ensures tidy { IsTidy self.old }
        ensures still_tidy { IsTidy self.new }
        ensures set { OnOk result (self.new ≡ with_attribute node name value self.old) }
        ensures was { IfOk result (λ old. old ≡ attribute_at self.old node name) }
        ensures size { size self.new ≡ size self.old }
        ensures kinds { KeepsKinds self.old self.new }
        ensures others { KeepsSpots node node self.old self.new }
        ensures alone { (n : ℕ) → IsAlone self.old n → IsAlone self.new n }
        ensures apart { KeepsApart self.old self.new }
        ensures err { OnErr result (self.new ≡ self.old) }
    {
        set_attribute(alloc, &mut self.nodes, &mut self.ids, node, name, value)
    }

    /// Takes an attribute of an element away and answers its value (DOM Standard, section "Interface
    /// Element", "remove an attribute by name"). None exactly where it was not there.
    pub fn del_attr(&mut self, node: NodeNo, name: &str) -> Option<Text>
        requires node { IsNode self.old node }
        requires element { kind_at self.old node ≡ Element }
        ensures tidy { IsTidy self.old }
        ensures still_tidy { IsTidy self.new }
        ensures left { self.new ≡ without_attribute node name.now self.old }
        ensures was { result ≡ attribute_at self.old node name.now }
        ensures size { size self.new ≡ size self.old }
        ensures kinds { KeepsKinds self.old self.new }
        ensures others { KeepsSpots node node self.old self.new }
    {
        remove_attribute(&mut self.nodes, &mut self.ids, node, name)
    }

    /// Sets the node document of this node alone (DOM Standard, section "Interface Node", "node document").
    pub fn set_document(&mut self, node: NodeNo, document: NodeNo)
        requires { IsNode self.old node }
        ensures tidy { IsTidy self.old }
        ensures document { self.new ≡ with_document node document self.old }
        ensures size { size self.new ≡ size self.old }
        ensures kinds { KeepsKinds self.old self.new }
        ensures others { KeepsSpots node node self.old self.new }
        ensures apart { KeepsApart self.old self.new }
        ensures parents { (n : ℕ) → parent_at self.new n ≡ parent_at self.old n }
        ensures may { (p n : ℕ) (b : Option ℕ) → may_insert self.new p n b ≡ may_insert self.old p n b }
    {
        move_to(&mut self.nodes, node, document);
    }
}
