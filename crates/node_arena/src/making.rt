// New nodes.
ghost use Rattle.std.specs.Prelude.{◌≡◌, ◌<◌, ℕ, Bool, ◌+◌, ◌∷◌, ◌++◌, [], None, false, is_ok, if◌then◌else◌, length, IfOk, OnOk, OnErr};
ghost use Rattle.node_trees.specs.declared.kind.NodeKind.TheVariants.{Document, Element, ShadowRoot, TextNode};
ghost use Rattle.node_trees.specs.Facts.{blank, new_element, new_text, is_shadow_root};
ghost use Rattle.node_trees.specs.Trees.{single, with_node, with_shadow};
ghost use Rattle.node_trees.specs.Spots.{spot_at, kind_at, document_at, parent_at, shadow_at};
ghost use Rattle.node_trees.specs.Nodes.{size, surplus_at, IsNode, IsTidy};
ghost use Rattle.node_trees.specs.Kinds.{IsElement, KeepsKinds};
ghost use Rattle.node_trees.specs.Links.{IsAlone, KeepsApart};
ghost use Rattle.node_arena.specs.NodeLinks.{facts_of, link_from, links, IsLoose, IsPlace};
ghost use Rattle.node_arena.specs.Marks.{mark_at, Allows, SaysLess};
ghost use Rattle.node_arena.specs.Writes.{edit};

use crate::Tree;
use crate::marks::{Mark, make_room};
use crate::node::Node;
use crate::siblings::index_of;
use ce_base::{NoMemory, NodeNo, Text};
use node_trees::NodeKind;
use ordered_tables::IdIndex;
use std::alloc::Global;

/// Puts a node at the end. Nothing is noted of whether it is connected.
fn push_node(nodes: &mut Vec<Node>, marks: &mut Vec<Mark>, node: Node) -> Result<(), NoMemory>
    ensures items { nodes.new.items ≡ (if is_ok result then nodes.old.items ++ node ∷ [] else nodes.old.items) }
    ensures blank { (is : Bool) → Allows (mark_at marks.new.items (length nodes.old.items + 1)) is }
    ensures others { (m : ℕ) → 0 < m → SaysLess marks.old.items marks.new.items m }
{
    make_room(marks, nodes.len())?;
    nodes.push(node)?;
    Ok(())
}

/// Puts a shadow root at the end and links it to its host.
fn attach(
    nodes: &mut Vec<Node>,
    marks: &mut Vec<Mark>,
    host: NodeNo,
    root: Node,
) -> Result<NodeNo, NoMemory>
    requires { IsPlace (length nodes.old.items) host }
    ensures number { IfOk result (λ n. n ≡ length nodes.old.items + 1) }
    ensures ok { OnOk result (links nodes.new.items
        ≡ edit host (λ l. record l { shadow = (length nodes.old.items + 1) ∷ [] }) (links nodes.old.items ++ link_from root ∷ [])) }
    ensures err { OnErr result (nodes.new.items ≡ nodes.old.items) }
    ensures blank { (is : Bool) → Allows (mark_at marks.new.items (length nodes.old.items + 1)) is }
    ensures others { (m : ℕ) → 0 < m → SaysLess marks.old.items marks.new.items m }
{
    push_node(nodes, marks, root)?;
    let number = NodeNo(nodes.len() as u64);
    let at = index_of(host);
    nodes[at].shadow = Some(number);
    Ok(number)
}

impl Tree {
    /// A tree with a document alone, which is node 1. NoMemory: memory was refused.
    pub fn make(alloc: Global) -> Result<Tree, NoMemory>
        ensures { IfOk result (λ t. t ≡ single 1 (blank Document 1)) }
    {
        let mut nodes = Vec::new(alloc);
        nodes.push(Node::blank(alloc, NodeKind::Document, NodeNo(1)))?;
        let ids = IdIndex::make(alloc);
        let mut marks = Vec::new(alloc);
        make_room(&mut marks, 0)?;
        Ok(Tree { nodes, ids, marks })
    }

    /// Puts a node at the end, as a root.
    fn add(&mut self, node: Node) -> Result<NodeNo, NoMemory>
        requires loose { IsLoose node }
        requires kind { is_shadow_root node.kind ≡ false }
        requires parts { surplus_at (facts_of node) ≡ 0 }
        requires bare { node.attributes ≡ [] }
        ensures tidy { IsTidy self.old }
        ensures number { IfOk result (λ n. n ≡ size self.old + 1) }
        ensures size { OnOk result (size self.new ≡ size self.old + 1) }
        ensures kinds { KeepsKinds self.old self.new }
        ensures others { (m : ℕ) → IsNode self.old m → spot_at self.new m ≡ spot_at self.old m }
        ensures free { IfOk result (λ n. parent_at self.new n ≡ None) }
        ensures alone { IfOk result (IsAlone self.new) }
        ensures apart { KeepsApart self.old self.new }
        ensures made { IfOk result (λ n. IsNode self.new n × (kind_at self.new n ≡ node.kind)) }
        ensures ok { OnOk result (self.new ≡ with_node (size self.old + 1) (facts_of node) self.old) }
        ensures err { OnErr result (self.new ≡ self.old) }
    {
        push_node(&mut self.nodes, &mut self.marks, node)?;
        let number = NodeNo(self.nodes.len() as u64);
        self.note(number);
        Ok(number)
    }

    /// Makes a document (DOM Standard, section "Interface Document"). Its number is the next one, and it is
    /// its own node document. NoMemory: memory was refused, and nothing has changed.
    pub fn make_document(&mut self, alloc: Global) -> Result<NodeNo, NoMemory>
        ensures tidy { IsTidy self.old }
        ensures number { IfOk result (λ n. n ≡ size self.old + 1) }
        ensures size { OnOk result (size self.new ≡ size self.old + 1) }
        ensures kinds { KeepsKinds self.old self.new }
        ensures others { (m : ℕ) → IsNode self.old m → spot_at self.new m ≡ spot_at self.old m }
        ensures free { IfOk result (λ n. parent_at self.new n ≡ None) }
        ensures alone { IfOk result (IsAlone self.new) }
        ensures apart { KeepsApart self.old self.new }
        ensures made { OnOk result (self.new ≡ with_node (size self.old + 1) (blank Document (size self.old + 1)) self.old) }
        ensures err { OnErr result (self.new ≡ self.old) }
    {
        let number = NodeNo(self.nodes.len() as u64 + 1);
        self.add(Node::blank(alloc, NodeKind::Document, number))
    }

    /// Makes an element (DOM Standard, section "Interface Element", "create an element internal"). Its
    /// number is the next one, and it stands nowhere yet. NoMemory: memory was refused, and nothing has changed.
    pub fn make_element(
        &mut self,
        alloc: Global,
        local: Text,
        is_value: Option<Text>,
        document: NodeNo,
    ) -> Result<NodeNo, NoMemory>
        ensures tidy { IsTidy self.old }
        ensures number { IfOk result (λ n. n ≡ size self.old + 1) }
        ensures size { OnOk result (size self.new ≡ size self.old + 1) }
        ensures kinds { KeepsKinds self.old self.new }
        ensures others { (m : ℕ) → IsNode self.old m → spot_at self.new m ≡ spot_at self.old m }
        ensures free { IfOk result (λ n. parent_at self.new n ≡ None) }
        ensures alone { IfOk result (IsAlone self.new) }
        ensures apart { KeepsApart self.old self.new }
        ensures element { IfOk result (λ n. IsElement self.new n) }
        ensures made { OnOk result (self.new ≡ with_node (size self.old + 1) (new_element local is_value document) self.old) }
        ensures err { OnErr result (self.new ≡ self.old) }
    {
        let mut node = Node::blank(alloc, NodeKind::Element, document);
        node.local = Some(local);
        node.is_value = is_value;
        self.add(node)
    }

    /// Makes a text node (DOM Standard, section "Interface Text"). Its number is the next one, and it stands
    /// nowhere yet. NoMemory: memory was refused, and nothing has changed.
    pub fn make_text(
        &mut self,
        alloc: Global,
        chars: Text,
        document: NodeNo,
    ) -> Result<NodeNo, NoMemory>
        ensures tidy { IsTidy self.old }
        ensures number { IfOk result (λ n. n ≡ size self.old + 1) }
        ensures size { OnOk result (size self.new ≡ size self.old + 1) }
        ensures kinds { KeepsKinds self.old self.new }
        ensures others { (m : ℕ) → IsNode self.old m → spot_at self.new m ≡ spot_at self.old m }
        ensures free { IfOk result (λ n. parent_at self.new n ≡ None) }
        ensures alone { IfOk result (IsAlone self.new) }
        ensures apart { KeepsApart self.old self.new }
        ensures text { IfOk result (λ n. IsNode self.new n × (kind_at self.new n ≡ TextNode)) }
        ensures made { OnOk result (self.new ≡ with_node (size self.old + 1) (new_text chars document) self.old) }
        ensures err { OnErr result (self.new ≡ self.old) }
    {
        let mut node = Node::blank(alloc, NodeKind::TextNode, document);
        node.chars = Some(chars);
        self.add(node)
    }

    /// Makes a shadow root at an element that has none (DOM Standard, section "Interface Element", "attach a
    /// shadow root"). Its number is the next one, and its node document is the host's. NoMemory: memory was refused,
    /// and nothing has changed.
    pub fn attach_root(&mut self, alloc: Global, host: NodeNo) -> Result<NodeNo, NoMemory>
        requires node { IsNode self.old host }
        requires element { kind_at self.old host ≡ Element }
        requires bare { shadow_at self.old host ≡ None }
        ensures tidy { IsTidy self.old }
        ensures number { IfOk result (λ n. n ≡ size self.old + 1) }
        ensures size { OnOk result (size self.new ≡ size self.old + 1) }
        ensures kinds { KeepsKinds self.old self.new }
        ensures made { OnOk result (self.new ≡ with_shadow host (single (size self.old + 1) (blank ShadowRoot (document_at self.old host))) self.old) }
        ensures err { OnErr result (self.new ≡ self.old) }
    {
        let mut root = Node::blank(alloc, NodeKind::ShadowRoot, self.document(host));
        root.host = Some(host);
        attach(&mut self.nodes, &mut self.marks, host, root)
    }
}
