// The index of ids.
ghost use Rattle.std.specs.Prelude.{◌≡◌, ◌&&◌, ◌||◌, ◌==◌, ℕ, List, false, not, bytes_eq, is_some, OnOk, OnErr};
ghost use Rattle.std.specs.Option.{option_map_or};
ghost use Rattle.std.specs.Ordering.{nat_cmp};
ghost use Rattle.std.specs.BTreeSet.{contains};
ghost use Rattle.ordered_tables.specs.Held.{is_held, is_known};

use ce_base::{NoMemory, NodeNo};
use std::alloc::Global;
use std::collections::{BTreeMap, BTreeSet};

/// For each id the nodes that were noted for it.
#[derive(Drop)]
pub struct IdIndex {
    groups: BTreeMap<String, BTreeSet<u64>>,
}

impl IdIndex {
    /// An index of no node.
    pub fn make(alloc: Global) -> IdIndex
        ensures none { (id : List ℕ) (m : ℕ) → is_held result id m ≡ false }
        ensures unknown { (id : List ℕ) → is_known result id ≡ false }
    {
        IdIndex {
            groups: BTreeMap::new(alloc),
        }
    }

    /// The nodes that are noted for an id. None exactly where it is not known.
    pub fn group(&self, id: &str) -> Option<&BTreeSet<u64>>
        ensures known { is_some result ≡ is_known self.now id.now }
        ensures held { (m : ℕ) → option_map_or (λ s. contains nat_cmp s.now m) result false ≡ is_held self.now id.now m }
    {
        self.groups.get(id)
    }

    /// Notes a node for an id, which is known from then on. NoMemory: memory was refused, and nothing has changed.
    pub fn add(&mut self, alloc: Global, id: &str, node: NodeNo) -> Result<(), NoMemory>
        ensures ok { OnOk result ((q : List ℕ) (m : ℕ) → is_held self.new q m ≡ (is_held self.old q m || (bytes_eq id.now q && node == m))) }
        ensures known { OnOk result ((q : List ℕ) → is_known self.new q ≡ (is_known self.old q || bytes_eq id.now q)) }
        ensures err { OnErr result ((q : List ℕ) (m : ℕ) → is_held self.new q m ≡ is_held self.old q m) }
        ensures unlearned { OnErr result ((q : List ℕ) → is_known self.new q ≡ is_known self.old q) }
    {
        if let Some(group) = self.groups.get_mut(id) {
            group.insert(node.0)?;
            return Ok(());
        }
        let mut group = BTreeSet::new(alloc);
        group.insert(node.0)?;
        let key = String::from_str(alloc, id)?;
        self.groups.insert(key, group)?;
        Ok(())
    }

    /// Notes a node for an id no more. The id stays known.
    pub fn leave(&mut self, id: &str, node: NodeNo)
        ensures held { (q : List ℕ) (m : ℕ) → is_held self.new q m ≡ (is_held self.old q m && not (bytes_eq id.now q && node == m)) }
        ensures known { (q : List ℕ) → is_known self.new q ≡ is_known self.old q }
    {
        if let Some(group) = self.groups.get_mut(id) {
            group.remove(&node.0);
        }
    }

    /// Notes a node for an id no more. The id is forgotten where no node is noted for it now, and no other id is.
    pub fn remove(&mut self, id: &str, node: NodeNo)
        ensures held { (q : List ℕ) (m : ℕ) → is_held self.new q m ≡ (is_held self.old q m && not (bytes_eq id.now q && node == m)) }
        ensures forgotten { ((m : ℕ) → is_held self.new id.now m ≡ false) → is_known self.new id.now ≡ false }
        ensures others { (q : List ℕ) → bytes_eq id.now q ≡ false → is_known self.new q ≡ is_known self.old q }
    {
        let Some(group) = self.groups.get_mut(id) else {
            return;
        };
        group.remove(&node.0);
        if group.is_empty() {
            self.groups.remove(id);
        }
    }
}
