// A form's list of controls, changed in place.
ghost use Rattle.std.specs.Prelude.{◌≡◌, Some, None, true, false, filter, slice_get, IfSome, OnOk};
ghost use Rattle.node_trees.specs.Paths.{is_among};
ghost use Rattle.tree_laws.specs.Numbers.{insert_number};
ghost use Rattle.tree_laws.proofs.Counts.{AreApart};
ghost use Rattle.owner_rows.specs.OwnerRow.{is_other};

use ce_base::{NoMemory, NodeNo};

/// Where a node stands in a list. It is looked for from both ends at once, since it is mostly near one.
pub(crate) fn place_in(list: &[NodeNo], n: NodeNo) -> Option<usize>
    ensures found { IfSome result (λ place. slice_get list.now place ≡ Some n) }
    ensures none { result ≡ None → is_among n list.now ≡ false }
{
    let mut low = 0;
    let mut high = list.len();
    while low < high {
        high -= 1;
        if list[high] == n {
            return Some(high);
        }
        if list[low] == n {
            return Some(low);
        }
        low += 1;
    }
    None
}

/// Whether a node is in a list.
pub fn is_in(list: &[NodeNo], n: NodeNo) -> bool
    ensures { result ≡ is_among n list.now }
{
    place_in(list, n).is_some()
}

/// Leaves a node out.
pub(crate) fn take_out(list: &mut Vec<NodeNo>, n: NodeNo)
    ensures { list.new.items ≡ filter (is_other n) list.old.items }
{
    list.retain(|m| *m != n);
}

/// Puts a node before another, or at the end.
pub(crate) fn put_in(
    list: &mut Vec<NodeNo>,
    n: NodeNo,
    before: Option<NodeNo>,
) -> Result<(), NoMemory>
    requires apart { AreApart list.old.items }
    ensures { OnOk result (list.new.items ≡ insert_number before n list.old.items) }
{
    match before {
        None => list.push(n)?,
        Some(next) => {
            match place_in(list, next) {
                None => list.push(n)?,
                Some(place) => list.insert(place, n)?,
            }
        }
    }
    Ok(())
}
