// Ids in the index: it has each element for the id that it has, and may have others.
ghost use Rattle.std.specs.Prelude.{◌≡◌, ◌≢◌, ℕ, List, Some, true, false, OnOk, option_copied};
ghost use Rattle.ordered_tables.specs.Held.{is_held};

use ce_base::{NoMemory, NodeNo, Text};
use ordered_tables::IdIndex;
use std::alloc::Global;

/// Notes a node for this value, where it is that of an id.
pub(crate) fn note(
    alloc: Global,
    ids: &mut IdIndex,
    is_id: bool,
    value: &str,
    node: NodeNo,
) -> Result<(), NoMemory>
    ensures noted { OnOk result (is_id ≡ true → is_held ids.new value.now node ≡ true) }
    ensures kept { (id : List ℕ) (m : ℕ) → is_held ids.old id m ≡ true → is_held ids.new id m ≡ true }
{
    if is_id {
        ids.add(alloc, value, node)?;
    }
    Ok(())
}

/// Notes a node no more for the value that it had, where it is that of an id and not the one that it has now.
pub(crate) fn forget(
    ids: &mut IdIndex,
    is_id: bool,
    had: &Option<Text>,
    has: Option<&str>,
    node: NodeNo,
)
    ensures same { is_id ≡ false → (id : List ℕ) (m : ℕ) → is_held ids.new id m ≡ is_held ids.old id m }
    ensures others { (id : List ℕ) (m : ℕ) → node ≢ m → is_held ids.new id m ≡ is_held ids.old id m }
    ensures has { (id : List ℕ) → option_copied has.entry ≡ Some id → is_held ids.new id node ≡ is_held ids.old id node }
{
    if !is_id {
        return;
    }
    if let Some(id) = had {
        if has != Some(id.as_str()) {
            ids.remove(id.as_str(), node);
        }
    }
}
