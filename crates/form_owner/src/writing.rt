// What was read of nodes is written into their rows.
ghost use Rattle.std.specs.Prelude.{◌≡◌, ◌<◌, ◌-◌, All, ℕ, length};
ghost use Rattle.form_controls.specs.declared.change.Change.{Change};
ghost use Rattle.owner_rows.specs.OwnerRow.{row_in, row_of};
ghost use Rattle.form_owner.specs.Writing.{Written, with_changes, with_told};

use crate::Changes;
use ce_base::NodeNo;
use owner_rows::Row;

/// Writes what is told of a node into its row.
fn write(rows: &mut [Row], n: NodeNo, owner: Option<Option<NodeNo>>, disabled: Option<bool>)
    requires { n - 1 < length rows.old }
    ensures { Written rows.old rows.new (n - 1) (with_told owner disabled (row_of rows.old n)) }
{
    let row = &mut rows[n.place()];
    row.take_over(owner, disabled);
}

/// Writes the changes into the rows.
pub(crate) fn write_all(rows: &mut [Row], changes: &Changes)
    requires { All (λ (c : Change). c.node - 1 < length rows.old) changes.now }
    ensures { (i : ℕ) → row_in rows.new i ≡ with_changes changes.now i (row_in rows.old i) }
{
    for i in 0..changes.len() {
        let change = changes.get(i).unwrap();
        write(rows, change.node, change.owner, change.disabled);
    }
}
