// Rows by their nodes. A row past the end of a list is blank.
ghost use Rattle.std.specs.Prelude.{◌≡◌};
ghost use Rattle.std.specs.Option.{option_copied};
ghost use Rattle.owner_rows.specs.OwnerRow.{row_of};

use crate::Row;
use ce_base::NodeNo;

/// The form owner of a node, as its row has it.
pub fn owner_in(rows: &[Row], n: NodeNo) -> Option<NodeNo>
    ensures { result ≡ (row_of rows.now n).owner }
{
    match rows.get(n.place()) {
        None => None,
        Some(row) => row.owner(),
    }
}

/// Whether a node is disabled, as its row has it.
pub fn disabled_in(rows: &[Row], n: NodeNo) -> bool
    ensures { result ≡ (row_of rows.now n).disabled }
{
    match rows.get(n.place()) {
        None => false,
        Some(row) => row.disabled(),
    }
}

/// Whether a node is a form-associated custom element, as its row has it.
pub fn associated_in(rows: &[Row], n: NodeNo) -> bool
    ensures { result ≡ (row_of rows.now n).associated }
{
    match rows.get(n.place()) {
        None => false,
        Some(row) => row.associated(),
    }
}

/// The controls of a form, as its row has them.
pub fn controls_in(rows: &[Row], n: NodeNo) -> &[NodeNo]
    ensures { result.now ≡ (row_of rows.now n).controls }
{
    match rows.get(n.place()) {
        None => &[],
        Some(row) => row.controls(),
    }
}

/// The ID that was last seen of a node.
pub fn id_seen_in(rows: &[Row], n: NodeNo) -> Option<&str>
    ensures { option_copied result ≡ (row_of rows.now n).seen.id }
{
    match rows.get(n.place()) {
        None => None,
        Some(row) => row.seen().id(),
    }
}

/// The text of the `form` attribute that was last seen of a node.
pub fn form_seen_in(rows: &[Row], n: NodeNo) -> Option<&str>
    ensures { option_copied result ≡ (row_of rows.now n).seen.form }
{
    match rows.get(n.place()) {
        None => None,
        Some(row) => row.seen().form(),
    }
}

/// Whether a node was last seen with the `disabled` attribute.
pub fn disabled_seen_in(rows: &[Row], n: NodeNo) -> bool
    ensures { result ≡ (row_of rows.now n).seen.disabled }
{
    match rows.get(n.place()) {
        None => false,
        Some(row) => row.seen().disabled(),
    }
}
