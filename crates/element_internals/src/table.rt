// The table.
ghost use Rattle.std.specs.Prelude.{◌≡◌, [], option_copied};
ghost use Rattle.form_controls.specs.Internals.{internals_at, is_attached};

use ce_base::NodeNo;
use form_controls::Internals;
use std::alloc::Global;
use std::marker::Model;

/// What ElementInternals keeps of elements. A contract sees a row for each node, that of node 1 first. A node without
/// internals has an empty row, or stands past the end.
#[derive(Drop)]
pub struct InternalsTable {
    pub(crate) rows: Vec<Option<Internals>>,
}

impl Model for InternalsTable {
    ghost use Rattle.std.specs.Prelude.{List, Option};
    ghost use Rattle.form_controls.specs.declared.internals.Internals.{Internals};

    ghost Value = { List (Option Internals) };

    ghost view = { λ t. t.rows.items };
}

impl InternalsTable {
    /// The table where no element has internals.
    pub fn make(alloc: Global) -> InternalsTable
        ensures { result ≡ [] }
    {
        InternalsTable {
            rows: Vec::new(alloc),
        }
    }

    /// The internals of an element. None exactly where it has none.
    pub(crate) fn row(&self, n: NodeNo) -> Option<&Internals>
        ensures { option_copied result ≡ internals_at self.now n }
    {
        match self.rows.get(n.place()) {
            None => None,
            Some(row) => row.as_ref(),
        }
    }

    /// Whether an element has internals (HTML Standard, section "Element internals", "attached internals").
    pub fn attached(&self, n: NodeNo) -> bool
        ensures { result ≡ is_attached self.now n }
    {
        self.row(n).is_some()
    }
}
