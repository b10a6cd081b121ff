// What was last seen of an element's attributes.
ghost use Rattle.std.specs.Prelude.{◌≡◌, IfOk};
ghost use Rattle.std.specs.Option.{option_copied};
ghost use Rattle.node_trees.specs.Nodes.{IsNode};
ghost use Rattle.owner_rows.specs.Attributes.{seen_at};
ghost use Rattle.owner_rows.specs.OwnerRow.{blank_seen};

use ce_base::{NoMemory, NodeNo, Text, owned};
use form_kinds::has_disabled;
use node_arena::Tree;
use std::alloc::Global;
use std::marker::Model;

/// What was last seen of an element's attributes: the texts of `id` and `form`, where it has them, and whether it has
/// `disabled`.
#[derive(Drop)]
pub struct Seen {
    id: Option<Text>,
    form: Option<Text>,
    disabled: bool,
}

impl Model for Seen {
    ghost use Rattle.owner_rows.specs.OwnerRow.{Seen as SeenOf};

    ghost Value = { SeenOf };

    ghost view = { λ s. record { id = s.id; form = s.form; disabled = s.disabled } };
}

impl Seen {
    /// What is seen of a node that has none of them.
    pub(crate) fn blank() -> Seen
        ensures { result ≡ blank_seen }
    {
        Seen {
            id: None,
            form: None,
            disabled: false,
        }
    }

    /// What is seen of a node now. NoMemory: memory was refused.
    pub fn of(alloc: Global, tree: &Tree, n: NodeNo) -> Result<Seen, NoMemory>
        requires { IsNode tree.now n }
        ensures { IfOk result (λ s. s ≡ seen_at tree.now n) }
    {
        let id = owned(alloc, tree.attr(n, "id"))?;
        let form = owned(alloc, tree.attr(n, "form"))?;
        Ok(Seen {
            id,
            form,
            disabled: has_disabled(tree, n),
        })
    }

    pub(crate) fn id(&self) -> Option<&str>
        ensures { option_copied result ≡ self.now.id }
    {
        text_of(&self.id)
    }

    pub(crate) fn form(&self) -> Option<&str>
        ensures { option_copied result ≡ self.now.form }
    {
        text_of(&self.form)
    }

    pub(crate) fn disabled(&self) -> bool
        ensures { result ≡ self.now.disabled }
    {
        self.disabled
    }
}

fn text_of(text: &Option<Text>) -> Option<&str>
    ensures { option_copied result ≡ text.now }
{
    match text {
        None => None,
        Some(text) => Some(text.as_str()),
    }
}
