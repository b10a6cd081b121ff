// Entries are put behind others.
ghost use Rattle.std.specs.Prelude.{◌≡◌, ◌++◌, ◌∷◌, [], OnOk};
ghost use Rattle.ce_base.specs.Texts.{entry};

use ce_base::{Entries, Entry, NoMemory, Text};
use std::alloc::Global;

/// Puts an entry behind others ("create an entry").
pub(crate) fn put(
    alloc: Global,
    list: &mut Entries,
    name: &str,
    value: Text,
) -> Result<(), NoMemory>
    ensures { OnOk result (list.new ≡ list.old ++ entry name.now value ∷ []) }
{
    let name = Text::of(alloc, name)?;
    list.push(alloc, Entry { name, value })
}
