// How large an entry list is.
ghost use Rattle.std.specs.Prelude.{◌≡◌, ◌^◌, ◌-◌, min, sum_by};
ghost use Rattle.form_submission.specs.Plans.{entry_size, is_too_large};

use ce_base::{Entries, Entry};

// The size that an entry list may have.
const LIMIT: u64 = 16_777_216;

/// The bytes of a name and a value, and one more.
fn entry_size(e: &Entry) -> u64
    ensures { result ≡ min (entry_size e.now) (2 ^ 64 - 1) }
{
    let name = e.name.as_str().len() as u64;
    let value = e.value.as_str().len() as u64;
    name.saturating_add(value).saturating_add(1)
}

/// Whether an entry list is too large to be sent.
pub(crate) fn is_too_large(list: &Entries) -> bool
    ensures { result ≡ is_too_large list.now }
{
    let mut size = 0u64;
    for e in list.as_slice() {
        size = size.saturating_add(entry_size(e));
    }
    size > LIMIT
}
