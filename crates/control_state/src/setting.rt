// What is set.
ghost use Rattle.std.specs.Prelude.{◌≡◌, ◌-◌, ◌<◌, Some, length, slice_set, OnOk};
ghost use Rattle.form_controls.specs.Controls.{control_at, untouched};
ghost use Rattle.form_controls.specs.Filling.{IsFilled};

use ce_base::{NoMemory, NodeNo, Text};
use form_controls::Control;
use std::alloc::Global;

/// The row of a control on which nothing was set.
fn blank(alloc: Global) -> Control
    ensures { result ≡ untouched }
{
    Control {
        value: None,
        flag: None,
        edited: false,
        message: Text::from(String::new(alloc)),
    }
}

/// Puts blank rows behind, until there is one at this place.
pub(crate) fn fill(alloc: Global, rows: &mut Vec<Control>, place: usize) -> Result<(), NoMemory>
    ensures long { OnOk result (place < length rows.new.items) }
    ensures same { OnOk result (IsFilled untouched place rows.old.items rows.new.items) }
{
    while rows.len() <= place {
        rows.push(blank(alloc))?;
    }
    Ok(())
}

pub(crate) fn write_value(rows: &mut [Control], n: NodeNo, v: Text, by_user: bool)
    requires { n - 1 < length rows.old }
    ensures { rows.new ≡ slice_set rows.old (n - 1) (record (control_at rows.old n) { value = Some v; edited = by_user }) }
{
    let row = &mut rows[n.place()];
    row.value = Some(v);
    row.edited = by_user;
}

pub(crate) fn write_flag(rows: &mut [Control], n: NodeNo, on: bool)
    requires { n - 1 < length rows.old }
    ensures { rows.new ≡ slice_set rows.old (n - 1) (record (control_at rows.old n) { flag = Some on }) }
{
    let row = &mut rows[n.place()];
    row.flag = Some(on);
}

pub(crate) fn write_state(rows: &mut [Control], n: NodeNo, value: Option<Text>, flag: Option<bool>)
    requires { n - 1 < length rows.old }
    ensures { rows.new ≡ slice_set rows.old (n - 1) (record (control_at rows.old n) { value = value; flag = flag }) }
{
    let row = &mut rows[n.place()];
    row.value = value;
    row.flag = flag;
}

pub(crate) fn write_message(rows: &mut [Control], n: NodeNo, m: Text)
    requires { n - 1 < length rows.old }
    ensures { rows.new ≡ slice_set rows.old (n - 1) (record (control_at rows.old n) { message = m }) }
{
    let row = &mut rows[n.place()];
    row.message = m;
}
