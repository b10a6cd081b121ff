// Elements that forms are about by their local names, and kinds of inputs by their types.
use crate::rows::{same, sides, word, word_or_none};
use element_names::*;
use std::alloc::Global;
use std::fmt::Write;
use std::process::Abort;
use std::test::Fail;

// Each row is a local name and the element that it names, or a type, `-` for none, and the kind of an input with it.
const KINDS: &str = "\
element form => Form
element fieldset => Fieldset
element legend => Legend
element button => Button
element input => Input
element select => Select
element optgroup => Optgroup
element option => OptionItem
element textarea => Textarea
element datalist => Datalist
element label => Other
element output => Other
element Form => Other
element forms => Other
element x-form => Other
element '' => Other
input - => Text
input '' => Text
input text => Text
input password => Text
input hidden => Hidden
input HIDDEN => Hidden
input checkbox => Checkbox
input cHeckbox => Checkbox
input radio => Radio
input submit => Submit
input SubmiT => Submit
input reset => Reset
input button => Button
input file => Button
input Image => Button
input hıdden => Text
input check => Text";

fn same_kind(rt: &impl Abort, alloc: Global, row: &str) -> Result<(), Fail> {
    let (step, want) = sides(row);
    let mut out = String::new(alloc);
    match word(step, 0) {
        "element" => write!(out, "{:?}", native(word(step, 1)))?,
        _ => write!(out, "{:?}", input_kind(word_or_none(step, 1)))?,
    }
    same(rt, out.as_str(), want, step);
    Ok(())
}

#[test]
fn an_element_goes_by_its_local_name_and_an_input_by_its_type(rt: HostRuntime) -> Result<(), Fail> {
    for row in KINDS.lines() {
        same_kind(&rt, rt.alloc(), row)?;
    }
    Ok(())
}
