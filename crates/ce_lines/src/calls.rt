// The lines of constructors and callbacks that start, and of what a body wrote; and a fault behind a word.
ghost use Rattle.std.specs.Prelude.{◌≡◌, ◌++◌, OnOk, codes};
ghost use Rattle.rule_tokens.specs.Quoted.{in_quotes};
ghost use Rattle.ce_events.specs.Text.{call, event_text, fault, text_or_null};

use crate::lists::put_spaced;
use crate::written::Written;
use ce_base::{Fault, NoMemory, NodeNo, Text, Texts};
use ce_events::{Event, mode_word, truth_word};
use reaction_queue::Mode;
use std::alloc::Global;

pub(crate) fn put_construct(out: &mut Written, class: &Text) -> Result<(), NoMemory>
    ensures { OnOk result (out.new ≡ out.old ++ event_text (Event.Construct class.now)) }
{
    out.put("construct ")?;
    out.put(class.as_str())
}

/// Puts the line of a callback that starts at an element, as far as this text.
pub(crate) fn put_call(out: &mut Written, n: NodeNo, rest: &str) -> Result<(), NoMemory>
    ensures { OnOk result (out.new ≡ out.old ++ call n rest.now) }
{
    out.put("call ")?;
    out.put_node(n)?;
    out.put(" ")?;
    out.put(rest)
}

pub(crate) fn put_adopted(
    out: &mut Written,
    n: NodeNo,
    old: NodeNo,
    new: NodeNo,
) -> Result<(), NoMemory>
    ensures { OnOk result (out.new ≡ out.old ++ event_text (Event.Adopted n old new)) }
{
    put_call(out, n, "adopted ")?;
    out.put_node(old)?;
    out.put(" ")?;
    out.put_node(new)
}

fn put_change(
    alloc: Global,
    out: &mut Written,
    old: &Option<Text>,
    new: &Option<Text>,
) -> Result<(), NoMemory>
    ensures { OnOk result (out.new ≡ out.old ++ text_or_null old.now ++ codes " " ++ text_or_null new.now) }
{
    out.put_text_or_null(alloc, old)?;
    out.put(" ")?;
    out.put_text_or_null(alloc, new)
}

fn put_attribute_name(
    alloc: Global,
    out: &mut Written,
    n: NodeNo,
    name: &Text,
) -> Result<(), NoMemory>
    ensures { OnOk result (out.new ≡ out.old ++ call n (codes "attribute " ++ in_quotes name.now ++ codes " ")) }
{
    put_call(out, n, "attribute ")?;
    out.put_quoted(alloc, name.as_str())?;
    out.put(" ")
}

pub(crate) fn put_attribute(
    alloc: Global,
    out: &mut Written,
    n: NodeNo,
    name: &Text,
    old: &Option<Text>,
    new: &Option<Text>,
) -> Result<(), NoMemory>
    ensures { OnOk result (out.new ≡ out.old ++ event_text (Event.Attribute n name.now old.now new.now)) }
{
    put_attribute_name(alloc, out, n, name)?;
    put_change(alloc, out, old, new)
}

pub(crate) fn put_form_associated(
    out: &mut Written,
    n: NodeNo,
    form: Option<NodeNo>,
) -> Result<(), NoMemory>
    ensures { OnOk result (out.new ≡ out.old ++ event_text (Event.FormAssociated n form)) }
{
    put_call(out, n, "formAssociated ")?;
    out.put_node_or_null(form)
}

pub(crate) fn put_form_disabled(
    out: &mut Written,
    n: NodeNo,
    disabled: bool,
) -> Result<(), NoMemory>
    ensures { OnOk result (out.new ≡ out.old ++ event_text (Event.FormDisabled n disabled)) }
{
    put_call(out, n, "formDisabled ")?;
    out.put(truth_word(disabled))
}

pub(crate) fn put_form_state_restore(
    alloc: Global,
    out: &mut Written,
    n: NodeNo,
    text: &Text,
    why: Mode,
) -> Result<(), NoMemory>
    ensures { OnOk result (out.new ≡ out.old ++ event_text (Event.FormStateRestore n text.now why)) }
{
    put_call(out, n, "formStateRestore ")?;
    out.put_quoted(alloc, text.as_str())?;
    out.put(" ")?;
    out.put(mode_word(why))
}

pub(crate) fn put_logged(alloc: Global, out: &mut Written, texts: &Texts) -> Result<(), NoMemory>
    ensures { OnOk result (out.new ≡ out.old ++ event_text (Event.Logged texts.now)) }
{
    out.put("log")?;
    put_spaced(alloc, out, texts.as_slice())
}

fn put_fault(alloc: Global, out: &mut Written, thrown: &Fault) -> Result<(), NoMemory>
    ensures { OnOk result (out.new ≡ out.old ++ fault thrown.now) }
{
    match thrown {
        Fault::TypeError => out.put("TypeError"),
        Fault::ReferenceError => out.put("ReferenceError"),
        Fault::SyntaxError => out.put("SyntaxError"),
        Fault::NotSupportedError => out.put("NotSupportedError"),
        Fault::HierarchyRequestError => out.put("HierarchyRequestError"),
        Fault::NotFoundError => out.put("NotFoundError"),
        Fault::InvalidCharacterError => out.put("InvalidCharacterError"),
        Fault::UserThrow(text) => {
            out.put("user ")?;
            out.put_quoted(alloc, text.as_str())
        }
    }
}

/// Puts a word and a fault behind.
pub(crate) fn put_thrown(
    alloc: Global,
    out: &mut Written,
    word: &str,
    thrown: &Fault,
) -> Result<(), NoMemory>
    ensures { OnOk result (out.new ≡ out.old ++ word.now ++ fault thrown.now) }
{
    out.put(word)?;
    put_fault(alloc, out, thrown)
}
