// Questions about nodes.
ghost use Rattle.std.specs.Prelude.{◌≡◌, ℕ, All, List, Option, option_copied, false, true, IfErr, IfOk};
ghost use Rattle.std.specs.Str.{str_to_ascii_lowercase};
ghost use Rattle.node_trees.specs.Nodes.{IsNode, IsNodeOrNone};
ghost use Rattle.node_trees.specs.Spots.{attribute_at, parent_at};
ghost use Rattle.reaction_queue.specs.Queues.{or_empty};
ghost use Rattle.form_controls.specs.Internals.{kept_by};
ghost use Rattle.ce_algorithms.specs.Forms.{controls_of, form_owner, is_disabled};
ghost use Rattle.ce_algorithms.specs.Questions.{kept_answer, node_answer, question, text_answer, value_answer};
ghost use Rattle.page_calls.specs.Asked.{asked};
ghost use Rattle.page_calls.specs.Resolved.{Resolves};

use crate::fits::fits;
use crate::groups::is_checked;
use crate::validation::{flags, message, will_validate};
use ce_algorithms::Fit;
use ce_base::{Fault, NoMemory, NodeNo, Nodes, Refused, Text, Texts};
use ce_events::Answer;
use ce_page::Page;
use form_controls::Value;
use rule_lines::AskWord;
use std::alloc::Global;

/// What a question of a node answers; of an attribute by its name (DOM Standard, section "Interface Element"). TypeError
/// exactly where the node is not one that the question can be asked of. NoMemory: memory was refused, or the page is not
/// settled.
pub fn ask(
    alloc: Global,
    page: &Page,
    word: AskWord,
    name: Option<&str>,
    n: NodeNo,
) -> Result<Answer, Refused>
    requires { IsNode page.now.forest n }
    ensures { Resolves result (asked word (option_copied name.entry) page.now n) }
{
    if !fits(asked_of(word), page, n) {
        return Err(Refused::Fault(Fault::TypeError));
    }
    Ok(answer(alloc, page, word, name, n)?)
}

/// Of which nodes a question can be asked.
pub fn asked_of(word: AskWord) -> Fit
    ensures { (name : Option (List ℕ)) → result ≡ (question word name).asked_of }
{
    match word {
        AskWord::Parent | AskWord::Kids => Fit::Any,
        AskWord::Attr | AskWord::State => Fit::Element,
        AskWord::Owner => Fit::Listed,
        AskWord::Controls => Fit::Form,
        AskWord::Disabled => Fit::SubmittableOrOption,
        AskWord::Candidate | AskWord::Valid | AskWord::Message => Fit::Submittable,
        AskWord::Value => Fit::Submittable,
        AskWord::Saved => Fit::FormAssociated,
        AskWord::States => Fit::WithInternals,
        AskWord::Checked => Fit::Tickable,
    }
}

/// What a question answers of a node that it can be asked of. NoMemory: memory was refused, or the page is not settled.
pub fn answer(
    alloc: Global,
    page: &Page,
    word: AskWord,
    name: Option<&str>,
    n: NodeNo,
) -> Result<Answer, NoMemory>
    requires { IsNode page.now.forest n }
    ensures { IfOk result (λ a. a ≡ (question word (option_copied name.entry)).answer page.now n) }
{
    match word {
        AskWord::Attr => attribute(alloc, page, name, n),
        AskWord::Parent => Ok(parent(page, n)),
        AskWord::Kids => Ok(Answer::Nodes(page.tree().children(alloc, n)?)),
        AskWord::State => Ok(Answer::State(page.state(n))),
        AskWord::Owner => owner(page, n),
        AskWord::Controls => Ok(Answer::Nodes(controls(alloc, page, n)?)),
        AskWord::Disabled => Ok(Answer::Truth(is_disabled(page, n)?)),
        AskWord::Value => value(alloc, page, n),
        AskWord::Saved => saved(alloc, page, n),
        AskWord::States => Ok(Answer::Texts(states(alloc, page, n)?)),
        AskWord::Checked => Ok(Answer::Truth(is_checked(page, n)?)),
        AskWord::Candidate => Ok(Answer::Truth(will_validate(page, n)?)),
        AskWord::Valid => Ok(Answer::Raised(flags(page, n)?)),
        AskWord::Message => Ok(Answer::One(message(alloc, page, n)?)),
    }
}

// The value of an attribute by its name, which is lowercased.
fn attribute(alloc: Global, page: &Page, name: Option<&str>, n: NodeNo) -> Result<Answer, NoMemory>
    requires { IsNode page.now.forest n }
    ensures { IfOk result (λ a. a ≡ text_answer (attribute_at page.now.forest n (str_to_ascii_lowercase (or_empty (option_copied name.entry))))) }
{
    let lower = name.unwrap_or("").to_ascii_lowercase(alloc)?;
    match page.tree().attr(n, lower.as_str()) {
        None => Ok(Answer::Null),
        Some(value) => Ok(Answer::One(Text::of(alloc, value)?)),
    }
}

fn parent(page: &Page, n: NodeNo) -> Answer
    requires { IsNode page.now.forest n }
    ensures { result ≡ node_answer (parent_at page.now.forest n) }
{
    match page.tree().parent(n) {
        None => Answer::Null,
        Some(parent) => Answer::Node(parent),
    }
}

// The form owner.
fn owner(page: &Page, n: NodeNo) -> Result<Answer, NoMemory>
    requires { IsNode page.now.forest n }
    ensures { IfOk result (λ a. a ≡ node_answer (form_owner page.now n)) }
{
    match form_owner(page, n)? {
        None => Ok(Answer::Null),
        Some(form) => Ok(Answer::Node(form)),
    }
}

/// The form owner of a node (HTML Standard, section "Association of controls and forms", "form owner"). NoMemory comes
/// only where the page is not settled.
pub fn form_owner(page: &Page, n: NodeNo) -> Result<Option<NodeNo>, NoMemory>
    requires { IsNode page.now.forest n }
    ensures owner { IfOk result (λ o. o ≡ form_owner page.now n) }
    ensures memory { IfErr result (λ e. page.now.settled ≡ false) }
    ensures node { IfOk result (IsNodeOrNone page.now.forest) }
{
    if !page.is_settled() {
        return Err(NoMemory);
    }
    let _count = page.tree().count();
    Ok(page.owners().owner(n))
}

/// The controls of a form. A page that is not settled has no answer.
pub(crate) fn controls(alloc: Global, page: &Page, form: NodeNo) -> Result<Nodes, NoMemory>
    requires { IsNode page.now.forest form }
    ensures list { IfOk result (λ ns. ns ≡ controls_of page.now form) }
    ensures nodes { IfOk result (All (IsNode page.now.forest)) }
{
    if !page.is_settled() {
        return Err(NoMemory);
    }
    let _count = page.tree().count();
    copied(alloc, page.owners().controls(form))
}

fn copied(alloc: Global, numbers: &[NodeNo]) -> Result<Nodes, NoMemory>
    ensures { IfOk result (λ ns. ns ≡ numbers.now) }
{
    let mut nodes = Nodes::make(alloc);
    for n in numbers {
        nodes.push(alloc, *n)?;
    }
    Ok(nodes)
}

// The value of a control; of a form-associated custom element its submission value.
fn value(alloc: Global, page: &Page, n: NodeNo) -> Result<Answer, NoMemory>
    requires { IsNode page.now.forest n }
    ensures { IfOk result (λ a. a ≡ value_answer page.now n) }
{
    if page.is_form_associated(n) {
        return submission_value(alloc, page, n);
    }
    Ok(Answer::One(page.controls().value(alloc, page.tree(), n)?))
}

// The submission value. An element without internals has none.
fn submission_value(alloc: Global, page: &Page, n: NodeNo) -> Result<Answer, NoMemory>
    ensures { IfOk result (λ a. a ≡ kept_answer (kept_by page.now.internals n).value) }
{
    if !page.inner().attached(n) {
        return Ok(Answer::Null);
    }
    kept(alloc, page.inner().form_value(n))
}

// The state. An element without internals has none.
fn saved(alloc: Global, page: &Page, n: NodeNo) -> Result<Answer, NoMemory>
    ensures { IfOk result (λ a. a ≡ kept_answer (kept_by page.now.internals n).saved) }
{
    if !page.inner().attached(n) {
        return Ok(Answer::Null);
    }
    kept(alloc, page.inner().saved(n))
}

fn kept(alloc: Global, v: &Value) -> Result<Answer, NoMemory>
    ensures { IfOk result (λ a. a ≡ kept_answer v.now) }
{
    match v {
        Value::Nothing => Ok(Answer::Null),
        Value::One(text) => Ok(Answer::One(text.copy(alloc)?)),
        Value::Many(_) => Ok(Answer::Many),
    }
}

// The custom states. An element without internals has none.
fn states(alloc: Global, page: &Page, n: NodeNo) -> Result<Texts, NoMemory>
    ensures { IfOk result (λ ts. ts ≡ (kept_by page.now.internals n).states) }
{
    if !page.inner().attached(n) {
        return Ok(Texts::make(alloc));
    }
    page.inner().states(n).listed(alloc)
}

/// Whether the node is disabled (HTML Standard, section "Enabling and disabling form controls: the disabled attribute").
/// NoMemory comes only where the page is not settled.
pub fn is_disabled(page: &Page, n: NodeNo) -> Result<bool, NoMemory>
    requires { IsNode page.now.forest n }
    ensures disabled { IfOk result (λ b. b ≡ is_disabled page.now n) }
    ensures memory { IfErr result (λ e. page.now.settled ≡ false) }
{
    if !page.is_settled() {
        return Err(NoMemory);
    }
    Ok(page.owners().disabled(n))
}
