// The arguments of a callback, as texts.
ghost use Rattle.std.specs.Prelude.{◌≡◌, option_map, IfOk};
ghost use Rattle.reaction_queue.specs.Queues.{or_empty};
ghost use Rattle.ce_algorithms.specs.Values.{args_of, fixed_value, no_args, text_of};
ghost use Rattle.ce_events.specs.Text as text;

use crate::Memory;
use ce_base::{NoMemory, NodeNo, Text};
use ce_events::{mode_word, truth_word};
use reaction_queue::Reaction;
use rule_tokens::Val;
use std::alloc::Global;
use std::marker::Model;

/// The texts of a callback's arguments.
#[derive(Drop)]
pub struct Args {
    /// `@1`.
    pub first: Text,
    /// `@2`.
    pub second: Text,
    /// `@3`.
    pub third: Text,
}

impl Model for Args {
    ghost use Rattle.ce_algorithms.specs.Values.{Args as IsArgs};

    ghost Value = { IsArgs };

    ghost view = { λ a. record { first = a.first; second = a.second; third = a.third } };
}

impl Args {
    /// The arguments of the callback that a reaction is for. One that is absent is the empty text. NoMemory: memory was
    /// refused.
    pub fn of(alloc: Global, r: &Reaction) -> Result<Args, NoMemory>
        ensures { IfOk result (λ a. a ≡ args_of r.now) }
    {
        match r {
            Reaction::Adopted(old, new) => of_documents(alloc, *old, *new),
            Reaction::Attribute(name, old, new) => {
                of_texts(alloc, name.as_str(), or_empty(old), or_empty(new))
            }
            Reaction::FormAssociated(form) => of_form(alloc, *form),
            Reaction::FormDisabled(disabled) => of_texts(alloc, truth_word(*disabled), "", ""),
            Reaction::FormStateRestore(state, why) => {
                of_texts(alloc, state.as_str(), mode_word(*why), "")
            }
            _ => Args::none(alloc),
        }
    }

    /// No arguments. NoMemory: memory was refused.
    pub fn none(alloc: Global) -> Result<Args, NoMemory>
        ensures { IfOk result (λ a. a ≡ no_args) }
    {
        of_texts(alloc, "", "", "")
    }

    /// The text that a value names, by what the class remembers. NoMemory: memory was refused.
    pub fn text(&self, alloc: Global, memory: &Memory, v: &Val) -> Result<Text, NoMemory>
        ensures { IfOk result (λ t. t ≡ text_of memory.now self.now v.now) }
    {
        match v {
            Val::Fixed(t) => t.copy(alloc),
            Val::Count => memory.count(alloc),
            Val::Kept => memory.kept().copy(alloc),
            Val::First => self.first.copy(alloc),
            Val::Second => self.second.copy(alloc),
            Val::Third => self.third.copy(alloc),
        }
    }

    /// The value as the text that it names.
    pub(crate) fn value(&self, alloc: Global, memory: &Memory, v: &Val) -> Result<Val, NoMemory>
        ensures { IfOk result (λ x. x ≡ fixed_value memory.now self.now v.now) }
    {
        Ok(Val::Fixed(self.text(alloc, memory, v)?))
    }
}

fn node_text(alloc: Global, n: NodeNo) -> Result<Text, NoMemory>
    ensures { IfOk result (λ t. t ≡ text.node n) }
{
    Ok(Text::from(format!(in alloc; "#{}", n.0)?))
}

fn of_texts(alloc: Global, first: &str, second: &str, third: &str) -> Result<Args, NoMemory>
    ensures { IfOk result (λ a. a ≡ record { first = first.now; second = second.now; third = third.now }) }
{
    Ok(Args {
        first: Text::of(alloc, first)?,
        second: Text::of(alloc, second)?,
        third: Text::of(alloc, third)?,
    })
}

fn of_documents(alloc: Global, old: NodeNo, new: NodeNo) -> Result<Args, NoMemory>
    ensures { IfOk result (λ a. a ≡ record no_args { first = text.node old; second = text.node new }) }
{
    let first = node_text(alloc, old)?;
    let second = node_text(alloc, new)?;
    of_texts(alloc, first.as_str(), second.as_str(), "")
}

fn of_form(alloc: Global, form: Option<NodeNo>) -> Result<Args, NoMemory>
    ensures { IfOk result (λ a. a ≡ record no_args { first = or_empty (option_map text.node form) }) }
{
    match form {
        None => Args::none(alloc),
        Some(n) => {
            let first = node_text(alloc, n)?;
            of_texts(alloc, first.as_str(), "", "")
        }
    }
}

fn or_empty(text: &Option<Text>) -> &str
    ensures { result.now ≡ or_empty text.now }
{
    match text {
        None => "",
        Some(text) => text.as_str(),
    }
}
