// A class, as the lines of a script made it.
ghost use Rattle.std.specs.Prelude.{◌≡◌, ◌++◌, true, OnOk};
ghost use Rattle.ce_algorithms.specs.Parts.{associated, change_facts, with_has, with_observed, without_internals, without_shadow};
ghost use Rattle.ce_algorithms.specs.State.{new_class};

use ce_base::{NoMemory, Text, Texts};
use ce_registry::ClassFacts;
use rule_tokens::CallName;
use std::alloc::Global;
use std::marker::Model;

/// A class: its name, what its definition takes over from it, and whether a definition has it. What it does and
/// remembers is kept apart, so a contract sees a class without bodies, whose memory is blank.
#[derive(Drop)]
pub struct Class {
    name: Text,
    facts: ClassFacts,
    frozen: bool,
}

impl Model for Class {
    ghost use Rattle.std.specs.Prelude.{[]};
    ghost use Rattle.std.specs.Coded.{codes};
    ghost use Rattle.rule_lines.specs.ActCode.{act_code};
    ghost use Rattle.ce_algorithms.specs.State.{Class as IsClass, blank_memory};

    ghost Value = { IsClass };

    ghost coded = { Prim.hlevel (codes, act_code) };

    ghost view = { λ c. record { name = c.name; facts = c.facts; bodies = []; frozen = c.frozen; memory = blank_memory } };
}

impl Class {
    /// A class without callbacks.
    pub fn make(alloc: Global, name: Text) -> Class
        ensures { result ≡ new_class name }
    {
        Class {
            name,
            facts: ClassFacts::make(alloc),
            frozen: false,
        }
    }

    /// The class's name.
    pub fn name(&self) -> &str
        ensures { result.now ≡ self.now.name }
    {
        self.name.as_str()
    }

    /// What a definition takes over from the class.
    pub fn facts(&self) -> &ClassFacts
        ensures { result.now ≡ self.now.facts }
    {
        &self.facts
    }

    /// Whether a definition has the class.
    pub fn is_frozen(&self) -> bool
        ensures { result ≡ self.now.frozen }
    {
        self.frozen
    }

    /// A definition has the class.
    pub fn freeze(&mut self)
        ensures { self.new ≡ record self.old { frozen = true } }
    {
        self.frozen = true;
    }

    /// The class has the callback.
    pub fn add_call(&mut self, call: CallName)
        ensures { self.new ≡ change_facts (with_has call) self.old }
    {
        self.facts.calls.add(call);
    }

    /// The class observes these attribute names too. NoMemory: memory was refused, and the class is only dropped.
    pub fn observe(&mut self, alloc: Global, names: &Texts) -> Result<(), NoMemory>
        ensures observed { OnOk result (self.new ≡ change_facts (with_observed names.now) self.old) }
        ensures name { self.new.name ≡ self.old.name }
    {
        push_all(alloc, &mut self.facts.observed, names)
    }

    /// The class is form-associated: its elements have form owners.
    pub fn associate(&mut self)
        ensures { self.new ≡ change_facts associated self.old }
    {
        self.facts.associated = true;
    }

    /// The class disables shadow: its elements get no shadow root.
    pub fn disable_shadow(&mut self)
        ensures { self.new ≡ change_facts without_shadow self.old }
    {
        self.facts.no_shadow = true;
    }

    /// The class disables internals: its elements get none.
    pub fn disable_internals(&mut self)
        ensures { self.new ≡ change_facts without_internals self.old }
    {
        self.facts.no_internals = true;
    }
}

fn push_all(alloc: Global, texts: &mut Texts, more: &Texts) -> Result<(), NoMemory>
    ensures { OnOk result (texts.new ≡ texts.old ++ more.now) }
{
    for t in more.as_slice() {
        texts.push(alloc, t.copy(alloc)?)?;
    }
    Ok(())
}
