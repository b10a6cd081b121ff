// What a definition takes over from its class.
ghost use Rattle.std.specs.Prelude.{◌≡◌, ◌<◌, IfOk};
ghost use Rattle.ce_registry.specs.ClassFacts.{has_call, no_facts, place_of, with_call};

use ce_base::{NoMemory, Texts};
use rule_tokens::CallName;
use std::alloc::Global;

/// How many callbacks there are, with the constructor.
pub const CALL_COUNT: usize = 9;

/// The callbacks that a class has, and whether it has a constructor of its own (HTML Standard, section "Core
/// concepts", a definition's lifecycle callbacks), in this order: constructor, connected, disconnected,
/// adopted, attribute, formAssociated, formDisabled, formReset, formStateRestore.
#[derive(Clone, Copy)]
pub struct Calls(pub [bool; CALL_COUNT]);

/// What a definition takes over from its class (HTML Standard, section "Core concepts": a definition's
/// lifecycle callbacks, observed attributes, form-associated, disable shadow, disable internals).
#[derive(Drop)]
pub struct ClassFacts {
    /// The callbacks that it has.
    pub calls: Calls,
    /// The attributes whose changes it is told of.
    pub observed: Texts,
    /// Its elements are form-associated.
    pub associated: bool,
    /// Its elements can't have a shadow root.
    pub no_shadow: bool,
    /// Its elements have no element internals.
    pub no_internals: bool,
}

impl Calls {
    /// The class has this callback too.
    pub fn add(&mut self, call: CallName)
        ensures { self.new ≡ with_call call self.old }
    {
        self.0[place_of(call)] = true;
    }

    /// Whether the class has this callback.
    pub fn has(&self, call: CallName) -> bool
        ensures { result ≡ has_call call self.now }
    {
        self.0[place_of(call)]
    }
}

/// The place of a callback in their order.
pub fn place_of(call: CallName) -> usize
    ensures place { result ≡ place_of call }
    ensures within { result < CALL_COUNT }
{
    match call {
        CallName::Constructor => 0,
        CallName::Connected => 1,
        CallName::Disconnected => 2,
        CallName::Adopted => 3,
        CallName::Attribute => 4,
        CallName::FormAssociated => 5,
        CallName::FormDisabled => 6,
        CallName::FormReset => 7,
        CallName::FormStateRestore => 8,
    }
}

impl ClassFacts {
    /// The facts of a class without callbacks.
    pub fn make(alloc: Global) -> ClassFacts
        ensures { result ≡ no_facts }
    {
        ClassFacts {
            calls: Calls([false; CALL_COUNT]),
            observed: Texts::make(alloc),
            associated: false,
            no_shadow: false,
            no_internals: false,
        }
    }

    /// The same facts a second time. `NoMemory` comes only where memory was refused.
    pub fn copy(&self, alloc: Global) -> Result<ClassFacts, NoMemory>
        ensures { IfOk result (λ f. f ≡ self.now) }
    {
        Ok(ClassFacts {
            calls: self.calls,
            observed: self.observed.copy(alloc)?,
            associated: self.associated,
            no_shadow: self.no_shadow,
            no_internals: self.no_internals,
        })
    }
}
