// The classes of a session.
ghost use Rattle.std.specs.Prelude.{◌≡◌, ◌<◌, ◌++◌, ◌∷◌, [], None, Some, length, option_copied, slice_get, IfSome, OnOk};
ghost use Rattle.ce_algorithms.specs.Parts.{associated, change_facts, with_has, with_observed, without_internals, without_shadow};
ghost use Rattle.ce_algorithms.specs.State.{Class as IsClass, class_named, new_class};
ghost use Rattle.class_table.specs.Classes.{changed, frozen_class};

use crate::class::Class;
use ce_base::{ClassNo, NoMemory, Text, Texts};
use rule_tokens::CallName;
use std::alloc::Global;
use std::collections::BTreeMap;
use std::marker::Model;

/// The classes of a session. A contract sees them in the order of their lines; a map finds them by their
/// names.
#[derive(Drop)]
pub struct Classes {
    items: Vec<Class>,
    numbers: BTreeMap<String, ClassNo>,
}

impl Model for Classes {
    ghost use Rattle.std.specs.Prelude.{List};
    ghost use Rattle.std.specs.Coded.{codes};
    ghost use Rattle.rule_lines.specs.ActCode.{act_code};
    ghost use Rattle.ce_algorithms.specs.State.{Class as IsClass};
    ghost use Rattle.class_table.specs.Classes.{Finds};

    ghost Value = { List IsClass };

    ghost coded = { Prim.hlevel (codes, act_code) };

    ghost view = { λ c. c.items.items };

    ghost invariant = { λ c. Finds c.numbers c.items.items };
}

impl Classes {
    /// No classes.
    pub fn make(alloc: Global) -> Classes
        ensures { result ≡ [] }
    {
        Classes {
            items: Vec::new(alloc),
            numbers: BTreeMap::new(alloc),
        }
    }

    /// The class with this name. None exactly where there is none.
    pub fn named(&self, name: &str) -> Option<ClassNo>
        ensures named { result ≡ class_named self.now name.now }
        ensures within { IfSome result (λ k. k < length self.now) }
    {
        self.numbers.get(name).copied()
    }

    /// The class with a number that is there.
    pub fn at(&self, k: ClassNo) -> &Class
        requires { k < length self.now }
        ensures { slice_get self.now k ≡ Some result.now }
    {
        &self.items[k.0 as usize]
    }

    /// The class with a number. None exactly where no class has it.
    pub fn get(&self, k: ClassNo) -> Option<&Class>
        ensures { option_copied result ≡ slice_get self.now k }
    {
        self.items.get(k.0 as usize)
    }

    /// Puts a class without callbacks behind the others. NoMemory: memory was refused, and the list is only dropped.
    pub fn add(&mut self, alloc: Global, name: Text) -> Result<(), NoMemory>
        requires { class_named self.old name ≡ None }
        ensures { OnOk result (self.new ≡ self.old ++ new_class name ∷ []) }
    {
        let key = String::from_str(alloc, name.as_str())?;
        let number = ClassNo(self.items.len() as u64);
        self.items.push(Class::make(alloc, name))?;
        match self.numbers.insert(key, number) {
            Ok(_) => Ok(()),
            Err(_) => {
                self.items.pop();
                Err(NoMemory)
            }
        }
    }

    /// A definition has the class, where there is one with this number.
    pub fn freeze(&mut self, k: ClassNo)
        ensures { self.new ≡ changed k frozen_class self.old }
    {
        if k.0 < self.items.len() as u64 {
            self.items[k.0 as usize].freeze();
        }
    }

    /// A class has the callback.
    pub fn add_call(&mut self, k: ClassNo, call: CallName)
        requires { k < length self.old }
        ensures { self.new ≡ changed k (change_facts (with_has call)) self.old }
    {
        self.items[k.0 as usize].add_call(call);
    }

    /// A class observes these attribute names too. NoMemory: memory was refused, and the list is only dropped.
    pub fn observe(&mut self, alloc: Global, k: ClassNo, names: &Texts) -> Result<(), NoMemory>
        requires { k < length self.old }
        ensures { OnOk result (self.new ≡ changed k (change_facts (with_observed names.now)) self.old) }
    {
        self.items[k.0 as usize].observe(alloc, names)
    }

    /// A class is form-associated.
    pub fn associate(&mut self, k: ClassNo)
        requires { k < length self.old }
        ensures { self.new ≡ changed k (change_facts associated) self.old }
    {
        self.items[k.0 as usize].associate();
    }

    /// A class disables shadow.
    pub fn disable_shadow(&mut self, k: ClassNo)
        requires { k < length self.old }
        ensures { self.new ≡ changed k (change_facts without_shadow) self.old }
    {
        self.items[k.0 as usize].disable_shadow();
    }

    /// A class disables internals.
    pub fn disable_internals(&mut self, k: ClassNo)
        requires { k < length self.old }
        ensures { self.new ≡ changed k (change_facts without_internals) self.old }
    {
        self.items[k.0 as usize].disable_internals();
    }
}
