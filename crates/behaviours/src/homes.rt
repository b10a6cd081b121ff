// Homes of behaviours.
ghost use Rattle.std.specs.Prelude.{◌≡◌, ◌<◌, ◌++◌, ◌∷◌, [], None, Some, true, is_some, length, slice_set, IfOk, OnErr, OnOk};
ghost use Rattle.rule_lines.specs.Acts.{act_of};
ghost use Rattle.class_bodies.specs.Places.{home_of};
ghost use Rattle.behaviours.specs.Behaviours.{extended_at, new_behaviour};

use crate::Behaviour;
use ce_base::{ClassNo, NoMemory};
use rule_lines::Action;
use rule_tokens::CallName;
use std::alloc::Global;
use std::marker::Model;

/// The homes of behaviours, one for each class. A class's behaviour is at home, or was taken.
#[derive(Drop)]
pub struct Homes {
    items: Vec<Option<Behaviour>>,
}

impl Model for Homes {
    ghost use Rattle.std.specs.Coded.{codes};
    ghost use Rattle.rule_lines.specs.ActCode.{act_code};
    ghost use Rattle.class_bodies.specs.Places.{Homes as AreHomes};

    ghost Value = { AreHomes };

    ghost coded = { Prim.hlevel (codes, act_code) };

    ghost view = { λ h. h.items.items };
}

impl Homes {
    /// No classes.
    pub fn make(alloc: Global) -> Homes
        ensures { result ≡ [] }
    {
        Homes {
            items: Vec::new(alloc),
        }
    }

    /// One class more, without callbacks. Its behaviour is at home, and remembers nothing yet. NoMemory: memory was
    /// refused, and nothing has changed.
    pub fn add(&mut self, alloc: Global) -> Result<ClassNo, NoMemory>
        ensures number { IfOk result (λ k. k ≡ length self.old) }
        ensures added { OnOk result (self.new ≡ self.old ++ Some new_behaviour ∷ []) }
        ensures same { OnErr result (self.new ≡ self.old) }
    {
        let class = ClassNo(self.items.len() as u64);
        self.put(Behaviour::make(alloc)?)?;
        Ok(class)
    }

    fn put(&mut self, b: Behaviour) -> Result<(), NoMemory>
        ensures added { OnOk result (self.new ≡ self.old ++ Some b ∷ []) }
        ensures same { OnErr result (self.new ≡ self.old) }
    {
        self.items.push(Some(b))?;
        Ok(())
    }

    /// Puts an action behind the others of a callback's body. The class's behaviour has to be at home. NoMemory: memory
    /// was refused, and nothing has changed.
    pub fn extend(
        &mut self,
        _alloc: Global,
        class: ClassNo,
        call: CallName,
        action: Action,
    ) -> Result<(), NoMemory>
        requires { is_some (home_of self.old class) ≡ true }
        ensures extended { OnOk result (self.new ≡ extended_at class call (act_of action) self.old) }
        ensures same { OnErr result (self.new ≡ self.old) }
    {
        match &mut self.items[class.0 as usize] {
            None => unreachable!(),
            Some(b) => b.extend(call, action),
        }
    }

    /// Whether the class's behaviour is at home.
    pub fn at_home(&self, class: ClassNo) -> bool
        ensures { result ≡ is_some (home_of self.now class) }
    {
        match self.items.get(class.0 as usize) {
            None => false,
            Some(home) => home.is_some(),
        }
    }

    /// Takes the class's behaviour from its home, where it has to be.
    pub fn take(&mut self, class: ClassNo) -> Behaviour
        requires { is_some (home_of self.old class) ≡ true }
        ensures taken { Some result ≡ home_of self.old class }
        ensures away { self.new ≡ slice_set self.old class None }
    {
        match self.items[class.0 as usize].take() {
            None => unreachable!(),
            Some(b) => b,
        }
    }

    /// Puts the class's behaviour back to its home, where it must not be.
    pub fn put_back(&mut self, class: ClassNo, b: Behaviour)
        requires made { class < length self.old }
        requires away { home_of self.old class ≡ None }
        ensures { self.new ≡ slice_set self.old class (Some b) }
    {
        self.items[class.0 as usize] = Some(b);
    }
}
