// Behaviours: what classes do, and what they remember.
ghost use Rattle.std.specs.Prelude.{◌≡◌, ◌≤◌, IfOk, OnErr, OnOk};
ghost use Rattle.rule_lines.specs.Acts.{act_of};
ghost use Rattle.behaviours.specs.Behaviours.{left_at, new_behaviour, with_action};
ghost use Rattle.class_bodies.specs.Next.{resumed_to};
ghost use Rattle.class_bodies.specs.Resume.{resumed};

use ce_base::{Fuel, NoMemory};
use class_bodies::{Args, At, Bodies, Memory, Next, resume_in};
use rule_lines::Action;
use rule_tokens::CallName;
use std::alloc::Global;
use std::marker::Model;

/// What a class does, and what it remembers. There is one of each class, and it has no copy.
#[derive(Drop)]
pub struct Behaviour {
    bodies: Bodies,
    memory: Memory,
}

impl Model for Behaviour {
    ghost use Rattle.std.specs.Coded.{codes};
    ghost use Rattle.rule_lines.specs.ActCode.{act_code};
    ghost use Rattle.class_bodies.specs.Places.{Behaviour as IsBehaviour};

    ghost Value = { IsBehaviour };

    ghost coded = { Prim.hlevel (codes, act_code) };

    ghost view = { λ b. record { bodies = b.bodies; memory = b.memory } };
}

impl Behaviour {
    /// Of a class without callbacks, which remembers nothing yet.
    pub(crate) fn make(alloc: Global) -> Result<Behaviour, NoMemory>
        ensures { IfOk result (λ b. b ≡ new_behaviour) }
    {
        let memory = Memory::blank(alloc)?;
        Ok(Behaviour {
            bodies: Bodies::make(alloc),
            memory,
        })
    }

    /// Puts an action behind the others of its callback's body.
    pub(crate) fn extend(&mut self, call: CallName, action: Action) -> Result<(), NoMemory>
        ensures extended { OnOk result (self.new ≡ with_action call (act_of action) self.old) }
        ensures same { OnErr result (self.new ≡ self.old) }
    {
        self.bodies.push(call, action)
    }

    /// Runs a body from a place on. Before each action one unit of fuel is spent, and one more for the action
    /// in a `try` or an `if`. It runs `bump`, `keep`, `if` and `try` itself, and stops at the next other action,
    /// or at the end of the body.
    pub fn resume(
        &mut self,
        alloc: Global,
        at: &mut At,
        args: &Args,
        fuel: &mut Fuel,
    ) -> Result<Next, NoMemory>
        ensures resumed { IfOk result (λ next. resumed_to next self.new.memory fuel.new (left_at self.new at.new)
            ≡ resumed args.now (left_at self.old at.old) self.old.memory fuel.old) }
        ensures bodies { self.new.bodies ≡ self.old.bodies }
        ensures call { at.new.call ≡ at.old.call }
        ensures less { fuel.new ≤ fuel.old }
    {
        resume_in(&self.bodies, &mut self.memory, alloc, at, args, fuel)
    }
}
