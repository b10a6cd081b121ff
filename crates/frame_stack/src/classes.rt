// The classes, while no frame lies on the stack.
ghost use Rattle.std.specs.Prelude.{◌≡◌, ◌<◌, ◌++◌, ◌∷◌, [], length, OnOk};
ghost use Rattle.rule_lines.specs.Acts.{act_of};
ghost use Rattle.behaviours.specs.Behaviours.{new_behaviour};
ghost use Rattle.frame_stack.specs.Changes.{extended};
ghost use Rattle.frame_stack.specs.Stacked.{behaviours_of};

use crate::Stack;
use crate::chain::Chain;
use ce_base::{ClassNo, NoMemory};
use rule_lines::Action;
use rule_tokens::CallName;
use std::alloc::Global;

impl Stack {
    /// One class more, without callbacks, which remembers nothing yet. NoMemory: memory was refused, and the stack is
    /// only dropped.
    pub fn add_class(&mut self, alloc: Global) -> Result<(), NoMemory>
        requires { self.old.frames ≡ [] }
        ensures behaviours { OnOk result (behaviours_of self.new ≡ behaviours_of self.old ++ new_behaviour ∷ []) }
        ensures frames { OnOk result (self.new.frames ≡ []) }
    {
        self.chains.push(Chain::make(alloc))?;
        match self.homes.add(alloc) {
            Ok(_) => Ok(()),
            Err(NoMemory) => {
                self.chains.pop();
                Err(NoMemory)
            }
        }
    }

    /// Puts an action behind the others of a callback's body. NoMemory: memory was refused, and the stack is only
    /// dropped.
    pub fn extend(
        &mut self,
        alloc: Global,
        class: ClassNo,
        call: CallName,
        action: Action,
    ) -> Result<(), NoMemory>
        requires frames { self.old.frames ≡ [] }
        requires class { class < length (behaviours_of self.old) }
        ensures behaviours { OnOk result (behaviours_of self.new ≡ extended class call (act_of action) (behaviours_of self.old)) }
        ensures frames { OnOk result (self.new.frames ≡ []) }
    {
        self.homes.extend(alloc, class, call, action)
    }
}
