// The bodies of a class's callbacks.
ghost use Rattle.std.specs.Prelude.{◌≡◌, ◌+◌, ◌^◌, ◌<◌, ◌++◌, ◌∷◌, [], drop, if◌then◌else◌, is_ok, slice_get, IfSome, MatchOption, OnErr, OnOk};
ghost use Rattle.rule_lines.specs.Acts.{act_of};
ghost use Rattle.ce_algorithms.specs.Body.{actions_of};

use ce_base::NoMemory;
use ce_registry::{CALL_COUNT, place_of};
use rule_lines::Action;
use rule_tokens::CallName;
use std::alloc::Global;
use std::marker::Model;

// Where the actions of a callback lie among the lines.
#[derive(Drop)]
struct Places {
    items: Vec<usize>,
}

impl Model for Places {
    ghost use Rattle.std.specs.Prelude.{List, ℕ};

    ghost Value = { List ℕ };

    ghost view = { λ p. p.items.items };
}

impl Places {
    fn make(alloc: Global) -> Places
        ensures { result ≡ [] }
    {
        Places {
            items: Vec::new(alloc),
        }
    }

    fn get(&self, index: usize) -> Option<usize>
        ensures place { result ≡ slice_get self.now index }
        ensures room { IfSome result (λ _. index + 1 < 2 ^ 64) }
    {
        self.items.get(index).copied()
    }

    fn push(&mut self, place: usize) -> Result<(), NoMemory>
        ensures { self.new ≡ (if is_ok result then self.old ++ place ∷ [] else self.old) }
    {
        self.items.push(place)?;
        Ok(())
    }
}

/// The bodies of a class's callbacks. A contract sees the actions in the order of their lines; beside them
/// stands for each callback where its own ones are.
#[derive(Drop)]
pub struct Bodies {
    lines: Vec<(CallName, Action)>,
    places: [Places; CALL_COUNT],
}

impl Model for Bodies {
    ghost use Rattle.std.specs.Prelude.{List};
    ghost use Rattle.std.specs.Coded.{codes};
    ghost use Rattle.rule_lines.specs.Acts.{Act};
    ghost use Rattle.rule_lines.specs.ActCode.{act_code};
    ghost use Rattle.rule_tokens.specs.declared.callback.CallName.{CallName};
    ghost use Rattle.class_bodies.specs.Bodies.{ArePlaced, lines_of};

    ghost Value = { List (CallName × Act) };

    ghost coded = { Prim.hlevel (codes, act_code) };

    ghost view = { λ b. lines_of b.lines.items };

    ghost invariant = { λ b. ArePlaced (lines_of b.lines.items) b.places };
}

impl Bodies {
    /// No actions.
    pub fn make(alloc: Global) -> Bodies
        ensures { result ≡ [] }
    {
        Bodies {
            lines: Vec::new(alloc),
            places: no_places(alloc),
        }
    }

    /// Puts an action behind the others of its callback. NoMemory: memory was refused, and nothing has changed.
    pub fn push(&mut self, call: CallName, action: Action) -> Result<(), NoMemory>
        ensures pushed { OnOk result (self.new ≡ self.old ++ (call, act_of action) ∷ []) }
        ensures same { OnErr result (self.new ≡ self.old) }
    {
        let place = self.lines.len();
        self.lines.push((call, action))?;
        match self.places[place_of(call)].push(place) {
            Ok(_) => Ok(()),
            Err(_) => {
                self.lines.truncate(place);
                Err(NoMemory)
            }
        }
    }

    /// The action of a callback's body at a place, from 0. None exactly where the body ends before it.
    pub fn get(&self, call: CallName, index: usize) -> Option<&Action>
        ensures action { MatchOption result (drop index (actions_of call self.now) ≡ [])
            (λ a. drop index (actions_of call self.now) ≡ act_of a.now ∷ drop (index + 1) (actions_of call self.now)) }
        ensures room { IfSome result (λ _. index + 1 < 2 ^ 64) }
    {
        match self.places[place_of(call)].get(index) {
            None => None,
            Some(place) => Some(&self.lines[place].1),
        }
    }
}

fn no_places(alloc: Global) -> [Places; CALL_COUNT]
    ensures { result ≡ [] ∷ [] ∷ [] ∷ [] ∷ [] ∷ [] ∷ [] ∷ [] ∷ [] ∷ [] }
{
    [
        Places::make(alloc),
        Places::make(alloc),
        Places::make(alloc),
        Places::make(alloc),
        Places::make(alloc),
        Places::make(alloc),
        Places::make(alloc),
        Places::make(alloc),
        Places::make(alloc),
    ]
}
