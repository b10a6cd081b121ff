// A list of values.
ghost use Rattle.std.specs.Prelude.{◌≡◌, ◌++◌, ◌∷◌, [], length, IfOk, OnOk, option_copied, slice_get};

use ce_base::NoMemory;
use rule_tokens::Val;
use std::alloc::Global;
use std::marker::Model;

/// A list of values.
#[derive(Drop)]
pub struct Vals {
    items: Vec<Val>,
}

impl Model for Vals {
    ghost use Rattle.std.specs.Prelude.{List};
    ghost use Rattle.rule_tokens.specs.declared.operand.Val.{Val};

    ghost Value = { List Val };

    ghost view = { λ v. v.items.items };
}

impl Vals {
    /// No values.
    pub fn make(alloc: Global) -> Vals
        ensures { result ≡ [] }
    {
        Vals {
            items: Vec::new(alloc),
        }
    }

    /// Puts a value at the end. `NoMemory` comes only where memory was refused, and then the list is only dropped.
    pub fn push(&mut self, alloc: Global, v: Val) -> Result<(), NoMemory>
        ensures { OnOk result (self.new ≡ self.old ++ v ∷ []) }
    {
        self.items.push(v)?;
        Ok(())
    }

    /// How many values there are.
    pub fn len(&self) -> usize
        ensures { result ≡ length self.now }
    {
        self.items.len()
    }

    /// The value at a place, from 0. None exactly where the list ends before it.
    pub fn get(&self, i: usize) -> Option<&Val>
        ensures { option_copied result ≡ slice_get self.now i }
    {
        self.items.get(i)
    }

    /// The values, borrowed.
    pub fn as_slice(&self) -> &[Val]
        ensures { result.now ≡ self.now }
    {
        self.items.as_slice()
    }

    /// The values themselves.
    pub fn into_items(self) -> Vec<Val>
        ensures { result.items ≡ self }
    {
        self.items
    }

    /// A second list with the same values. `NoMemory` comes only where memory was refused.
    pub fn copy(&self, alloc: Global) -> Result<Vals, NoMemory>
        ensures { IfOk result (λ v. v ≡ self.now) }
    {
        let mut items = Vec::new(alloc);
        for v in &self.items {
            items.push(v.copy(alloc)?)?;
        }
        Ok(Vals { items })
    }
}
