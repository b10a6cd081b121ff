// The chains of classes.
ghost use Rattle.std.specs.Prelude.{◌≡◌, ◌-◌, ◌++◌, ◌∷◌, ◌<◌, [], take, length, vec_len, OnOk, OnErr};
ghost use Rattle.frame_stack.specs.Chains.{last, linked, topmost, unlinked};

use ce_base::{ClassNo, NoMemory};
use std::alloc::Global;
use std::marker::Model;

/// Where the frames of one class's bodies lie, the lowest first.
#[derive(Drop)]
pub(crate) struct Chain {
    items: Vec<usize>,
}

impl Model for Chain {
    ghost use Rattle.std.specs.Prelude.{List, ℕ};

    ghost Value = { List ℕ };

    ghost view = { λ c. c.items.items };
}

impl Chain {
    /// No frames.
    pub(crate) fn make(alloc: Global) -> Chain
        ensures { result ≡ [] }
    {
        Chain {
            items: Vec::new(alloc),
        }
    }

    fn last(&self) -> Option<usize>
        ensures { result ≡ last self.now }
    {
        self.items.last().copied()
    }

    fn push(&mut self, i: usize) -> Result<(), NoMemory>
        ensures pushed { OnOk result (self.new ≡ self.old ++ i ∷ []) }
        ensures same { OnErr result (self.new ≡ self.old) }
    {
        self.items.push(i)?;
        Ok(())
    }

    fn pop(&mut self)
        ensures { self.new ≡ take (length self.old - 1) self.old }
    {
        self.items.pop();
    }
}

/// Where the topmost frame of a class lies. None where it has none, or where there is no such class.
pub(crate) fn topmost(chains: &Vec<Chain>, class: ClassNo) -> Option<usize>
    ensures { result ≡ topmost class chains.now.items }
{
    match chains.get(class.0 as usize) {
        None => None,
        Some(c) => c.last(),
    }
}

/// One frame more of a class.
pub(crate) fn link(chains: &mut Vec<Chain>, class: ClassNo, i: usize) -> Result<(), NoMemory>
    requires { class < vec_len chains.old }
    ensures linked { OnOk result (chains.new.items ≡ linked class i chains.old.items) }
    ensures same { OnErr result (chains.new.items ≡ chains.old.items) }
{
    let chain = &mut chains[class.0 as usize];
    chain.push(i)
}

/// The topmost frame of a class is gone.
pub(crate) fn unlink(chains: &mut Vec<Chain>, class: ClassNo)
    requires { class < vec_len chains.old }
    ensures { chains.new.items ≡ unlinked class chains.old.items }
{
    let chain = &mut chains[class.0 as usize];
    chain.pop();
}
