// Numbers that name things. A contract sees each as the number that it holds.
ghost use Rattle.std.specs.Prelude.{◌≡◌, ◌-◌};

use std::marker::Model;

/// A node, numbered from 1 in the order of making. Node 1 is the page's document, and no node has the number 0.
#[derive(Clone, Copy, Debug, PartialEq, Eq)]
pub struct NodeNo(pub u64);

impl Model for NodeNo {
    ghost use Rattle.std.specs.Prelude.{ℕ};

    ghost Value = { ℕ };

    ghost view = { λ n. n.0 };

    ghost inverse = { λ n. record { 0 = n } };
}

impl NodeNo {
    /// The place of the node's row in a table with a row for each node: that of node 1 comes first. The number 0 has the
    /// same place, so that whoever asks such a table for it is answered for node 1.
    pub fn place(self) -> usize
        ensures { result ≡ self - 1 }
    {
        self.0.saturating_sub(1) as usize
    }
}

/// A class, numbered from 0 in the order of its declaration.
#[derive(Clone, Copy)]
pub struct ClassNo(pub u64);

impl Model for ClassNo {
    ghost use Rattle.std.specs.Prelude.{ℕ};

    ghost Value = { ℕ };

    ghost view = { λ n. n.0 };

    ghost inverse = { λ n. record { 0 = n } };
}

/// A custom element definition, numbered from 0 in the order of defining.
#[derive(Clone, Copy)]
pub struct DefNo(pub u64);

impl Model for DefNo {
    ghost use Rattle.std.specs.Prelude.{ℕ};

    ghost Value = { ℕ };

    ghost view = { λ n. n.0 };

    ghost inverse = { λ n. record { 0 = n } };
}

/// A reaction, numbered from 1 in the order of enqueuing.
#[derive(Clone, Copy, Debug)]
pub struct ReactionNo(pub u64);

impl Model for ReactionNo {
    ghost use Rattle.std.specs.Prelude.{ℕ};

    ghost Value = { ℕ };

    ghost view = { λ n. n.0 };

    ghost inverse = { λ n. record { 0 = n } };
}

/// An element queue, numbered from 1 in the order of pushing. Number 0 is the backup element queue.
#[derive(Clone, Copy, Debug)]
pub struct QueueNo(pub u64);

impl Model for QueueNo {
    ghost use Rattle.std.specs.Prelude.{ℕ};

    ghost Value = { ℕ };

    ghost view = { λ n. n.0 };

    ghost inverse = { λ n. record { 0 = n } };
}
