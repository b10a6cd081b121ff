// Bytes that only contracts see.
ghost use Rattle.std.specs.Prelude.{◌≡◌, ℕ, List, [], ◌++◌};
ghost use Rattle.std.specs.Borrow.{ftrue};

use std::marker::Model;

/// Bytes that were taken. Only contracts see them: none is kept, and it takes no memory.
#[derive(Drop)]
pub(crate) struct Taken {
    pub(crate) ghost bytes: { List ℕ },
}

impl Model for Taken {
    ghost also_owns = { λ _. ftrue };
}

impl Taken {
    /// No bytes.
    pub(crate) fn none() -> Taken
        ensures { result.bytes ≡ [] }
    {
        Taken {}
    }

    /// Takes these bytes, behind the others. It does nothing.
    pub(crate) fn take(&mut self, _piece: &[u8])
        ensures { self.new.bytes ≡ self.old.bytes ++ _piece.now }
    {}
}
