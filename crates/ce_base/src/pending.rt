// Bytes that were gathered, and not passed on yet.
ghost use Rattle.std.specs.Prelude.{◌≡◌, ◌≤◌, ◌-◌, ◌++◌, [], IfOk, OnErr, length, drop, min, take};

use crate::NoMemory;
use std::alloc::Global;
use std::marker::Model;

// How many bytes are held at most.
const MOST: usize = 65_536;

/// At most 65,536 bytes in their order. A contract sees them as a list.
#[derive(Drop)]
pub struct Pending {
    bytes: Vec<u8>,
}

impl Model for Pending {
    ghost use Rattle.std.specs.Prelude.{◌≤◌, ℕ, List, vec_len};

    ghost Value = { List ℕ };

    ghost view = { λ p. p.bytes.items };

    ghost invariant = { λ p. vec_len p.bytes ≤ 65536 };
}

impl Pending {
    /// No bytes.
    pub fn make(alloc: Global) -> Pending
        ensures { result ≡ [] }
    {
        Pending {
            bytes: Vec::new(alloc),
        }
    }

    /// The bytes.
    pub fn as_slice(&self) -> &[u8]
        ensures bytes { result.now ≡ self.now }
        ensures most { length result.now ≤ MOST }
    {
        &self.bytes
    }

    /// How many more bytes have room.
    pub fn room(&self) -> usize
        ensures { result ≡ MOST - length self.now }
    {
        MOST - self.bytes.len()
    }

    /// Puts as many bytes behind the others as there is room for, and says how many. Where memory is
    /// refused, nothing changes.
    pub fn push(&mut self, bytes: &[u8]) -> Result<usize, NoMemory>
        ensures count { IfOk result (λ count. count ≡ min (length bytes.now) (MOST - length self.old)) }
        ensures ok { IfOk result (λ count. self.new ≡ self.old ++ take count bytes.now) }
        ensures err { OnErr result (self.new ≡ self.old) }
    {
        let count = bytes.len().min(self.room());
        self.bytes.extend_from_slice(&bytes[..count])?;
        Ok(count)
    }

    /// Takes so many bytes off the front.
    pub fn take(&mut self, count: usize)
        requires { count ≤ length self.old }
        ensures { self.new ≡ drop count self.old }
    {
        self.bytes.drain(..count);
    }
}
