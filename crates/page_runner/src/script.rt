// A source over a script that stays where it is.
ghost use Rattle.std.specs.Prelude.{◌≡◌, ◌≤◌, ◌<◌, ◌&&◌, nat_eq, Some, false, true, length};
ghost use Rattle.std.specs.Io.KnownBytes.{Consumes, IsAtEnd};
ghost use Rattle.ce_base.specs.Faults.{Rose};
ghost use Rattle.ce_base.specs.Outside.{bytes_got, IsWithin, gave_end};

use ce_base::{Got, Source};
use std::marker::Model;

// A source over the bytes of a script. It never fails.
#[derive(Drop)]
pub(crate) struct ScriptSource<'a> {
    rest: &'a [u8],
    ended: bool,
}

impl<'a> Model for ScriptSource<'a> {
    ghost use Rattle.page_runner.specs.Memory.{Rest};

    ghost Value = { Rest };

    ghost view = { λ s. record { left = s.rest.now; ended = s.ended } };
}

impl<'a> ScriptSource<'a> {
    // A source of this script.
    pub(crate) fn make(script: &'a [u8]) -> ScriptSource<'a>
        ensures { result ≡ record { left = script.now; ended = false } }
    {
        ScriptSource {
            rest: script,
            ended: false,
        }
    }
}

impl Source for ScriptSource<'_> {
    ghost left = { λ s. Some s.left };

    ghost failed = { λ s. 0 };

    ghost ended = { λ s. s.ended && nat_eq (length s.left) 0 };

    fn faults(&self) -> u64 {
        0
    }

    fn read(&mut self, buf: &mut [u8]) -> Got {
        if self.rest.is_empty() {
            self.ended = true;
            return Got::End;
        }
        let count = self.rest.len().min(buf.len());
        let (front, rest) = self.rest.split_at(count);
        buf[..count].copy_from_slice(front);
        self.rest = rest;
        self.ended = false;
        Got::Bytes(count)
    }
}
