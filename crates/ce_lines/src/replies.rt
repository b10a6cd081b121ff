// The replies of lines.
ghost use Rattle.std.specs.Prelude.{◌≡◌, ◌++◌, OnOk};
ghost use Rattle.ce_events.specs.Text.{event_text, reply};

use crate::answers::put_answer;
use crate::calls::put_thrown;
use crate::words::bad_word;
use crate::written::Written;
use ce_base::{Fault, NoMemory, NodeNo};
use ce_events::{Answer, Event};
use rule_tokens::Bad;
use std::alloc::Global;

/// Puts the reply of a line, as far as this text.
pub(crate) fn put_reply(out: &mut Written, line: u64, rest: &str) -> Result<(), NoMemory>
    ensures { OnOk result (out.new ≡ out.old ++ reply line rest.now) }
{
    out.put_number(line)?;
    out.put(": ")?;
    out.put(rest)
}

pub(crate) fn put_gave(out: &mut Written, line: u64, n: NodeNo) -> Result<(), NoMemory>
    ensures { OnOk result (out.new ≡ out.old ++ event_text (Event.Gave line n)) }
{
    put_reply(out, line, "")?;
    out.put_node(n)
}

pub(crate) fn put_answered(
    alloc: Global,
    out: &mut Written,
    line: u64,
    answer: &Answer,
) -> Result<(), NoMemory>
    ensures { OnOk result (out.new ≡ out.old ++ event_text (Event.Answered line answer.now)) }
{
    put_reply(out, line, "")?;
    put_answer(alloc, out, answer)
}

pub(crate) fn put_threw(
    alloc: Global,
    out: &mut Written,
    line: u64,
    thrown: &Fault,
) -> Result<(), NoMemory>
    ensures { OnOk result (out.new ≡ out.old ++ event_text (Event.Threw line thrown.now)) }
{
    put_reply(out, line, "")?;
    put_thrown(alloc, out, "throw ", thrown)
}

pub(crate) fn put_was_bad(out: &mut Written, line: u64, bad: Bad) -> Result<(), NoMemory>
    ensures { OnOk result (out.new ≡ out.old ++ event_text (Event.WasBad line bad)) }
{
    put_reply(out, line, "bad ")?;
    out.put(bad_word(bad))
}
