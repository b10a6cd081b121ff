// What is answered.
ghost use Rattle.std.specs.Prelude.{◌≡◌, ◌++◌, OnOk};
ghost use Rattle.ce_events.specs.Text.{answer, event_text};

use crate::lists::{put_nodes, put_texts};
use crate::words::{state_word, yes_or_no};
use crate::written::Written;
use ce_base::NoMemory;
use ce_events::{Answer, Event};
use std::alloc::Global;

/// Puts an answer behind.
pub(crate) fn put_answer(alloc: Global, out: &mut Written, given: &Answer) -> Result<(), NoMemory>
    ensures { OnOk result (out.new ≡ out.old ++ answer given.now) }
{
    match given {
        Answer::Null => out.put("null"),
        Answer::One(text) => out.put_quoted(alloc, text.as_str()),
        Answer::Many => out.put("list"),
        Answer::Node(n) => out.put_node(*n),
        Answer::Nodes(nodes) => put_nodes(out, nodes),
        Answer::Texts(texts) => put_texts(alloc, out, texts.as_slice()),
        Answer::State(state) => out.put(state_word(*state)),
        Answer::Truth(yes) => out.put(yes_or_no(*yes)),
        Answer::Raised(flags) => out.put_raised(flags),
    }
}

pub(crate) fn put_asked(alloc: Global, out: &mut Written, asked: &Answer) -> Result<(), NoMemory>
    ensures { OnOk result (out.new ≡ out.old ++ event_text (Event.Asked asked.now)) }
{
    out.put("ask ")?;
    put_answer(alloc, out, asked)
}
