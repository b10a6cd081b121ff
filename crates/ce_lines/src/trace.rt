// The lines of a trace.
ghost use Rattle.std.specs.Prelude.{◌≡◌, ◌++◌, OnOk, true};
ghost use Rattle.std.specs.Fmt.{decimal};
ghost use Rattle.ce_events.specs.Text.{event_text, is_trace, node};

use crate::words::what_word;
use crate::written::Written;
use ce_base::{NoMemory, NodeNo, QueueNo, ReactionNo};
use ce_events::Event;
use rule_tokens::CallOrUpgrade;

/// Puts a word and a number behind.
fn put_step(out: &mut Written, word: &str, number: u64) -> Result<(), NoMemory>
    ensures { OnOk result (out.new ≡ out.old ++ word.now ++ decimal number) }
{
    out.put(word)?;
    out.put_number(number)
}

/// Puts a word and a node behind.
fn put_at(out: &mut Written, word: &str, n: NodeNo) -> Result<(), NoMemory>
    ensures { OnOk result (out.new ≡ out.old ++ word.now ++ node n) }
{
    out.put(word)?;
    out.put_node(n)
}

fn put_enqueued(
    out: &mut Written,
    r: ReactionNo,
    n: NodeNo,
    reaction: CallOrUpgrade,
    q: QueueNo,
) -> Result<(), NoMemory>
    ensures { OnOk result (out.new ≡ out.old ++ event_text (Event.Enqueued r n reaction q)) }
{
    put_step(out, "~ enq ", r.0)?;
    put_at(out, " ", n)?;
    out.put(" ")?;
    out.put(what_word(reaction))?;
    put_step(out, " ", q.0)
}

/// Puts the line of an event behind that only a trace shows.
pub(crate) fn put_traced(out: &mut Written, e: &Event) -> Result<(), NoMemory>
    requires { is_trace e.now ≡ true }
    ensures { OnOk result (out.new ≡ out.old ++ event_text e.now) }
{
    match e {
        Event::QueueOpened(q) => put_step(out, "~ open ", q.0),
        Event::Enqueued(r, n, reaction, q) => put_enqueued(out, *r, *n, *reaction, *q),
        Event::DrainBegun(q) => put_step(out, "~ drain ", q.0),
        Event::Started(r) => put_step(out, "~ start ", r.0),
        Event::Finished(r) => put_step(out, "~ finish ", r.0),
        Event::Dropped(r) => put_step(out, "~ drop ", r.0),
        Event::QueueClosed(q) => put_step(out, "~ close ", q.0),
        Event::UpgradeBegun(n) => put_at(out, "~ up ", *n),
        Event::UpgradeDone(n) => put_at(out, "~ done ", *n),
        Event::UpgradeThrew(n) => put_at(out, "~ threw ", *n),
        _ => Ok(()),
    }
}

/// Whether only a trace shows the event.
pub(crate) fn is_trace(e: &Event) -> bool
    ensures { result ≡ is_trace e.now }
{
    match e {
        Event::QueueOpened(_)
        | Event::Enqueued(_, _, _, _)
        | Event::DrainBegun(_)
        | Event::Started(_)
        | Event::Finished(_)
        | Event::Dropped(_)
        | Event::QueueClosed(_)
        | Event::UpgradeBegun(_)
        | Event::UpgradeDone(_)
        | Event::UpgradeThrew(_) => true,
        _ => false,
    }
}
