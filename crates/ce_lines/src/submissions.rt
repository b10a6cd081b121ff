// Submissions of forms.
ghost use Rattle.std.specs.Prelude.{◌≡◌, ◌++◌, OnOk};
ghost use Rattle.ce_events.specs.Text.{cause, event_text, submit};

use crate::lists::put_nodes_from;
use crate::written::Written;
use ce_base::{NoMemory, NodeNo, Text};
use ce_events::{Cause, Event};
use std::alloc::Global;

fn put_submit(out: &mut Written, n: NodeNo, rest: &str) -> Result<(), NoMemory>
    ensures { OnOk result (out.new ≡ out.old ++ submit n rest.now) }
{
    out.put("submit ")?;
    out.put_node(n)?;
    out.put(" ")?;
    out.put(rest)
}

pub(crate) fn put_get(
    alloc: Global,
    out: &mut Written,
    n: NodeNo,
    url: &Text,
) -> Result<(), NoMemory>
    ensures { OnOk result (out.new ≡ out.old ++ event_text (Event.SubmitGet n url.now)) }
{
    put_submit(out, n, "get ")?;
    out.put_quoted(alloc, url.as_str())
}

pub(crate) fn put_post(
    alloc: Global,
    out: &mut Written,
    n: NodeNo,
    url: &Text,
    media: &Text,
    body: &Text,
) -> Result<(), NoMemory>
    ensures { OnOk result (out.new ≡ out.old ++ event_text (Event.SubmitPost n url.now media.now body.now)) }
{
    put_submit(out, n, "post ")?;
    out.put_quoted(alloc, url.as_str())?;
    out.put(" ")?;
    out.put_quoted(alloc, media.as_str())?;
    out.put(" ")?;
    out.put_quoted(alloc, body.as_str())
}

fn put_cause(out: &mut Written, why: &Cause) -> Result<(), NoMemory>
    ensures { OnOk result (out.new ≡ out.old ++ cause why.now) }
{
    match why {
        Cause::Disconnected => out.put("disconnected"),
        Cause::Invalid(nodes) => {
            out.put("invalid")?;
            put_nodes_from(out, nodes, 0)
        }
        Cause::Dialog => out.put("dialog"),
        Cause::Url => out.put("url"),
        Cause::Scheme => out.put("scheme"),
        Cause::Size => out.put("size"),
        Cause::Boundary => out.put("boundary"),
    }
}

pub(crate) fn put_blocked(out: &mut Written, n: NodeNo, why: &Cause) -> Result<(), NoMemory>
    ensures { OnOk result (out.new ≡ out.old ++ event_text (Event.SubmitBlocked n why.now)) }
{
    put_submit(out, n, "blocked ")?;
    put_cause(out, why)
}
