// Lists of texts and of nodes.
ghost use Rattle.std.specs.Prelude.{◌≡◌, ◌<◌, ◌++◌, OnOk, codes, drop, length, slice_index};
ghost use Rattle.ce_events.specs.Text.{node, nodes_or_empty, spaced, spaced_nodes, texts_or_empty};

use crate::written::Written;
use ce_base::{NoMemory, Nodes, Text};
use std::alloc::Global;

/// Puts a space and then the text in quotes behind, for each.
pub(crate) fn put_spaced(alloc: Global, out: &mut Written, texts: &[Text]) -> Result<(), NoMemory>
    ensures { OnOk result (out.new ≡ out.old ++ spaced texts.now) }
{
    for text in texts {
        out.put(" ")?;
        out.put_quoted(alloc, text.as_str())?;
    }
    Ok(())
}

/// Puts the texts in quotes behind, with spaces between them, or the word for no text.
pub(crate) fn put_texts(alloc: Global, out: &mut Written, texts: &[Text]) -> Result<(), NoMemory>
    ensures { OnOk result (out.new ≡ out.old ++ texts_or_empty texts.now) }
{
    match texts {
        [] => out.put("empty"),
        [first, rest @ ..] => {
            out.put_quoted(alloc, first.as_str())?;
            put_spaced(alloc, out, rest)
        }
    }
}

fn put_node_at(out: &mut Written, nodes: &Nodes, i: usize) -> Result<(), NoMemory>
    requires { i < length nodes.now }
    ensures { OnOk result (out.new ≡ out.old ++ codes " " ++ node (slice_index nodes.now i)) }
{
    let n = nodes.get(i).unwrap();
    out.put(" ")?;
    out.put_node(n)
}

/// Puts a space and then the node behind, for each from this place on.
pub(crate) fn put_nodes_from(out: &mut Written, nodes: &Nodes, start: usize) -> Result<(), NoMemory>
    ensures { OnOk result (out.new ≡ out.old ++ spaced_nodes (drop start nodes.now)) }
{
    for i in start..nodes.len() {
        put_node_at(out, nodes, i)?;
    }
    Ok(())
}

/// Puts the nodes behind, with spaces between them, or the word for no node.
pub(crate) fn put_nodes(out: &mut Written, nodes: &Nodes) -> Result<(), NoMemory>
    ensures { OnOk result (out.new ≡ out.old ++ nodes_or_empty nodes.now) }
{
    match nodes.get(0) {
        None => out.put("empty"),
        Some(first) => {
            out.put_node(first)?;
            put_nodes_from(out, nodes, 1)
        }
    }
}
