// A line that is being written: its bytes so far.
ghost use Rattle.std.specs.Prelude.{◌≡◌, ◌++◌, [], OnOk};
ghost use Rattle.std.specs.Fmt.{decimal};
ghost use Rattle.rule_tokens.specs.Quoted.{in_quotes};
ghost use Rattle.ce_events.specs.Text.{node, node_or_null, raised_or_valid, text_or_null};

use ce_base::{Flags, NoMemory, NodeNo, Text};
use rule_tokens::{push_names, push_quoted};
use std::alloc::Global;
use std::fmt::Write;
use std::marker::Model;

/// A line so far. A contract sees its bytes.
#[derive(Drop)]
pub(crate) struct Written {
    text: String,
}

impl Model for Written {
    ghost use Rattle.std.specs.Prelude.{ℕ, List, string_bytes};

    ghost Value = { List ℕ };

    ghost view = { λ w. string_bytes w.text };
}

impl Written {
    /// Nothing yet.
    pub(crate) fn make(alloc: Global) -> Written
        ensures { result ≡ [] }
    {
        Written {
            text: String::new(alloc),
        }
    }

    /// The line so far, borrowed.
    pub(crate) fn as_str(&self) -> &str
        ensures { result.now ≡ self.now }
    {
        self.text.as_str()
    }

    /// Puts a text behind, as it is.
    pub(crate) fn put(&mut self, text: &str) -> Result<(), NoMemory>
        ensures { OnOk result (self.new ≡ self.old ++ text.now) }
    {
        self.text.push_str(text)?;
        Ok(())
    }

    /// Puts a number behind, in decimal.
    pub(crate) fn put_number(&mut self, n: u64) -> Result<(), NoMemory>
        ensures { OnOk result (self.new ≡ self.old ++ decimal n) }
    {
        write!(self.text, "{n}")?;
        Ok(())
    }

    /// Puts a node behind.
    pub(crate) fn put_node(&mut self, n: NodeNo) -> Result<(), NoMemory>
        ensures { OnOk result (self.new ≡ self.old ++ node n) }
    {
        self.put("#")?;
        self.put_number(n.0)
    }

    /// Puts a node behind, or the word for none.
    pub(crate) fn put_node_or_null(&mut self, n: Option<NodeNo>) -> Result<(), NoMemory>
        ensures { OnOk result (self.new ≡ self.old ++ node_or_null n) }
    {
        match n {
            None => self.put("null"),
            Some(n) => self.put_node(n),
        }
    }

    /// Puts a text in quotes behind: a backslash, a quote and control characters by their escapes, all else as it stands.
    pub(crate) fn put_quoted(&mut self, alloc: Global, text: &str) -> Result<(), NoMemory>
        ensures { OnOk result (self.new ≡ self.old ++ in_quotes text.now) }
    {
        push_quoted(alloc, &mut self.text, text)?;
        Ok(())
    }

    /// Puts a text in quotes behind, or the word for none.
    pub(crate) fn put_text_or_null(
        &mut self,
        alloc: Global,
        text: &Option<Text>,
    ) -> Result<(), NoMemory>
        ensures { OnOk result (self.new ≡ self.old ++ text_or_null text.now) }
    {
        match text {
            None => self.put("null"),
            Some(text) => self.put_quoted(alloc, text.as_str()),
        }
    }

    /// Puts the names of the validity flags that are raised behind, in their order, with spaces between
    /// them, or the word for none.
    pub(crate) fn put_raised(&mut self, raised: &Flags) -> Result<(), NoMemory>
        ensures { OnOk result (self.new ≡ self.old ++ raised_or_valid raised.now.0) }
    {
        push_names(&mut self.text, raised, " ", "valid")
    }
}
