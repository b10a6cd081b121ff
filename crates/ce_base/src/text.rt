// A text.
ghost use Rattle.std.specs.Prelude.{◌≡◌, IfOk, option_copied};

use crate::NoMemory;
use std::alloc::Global;
use std::marker::Model;

/// A text. A contract sees its bytes, which are UTF-8.
#[derive(Debug, Drop)]
pub struct Text {
    inner: String,
}

impl Model for Text {
    ghost use Rattle.std.specs.Prelude.{ℕ, List, string_bytes};

    ghost Value = { List ℕ };

    ghost view = { λ t. string_bytes t.inner };
}

impl Text {
    /// The text of `s`. NoMemory: memory was refused.
    pub fn of(alloc: Global, s: &str) -> Result<Text, NoMemory>
        ensures { IfOk result (λ t. t ≡ s.now) }
    {
        Ok(Text {
            inner: String::from_str(alloc, s)?,
        })
    }

    /// A second text with the same bytes. NoMemory: memory was refused.
    pub fn copy(&self, alloc: Global) -> Result<Text, NoMemory>
        ensures { IfOk result (λ t. t ≡ self.now) }
    {
        Text::of(alloc, self.as_str())
    }

    /// The text, borrowed.
    pub fn as_str(&self) -> &str
        ensures { result.now ≡ self.now }
    {
        self.inner.as_str()
    }
}

impl From<String> for Text {
    ghost use Rattle.std.specs.Prelude.{string_bytes};

    ghost from_gives = { λ s t. t ≡ string_bytes s };

    fn from(s: String) -> Self {
        Text { inner: s }
    }
}

/// The text of `text`, where one is given; it may be empty. NoMemory: memory was refused.
pub fn owned(alloc: Global, text: Option<&str>) -> Result<Option<Text>, NoMemory>
    ensures { IfOk result (λ t. t ≡ option_copied text.entry) }
{
    match text {
        None => Ok(None),
        Some(text) => Ok(Some(Text::of(alloc, text)?)),
    }
}

/// The same text once more, where there is one. NoMemory: memory was refused.
pub fn copy_of(alloc: Global, text: &Option<Text>) -> Result<Option<Text>, NoMemory>
    ensures { IfOk result (λ t. t ≡ text.now) }
{
    match text {
        None => Ok(None),
        Some(text) => Ok(Some(text.copy(alloc)?)),
    }
}
