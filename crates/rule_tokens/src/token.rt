// Tokens.
ghost use Rattle.std.specs.Prelude.{◌≡◌, ◌++◌, ◌∷◌, [], OnOk};

use ce_base::{NoMemory, Text};
use std::alloc::Global;
use std::marker::Model;

/// A token of a line.
#[derive(Drop)]
pub struct Token {
    /// It stood in quotes.
    pub quoted: bool,
    /// The text that it says.
    pub text: Text,
}

/// A list of tokens.
#[derive(Drop)]
pub struct Tokens {
    items: Vec<Token>,
}

impl Model for Tokens {
    ghost use Rattle.std.specs.Prelude.{List};
    ghost use Rattle.rule_tokens.specs.declared.token.Token.{Token};

    ghost Value = { List Token };

    ghost view = { λ t. t.items.items };
}

impl Tokens {
    /// No tokens.
    pub fn make(alloc: Global) -> Tokens
        ensures { result ≡ [] }
    {
        Tokens {
            items: Vec::new(alloc),
        }
    }

    /// Puts a token at the end. `NoMemory` comes only where memory was refused, and then the list is only dropped.
    pub fn push(&mut self, t: Token) -> Result<(), NoMemory>
        ensures { OnOk result (self.new ≡ self.old ++ t ∷ []) }
    {
        self.items.push(t)?;
        Ok(())
    }

    /// The tokens, borrowed.
    pub fn as_slice(&self) -> &[Token]
        ensures { result.now ≡ self.now }
    {
        self.items.as_slice()
    }
}
