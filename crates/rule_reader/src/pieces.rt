// Reads a line piece by piece.
ghost use Rattle.std.specs.Prelude.{◌≡◌, ◌++◌, ◌∷◌, [], OnOk};
ghost use Rattle.rule_tokens.specs.Gives.{Gives, GivesSeen, or_word};
ghost use Rattle.rule_reader.specs.First.{first_word};
ghost use Rattle.rule_reader.specs.Pieces.{form_of, piece_at};

use crate::around::{is_wrap, wrap_of};
use crate::first::first_named;
use crate::leaves::leaf_of;
use crate::takes::next;
use crate::{Leaf, Wrap};
use ce_base::NoMemory;
use rule_lines::Word;
use rule_tokens::{Bad, LineRefused, Token};
use std::alloc::Global;
use std::marker::Model;

/// What stands around an action, from the outside in.
#[derive(Drop)]
pub struct Wraps {
    items: Vec<Wrap>,
}

impl Model for Wraps {
    ghost use Rattle.std.specs.Prelude.{List};
    ghost use Rattle.rule_reader.specs.declared.form.Wrap.{Wrap};

    ghost Value = { List Wrap };

    ghost view = { λ w. w.items.items };
}

impl Wraps {
    /// Nothing.
    pub fn make(alloc: Global) -> Wraps
        ensures { result ≡ [] }
    {
        Wraps {
            items: Vec::new(alloc),
        }
    }

    /// Puts one more inside. `NoMemory` comes only where memory was refused, and then they are only dropped.
    pub fn push(&mut self, w: Wrap) -> Result<(), NoMemory>
        ensures { OnOk result (self.new ≡ self.old ++ w ∷ []) }
    {
        self.items.push(w)?;
        Ok(())
    }

    /// All, borrowed.
    pub fn as_slice(&self) -> &[Wrap]
        ensures { result.now ≡ self.now }
    {
        self.items.as_slice()
    }
}

/// What a line says: a form without an action, and what stands around it.
#[derive(Drop)]
pub struct Form {
    /// What stands around the form, from the outside in.
    pub wraps: Wraps,
    /// The form.
    pub leaf: Leaf,
}

/// One piece of a line.
#[derive(Drop)]
pub(crate) enum Piece {
    /// What stands around the action behind it.
    Around(Wrap),
    /// A form without an action. It is the last.
    Within(Leaf),
}

fn first_word(t: &Token) -> Result<Word, LineRefused>
    ensures { Gives result (or_word (first_word t.now)) }
{
    if t.quoted {
        return Err(LineRefused::Bad(Bad::Word));
    }
    match first_named(t.text.as_str()) {
        None => Err(LineRefused::Bad(Bad::Word)),
        Some(word) => Ok(word),
    }
}

#[tactic(auto, unfolding(crate::specs::Pieces::piece_at))]
fn piece_at(alloc: Global, tokens: &[Token]) -> Result<(Piece, &[Token]), LineRefused>
    ensures { GivesSeen (λ x. (x.0, x.1.now)) result (piece_at tokens.now) }
{
    let (t, rest) = next(tokens)?;
    let word = first_word(t)?;
    if is_wrap(word) {
        let (wrap, rest) = wrap_of(alloc, word, rest)?;
        return Ok((Piece::Around(wrap), rest));
    }
    let leaf = leaf_of(alloc, word, rest)?;
    Ok((Piece::Within(leaf), &[]))
}

/// What the tokens of a line say. They are refused for the first that is amiss, from the left: as `Bad::Word` where a
/// token is the first word of no form, or does not have the form that is wanted there; as `Bad::Arity` where a token is
/// missing or left over. `NoMemory` comes only where memory was refused, and tells nothing of the tokens.
#[tactic(auto, using(crate::proofs::Joins::join_steps))]
pub fn form_of(alloc: Global, tokens: &[Token]) -> Result<Form, LineRefused>
    ensures { Gives result (form_of tokens.now) }
{
    let mut wraps = Wraps::make(alloc);
    let mut rest = tokens;
    let mut left = tokens.len() + 1;
    'left: while left > 0 {
        left -= 1;
        let (piece, after) = piece_at(alloc, rest)?;
        match piece {
            Piece::Within(leaf) => return Ok(Form { wraps, leaf }),
            Piece::Around(wrap) => wraps.push(wrap)?,
        }
        rest = after;
    }
    Err(LineRefused::Bad(Bad::Arity))
}
