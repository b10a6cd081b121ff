// The open brackets of a log.
ghost use Rattle.std.specs.Prelude.{◌≡◌, ◌∷◌, [], ℕ, true, false, not, Some, OnOk, IfOk, MatchOption};
ghost use Rattle.reaction_queue.specs.ElementQueues.{is_empty};
ghost use Rattle.order_law.specs.Reads.{current, around, is_callback, is_for};
ghost use Rattle.order_law.specs.Book.{Filling};
ghost use Rattle.order_law.specs.Clauses.{is_in_drain, has_called, may_upgrade, may_call, begins_drain, ends_drain, ends_reaction, ends_upgrade};
ghost use Rattle.order_law.specs.After.{marked};
ghost use Rattle.rule_tokens.specs.declared.callback.CallName.{CallName as ACallName};
ghost use Rattle.order_checker.specs.Opened.{with_call, bracket_of, is_filling};

use ce_base::{NoMemory, NodeNo, QueueNo, ReactionNo};
use rule_tokens::{CallName, CallOrUpgrade};
use std::alloc::Global;
use std::marker::Model;

/// A bracket that is open.
#[derive(Drop)]
pub(crate) enum Bracket {
    Filling(QueueNo),
    Draining(QueueNo),
    Reacting(ReactionNo, NodeNo, CallOrUpgrade, QueueNo, bool),
    Upgrading(NodeNo),
}

/// The open brackets. A contract sees the innermost first.
#[derive(Drop)]
pub(crate) struct Brackets {
    open: Vec<Bracket>,
    filling: Vec<QueueNo>,
}

impl Model for Brackets {
    ghost use Rattle.std.specs.Prelude.{List, reverse, map, ◌≡◌};
    ghost use Rattle.order_law.specs.Book.{Bracket as ABracket};

    ghost Value = { List ABracket };

    ghost use Rattle.order_law.specs.Reads.{fillings};
    ghost use Rattle.order_checker.specs.Opened.{bracket_of};

    ghost view = { λ b. reverse (map bracket_of b.open.items) };

    ghost invariant = { λ b. reverse b.filling.items ≡ fillings (reverse (map bracket_of b.open.items)) };
}

impl Brackets {
    /// No bracket.
    pub(crate) fn make(alloc: Global) -> Brackets
        ensures { result ≡ [] }
    {
        Brackets {
            open: Vec::new(alloc),
            filling: Vec::new(alloc),
        }
    }

    /// Whether none is open.
    pub(crate) fn is_none(&self) -> bool
        ensures { result ≡ is_empty self.now }
    {
        self.open.is_empty()
    }

    /// The current element queue, or 0.
    pub(crate) fn current(&self) -> QueueNo
        ensures { result ≡ current self.now }
    {
        match self.filling.last() {
            Some(q) => *q,
            None => QueueNo(0),
        }
    }

    /// The innermost.
    pub(crate) fn innermost(&self) -> Option<&Bracket>
        ensures { MatchOption result (self.now ≡ []) (λ b. self.now ≡ bracket_of b.now ∷ around self.now) }
    {
        self.open.last()
    }

    /// Whether the innermost is a queue that is draining.
    pub(crate) fn is_in_drain(&self) -> bool
        ensures { result ≡ is_in_drain self.now }
    {
        matches!(self.innermost(), Some(Bracket::Draining(_)))
    }

    /// Opens a bracket that is no queue being filled.
    pub(crate) fn with(self, b: Bracket) -> Result<Brackets, NoMemory>
        requires { is_filling (bracket_of b) ≡ false }
        ensures { IfOk result (λ w. w ≡ bracket_of b ∷ self) }
    {
        let Brackets { mut open, filling } = self;
        open.push(b)?;
        Ok(Brackets { open, filling })
    }

    /// Without the innermost.
    pub(crate) fn without(self) -> Brackets
        ensures { result ≡ around self }
    {
        let Brackets {
            mut open,
            mut filling,
        } = self;
        if let Some(Bracket::Filling(_)) = open.pop() {
            filling.pop();
        }
        Brackets { open, filling }
    }

    /// A callback's line marks the reaction that it stands in.
    pub(crate) fn called(self) -> Result<Brackets, NoMemory>
        ensures { IfOk result (λ b. (c : ℕ × ACallName) → b ≡ marked (Some c) self) }
    {
        let Brackets { mut open, filling } = self;
        match open.pop() {
            None => Ok(Brackets { open, filling }),
            Some(top) => {
                open.push(with_call(top))?;
                Ok(Brackets { open, filling })
            }
        }
    }

    /// Opens a queue that is being filled.
    pub(crate) fn with_queue(self, q: QueueNo) -> Result<Brackets, NoMemory>
        ensures { IfOk result (λ b. b ≡ Filling q ∷ self) }
    {
        let Brackets {
            mut open,
            mut filling,
        } = self;
        filling.push(q)?;
        open.push(Bracket::Filling(q))?;
        Ok(Brackets { open, filling })
    }

    /// Whether the draining of a queue may begin.
    pub(crate) fn begins_drain(&self, q: QueueNo) -> bool
        ensures { result ≡ begins_drain q self.now }
    {
        match self.innermost() {
            None => q.0 == 0,
            Some(Bracket::Filling(m)) => m.0 == q.0,
            _ => false,
        }
    }

    /// Whether the innermost is the draining of the queue.
    pub(crate) fn ends_drain(&self, q: QueueNo) -> bool
        ensures { result ≡ ends_drain q self.now }
    {
        match self.innermost() {
            Some(Bracket::Draining(m)) => m.0 == q.0,
            _ => false,
        }
    }

    /// Whether the innermost is the reaction.
    pub(crate) fn ends_reaction(&self, r: ReactionNo) -> bool
        ensures { result ≡ ends_reaction r self.now }
    {
        match self.innermost() {
            Some(Bracket::Reacting(number, _, _, _, _)) => number.0 == r.0,
            _ => false,
        }
    }

    /// Whether the innermost is the element's upgrade.
    pub(crate) fn ends_upgrade(&self, n: NodeNo) -> bool
        ensures { result ≡ ends_upgrade n self.now }
    {
        match self.innermost() {
            Some(Bracket::Upgrading(m)) => m.0 == n.0,
            _ => false,
        }
    }

    /// Whether the element's upgrade may begin.
    pub(crate) fn may_upgrade(&self, n: NodeNo) -> bool
        ensures { result ≡ may_upgrade n self.now }
    {
        match self.innermost() {
            Some(Bracket::Reacting(_, element, what, _, _)) => {
                element.0 == n.0 && !is_callback(*what)
            }
            Some(Bracket::Filling(_)) => true,
            _ => false,
        }
    }

    /// Whether the callback's line may come.
    pub(crate) fn may_call(&self, n: NodeNo, name: CallName) -> bool
        ensures { result ≡ may_call (Some (n, name)) self.now }
    {
        match self.innermost() {
            Some(Bracket::Reacting(_, element, what, _, false)) => {
                element.0 == n.0 && is_for(*what, name)
            }
            _ => false,
        }
    }

    /// Whether the innermost is a reaction that has had its line, or needs none.
    pub(crate) fn has_called(&self) -> bool
        ensures { result ≡ has_called self.now }
    {
        match self.innermost() {
            Some(Bracket::Reacting(_, _, what, _, called)) => *called || !is_callback(*what),
            _ => false,
        }
    }
}

// The bracket with its callback's line, where it is a reaction.
fn with_call(b: Bracket) -> Bracket
    ensures { result ≡ with_call b }
{
    match b {
        Bracket::Reacting(number, element, what, queue, _) => {
            Bracket::Reacting(number, element, what, queue, true)
        }
        other => other,
    }
}

// Whether a reaction is a callback.
pub(crate) fn is_callback(what: CallOrUpgrade) -> bool
    ensures { result ≡ is_callback what }
{
    matches!(what, CallOrUpgrade::Call(_))
}

// Whether a reaction is this callback.
fn is_for(what: CallOrUpgrade, name: CallName) -> bool
    ensures { result ≡ is_for what name }
{
    match what {
        CallOrUpgrade::Call(call) => call == name,
        CallOrUpgrade::Upgrade => false,
    }
}
