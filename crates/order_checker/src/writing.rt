// What events write into the book.
ghost use Rattle.std.specs.Prelude.{◌≡◌, ◌∷◌, ◌+◌, true, false, is_some, ℕ, Some, IfOk, IsSomeAnd};
ghost use Rattle.rule_tokens.specs.declared.callback.CallName.{CallName};
ghost use Rattle.ce_events.specs.declared.event.Event.TheVariants.{DrainBegun, QueueClosed, UpgradeBegun, UpgradeThrew};
ghost use Rattle.order_law.specs.After.{enqueued, marked, started, taken, written};
ghost use Rattle.order_law.specs.Book.{Filling, Reacting};
ghost use Rattle.order_law.specs.Clauses.{leads};
ghost use Rattle.order_law.specs.Law.{may_come};
ghost use Rattle.order_law.specs.Reads.{around, entry_of};
ghost use Rattle.order_checker.specs.Opened.{bracket_of};

use crate::brackets::Bracket;
use crate::checker::Checker;
use crate::waits::Waits;
use ce_base::{NoMemory, NodeNo, QueueNo, ReactionNo};
use ce_events::Event;
use rule_tokens::CallOrUpgrade;

impl Checker {
    /// What an event that may come writes.
    pub(crate) fn write(self, e: &Event) -> Result<Checker, NoMemory>
        requires { may_come self e.now ≡ true }
        ensures { IfOk result (λ c. c ≡ written self e.now) }
    {
        match e {
            Event::QueueOpened(q) => self.open(*q),
            Event::Enqueued(_, n, what, q) => self.enqueue(*n, *what, *q),
            Event::DrainBegun(q) => self.drain(*q),
            Event::Started(r) => self.start(*r),
            Event::Finished(_) | Event::UpgradeDone(_) => Ok(self.leave()),
            Event::Dropped(r) => self.take(*r),
            Event::QueueClosed(q) => Ok(self.close(*q)),
            Event::UpgradeBegun(n) => self.begin(*n),
            Event::UpgradeThrew(n) => self.throw(*n),
            Event::FuelLine => Ok(self.end()),
            _ => match e.call() {
                None => Ok(self),
                Some(_) => self.call(),
            },
        }
    }

    // A queue is pushed.
    fn open(self, q: QueueNo) -> Result<Checker, NoMemory>
        ensures { IfOk result (λ c. c ≡ record self { queues = q; brackets = Filling q ∷ self.brackets }) }
    {
        let brackets = self.brackets.with_queue(q)?;
        Ok(Checker {
            queues: q.0,
            brackets,
            ..self
        })
    }

    // A reaction is enqueued, with the next number.
    fn enqueue(self, n: NodeNo, what: CallOrUpgrade, q: QueueNo) -> Result<Checker, NoMemory>
        ensures { IfOk result (λ c. c ≡ enqueued (record { number = self.numbers + 1; element = n; what = what; queue = q }) self) }
    {
        let waits = self.waits.enqueue(n, what, q)?;
        Ok(Checker {
            waits,
            owed: self.owed || q.0 == 0,
            ..self
        })
    }

    // The draining of a queue begins.
    fn drain(self, q: QueueNo) -> Result<Checker, NoMemory>
        ensures { IfOk result (λ c. c ≡ written self (DrainBegun q)) }
    {
        let brackets = self.brackets.without().with(Bracket::Draining(q))?;
        Ok(Checker { brackets, ..self })
    }

    // A reaction that waits and leads starts.
    fn start(self, r: ReactionNo) -> Result<Checker, NoMemory>
        requires waits { is_some (entry_of r self.waiting) ≡ true }
        requires leads { leads (entry_of r self.waiting) self.waiting ≡ true }
        ensures { IfOk result (λ c. c ≡ started (entry_of r self.waiting) self) }
    {
        let bracket = reacting(&self.waits, r);
        let brackets = self.brackets.with(bracket)?;
        let waits = self.waits.take(r.0)?;
        Ok(Checker {
            waits,
            brackets,
            ..self
        })
    }

    // What ends a bracket that is no queue.
    fn leave(self) -> Checker
        ensures { result ≡ record self { brackets = around self.brackets } }
    {
        let brackets = self.brackets.without();
        Checker { brackets, ..self }
    }

    // A reaction that waits and leads is dropped.
    fn take(self, r: ReactionNo) -> Result<Checker, NoMemory>
        requires waits { is_some (entry_of r self.waiting) ≡ true }
        requires leads { leads (entry_of r self.waiting) self.waiting ≡ true }
        ensures { IfOk result (λ c. c ≡ taken r self) }
    {
        let waits = self.waits.take(r.0)?;
        Ok(Checker { waits, ..self })
    }

    // The draining of a queue ends.
    fn close(self, q: QueueNo) -> Checker
        ensures { result ≡ written self (QueueClosed q) }
    {
        let brackets = self.brackets.without();
        Checker {
            brackets,
            owed: self.owed && q.0 != 0,
            ..self
        }
    }

    // An upgrade begins.
    fn begin(self, n: NodeNo) -> Result<Checker, NoMemory>
        ensures { IfOk result (λ c. c ≡ written self (UpgradeBegun n)) }
    {
        let brackets = self.brackets.with(Bracket::Upgrading(n))?;
        let upgraded = self.upgraded.with(n)?;
        Ok(Checker {
            brackets,
            upgraded,
            ..self
        })
    }

    // An upgrade throws.
    fn throw(self, n: NodeNo) -> Result<Checker, NoMemory>
        ensures { IfOk result (λ c. c ≡ written self (UpgradeThrew n)) }
    {
        let brackets = self.brackets.without();
        let thrown = self.thrown.with(n)?;
        Ok(Checker {
            brackets,
            thrown,
            ..self
        })
    }

    // A callback's line marks the reaction that it stands in.
    fn call(self) -> Result<Checker, NoMemory>
        ensures { IfOk result (λ c. (line : ℕ × CallName) → c ≡ record self { brackets = marked (Some line) self.brackets }) }
    {
        let brackets = self.brackets.called()?;
        Ok(Checker { brackets, ..self })
    }

    // The fuel is spent.
    fn end(self) -> Checker
        ensures { result ≡ record self { over = true } }
    {
        Checker { over: true, ..self }
    }
}

// The bracket of a reaction that waits.
fn reacting(waits: &Waits, r: ReactionNo) -> Bracket
    requires { is_some (entry_of r waits.now.entries) ≡ true }
    ensures { IsSomeAnd (entry_of r waits.now.entries) (λ w. (w.number ≡ r) × (bracket_of result ≡ Reacting w false)) }
{
    match waits.slot(r.0) {
        Some(slot) => Bracket::Reacting(r, slot.element, slot.what, slot.queue, false),
        None => Bracket::Upgrading(NodeNo(0)),
    }
}
