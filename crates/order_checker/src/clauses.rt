// The clauses of the law, each the test of an event against the book.
ghost use Rattle.std.specs.Prelude.{◌≡◌, ◌==◌, ◌+◌};
ghost use Rattle.order_law.specs.Clauses.{begins_upgrade, calls_once, closes_empty, counts_up, drops_in_upgrade, ends_innermost, fuel_is_last};
ghost use Rattle.order_law.specs.Clauses.{goes_on, loser, nests, replies_at_rest, runs_in_order, spares_thrown, starts_once};
ghost use Rattle.order_law.specs.Law.{may_come};
ghost use Rattle.order_law.specs.Lines.{is_reply};

use crate::brackets::is_callback;
use crate::checker::Checker;
use ce_base::NodeNo;
use ce_events::Event;

impl Checker {
    /// Whether the event keeps each clause.
    pub fn may_come(&self, e: &Event) -> bool
        ensures { result ≡ may_come self.now e.now }
    {
        self.counts_up(e)
            && self.starts_once(e)
            && self.calls_once(e)
            && self.runs_in_order(e)
            && self.drops_in_upgrade(e)
            && self.goes_on(e)
            && self.closes_empty(e)
            && self.nests(e)
            && self.begins_upgrade(e)
            && self.spares_thrown(e)
            && self.replies_at_rest(e)
            && self.fuel_is_last(e)
    }

    // First clause.
    fn counts_up(&self, e: &Event) -> bool
        ensures { result ≡ counts_up self.now e.now }
    {
        match e {
            Event::QueueOpened(q) => follows(q.0, self.queues),
            Event::Enqueued(r, _, _, q) => {
                follows(r.0, self.waits.numbers()) && q.0 == self.brackets.current().0
            }
            _ => true,
        }
    }

    // Second clause, of starts and drops.
    fn starts_once(&self, e: &Event) -> bool
        ensures { result ≡ starts_once self.now e.now }
    {
        match e {
            Event::Started(r) => self.waits.waits(r.0) && self.brackets.is_in_drain(),
            Event::Dropped(r) => self.waits.waits(r.0),
            _ => true,
        }
    }

    // Second clause, of the lines of callbacks.
    fn calls_once(&self, e: &Event) -> bool
        ensures { result ≡ calls_once self.now e.now }
    {
        match e {
            Event::Finished(_) => self.brackets.has_called(),
            _ => match e.call() {
                None => true,
                Some((n, name)) => self.brackets.may_call(n, name),
            },
        }
    }

    // Third clause.
    fn runs_in_order(&self, e: &Event) -> bool
        ensures { result ≡ runs_in_order self.now e.now }
    {
        match e {
            Event::Started(r) | Event::Dropped(r) => self.waits.leads(r.0),
            _ => true,
        }
    }

    // Fourth clause, where a drop stands, and what waits at a throw.
    fn drops_in_upgrade(&self, e: &Event) -> bool
        ensures { result ≡ drops_in_upgrade self.now e.now }
    {
        match e {
            Event::Dropped(r) => match self.waits.slot(r.0) {
                Some(slot) => self.brackets.ends_upgrade(slot.element),
                None => false,
            },
            Event::UpgradeThrew(n) => self.waits.none_of_element(*n),
            _ => true,
        }
    }

    // The element whose reaction is dropped, or whose upgrade threw.
    fn loser(&self, e: &Event) -> Option<NodeNo>
        ensures { result ≡ loser self.now e.now }
    {
        match e {
            Event::UpgradeThrew(n) => Some(*n),
            Event::Dropped(r) => match self.waits.slot(r.0) {
                Some(slot) => Some(slot.element),
                None => None,
            },
            _ => None,
        }
    }

    // Fourth clause, what follows a drop.
    fn goes_on(&self, e: &Event) -> bool
        ensures { result ≡ goes_on self.now.dropping (loser self.now e.now) }
    {
        match self.dropping {
            None => true,
            Some(n) => match self.loser(e) {
                Some(m) => n.0 == m.0,
                None => false,
            },
        }
    }

    // Fifth clause.
    fn closes_empty(&self, e: &Event) -> bool
        ensures { result ≡ closes_empty self.now e.now }
    {
        match e {
            Event::QueueClosed(q) => self.waits.none_of_queue(*q),
            _ => true,
        }
    }

    // Sixth clause, what ends a bracket.
    fn ends_innermost(&self, e: &Event) -> bool
        ensures { result ≡ ends_innermost self.now e.now }
    {
        match e {
            Event::DrainBegun(q) => self.brackets.begins_drain(*q),
            Event::QueueClosed(q) => self.brackets.ends_drain(*q),
            Event::Finished(r) => self.brackets.ends_reaction(*r),
            Event::UpgradeDone(n) | Event::UpgradeThrew(n) => self.brackets.ends_upgrade(*n),
            _ => true,
        }
    }

    // Sixth clause.
    fn nests(&self, e: &Event) -> bool
        ensures { result ≡ nests self.now e.now }
    {
        self.ends_innermost(e) && !(is_reply(e) && self.owed)
    }

    // Seventh clause, where an upgrade begins.
    fn begins_upgrade(&self, e: &Event) -> bool
        ensures { result ≡ begins_upgrade self.now e.now }
    {
        match e {
            Event::UpgradeBegun(n) => self.brackets.may_upgrade(*n) && !self.upgraded.has(*n),
            _ => true,
        }
    }

    // Seventh clause, of an element whose upgrade threw.
    fn spares_thrown(&self, e: &Event) -> bool
        ensures { result ≡ spares_thrown self.now e.now }
    {
        match e {
            Event::Enqueued(_, n, what, _) => !(is_callback(*what) && self.thrown.has(*n)),
            Event::Started(r) => match self.waits.slot(r.0) {
                Some(slot) => !(is_callback(slot.what) && self.thrown.has(slot.element)),
                None => true,
            },
            _ => true,
        }
    }

    // Eighth clause.
    fn replies_at_rest(&self, e: &Event) -> bool
        ensures { result ≡ replies_at_rest self.now e.now }
    {
        !is_reply(e) || (self.brackets.is_none() && self.waits.is_none())
    }

    // And nothing comes after the fuel is spent.
    fn fuel_is_last(&self, e: &Event) -> bool
        ensures { result ≡ fuel_is_last self.now e.now }
    {
        let _ = e;
        !self.over
    }
}

// Whether a number is the next.
fn follows(number: u64, before: u64) -> bool
    ensures { result ≡ (number == before + 1) }
{
    number > 0 && number - 1 == before
}

// Whether an event is the reply of a script's line.
fn is_reply(e: &Event) -> bool
    ensures { result ≡ is_reply e.now }
{
    matches!(
        e,
        Event::Fine(_)
            | Event::Gave(_, _)
            | Event::Answered(_, _)
            | Event::Ignored(_)
            | Event::Threw(_, _)
            | Event::WasBad(_, _)
    )
}
