// The book of a log that is read from its first event on.
ghost use Rattle.std.specs.Prelude.{◌≡◌, true, IfOk};
ghost use Rattle.order_law.specs.After.{after, dropped};
ghost use Rattle.order_law.specs.Book.{blank};
ghost use Rattle.order_law.specs.Law.{may_come};

use crate::brackets::Brackets;
use crate::elements::Elements;
use crate::waits::Waits;
use ce_base::{NoMemory, NodeNo};
use ce_events::Event;
use std::alloc::Global;
use std::marker::Model;

/// What is kept at hand while a log is read from its first event on. A contract sees the book of the law.
#[derive(Drop)]
pub struct Checker {
    pub(crate) waits: Waits,
    pub(crate) queues: u64,
    pub(crate) brackets: Brackets,
    pub(crate) upgraded: Elements,
    pub(crate) thrown: Elements,
    pub(crate) dropping: Option<NodeNo>,
    pub(crate) owed: bool,
    pub(crate) over: bool,
}

impl Model for Checker {
    ghost use Rattle.order_law.specs.Book.{Book};

    ghost Value = { Book };

    ghost view = { λ c. record {
      numbers = c.waits.numbers;
      queues = c.queues;
      waiting = c.waits.entries;
      brackets = c.brackets;
      upgraded = c.upgraded;
      thrown = c.thrown;
      dropping = c.dropping;
      owed = c.owed;
      over = c.over;
    } };
}

impl Checker {
    /// A book without events.
    pub fn make(alloc: Global) -> Checker
        ensures { result ≡ blank }
    {
        Checker {
            waits: Waits::make(alloc),
            queues: 0,
            brackets: Brackets::make(alloc),
            upgraded: Elements::make(alloc),
            thrown: Elements::make(alloc),
            dropping: None,
            owed: false,
            over: false,
        }
    }

    /// The book after an event that may come. NoMemory: memory was refused.
    pub fn read(self, e: &Event) -> Result<Checker, NoMemory>
        requires { may_come self e.now ≡ true }
        ensures { IfOk result (λ c. c ≡ after self e.now) }
    {
        let dropping = self.dropped(e);
        let mut book = self.write(e)?;
        book.dropping = dropping;
        Ok(book)
    }

    // The element of a reaction that the event drops.
    fn dropped(&self, e: &Event) -> Option<NodeNo>
        ensures { result ≡ dropped self.now e.now }
    {
        match e {
            Event::Dropped(r) => match self.waits.slot(r.0) {
                Some(slot) => Some(slot.element),
                None => None,
            },
            _ => None,
        }
    }
}
