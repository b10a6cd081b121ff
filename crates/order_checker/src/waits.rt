// The reactions of a log that wait.
ghost use Rattle.std.specs.Prelude.{◌≡◌, ◌<◌, ◌+◌, ◌-◌, ◌++◌, ◌∷◌, [], true, not, length, is_some, None, Some, MatchOption, IfOk};
ghost use Rattle.std.specs.Ordering.{nat_cmp};
ghost use Rattle.std.specs.Map.{count_at};
ghost use Rattle.std.specs.BTreeMap.{get};
ghost use Rattle.order_law.specs.Reads.{entry_of, none_of_element, none_of_queue, without};
ghost use Rattle.reaction_queue.specs.ElementQueues.{is_empty};
ghost use Rattle.order_law.specs.Clauses.{leads};
ghost use Rattle.order_checker.specs.Slots.{waits_at, entry_of_slot};

use ce_base::{NoMemory, NodeNo, QueueNo};
use rule_tokens::CallOrUpgrade;
use std::alloc::Global;
use std::collections::BTreeMap;
use std::marker::Model;

/// A reaction of the log. Its place is its number, from 1.
#[derive(Drop)]
pub(crate) struct Slot {
    pub(crate) element: NodeNo,
    pub(crate) what: CallOrUpgrade,
    pub(crate) queue: QueueNo,
    /// The number before it of its element, or 0.
    pub(crate) previous: u64,
    pub(crate) waits: bool,
}

/// The reactions of a log, and which of them wait.
#[derive(Drop)]
pub(crate) struct Waits {
    slots: Vec<Slot>,
    last: BTreeMap<u64, u64>,
    told: BTreeMap<u64, u64>,
    count: u64,
}

impl Model for Waits {
    ghost use Rattle.std.specs.Prelude.{length};
    ghost use Rattle.order_checker.specs.Slots.{Waiting};

    ghost Value = { Waiting };

    ghost use Rattle.order_checker.specs.Slots.{waiting_from, AreKnown, AreCounted};

    ghost view = { λ w. record { numbers = length w.slots.items; entries = waiting_from 1 w.slots.items } };

    ghost invariant = { λ w. AreKnown w.slots.items w.last × AreCounted (waiting_from 1 w.slots.items) w.told w.count };
}

impl Waits {
    /// Nothing was enqueued.
    pub(crate) fn make(alloc: Global) -> Waits
        ensures { result ≡ record { numbers = 0; entries = [] } }
    {
        Waits {
            slots: Vec::new(alloc),
            last: BTreeMap::new(alloc),
            told: BTreeMap::new(alloc),
            count: 0,
        }
    }

    /// How many were enqueued.
    pub(crate) fn numbers(&self) -> u64
        ensures { result ≡ self.now.numbers }
    {
        self.slots.len() as u64
    }

    /// One more is enqueued.
    pub(crate) fn enqueue(
        self,
        element: NodeNo,
        what: CallOrUpgrade,
        queue: QueueNo,
    ) -> Result<Waits, NoMemory>
        ensures { IfOk result (λ w. w ≡ record {
          numbers = self.numbers + 1;
          entries = self.entries ++ record { number = self.numbers + 1; element = element; what = what; queue = queue } ∷ [];
        }) }
    {
        let Waits {
            mut slots,
            mut last,
            mut told,
            count,
        } = self;
        let previous = last_of(&last, element);
        slots.push(Slot {
            element,
            what,
            queue,
            previous,
            waits: true,
        })?;
        last.insert(element.0, slots.len() as u64)?;
        let more = count_of(&told, queue.0) + 1;
        told.insert(queue.0, more)?;
        Ok(Waits {
            slots,
            last,
            told,
            count: count + 1,
        })
    }

    /// Whether no lower number of the reaction's element waits, where the reaction waits.
    pub(crate) fn leads(&self, number: u64) -> bool
        ensures { result ≡ leads (entry_of number self.now.entries) self.now.entries }
    {
        if !waits_at(&self.slots, number) {
            return true;
        }
        !waits_at(&self.slots, self.slots[number as usize - 1].previous)
    }

    /// Whether the reaction waits.
    pub(crate) fn waits(&self, number: u64) -> bool
        ensures { result ≡ is_some (entry_of number self.now.entries) }
    {
        waits_at(&self.slots, number)
    }

    /// The reaction of this number, where it waits.
    pub(crate) fn slot(&self, number: u64) -> Option<&Slot>
        ensures { MatchOption result (entry_of number self.now.entries ≡ None) (λ s. entry_of number self.now.entries ≡ Some (entry_of_slot number s.now)) }
    {
        if !waits_at(&self.slots, number) {
            return None;
        }
        Some(&self.slots[number as usize - 1])
    }

    /// Whether none of an element waits.
    pub(crate) fn none_of_element(&self, element: NodeNo) -> bool
        ensures { result ≡ none_of_element element self.now.entries }
    {
        !waits_at(&self.slots, last_of(&self.last, element))
    }

    /// Whether none waits that was told with a queue.
    pub(crate) fn none_of_queue(&self, queue: QueueNo) -> bool
        ensures { result ≡ none_of_queue queue self.now.entries }
    {
        count_of(&self.told, queue.0) == 0
    }

    /// Whether none waits.
    pub(crate) fn is_none(&self) -> bool
        ensures { result ≡ is_empty self.now.entries }
    {
        self.count == 0
    }

    /// A reaction that leads waits no more.
    pub(crate) fn take(self, number: u64) -> Result<Waits, NoMemory>
        requires waits { is_some (entry_of number self.entries) ≡ true }
        requires leads { leads (entry_of number self.entries) self.entries ≡ true }
        ensures { IfOk result (λ w. w ≡ record self { entries = without number self.entries }) }
    {
        let Waits {
            mut slots,
            last,
            mut told,
            count,
        } = self;
        let slot = &mut slots[number as usize - 1];
        slot.waits = false;
        let queue = slot.queue;
        let less = count_of(&told, queue.0) - 1;
        told.insert(queue.0, less)?;
        Ok(Waits {
            slots,
            last,
            told,
            count: count - 1,
        })
    }
}

// What a map of counts has at a key, or 0.
fn count_of(counts: &BTreeMap<u64, u64>, key: u64) -> u64
    ensures { result ≡ count_at (get nat_cmp counts.now) key }
{
    counts.get(&key).copied().unwrap_or(0)
}

// The number that an element got last, or 0.
fn last_of(last: &BTreeMap<u64, u64>, element: NodeNo) -> u64
    ensures { result ≡ count_at (get nat_cmp last.now) element }
{
    last.get(&element.0).copied().unwrap_or(0)
}

// Whether the reaction of this number waits.
fn waits_at(slots: &Vec<Slot>, number: u64) -> bool
    ensures { result ≡ waits_at slots.now.items number }
{
    if number == 0 {
        return false;
    }
    match slots.get(number as usize - 1) {
        Some(slot) => slot.waits,
        None => false,
    }
}
