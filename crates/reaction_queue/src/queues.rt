// The reaction queues, the stack of element queues, and the backup element queue.
ghost use Rattle.std.specs.Prelude.{◌≡◌, ◌+◌, ◌<◌, ◌^◌, ◌∷◌, [], length, not, MatchOption, IfOk, IfNone, OnOk, OnErr};
ghost use Rattle.reaction_queue.specs.Queues.{no_queues, pushed_queue, popped_queue, current_number, current_elements};
ghost use Rattle.reaction_queue.specs.Queues.{waiting_at, with_waiting, counted, appended, enqueued};
ghost use Rattle.reaction_queue.specs.ElementQueues.{is_empty};
ghost use Rattle.reaction_queue.specs.Changes.{SameNumbers, DropsFirst};

use crate::stack::Stack;
use crate::waiting::Waiting;
use crate::{ElementQueue, Reaction};
use ce_base::{NoMemory, NodeNo, QueueNo, ReactionNo};
use std::alloc::Global;
use std::marker::Model;

/// What waits on a page (HTML Standard, section "Custom element reactions"): the reaction queue of each
/// node, the stack of element queues, and the backup element queue. A reaction is numbered from 1 in the
/// order of enqueuing, an element queue from 1 in the order of pushing; the backup element queue is
/// number 0.
#[derive(Drop)]
pub struct Queues {
    waiting: Waiting,
    stack: Stack,
    backup: ElementQueue,
    reactions: u64,
    pushed: u64,
}

impl Model for Queues {
    ghost use Rattle.reaction_queue.specs.Queues.{Queues as QueueLists};

    ghost Value = { QueueLists };

    ghost view = { λ q. record {
      waiting = q.waiting;
      stack = q.stack;
      backup = q.backup;
      reactions = q.reactions;
      pushed = q.pushed;
    } };
}

impl Queues {
    /// Nothing waits, no queue was pushed, and no number was given.
    pub fn make(alloc: Global) -> Queues
        ensures { result ≡ no_queues }
    {
        Queues {
            waiting: Waiting::make(alloc),
            stack: Stack::make(alloc),
            backup: ElementQueue::make(alloc),
            reactions: 0,
            pushed: 0,
        }
    }

    /// Pushes a new element queue onto the custom element reactions stack (HTML Standard, section "Custom
    /// element reactions"), and gives its number. NoMemory: memory was refused.
    pub fn begin(&mut self, alloc: Global) -> Result<QueueNo, NoMemory>
        requires { self.old.pushed + 1 < 2 ^ 64 }
        ensures number { IfOk result (λ q. q ≡ self.old.pushed + 1) }
        ensures queues { OnOk result (self.new ≡ pushed_queue self.old) }
        ensures waiting { self.new.waiting ≡ self.old.waiting }
        ensures reactions { self.new.reactions ≡ self.old.reactions }
        ensures pushed { self.new.pushed ≡ self.old.pushed + 1 }
        ensures depth { OnOk result (length self.new.stack ≡ length self.old.stack + 1) }
    {
        self.pushed += 1;
        let number = QueueNo(self.pushed);
        self.stack.push(alloc, number)?;
        Ok(number)
    }

    /// Pops the current element queue (HTML Standard, section "Custom element reactions"). Where the stack is
    /// empty it stays so, and what is given has no elements.
    pub fn end(&mut self) -> ElementQueue
        ensures elements { result ≡ current_elements self.old }
        ensures queues { self.new ≡ popped_queue self.old }
        ensures reactions { self.new.reactions ≡ self.old.reactions }
        ensures pushed { self.new.pushed ≡ self.old.pushed }
    {
        self.stack.pop()
    }

    /// Enqueues a reaction ("enqueue an element on the appropriate element queue", and what comes before
    /// it): it gets the next number and comes last in the node's reaction queue, and the node comes last
    /// in the current element queue, or in the backup element queue where the stack is empty. Gives the
    /// reaction's number and that of the element queue. NoMemory: memory was refused, and each reaction queue is
    /// as it was.
    pub fn enqueue(
        &mut self,
        alloc: Global,
        node: NodeNo,
        r: Reaction,
    ) -> Result<(ReactionNo, QueueNo), NoMemory>
        requires { self.old.reactions + 1 < 2 ^ 64 }
        ensures number { IfOk result (λ got. got.0 ≡ self.old.reactions + 1) }
        ensures queue { IfOk result (λ got. got.1 ≡ current_number self.old) }
        ensures queues { OnOk result (self.new ≡ enqueued node r self.old) }
        ensures err { OnErr result (self.new.waiting ≡ self.old.waiting) }
        ensures reactions { self.new.reactions ≡ self.old.reactions + 1 }
        ensures pushed { self.new.pushed ≡ self.old.pushed }
        ensures depth { length self.new.stack ≡ length self.old.stack }
    {
        let number = self.count();
        match self.append(node) {
            Ok(queue) => {
                self.waiting.append(node, number, r)?;
                Ok((number, queue))
            }
            Err(refused) => {
                drop(r);
                Err(refused)
            }
        }
    }

    /// The next number for a reaction.
    fn count(&mut self) -> ReactionNo
        requires { self.old.reactions + 1 < 2 ^ 64 }
        ensures number { result ≡ self.new.reactions }
        ensures queues { self.new ≡ counted self.old }
    {
        self.reactions += 1;
        ReactionNo(self.reactions)
    }

    /// Appends an element to the current element queue, or to the backup element queue, and gives the
    /// queue's number.
    fn append(&mut self, node: NodeNo) -> Result<QueueNo, NoMemory>
        ensures number { IfOk result (λ q. q ≡ current_number self.old) }
        ensures queues { OnOk result (self.new ≡ appended node self.old) }
        ensures waiting { self.new.waiting ≡ self.old.waiting }
        ensures numbers { SameNumbers self.old self.new }
    {
        if self.stack.is_empty() {
            self.backup.append(node)?;
            return Ok(QueueNo(0));
        }
        self.stack.append(node)
    }

    /// Takes the first element of an element queue that was popped (HTML Standard, section "Custom element
    /// reactions", "invoke custom element reactions"). None exactly where it is empty.
    pub fn next_element(&mut self, q: &mut ElementQueue) -> Option<NodeNo>
        ensures first { MatchOption result ((q.old ≡ []) × (q.new ≡ [])) (λ n. q.old ≡ n ∷ q.new) }
        ensures queues { self.new ≡ self.old }
        ensures numbers { SameNumbers self.old self.new }
    {
        q.take()
    }

    /// Whether an element is in the backup element queue.
    pub fn has_backup(&self) -> bool
        ensures { result ≡ not (is_empty self.now.backup) }
    {
        !self.backup.is_empty()
    }

    /// Takes the first element of the backup element queue (HTML Standard, section "Custom element
    /// reactions"). None exactly where it is empty.
    pub fn next_backup(&mut self) -> Option<NodeNo>
        ensures first { MatchOption result ((self.old.backup ≡ []) × (self.new ≡ self.old)) (λ n. self.old.backup ≡ n ∷ self.new.backup) }
        ensures queues { self.new ≡ record self.old { backup = self.new.backup } }
        ensures numbers { SameNumbers self.old self.new }
    {
        self.backup.take()
    }

    /// Takes the first reaction of a node's reaction queue, with its number (HTML Standard, section "Custom
    /// element reactions", "invoke custom element reactions"). None exactly where none
    /// waits at the node.
    pub fn next(&mut self, node: NodeNo) -> Option<(ReactionNo, Reaction)>
        ensures first { MatchOption result (waiting_at self.old node ≡ []) (λ w. waiting_at self.old node ≡ w ∷ waiting_at self.new node) }
        ensures queues { MatchOption result (self.new ≡ self.old) (λ w. self.new ≡ with_waiting node (waiting_at self.new node) self.old) }
        ensures numbers { SameNumbers self.old self.new }
    {
        self.waiting.take(node)
    }

    /// Drops the first reaction of a node's reaction queue, as an upgrade that threw does with each (HTML
    /// Standard, section "Upgrades", "upgrade an element"), and gives its number. None exactly where none
    /// waits at the node.
    pub fn drop_first(&mut self, node: NodeNo) -> Option<ReactionNo>
        ensures first { MatchOption result (waiting_at self.old node ≡ []) (λ number. DropsFirst self.old self.new node number) }
        ensures queues { MatchOption result (self.new ≡ self.old) (λ number. self.new ≡ with_waiting node (waiting_at self.new node) self.old) }
        ensures empty { IfNone result (with_waiting node [] self.old ≡ self.old) }
        ensures numbers { SameNumbers self.old self.new }
    {
        match self.waiting.take(node) {
            None => None,
            Some((number, reaction)) => {
                drop(reaction);
                Some(number)
            }
        }
    }
}
