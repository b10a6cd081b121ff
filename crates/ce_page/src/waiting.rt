// The element queues, and what waits.
ghost use Rattle.std.specs.Prelude.{◌≡◌, ◌+◌, ◌<◌, ◌^◌, ◌∷◌, [], length, MatchOption, IfOk, IfNone, IfSome, OnOk};
ghost use Rattle.node_trees.specs.Kinds.{IsElement};
ghost use Rattle.reaction_queue.specs.Queues.{pushed_queue, popped_queue, current_elements, waiting_at, with_waiting};
ghost use Rattle.reaction_queue.specs.Changes.{DropsFirst};
ghost use Rattle.ce_algorithms.specs.Page.{with_queues};
ghost use Rattle.ce_page.specs.Numbers.{SameNumbers};

use crate::Page;
use ce_algorithms::Note;
use ce_base::{NoMemory, NodeNo, QueueNo, ReactionNo};
use reaction_queue::{ElementQueue, Reaction};
use std::alloc::Global;

impl Page {
    /// Pushes a new element queue onto the custom element reactions stack (HTML Standard, section "Custom
    /// element reactions"), and gives its number. NoMemory: memory was refused.
    pub fn begin(&mut self, alloc: Global) -> Result<QueueNo, NoMemory>
        requires { self.old.queues.pushed + 1 < 2 ^ 64 }
        ensures number { IfOk result (λ q. q ≡ self.old.queues.pushed + 1) }
        ensures page { OnOk result (self.new ≡ with_queues pushed_queue self.old) }
        ensures forest { self.new.forest ≡ self.old.forest }
        ensures reactions { self.new.queues.reactions ≡ self.old.queues.reactions }
        ensures pushed { self.new.queues.pushed ≡ self.old.queues.pushed + 1 }
        ensures depth { OnOk result (length self.new.queues.stack ≡ length self.old.queues.stack + 1) }
    {
        self.queues.begin(alloc)
    }

    /// Pops the current element queue (HTML Standard, section "Custom element reactions"). Where the stack is
    /// empty it stays so, and what is given has no elements.
    pub fn end(&mut self) -> ElementQueue
        ensures elements { result ≡ current_elements self.old.queues }
        ensures page { self.new ≡ with_queues popped_queue self.old }
        ensures reactions { self.new.queues.reactions ≡ self.old.queues.reactions }
        ensures pushed { self.new.queues.pushed ≡ self.old.queues.pushed }
    {
        self.queues.end()
    }

    /// Takes the first element of an element queue that was popped (HTML Standard, section "Custom element
    /// reactions", "invoke custom element reactions"). None exactly where it is empty.
    pub fn next_element(&mut self, q: &mut ElementQueue) -> Option<NodeNo>
        ensures first { MatchOption result ((q.old ≡ []) × (q.new ≡ [])) (λ n. q.old ≡ n ∷ q.new) }
        ensures page { self.new ≡ self.old }
    {
        self.queues.next_element(q)
    }

    /// Takes the first element of the backup element queue (HTML Standard, section "Custom element
    /// reactions"). None exactly where it is empty.
    pub fn next_backup(&mut self) -> Option<NodeNo>
        ensures first { MatchOption result ((self.old.queues.backup ≡ []) × (self.new ≡ self.old)) (λ n. self.old.queues.backup ≡ n ∷ self.new.queues.backup) }
        ensures page { self.new ≡ with_queues (λ q. record q { backup = self.new.queues.backup }) self.old }
        ensures numbers { SameNumbers self.old self.new }
    {
        self.queues.next_backup()
    }

    /// Takes the first reaction of a node's reaction queue, with its number (HTML Standard, section "Custom
    /// element reactions", "invoke custom element reactions"). What waits, waits at an
    /// element. None exactly where none waits at the node.
    pub fn next(&mut self, node: NodeNo) -> Option<(ReactionNo, Reaction)>
        ensures first { MatchOption result (waiting_at self.old.queues node ≡ []) (λ w. waiting_at self.old.queues node ≡ w ∷ waiting_at self.new.queues node) }
        ensures page { MatchOption result (self.new ≡ self.old) (λ w. self.new ≡ with_queues (with_waiting node (waiting_at self.new.queues node)) self.old) }
        ensures element { IfSome result (λ w. IsElement self.old.forest node) }
        ensures numbers { SameNumbers self.old self.new }
    {
        self.queues.next(node)
    }

    /// Drops the first reaction of a node's reaction queue, as an upgrade that threw does with each (HTML
    /// Standard, section "Upgrades", "upgrade an element"), and gives its number. None exactly where none
    /// waits at the node.
    pub fn drop_first(&mut self, node: NodeNo) -> Option<ReactionNo>
        ensures first { MatchOption result (waiting_at self.old.queues node ≡ []) (λ number. DropsFirst self.old.queues self.new.queues node number) }
        ensures page { MatchOption result (self.new ≡ self.old)
            (λ number. self.new ≡ with_queues (with_waiting node (waiting_at self.new.queues node)) self.old) }
        ensures empty { IfNone result (with_queues (with_waiting node []) self.old ≡ self.old) }
        ensures numbers { SameNumbers self.old self.new }
    {
        self.queues.drop_first(node)
    }

    /// The oldest enqueue that was not told yet. None exactly where all were told.
    pub fn take_note(&mut self) -> Option<Note>
        ensures first { MatchOption result ((self.old.notes ≡ []) × (self.new ≡ self.old)) (λ n. self.old.notes ≡ n ∷ self.new.notes) }
        ensures page { self.new ≡ record self.old { notes = self.new.notes } }
    {
        self.notes.pop_front()
    }
}
