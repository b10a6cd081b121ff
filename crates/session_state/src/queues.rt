// What a turn takes from the queues.
ghost use Rattle.std.specs.Prelude.{◌≡◌, ◌<◌, ◌+◌, ◌^◌, ◌∷◌, [], true, not, MatchOption, IfOk, IfSome, IfNone, OnOk};
ghost use Rattle.node_trees.specs.Kinds.{IsElement};
ghost use Rattle.reaction_queue.specs.ElementQueues.{is_empty};
ghost use Rattle.reaction_queue.specs.Queues.{waiting_at};
ghost use Rattle.ce_algorithms.specs.Drain.{open_queue, pop_queue};
ghost use Rattle.ce_algorithms.specs.Steps.{Goes};
ghost use Rattle.session_state.specs.Steps.{TakesBackup, TakesReaction};

use crate::State;
use ce_base::{NoMemory, NodeNo, QueueNo, ReactionNo};
use ce_events::Event;
use reaction_queue::{ElementQueue, Reaction};
use std::alloc::Global;

impl State {
    /// Pushes a new element queue, and gives its number (HTML Standard, section "Custom element reactions"). NoMemory:
    /// see `State`.
    pub fn open_queue(&mut self, alloc: Global) -> Result<QueueNo, NoMemory>
        requires { self.old.page.queues.pushed + self.old.fuel + 1 < 2 ^ 64 }
        ensures step { IfOk result (λ q. Goes q self.new ≡ open_queue self.old) }
        ensures forest { self.new.page.forest ≡ self.old.page.forest }
    {
        let number = self.page.begin(alloc)?;
        self.log(Event::QueueOpened(number))?;
        Ok(number)
    }

    /// Pops the current element queue, and gives its elements (HTML Standard, section "Custom element reactions"): none
    /// where no queue is on the stack.
    pub fn pop_queue(&mut self) -> ElementQueue
        ensures step { Goes result self.new ≡ pop_queue self.old }
        ensures forest { self.new.page.forest ≡ self.old.page.forest }
    {
        self.page.end()
    }

    /// Takes the first element of a queue that was popped (HTML Standard, section "Custom element reactions", "invoke
    /// custom element reactions"). None exactly where it is empty.
    pub fn next_element(&mut self, elements: &mut ElementQueue) -> Option<NodeNo>
        ensures first { MatchOption result ((elements.old ≡ []) × (elements.new ≡ [])) (λ e. elements.old ≡ e ∷ elements.new) }
        ensures state { self.new ≡ self.old }
    {
        self.page.next_element(elements)
    }

    /// Whether an element is in the backup element queue (HTML Standard, section "Custom element reactions").
    pub fn has_backup(&self) -> bool
        ensures { result ≡ not (is_empty self.now.page.queues.backup) }
    {
        self.page.has_backup()
    }

    /// Takes the first element of the backup element queue (HTML Standard, section "Custom element reactions"). None
    /// exactly where it is empty.
    pub fn next_backup(&mut self) -> Option<NodeNo>
        ensures none { IfNone result ((self.old.page.queues.backup ≡ []) × (self.new ≡ self.old)) }
        ensures first { IfSome result (λ e. TakesBackup self.old self.new e) }
    {
        self.page.next_backup()
    }

    /// Takes the first reaction that waits at a node, which then is an element (HTML Standard, section "Custom element
    /// reactions", "invoke custom element reactions"). None exactly where none waits.
    pub fn next_reaction(&mut self, e: NodeNo) -> Option<(ReactionNo, Reaction)>
        ensures none { IfNone result ((waiting_at self.old.page.queues e ≡ []) × (self.new ≡ self.old)) }
        ensures first { IfSome result (λ w. TakesReaction self.old self.new e w) }
        ensures element { IfSome result (λ w. IsElement self.old.page.forest e) }
    {
        self.page.next(e)
    }
}
