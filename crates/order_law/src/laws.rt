// What holds of the law: statements, each proved as the contract of a function that does nothing. They draw the clauses
// from it one by one, and speak of places in a log: of the events before an event, and behind it.
ghost use Rattle.std.specs.Prelude.{◌≡◌, ◌⊎◌, ℕ, ◌+◌, ◌≤◌, List, [], ◌∷◌, ◌++◌, true};
ghost use Rattle.rule_tokens.specs.declared.callback.CallName.{CallName};
ghost use Rattle.rule_tokens.specs.declared.callback.CallOrUpgrade.{CallOrUpgrade};
ghost use Rattle.rule_tokens.specs.declared.callback.CallOrUpgrade.TheVariants.{Call};
ghost use Rattle.ce_events.specs.declared.event.Event.{Event};
ghost use Rattle.ce_events.specs.declared.event.Event.TheVariants.{QueueOpened, Enqueued, Started, Finished, Dropped};
ghost use Rattle.ce_events.specs.declared.event.Event.TheVariants.{QueueClosed, UpgradeBegun, UpgradeThrew, FuelLine};
ghost use Rattle.order_law.specs.Book.{Entry};
ghost use Rattle.order_law.specs.Law.{Lawful};
ghost use Rattle.order_law.specs.Lines.{is_reply};
ghost use Rattle.order_law.specs.Words.{Says, Waits, IsCurrent, IsDropOf, count, enqueue_line, is_enqueue, is_push};

/// A lawful log may end anywhere: each front of it is lawful.
#[tactic(auto, using(crate::proofs::Fronts::front_lawful))]
pub fn each_front_is_lawful()
    ensures { (front rest : List Event) → Lawful (front ++ rest) → Lawful front }
{}

/// Reactions are numbered 1, 2, 3 and on, and so are the element queues that are pushed. An enqueue tells the current queue.
#[tactic(auto, using(crate::proofs::Upgrading::enqueue_counts, crate::proofs::Upgrading::push_counts, crate::proofs::Pushed::enqueue_tells_current))]
pub fn numbers_count_up()
    ensures reactions { (before behind : List Event) (r n q : ℕ) (what : CallOrUpgrade) → Lawful (before ++ Enqueued r n what q ∷ behind) →
        r ≡ count is_enqueue before + 1 }
    ensures queues { (before behind : List Event) (q : ℕ) → Lawful (before ++ QueueOpened q ∷ behind) → q ≡ count is_push before + 1 }
    ensures told { (before behind : List Event) (r n q : ℕ) (what : CallOrUpgrade) → Lawful (before ++ Enqueued r n what q ∷ behind) → IsCurrent before q }
{}

/// What starts or is dropped was enqueued before, and has neither started nor been dropped.
#[tactic(auto, using(crate::proofs::Runs::start_waits, crate::proofs::Runs::drop_waits))]
pub fn each_reaction_is_taken_once()
    ensures start { (before behind : List Event) (r : ℕ) → Lawful (before ++ Started r ∷ behind) → (w : Entry) × (w.number ≡ r) × Waits before w }
    ensures drop { (before behind : List Event) (r : ℕ) → Lawful (before ++ Dropped r ∷ behind) → (w : Entry) × (w.number ≡ r) × Waits before w }
{}

/// What starts or is dropped has the lowest number of all that wait at its element.
#[tactic(auto, using(crate::proofs::Runs::start_in_order, crate::proofs::Runs::drop_in_order))]
pub fn each_element_keeps_its_order()
    ensures start { (before behind : List Event) (w v : Entry) → Lawful (before ++ Started w.number ∷ behind) → Waits before w → Waits before v →
        v.element ≡ w.element → w.number ≤ v.number }
    ensures drop { (before behind : List Event) (w v : Entry) → Lawful (before ++ Dropped w.number ∷ behind) → Waits before w → Waits before v →
        v.element ≡ w.element → w.number ≤ v.number }
{}

/// What stands at once behind a drop is another drop of its element, or that the element's upgrade threw; and where an upgrade
/// throws, nothing waits at its element.
#[tactic(auto, using(crate::proofs::Runs::drop_is_followed, crate::proofs::Runs::throw_drops_all))]
pub fn each_drop_is_part_of_a_throw()
    ensures followed { (before behind : List Event) (w : Entry) (e : Event) → Lawful (before ++ Dropped w.number ∷ e ∷ behind) → Waits before w →
        (e ≡ UpgradeThrew w.element) ⊎ IsDropOf (before ++ Dropped w.number ∷ []) w.element e }
    ensures threw { (before behind : List Event) (n : ℕ) (w : Entry) → Lawful (before ++ UpgradeThrew n ∷ behind) → Waits before w → w.element ≡ n → ⊥ }
{}

/// Where a queue is closed, all that was enqueued with it has finished or was dropped, and nothing of it waits.
#[tactic(auto, using(crate::proofs::Ended::close_ends_all, crate::proofs::Runs::close_leaves_none))]
pub fn each_queue_closes_empty()
    ensures ended { (before behind : List Event) (q : ℕ) (w : Entry) → Lawful (before ++ QueueClosed q ∷ behind) → Says before (enqueue_line w) →
        w.queue ≡ q → Says before (Finished w.number) ⊎ Says before (Dropped w.number) }
    ensures none_waits { (before behind : List Event) (q : ℕ) (w : Entry) → Lawful (before ++ QueueClosed q ∷ behind) → Waits before w → w.queue ≡ q → ⊥ }
{}

/// Between an enqueue that tells 0 and the next reply the backup element queue is closed.
#[tactic(auto, using(crate::proofs::Upgrading::checkpoint_before_reply))]
pub fn each_backup_is_drained()
    ensures { (before between behind : List Event) (r n : ℕ) (what : CallOrUpgrade) (e : Event) → is_reply e ≡ true →
        Lawful (before ++ Enqueued r n what 0 ∷ (between ++ e ∷ behind)) → Says between (QueueClosed 0) }
{}

/// The upgrade of an element begins once; and behind its throw no callback of the element is enqueued or starts.
#[tactic(auto, using(crate::proofs::Upgrading::upgraded_once))]
pub fn each_element_is_upgraded_once()
    ensures once { (before behind : List Event) (n : ℕ) → Lawful (before ++ UpgradeBegun n ∷ behind) → Says before (UpgradeBegun n) → ⊥ }
    ensures no_enqueue { (before behind : List Event) (r n q : ℕ) (name : CallName) → Lawful (before ++ Enqueued r n (Call name) q ∷ behind) →
        Says before (UpgradeThrew n) → ⊥ }
    ensures no_start { (before behind : List Event) (w : Entry) (name : CallName) → Lawful (before ++ Started w.number ∷ behind) → Waits before w →
        w.what ≡ Call name → Says before (UpgradeThrew w.element) → ⊥ }
{}

/// At a reply nothing waits.
#[tactic(auto, using(crate::proofs::Runs::reply_leaves_none))]
pub fn each_reply_leaves_none()
    ensures { (before behind : List Event) (e : Event) (w : Entry) → is_reply e ≡ true → Lawful (before ++ e ∷ behind) → Waits before w → ⊥ }
{}

/// Nothing stands behind the end of the fuel.
#[tactic(auto, using(crate::proofs::Upgrading::fuel_ends))]
pub fn fuel_ends_the_log()
    ensures { (before behind : List Event) → Lawful (before ++ FuelLine ∷ behind) → behind ≡ [] }
{}
