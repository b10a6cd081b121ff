// Brackets: where an event stands among them, each a statement that is the contract of a function that does nothing.
ghost use Rattle.std.specs.Prelude.{◌≡◌, ℕ, ◌<◌, List, [], ◌∷◌, ◌++◌, true, Some};
ghost use Rattle.rule_tokens.specs.declared.callback.CallName.{CallName};
ghost use Rattle.rule_tokens.specs.declared.callback.CallOrUpgrade.TheVariants.{Call};
ghost use Rattle.ce_events.specs.Calls.{call_of};
ghost use Rattle.ce_events.specs.declared.event.Event.{Event};
ghost use Rattle.ce_events.specs.declared.event.Event.TheVariants.{QueueOpened, DrainBegun, Started, Finished, Dropped};
ghost use Rattle.ce_events.specs.declared.event.Event.TheVariants.{QueueClosed, UpgradeBegun, UpgradeDone, UpgradeThrew};
ghost use Rattle.order_law.specs.Book.{Entry};
ghost use Rattle.order_law.specs.Law.{Lawful};
ghost use Rattle.order_law.specs.Lines.{is_reply};
ghost use Rattle.order_law.specs.Words.{Waits};
ghost use Rattle.order_law.specs.Brackets.{Whole, Innermost, Runs, MayUpgrade, HasRun};

/// What ends a bracket ends the innermost; a reaction's end is told with its lines, below. The draining of a queue begins
/// directly in the steps that pushed it, and that of the backup element queue outside of all brackets.
#[tactic(auto, using(crate::proofs::Stands::ends_innermost))]
pub fn each_end_is_of_the_innermost()
    ensures drain { (before behind : List Event) (q : ℕ) → 0 < q → Lawful (before ++ DrainBegun q ∷ behind) → Innermost [] (QueueOpened q) before }
    ensures checkpoint { (before behind : List Event) → Lawful (before ++ DrainBegun 0 ∷ behind) → Whole [] before }
    ensures close { (before behind : List Event) (q : ℕ) → Lawful (before ++ QueueClosed q ∷ behind) → Innermost [] (DrainBegun q) before }
    ensures done { (before behind : List Event) (n : ℕ) → Lawful (before ++ UpgradeDone n ∷ behind) → Innermost [] (UpgradeBegun n) before }
    ensures threw { (before behind : List Event) (n : ℕ) → Lawful (before ++ UpgradeThrew n ∷ behind) → Innermost [] (UpgradeBegun n) before }
{}

/// A reaction starts directly in a queue that is draining. A callback's line stands directly in a reaction of its element that
/// was enqueued for that callback, as its first; and by its end a reaction has had its one line, or none as an upgrade.
#[tactic(auto, using(crate::proofs::Stands::start_is_in_drain, crate::proofs::Stands::call_is_in_its_reaction, crate::proofs::Stands::finish_has_run))]
pub fn each_reaction_has_its_line()
    ensures start { (before behind : List Event) (r : ℕ) → Lawful (before ++ Started r ∷ behind) → (q : ℕ) × Innermost [] (DrainBegun q) before }
    ensures line { (before behind : List Event) (e : Event) (n : ℕ) (name : CallName) → call_of e ≡ Some (n, name) → Lawful (before ++ e ∷ behind) →
        (w : Entry) × (w.element ≡ n) × (w.what ≡ Call name) × Runs w before }
    ensures finish { (before behind : List Event) (r : ℕ) → Lawful (before ++ Finished r ∷ behind) → HasRun r before }
{}

/// A reaction is dropped directly in the upgrade of its element.
#[tactic(auto, using(crate::proofs::Stands::drop_is_in_upgrade))]
pub fn each_drop_is_in_its_upgrade()
    ensures { (before behind : List Event) (w : Entry) → Lawful (before ++ Dropped w.number ∷ behind) → Waits before w →
        Innermost [] (UpgradeBegun w.element) before }
{}

/// An upgrade begins directly in its upgrade reaction, or in a queue whose draining has not begun.
#[tactic(auto, using(crate::proofs::Stands::up_is_where_it_may))]
pub fn each_upgrade_is_where_it_may()
    ensures { (before behind : List Event) (n : ℕ) → Lawful (before ++ UpgradeBegun n ∷ behind) → MayUpgrade n before }
{}

/// At a reply no bracket is open.
#[tactic(auto, using(crate::proofs::Stands::reply_is_outside))]
pub fn each_reply_is_outside()
    ensures { (before behind : List Event) (e : Event) → is_reply e ≡ true → Lawful (before ++ e ∷ behind) → Whole [] before }
{}
