// The law computes: which of the sample logs are lawful, and which clauses the others break.
ghost use Rattle.std.specs.Prelude.{[], ◌∷◌};
ghost use Rattle.ce_algorithms.specs.Worked.Logs as logs;
ghost use Rattle.order_law.specs.Broken.{Breaks, CountsUp, RunsOnce, RunsInOrder, DropsByThrow, ClosesEmpty, Nests, UpgradesOnce, RepliesAtRest, FuelIsLast};
ghost use Rattle.order_law.specs.Law.{Lawful};
ghost use Rattle.order_law.specs.Samples as samples;

/// The law computes: the logs of two worked upgrades, one done and one thrown, are lawful, and so are the two that the samples
/// below change.
#[tactic(auto, using(crate::proofs::Computed::logs_lawful))]
pub fn worked_logs_are_lawful()
    ensures done { Lawful logs.traced }
    ensures threw { Lawful logs.traced_throws }
    ensures upgrade { Lawful samples.upgrade }
    ensures throws { Lawful samples.throws }
{}

/// Unlawful: numbers or queues do not count up, or another queue is told than the current one.
#[tactic(auto, using(crate::proofs::Computed::counts_up_breaks))]
pub fn counts_up_refuses()
    ensures number_skipped { Breaks (CountsUp ∷ []) samples.number_skipped }
    ensures number_again { Breaks (CountsUp ∷ []) samples.number_again }
    ensures queue_skipped { Breaks (CountsUp ∷ []) samples.queue_skipped }
    ensures other_queue { Breaks (CountsUp ∷ []) samples.other_queue }
    ensures current_queue_passed_over { Breaks (CountsUp ∷ []) samples.current_queue_passed_over }
{}

/// Unlawful: a reaction or a line of a callback stands where it may not, twice, or is missing.
#[tactic(auto, using(crate::proofs::Computed::runs_once_breaks))]
pub fn runs_once_refuses()
    ensures start_of_nothing { Breaks (RunsOnce ∷ []) samples.start_of_nothing }
    ensures second_start { Breaks (RunsOnce ∷ []) samples.second_start }
    ensures start_in_upgrade { Breaks (RunsOnce ∷ []) samples.start_in_upgrade }
    ensures call_outside { Breaks (RunsOnce ∷ []) samples.call_outside }
    ensures call_in_upgrade { Breaks (RunsOnce ∷ []) samples.call_in_upgrade }
    ensures call_of_other_element { Breaks (RunsOnce ∷ []) samples.call_of_other_element }
    ensures other_callback { Breaks (RunsOnce ∷ []) samples.other_callback }
    ensures second_call { Breaks (RunsOnce ∷ []) samples.second_call }
    ensures no_call { Breaks (RunsOnce ∷ []) samples.no_call }
{}

/// Unlawful: a lower reaction of the element waits.
#[tactic(auto, using(crate::proofs::Computed::runs_in_order_breaks))]
pub fn runs_in_order_refuses()
    ensures start_before_lower { Breaks (RunsInOrder ∷ []) samples.start_before_lower }
    ensures drop_before_lower { Breaks (RunsInOrder ∷ []) samples.drop_before_lower }
{}

/// Unlawful: a drop is no part of a throw, or a throw drops too little.
#[tactic(auto, using(crate::proofs::Computed::drops_by_throw_breaks))]
pub fn drops_by_throw_refuses()
    ensures drop_without_throw { Breaks (DropsByThrow ∷ []) samples.drop_without_throw }
    ensures drop_and_no_throw { Breaks (DropsByThrow ∷ []) samples.drop_and_no_throw }
    ensures drop_in_reaction { Breaks (DropsByThrow ∷ []) samples.drop_in_reaction }
    ensures drop_in_drain { Breaks (DropsByThrow ∷ []) samples.drop_in_drain }
    ensures throw_with_one_waiting { Breaks (DropsByThrow ∷ []) samples.throw_with_one_waiting }
{}

/// Unlawful: a queue is closed while a reaction waits that was enqueued with it.
#[tactic(auto, using(crate::proofs::Computed::close_with_one_waiting_breaks))]
pub fn closes_empty_refuses()
    ensures close_with_one_waiting { Breaks (ClosesEmpty ∷ []) samples.close_with_one_waiting }
{}

/// Unlawful: brackets do not nest, or a checkpoint is missing.
#[tactic(auto, using(crate::proofs::Computed::nests_breaks))]
pub fn nests_refuses()
    ensures end_around_another { Breaks (Nests ∷ []) samples.end_around_another }
    ensures end_of_other_reaction { Breaks (Nests ∷ []) samples.end_of_other_reaction }
    ensures end_of_other_upgrade { Breaks (Nests ∷ []) samples.end_of_other_upgrade }
    ensures close_of_other_queue { Breaks (Nests ∷ []) samples.close_of_other_queue }
    ensures drain_twice { Breaks (Nests ∷ []) samples.drain_twice }
    ensures checkpoint_in_drain { Breaks (Nests ∷ []) samples.checkpoint_in_drain }
    ensures no_checkpoint { Breaks (Nests ∷ []) samples.no_checkpoint }
{}

/// Unlawful: an element is upgraded twice, or elsewhere than it may be, or is called after its upgrade threw.
#[tactic(auto, using(crate::proofs::Computed::upgrades_once_breaks))]
pub fn upgrades_once_refuses()
    ensures second_upgrade { Breaks (UpgradesOnce ∷ []) samples.second_upgrade }
    ensures upgrade_in_drain { Breaks (UpgradesOnce ∷ []) samples.upgrade_in_drain }
    ensures callback_after_throw { Breaks (UpgradesOnce ∷ []) samples.callback_after_throw }
{}

/// Unlawful: a line is replied to within a bracket, or while a reaction waits.
#[tactic(auto, using(crate::proofs::Computed::replies_at_rest_breaks))]
pub fn replies_at_rest_refuses()
    ensures reply_in_bracket { Breaks (RepliesAtRest ∷ []) samples.reply_in_bracket }
    ensures reply_with_one_waiting { Breaks (Nests ∷ RepliesAtRest ∷ []) samples.reply_with_one_waiting }
{}

/// Unlawful: something follows the end of the fuel.
#[tactic(auto, using(crate::proofs::Computed::behind_fuel_breaks))]
pub fn fuel_is_last_refuses()
    ensures behind_fuel { Breaks (FuelIsLast ∷ []) samples.behind_fuel }
{}
