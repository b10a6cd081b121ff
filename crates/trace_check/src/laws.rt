// What holds of verdicts: statements, each the contract of a function that does nothing.
ghost use Rattle.std.specs.Prelude.{◌≡◌, ℕ, List, ◌++◌};
ghost use Rattle.trace_check.specs.Traces.{AreLawful};
ghost use Rattle.trace_check.specs.Verdict.{IsVerdict};
ghost use Rattle.trace_check.specs.declared.verdict.Verdict.{Verdict};

use order_law::each_front_is_lawful;

/// A trace may be cut off behind any of its lines: where its lines are those of a lawful log, so are those of each front.
#[tactic(auto, using(crate::proofs::TraceLaws::front_lawful))]
pub fn each_front_of_a_trace_is_lawful()
    ensures { (front rest : List (List ℕ)) → AreLawful (front ++ rest) → AreLawful front }
{
    each_front_is_lawful();
}

/// Lines have one verdict at most.
#[tactic(auto, using(crate::proofs::VerdictLaws::one_verdict))]
pub fn each_trace_has_one_verdict()
    ensures { (lines : List (List ℕ)) (v w : Verdict) → IsVerdict v lines → IsVerdict w lines → v ≡ w }
{
    each_front_of_a_trace_is_lawful();
}
