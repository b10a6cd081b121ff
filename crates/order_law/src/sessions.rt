// Sessions: what they log is lawful.
ghost use Rattle.std.specs.Prelude.{ℕ, List, map, Result};
ghost use Rattle.rule_tokens.specs.declared.refused.Bad.{Bad};
ghost use Rattle.rule_lines.specs.Acts.{Said};
ghost use Rattle.rule_script.specs.Reading.{reading};
ghost use Rattle.ce_algorithms.specs.declared.settings.Settings.{Settings};
ghost use Rattle.ce_algorithms.specs.Model.{model};
ghost use Rattle.ce_algorithms.specs.Session.{log_of, run_lines, start};
ghost use Rattle.order_law.specs.Law.{Lawful};

/// The log of each session is lawful: of all lines, each read within any limit or refused, and with any fuel, also where
/// it is spent.
#[tactic(auto, using(crate::proofs::Model::Scripts::session_lawful))]
pub fn each_script_is_lawful()
    ensures { (settings : Settings) (limit : ℕ) (lines : List (List ℕ))
        → Lawful (log_of (run_lines model 1 (map (reading limit) lines) (start settings))) }
{}

/// The same of all that lines may say, whether some line says it or not.
#[tactic(auto, using(crate::proofs::Model::Scripts::session_lawful))]
pub fn each_session_is_lawful()
    ensures { (settings : Settings) (lines : List (Result Said Bad)) → Lawful (log_of (run_lines model 1 lines (start settings))) }
{}
