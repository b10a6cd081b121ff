// What holds of the definitions: statements, each proved as the contract of a function that does nothing.
ghost use Rattle.std.specs.Prelude.{◌≡◌, ℕ, List, Result, true, false};
ghost use Rattle.rule_lines.specs.Acts.{Said};
ghost use Rattle.rule_lines.specs.declared.line.Cmd.{Cmd};
ghost use Rattle.rule_tokens.specs.declared.refused.Bad.{Bad};
ghost use Rattle.ce_algorithms.specs.Calls.{Call};
ghost use Rattle.ce_events.specs.declared.event.Event.{Event};
ghost use Rattle.ce_algorithms.specs.Worked.ControlLogs as control_logs;
ghost use Rattle.ce_algorithms.specs.Worked.Controls as controls;
ghost use Rattle.ce_algorithms.specs.Worked.CornerLogs as corner_logs;
ghost use Rattle.ce_algorithms.specs.Worked.Corners as corners;
ghost use Rattle.ce_algorithms.specs.Worked.FormLogs as form_logs;
ghost use Rattle.ce_algorithms.specs.Worked.Forms as forms;
ghost use Rattle.ce_algorithms.specs.Worked.InternalLogs as internal_logs;
ghost use Rattle.ce_algorithms.specs.Worked.Internals as internals;
ghost use Rattle.ce_algorithms.specs.Worked.Logs as logs;
ghost use Rattle.ce_algorithms.specs.Worked.ResetLogs as reset_logs;
ghost use Rattle.ce_algorithms.specs.Worked.Resets as resets;
ghost use Rattle.ce_algorithms.specs.Model.{level, model};
ghost use Rattle.ce_algorithms.specs.Steps.{is_spent};
ghost use Rattle.ce_algorithms.specs.Worked.Scripts as scripts;
ghost use Rattle.ce_algorithms.specs.Session.{command, run_line};
ghost use Rattle.ce_algorithms.specs.State.{State};
ghost use Rattle.ce_algorithms.specs.Steps.{GoesOn};
ghost use Rattle.ce_algorithms.specs.Worked.Submissions as submissions;
ghost use Rattle.ce_algorithms.specs.Worked.SubmissionLogs as submission_logs;
ghost use Rattle.ce_algorithms.specs.Worked.Validity as validity;
ghost use Rattle.ce_algorithms.specs.Worked.ValidityLogs as validity_logs;
ghost use Rattle.ce_algorithms.specs.Worked.{seen, traced, worked};
ghost use Rattle.ce_algorithms.specs.Written.{behind, behind_in};

/// Each algorithm calls the others as they are: the model is a fixed point of its algorithms.
#[tactic(auto, using(crate::proofs::Steady::model_level))]
pub fn each_calls_the_others()
    ensures { (call : Call) (s : State) → model call s ≡ level model call s }
{}

/// What a line does depends on nothing that was logged before it: the log is written, and never read.
#[tactic(auto, using(crate::proofs::FramedLines::run_line_behind))]
pub fn no_step_reads_the_log()
    ensures { (line : ℕ) (l : Result Said Bad) (events : List Event) (s : State) → run_line model line l (behind events s)
        ≡ behind_in events (run_line model line l s) }
{}

/// No command ends in a fault: behind each the session goes on, or its fuel is spent.
#[tactic(auto, using(crate::proofs::Calm::command_goes_on))]
pub fn no_command_throws()
    ensures { (line : ℕ) (c : Cmd) (s : State) → GoesOn (command model line c s) }
{}

/// The model computes: the first script, with nine units of fuel, which are just enough.
#[tactic(auto, using(crate::proofs::Rows::first_enough, crate::proofs::Rows::first_logs, crate::proofs::Rows::first_spends))]
pub fn worked_first()
    ensures enough { is_spent (worked 9 scripts.first) ≡ false }
    ensures just_enough { is_spent (worked 8 scripts.first) ≡ true }
    ensures first { seen 9 scripts.first ≡ logs.first }
{}

/// The model computes: queues and callbacks.
pub fn worked_callbacks()
    ensures inner_queue { seen 1000 scripts.inner_queue ≡ logs.inner_queue }
    ensures reentry { seen 1000 scripts.reentry ≡ logs.reentry }
    ensures faults { seen 1000 scripts.try_ ≡ logs.try_ }
    ensures connected { seen 1000 scripts.connected ≡ logs.connected }
    ensures adopted { seen 1000 scripts.adopted ≡ logs.adopted }
    ensures tree { seen 1000 scripts.tree ≡ logs.tree }
    ensures endless { seen 20 scripts.endless ≡ logs.endless }
{}

/// The model computes: upgrades, creations and constructors.
pub fn worked_upgrades()
    ensures candidates { seen 1000 scripts.candidates ≡ logs.candidates }
    ensures upgrade_throws { seen 1000 scripts.upgrade_throws ≡ logs.upgrade_throws }
    ensures create_throws { seen 1000 scripts.create_throws ≡ logs.create_throws }
    ensures construction { seen 1000 scripts.construction ≡ logs.construction }
    ensures constructors { seen 1000 scripts.constructors ≡ logs.constructors }
    ensures extends { seen 1000 scripts.extends ≡ logs.extends }
    ensures definitions { seen 1000 scripts.definitions ≡ logs.definitions }
{}

/// The model computes: upgrades with their trace.
#[tactic(auto, using(crate::proofs::Rows::traced_logs, crate::proofs::Rows::traced_throws_logs))]
pub fn worked_traces()
    ensures done { traced scripts.traced ≡ logs.traced }
    ensures threw { traced scripts.traced_throws ≡ logs.traced_throws }
{}

/// The model computes: corners of the rules.
pub fn worked_corners()
    ensures put_back { seen 1000 corners.put_back ≡ corner_logs.put_back }
    ensures operands { seen 1000 corners.operands ≡ corner_logs.operands }
    ensures under_construction { seen 1000 corners.under_construction ≡ corner_logs.under_construction }
    ensures shadow_disabled { seen 1000 corners.shadow_disabled ≡ corner_logs.shadow_disabled }
    ensures inert { seen 1000 corners.inert ≡ corner_logs.inert }
    ensures clones { seen 1000 corners.clones ≡ corner_logs.clones }
    ensures second_super { seen 1000 corners.second_super ≡ corner_logs.second_super }
    ensures arguments { seen 1000 corners.arguments ≡ corner_logs.arguments }
{}

/// The model computes: form owners, disabled states, and whom their changes tell.
pub fn worked_owners()
    ensures owner { seen 1000 forms.owner ≡ form_logs.owner }
    ensures disabled { seen 1000 forms.disabled ≡ form_logs.disabled }
    ensures both { seen 1000 forms.owner_disabled ≡ form_logs.owner_disabled }
{}

/// The model computes: what controls keep, of radio groups, texts and options.
#[tactic(auto, using(crate::proofs::Rows::radios_logs, crate::proofs::Rows::texts_logs, crate::proofs::Rows::options_logs))]
pub fn worked_controls()
    ensures radios { seen 1000 controls.radios ≡ control_logs.radios }
    ensures texts { seen 1000 controls.texts ≡ control_logs.texts }
    ensures options { seen 1000 controls.options ≡ control_logs.options }
{}

/// The model computes: who gets internals, what they keep, and custom states.
pub fn worked_internals()
    ensures refused { seen 1000 internals.refused ≡ internal_logs.refused }
    ensures values { seen 1000 internals.values ≡ internal_logs.values }
    ensures attached { seen 1000 internals.attached ≡ internal_logs.attached }
{}

/// The model computes: resets by scripts and by the user, two of them with their trace, and states that come back.
pub fn worked_resets()
    ensures with_trace { traced resets.traced ≡ reset_logs.traced }
    ensures radios { seen 1000 resets.radios ≡ reset_logs.radios }
    ensures form { seen 1000 resets.form ≡ reset_logs.form }
    ensures within { seen 1000 resets.within ≡ reset_logs.within }
    ensures restored { seen 1000 resets.restored ≡ reset_logs.restored }
{}

/// The model computes: validity flags of texts and of internals, messages, and who is barred.
pub fn worked_validity()
    ensures texts { seen 1000 validity.texts ≡ validity_logs.texts }
    ensures internals { seen 1000 validity.internals ≡ validity_logs.internals }
{}

/// The model computes: forms that are submitted, also within a callback.
pub fn worked_submissions()
    ensures requests { seen 1000 submissions.requests ≡ submission_logs.requests }
    ensures within { seen 1000 submissions.within ≡ submission_logs.within }
{}
