// The law of construction stacks: statements, each proved as the contract of a function that does nothing. But for the last
// they hold from any state on, also from one that no session comes to. Where the fuel is spent, nothing is said.
ghost use Rattle.std.specs.Prelude.{ℕ, List, Option, Result};
ghost use Rattle.rule_tokens.specs.declared.refused.Bad.{Bad};
ghost use Rattle.rule_lines.specs.Acts.{Said};
ghost use Rattle.rule_lines.specs.declared.line.Cmd.{Cmd};
ghost use Rattle.rule_lines.specs.declared.op.Op.{Op};
ghost use Rattle.ce_algorithms.specs.declared.settings.Settings.{Settings};
ghost use Rattle.ce_algorithms.specs.Calls.{Call};
ghost use Rattle.ce_algorithms.specs.Construct.{construct};
ghost use Rattle.ce_algorithms.specs.Upgrade.{upgrade};
ghost use Rattle.ce_algorithms.specs.Create.{create};
ghost use Rattle.ce_algorithms.specs.Perform.{operate};
ghost use Rattle.ce_algorithms.specs.Session.{command, run_line, run_lines, start};
ghost use Rattle.ce_algorithms.specs.Model.{model};
ghost use Rattle.construction_law.specs.Depths.{LeavesStacks, StacksAreEmpty};

/// Constructing a class leaves each construction stack as deep as it was, whether it gives a node or throws: the base call
/// of a constructor puts the already constructed marker in the place of an entry, and takes none away. So does creating an
/// element.
#[tactic(auto, using(crate::proofs::Sessions::construct_leaves_stacks, crate::proofs::Sessions::create_leaves_stacks))]
pub fn each_construction_leaves_the_stacks()
    ensures construct { (class : ℕ) → LeavesStacks (construct model class) }
    ensures create { (local : List ℕ) (is : Option (List ℕ)) (document : ℕ) → LeavesStacks (create model local is document) }
{}

/// An upgrade leaves each construction stack as deep as it was, whether it is done or throws: the entry that it puts on the
/// stack of its definition is removed in each case.
#[tactic(auto, using(crate::proofs::Sessions::upgrade_leaves_stacks))]
pub fn each_upgrade_leaves_the_stacks()
    ensures { (n d : ℕ) → LeavesStacks (upgrade model n d) }
{}

/// An operation leaves each construction stack as deep as it was, with all reactions that run in it and all that their bodies
/// do in turn. So does whatever the algorithms call again: an operation of a body, and what is left to drain of an element
/// queue or of the backup element queue.
#[tactic(auto, using(crate::proofs::Sessions::operate_leaves_stacks, crate::proofs::Sessions::call_leaves_stacks))]
pub fn each_operation_leaves_the_stacks()
    ensures operation { (this : Option ℕ) (op : Op) → LeavesStacks (operate model this op) }
    ensures call { (call : Call) → LeavesStacks (model call) }
{}

/// A command leaves each construction stack as deep as it was, its checkpoint with it. So does a line of a script, whatever
/// it reads as or is refused for, and so do lines one after another.
#[tactic(auto, using(crate::proofs::Sessions::command_leaves_stacks, crate::proofs::Sessions::line_leaves_stacks, crate::proofs::Sessions::lines_leave_stacks))]
pub fn each_line_leaves_the_stacks()
    ensures command { (line : ℕ) (c : Cmd) → LeavesStacks (command model line c) }
    ensures line { (line : ℕ) (l : Result Said Bad) → LeavesStacks (run_line model line l) }
    ensures lines { (line : ℕ) (ls : List (Result Said Bad)) → LeavesStacks (run_lines model line ls) }
{}

/// Between two lines of a session each construction stack is empty: nothing is under construction there.
#[tactic(auto, using(crate::proofs::Sessions::session_leaves_none))]
pub fn stacks_are_empty_between_lines()
    ensures { (settings : Settings) (lines : List (Result Said Bad)) → StacksAreEmpty (run_lines model 1 lines (start settings)) }
{}
