// What an operation comes to: its operands, all read before a queue is pushed.
mod attributes;
mod controls;
mod forms;
mod internals;
mod session;
mod tree;
mod user;

ghost use Rattle.std.specs.Prelude.{◌≡◌, true, false, IfOk, IfSome};
ghost use Rattle.node_trees.specs.Nodes.{IsNode};
ghost use Rattle.ce_algorithms.specs.Deeds.{resolve};
ghost use Rattle.ce_algorithms.specs.State.{view};
ghost use Rattle.ce_operations.specs.OnControls.{is_on_controls};
ghost use Rattle.ce_operations.specs.OnForms.{is_on_forms};
ghost use Rattle.ce_operations.specs.OnInternals.{is_on_internals};
ghost use Rattle.ce_operations.specs.OnTree.{is_on_tree};
ghost use Rattle.ce_operations.specs.Ready.{IsReady};
ghost use Rattle.session_state.specs.Resolved.{Resolves};

use crate::operands::{class, node};
use ce_algorithms::{Deed, PageDeed};
use ce_base::{NodeNo, Refused};
use controls::{is_on_controls, on_controls};
use forms::{is_on_forms, on_forms};
use internals::{is_on_internals, on_internals};
use rule_lines::Op;
use session::{ask, define, let_node};
use session_state::State;
use std::alloc::Global;
use tree::{create, is_on_tree, make_text, on_tree};
pub use user::resolve_user;

/// The deed of an operation, or the first fault of its operands, from the left. Nothing is done yet.
///
/// ReferenceError: an operand is `this`, and nothing is `this`. TypeError: a variable is not set, a node is not what it
/// has to be, or no class has the name. NoMemory: memory was refused.
pub fn resolve(state: &State, alloc: Global, this: &Option<NodeNo>, op: Op) -> Result<Deed, Refused>
    requires { IfSome this.now (IsNode state.now.page.forest) }
    ensures deed { Resolves result (resolve (view this.now state.now) op) }
    ensures ready { IfOk result (IsReady state.now.page.forest) }
{
    if is_on_controls(&op) {
        on_controls(state, alloc, this, op)
    } else if is_on_internals(&op) {
        on_internals(state, alloc, this, op)
    } else if is_on_forms(&op) {
        on_forms(state, this, op)
    } else if is_on_tree(&op) {
        on_tree(state, alloc, this, op)
    } else {
        beside_tree(state, this, op)
    }
}

// The deed of an operation that is neither about a control nor about internals nor about a form nor about the tree.
fn beside_tree(state: &State, this: &Option<NodeNo>, op: Op) -> Result<Deed, Refused>
    requires no_control { is_on_controls op ≡ false }
    requires no_internals { is_on_internals op ≡ false }
    requires no_form { is_on_forms op ≡ false }
    requires no_tree { is_on_tree op ≡ false }
    requires there { IfSome this.now (IsNode state.now.page.forest) }
    ensures deed { Resolves result (resolve (view this.now state.now) op) }
    ensures ready { IfOk result (IsReady state.now.page.forest) }
{
    match op {
        Op::Create {
            var: _,
            local,
            is_value,
            document,
        } => create(state, this, local, is_value, &document),
        Op::New {
            var: _,
            class: class_name,
        } => {
            let class = class(state, class_name.as_str())?;
            Ok(Deed::New { class })
        }
        Op::MakeText {
            var: _,
            chars,
            document,
        } => make_text(state, this, chars, &document),
        Op::Clone {
            var: _,
            node: operand,
            deep,
        } => {
            let node = node(state, this, &operand)?;
            Ok(Deed::OnPage(PageDeed::Clone { node, deep }))
        }
        Op::Define {
            name,
            class: class_name,
            base,
        } => define(state, name, &class_name, base),
        Op::Upgrade { node: operand } => {
            let node = node(state, this, &operand)?;
            Ok(Deed::OnPage(PageDeed::Upgrade { node }))
        }
        Op::Ask { word, node, name } => ask(state, this, word, &node, name),
        Op::Let { var, node: operand } => let_node(state, this, var, &operand),
        _ => unreachable!(),
    }
}
