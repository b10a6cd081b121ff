// The steps of deeds, in the queue that is open.
ghost use Rattle.std.specs.Prelude.{◌≡◌, ◌≤◌, true, IfOk};
ghost use Rattle.node_trees.specs.Nodes.{IsNode, size};
ghost use Rattle.ce_algorithms.specs.Deeds.{IsStill};
ghost use Rattle.ce_algorithms.specs.declared.deed.Deed.TheVariants as deeds;
ghost use Rattle.ce_algorithms.specs.Model.{model};
ghost use Rattle.ce_algorithms.specs.Perform.{steps};
ghost use Rattle.session_state.specs.Ends.{Ends};
ghost use Rattle.session_state.specs.Given.{IsThere};
ghost use Rattle.ce_operations.specs.Ready.{IsReady};

use ce_algorithms::{Deed, Given};
use ce_base::{NodeNo, Text};
use rule_lines::AskWord;
use session_state::State;
use session_state::page_calls::{PageStop, answer, gives_nothing};
use std::alloc::Global;

/// Does the steps of a deed that constructs nothing. Refused, FuelSpent and NoMemory are those of the step of `State`
/// that it takes: `define_element`, `on_page`, `on_controls`, `on_internals`, `on_forms` or `submits`. A question, and a
/// variable that is set, refuse nothing and want no fuel.
pub fn run(state: &mut State, alloc: Global, deed: Deed) -> Result<Given, PageStop>
    requires ready { IsReady state.old.page.forest deed }
    requires still { IsStill deed }
    ensures step { Ends (λ g. g) result state.new (steps model deed state.old) }
    ensures there { IfOk result (IsThere state.new.page.forest) }
    ensures grows { size state.old.page.forest ≤ size state.new.page.forest }
{
    match deed {
        Deed::Create { .. } => unreachable!(),
        Deed::New { .. } => unreachable!(),
        Deed::Define { name, class, base } => {
            gives_nothing(state.define_element(alloc, &name, class, &base))
        }
        Deed::OnPage(what) => state.on_page(alloc, what),
        Deed::OnControls(what) => state.on_controls(alloc, what),
        Deed::OnInternals(what) => state.on_internals(alloc, what),
        Deed::OnForms(what) => state.on_forms(alloc, what),
        Deed::Submits(what) => state.submits(alloc, what),
        Deed::Ask { word, node, name } => ask(state, alloc, word, node, &name),
        Deed::Let { var, node } => set(state, var, node),
    }
}

fn ask(
    state: &State,
    alloc: Global,
    word: AskWord,
    n: NodeNo,
    name: &Option<Text>,
) -> Result<Given, PageStop>
    requires { IsNode state.now.page.forest n }
    ensures step { Ends (λ g. g) result state.now (steps model (deeds.Ask word n name.now) state.now) }
    ensures there { IfOk result (IsThere state.now.page.forest) }
{
    let name = name.as_ref().map(|t| t.as_str());
    let answer = answer(alloc, state.page(), word, name, n)?;
    Ok(Given::Answers(answer))
}

fn set(state: &mut State, var: Text, n: NodeNo) -> Result<Given, PageStop>
    requires { IsNode state.old.page.forest n }
    ensures step { Ends (λ g. g) result state.new (steps model (deeds.Let var n) state.old) }
    ensures there { IfOk result (IsThere state.new.page.forest) }
    ensures grows { size state.old.page.forest ≤ size state.new.page.forest }
{
    state.set_variable(var, n)?;
    Ok(Given::Nothing)
}
