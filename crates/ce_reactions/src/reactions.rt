// Turns of reactions: an upgrade begins, or a callback.
ghost use Rattle.std.specs.Prelude.{◌≡◌, ◌≤◌, None, IfOk, OnOk};
ghost use Rattle.node_trees.specs.Kinds.{IsElement};
ghost use Rattle.node_trees.specs.Nodes.{size};
ghost use Rattle.reaction_queue.specs.Reactions.{upgrade_of};
ghost use Rattle.ce_events.specs.declared.event.Event.TheVariants.{Started};
ghost use Rattle.ce_algorithms.specs.State.{logged};
ghost use Rattle.ce_frames.specs.Frames as waiting;
ghost use Rattle.ce_frames.specs.DrainTurns.{reaction_turn};
ghost use Rattle.ce_frames.specs.Turned.{below};
ghost use Rattle.frame_stack.specs.Sessions.{ArePaired, session};
ghost use Rattle.frame_stack.specs.Stacked.{frames_of};
ghost use Rattle.ce_reactions.specs.Callbacks.{callback_turn};
ghost use Rattle.ce_outcomes.specs.Turns.{Turns};

use crate::upgrades::upgrade_turn;
use behaviours::Args;
use ce_algorithms::Given;
use ce_base::{ClassNo, NoMemory, NodeNo, ReactionNo};
use ce_events::Event;
use ce_outcomes::{Came, State};
use frame_stack::{Stack, Waiting};
use reaction_queue::Reaction;
use rule_tokens::CallOrUpgrade;
use std::alloc::Global;

/// A reaction that was taken starts (HTML Standard, section "Custom element reactions", "invoke custom element
/// reactions"). Only an upgrade throws here or finds no fuel: see `upgrade_turn`. NoMemory: see `Came`.
pub fn start(
    state: &mut State,
    alloc: Global,
    stack: &mut Stack,
    e: NodeNo,
    number: ReactionNo,
    r: &Reaction,
) -> Result<Came, NoMemory>
    requires element { IsElement state.old.page.forest e }
    requires paired { ArePaired stack.old state.old }
    ensures turn { IfOk result (λ now. Turns (frames_of stack.old) (frames_of stack.new) now (session stack.new state.new)
        (below (waiting.InReaction number) (reaction_turn e r.now) (logged (Started number) (session stack.old state.old)))) }
    ensures paired { OnOk result (ArePaired stack.new state.new) }
    ensures grows { size state.old.page.forest ≤ size state.new.page.forest }
{
    state.log(Event::Started(number))?;
    stack.push(Waiting::InReaction(number))?;
    let now = react(state, alloc, stack, e, r)?;
    Ok(now)
}

// What it does.
fn react(
    state: &mut State,
    alloc: Global,
    stack: &mut Stack,
    e: NodeNo,
    r: &Reaction,
) -> Result<Came, NoMemory>
    requires element { IsElement state.old.page.forest e }
    requires paired { ArePaired stack.old state.old }
    ensures turn { IfOk result (λ now. Turns (frames_of stack.old) (frames_of stack.new) now (session stack.new state.new)
        (reaction_turn e r.now (session stack.old state.old))) }
    ensures paired { OnOk result (ArePaired stack.new state.new) }
    ensures grows { size state.old.page.forest ≤ size state.new.page.forest }
{
    match r.upgrade() {
        Some(d) => {
            let now = upgrade_turn(state, alloc, stack, e, d)?;
            Ok(now)
        }
        None => {
            let now = call(state, alloc, stack, e, r)?;
            Ok(now)
        }
    }
}

// Its callback begins, where its element has a definition.
fn call(
    state: &mut State,
    alloc: Global,
    stack: &mut Stack,
    e: NodeNo,
    r: &Reaction,
) -> Result<Came, NoMemory>
    requires callback { upgrade_of r.now ≡ None }
    requires paired { ArePaired stack.old state.old }
    ensures turn { IfOk result (λ now. Turns (frames_of stack.old) (frames_of stack.new) now (session stack.new state.new)
        (reaction_turn e r.now (session stack.old state.old))) }
    ensures paired { OnOk result (ArePaired stack.new state.new) }
    ensures grows { size state.old.page.forest ≤ size state.new.page.forest }
{
    match state.callee(e) {
        None => Ok(Came::Went(Given::Nothing)),
        Some(class) => {
            let now = begin(state, alloc, stack, e, class, r)?;
            Ok(now)
        }
    }
}

// A callback begins: its line, and then its body.
fn begin(
    state: &mut State,
    alloc: Global,
    stack: &mut Stack,
    e: NodeNo,
    class: ClassNo,
    r: &Reaction,
) -> Result<Came, NoMemory>
    requires callback { upgrade_of r.now ≡ None }
    requires paired { ArePaired stack.old state.old }
    ensures turn { IfOk result (λ now. Turns (frames_of stack.old) (frames_of stack.new) now (session stack.new state.new)
        (callback_turn e class r.now (session stack.old state.old))) }
    ensures paired { OnOk result (ArePaired stack.new state.new) }
    ensures grows { size state.old.page.forest ≤ size state.new.page.forest }
{
    state.log_call(alloc, e, r)?;
    let args = Args::of(alloc, r)?;
    match r.what() {
        CallOrUpgrade::Upgrade => unreachable!(),
        CallOrUpgrade::Call(call) => {
            stack.begin(class, call, args, Some(e))?;
            Ok(Came::Went(Given::Nothing))
        }
    }
}
