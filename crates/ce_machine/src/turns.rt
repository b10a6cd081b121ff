// Turns: the topmost frame takes the outcome of what it waited for, and goes on.
ghost use Rattle.std.specs.Prelude.{◌≡◌, ◌≤◌, ◌<◌, ◌∷◌, [], Some, length, IfOk, OnOk};
ghost use Rattle.node_trees.specs.Nodes.{size};
ghost use Rattle.ce_algorithms.specs.Perform.{named as named_step};
ghost use Rattle.ce_frames.specs.Frames as waiting;
ghost use Rattle.ce_frames.specs.Turned.{ended};
ghost use Rattle.ce_frames.specs.Turns.{turn, turn_threw, turn_went};
ghost use Rattle.ce_frames.specs.Whole.{GoesBlind};
ghost use Rattle.frame_stack.specs.Frames.{waiting_of};
ghost use Rattle.frame_stack.specs.Sessions.{ArePaired, session};
ghost use Rattle.frame_stack.specs.Stacked.{HasBody, behaviours_of, below_top, frames_of};
ghost use Rattle.ce_outcomes.specs.Given.{IsThere};
ghost use Rattle.ce_machine.specs.Bodies.{frame_on_top};
ghost use Rattle.ce_outcomes.specs.Placed.{ArePlaced, Creates, IfCreating, Lasts};
ghost use Rattle.ce_machine.specs.Turns.{left, over};
ghost use Rattle.ce_outcomes.specs.Turns.{Turns, came_in, end_of};

use crate::bodies::{body_over, body_threw, body_went};
use ce_algorithms::Given;
use ce_base::{Fault, NoMemory, ReactionNo, Text};
use ce_drains::{backup_turn, check_turn, drain_turn, pop_turn, reply};
use ce_events::Event;
use ce_operations::State;
use ce_outcomes::Came;
use ce_outcomes::constructions::given_turn;
use ce_outcomes::creations::{extended_threw, failed_turn, fit_turn};
use ce_outcomes::upgrades::{constructed_turn, upgraded_turn};
use frame_stack::{Stack, Waiting};
use std::alloc::Global;

/// One turn. What the frames still do stays, and what is left to do falls.
pub(crate) fn turn(
    state: &mut State,
    alloc: Global,
    stack: &mut Stack,
    end: Came,
) -> Result<Came, NoMemory>
    requires some { 0 < length (frames_of stack.old) }
    requires paired { ArePaired stack.old state.old }
    requires placed { ArePlaced state.old.page.forest (frames_of stack.old) (end_of end) }
    ensures rest { IfOk result
        (λ now. over stack.new (came_in now (session stack.new state.new)) ≡ over stack.old (came_in end (session stack.old state.old))) }
    ensures work { IfOk result (λ _. left stack.new (session stack.new state.new) < left stack.old (session stack.old state.old)) }
    ensures paired { OnOk result (ArePaired stack.new state.new) }
    ensures placed { IfOk result (λ now. ArePlaced state.new.page.forest (frames_of stack.new) (end_of now)) }
{
    // What has a definition is an element: the clause of `tree` says so.
    let _tree = state.tree();
    match stack.pop() {
        None => {
            let now = resume_body(state, alloc, stack, end)?;
            Ok(now)
        }
        Some(frame) => {
            let now = resume(state, alloc, stack, frame, end)?;
            Ok(now)
        }
    }
}

// The body on top takes the outcome of what it waited for, and goes on.
fn resume_body(
    state: &mut State,
    alloc: Global,
    stack: &mut Stack,
    end: Came,
) -> Result<Came, NoMemory>
    requires body { HasBody (frames_of stack.old) }
    requires paired { ArePaired stack.old state.old }
    requires placed { ArePlaced state.old.page.forest (frames_of stack.old) (end_of end) }
    ensures turn { IfOk result (λ now. Turns (below_top (frames_of stack.old)) (frames_of stack.new) now (session stack.new state.new)
        (turn (frame_on_top stack.old) (end_of end) (session stack.old state.old))) }
    ensures paired { OnOk result (ArePaired stack.new state.new) }
    ensures lasts { OnOk result (Lasts state.old.page.forest (turn (frame_on_top stack.old) (end_of end) (session stack.old state.old))) }
{
    match end {
        Came::Went(given) => body_went(state, alloc, stack, given),
        Came::Threw(f) => body_threw(state, alloc, stack, f),
        Came::Over => Ok(body_over(state, stack)),
    }
}

// A frame that is of no body takes the outcome of what it waited for, and goes on.
fn resume(
    state: &mut State,
    alloc: Global,
    stack: &mut Stack,
    frame: Waiting,
    end: Came,
) -> Result<Came, NoMemory>
    requires paired { ArePaired stack.old state.old }
    requires placed { ArePlaced state.old.page.forest (waiting_of frame ∷ []) (end_of end) }
    ensures turn { IfOk result (λ now. Turns (frames_of stack.old) (frames_of stack.new) now (session stack.new state.new)
        (turn (waiting_of frame) (end_of end) (session stack.old state.old))) }
    ensures paired { OnOk result (ArePaired stack.new state.new) }
    ensures grows { size state.old.page.forest ≤ size state.new.page.forest }
    ensures created { IfOk result
        (λ now. IfCreating (waiting_of frame) (Creates state.old.page.forest state.new.page.forest (frames_of stack.old) (frames_of stack.new) now)) }
{
    match end {
        Came::Went(given) => {
            let now = went(state, alloc, stack, frame, given)?;
            Ok(now)
        }
        Came::Threw(f) => {
            let now = threw(state, alloc, stack, frame, f)?;
            Ok(now)
        }
        Came::Over => {
            drop(frame);
            Ok(Came::Over)
        }
    }
}

// After what it waited for has gone well. Two of the frames start a reaction, which may begin a body.
fn went(
    state: &mut State,
    alloc: Global,
    stack: &mut Stack,
    frame: Waiting,
    given: Given,
) -> Result<Came, NoMemory>
    requires paired { ArePaired stack.old state.old }
    requires placed { ArePlaced state.old.page.forest (waiting_of frame ∷ []) (end_of (Came.Went given)) }
    ensures turn { IfOk result (λ now. Turns (frames_of stack.old) (frames_of stack.new) now (session stack.new state.new)
        (turn_went (waiting_of frame) given (session stack.old state.old))) }
    ensures paired { OnOk result (ArePaired stack.new state.new) }
    ensures grows { size state.old.page.forest ≤ size state.new.page.forest }
    ensures created { IfOk result
        (λ now. IfCreating (waiting_of frame) (Creates state.old.page.forest state.new.page.forest (frames_of stack.old) (frames_of stack.new) now)) }
{
    match frame {
        Waiting::DrainingBackup(e) => {
            drop(given);
            backup_turn(state, alloc, stack, e)
        }
        Waiting::Draining(queue, e, elements, kept) => {
            drop(given);
            drain_turn(state, alloc, stack, queue, e, elements, kept)
        }
        frame => go_on(state, alloc, stack, frame, given),
    }
}

// A frame that starts no reaction reads nothing of what classes do.
fn go_on(
    state: &mut State,
    alloc: Global,
    stack: &mut Stack,
    frame: Waiting,
    given: Given,
) -> Result<Came, NoMemory>
    requires goes { GoesBlind (waiting_of frame) }
    requires paired { ArePaired stack.old state.old }
    requires placed { ArePlaced state.old.page.forest (waiting_of frame ∷ []) (end_of (Came.Went given)) }
    ensures turn { IfOk result (λ now. Turns (frames_of stack.old) (frames_of stack.new) now (session stack.new state.new)
        (turn_went (waiting_of frame) given (session stack.old state.old))) }
    ensures paired { OnOk result (ArePaired stack.new state.new) }
    ensures grows { size state.old.page.forest ≤ size state.new.page.forest }
    ensures created { IfOk result
        (λ now. IfCreating (waiting_of frame) (Creates state.old.page.forest state.new.page.forest (frames_of stack.old) (frames_of stack.new) now)) }
{
    let now = settled(state, alloc, stack, frame, given)?;
    Ok(now)
}

fn settled(
    state: &mut State,
    alloc: Global,
    stack: &mut Stack,
    frame: Waiting,
    given: Given,
) -> Result<Came, NoMemory>
    requires goes { GoesBlind (waiting_of frame) }
    requires placed { ArePlaced state.old.page.forest (waiting_of frame ∷ []) (end_of (Came.Went given)) }
    ensures turn { IfOk result (λ now. Turns (frames_of stack.old) (frames_of stack.new) now state.new (turn_went (waiting_of frame) given state.old)) }
    ensures same { OnOk result (behaviours_of stack.new ≡ behaviours_of stack.old) }
    ensures grows { size state.old.page.forest ≤ size state.new.page.forest }
    ensures created { IfOk result
        (λ now. IfCreating (waiting_of frame) (Creates state.old.page.forest state.new.page.forest (frames_of stack.old) (frames_of stack.new) now)) }
{
    match frame {
        Waiting::Replying(line) => check_turn(state, stack, line, Ok(given)),
        Waiting::Checking(line, kept) => {
            drop(given);
            checked(state, line, kept)
        }
        Waiting::Naming(var) => named(state, var, given),
        Waiting::Stepping(queue) => pop_turn(state, stack, queue, Ok(given)),
        Waiting::InReaction(number) => {
            drop(given);
            finished(state, number)
        }
        Waiting::CreatingFit(local, document) => fit_turn(state, alloc, local, document, given),
        Waiting::CreatingExtended(n) => {
            drop(given);
            Ok(Came::Went(Given::Node(n)))
        }
        Waiting::Upgrading(n, d) => constructed_turn(state, alloc, n, d, given),
        Waiting::Constructing => Ok(given_turn(given)),
        Waiting::DrainingBackup(_) => unreachable!(),
        Waiting::Draining(_, _, _, _) => unreachable!(),
    }
}

// After what it waited for has thrown. A reaction's fault is reported; a command replies with it.
fn threw(
    state: &mut State,
    alloc: Global,
    stack: &mut Stack,
    frame: Waiting,
    f: Fault,
) -> Result<Came, NoMemory>
    ensures turn { IfOk result (λ now. Turns (frames_of stack.old) (frames_of stack.new) now state.new (turn_threw (waiting_of frame) f state.old)) }
    ensures same { OnOk result (behaviours_of stack.new ≡ behaviours_of stack.old) }
    ensures grows { size state.old.page.forest ≤ size state.new.page.forest }
    ensures created { IfOk result
        (λ now. IfCreating (waiting_of frame) (Creates state.old.page.forest state.new.page.forest (frames_of stack.old) (frames_of stack.new) now)) }
{
    match frame {
        Waiting::Replying(line) => check_turn(state, stack, line, Err(f)),
        Waiting::Stepping(queue) => pop_turn(state, stack, queue, Err(f)),
        Waiting::InReaction(number) => reported(state, number, f),
        Waiting::CreatingFit(local, document) => failed_turn(state, alloc, local, document, f),
        Waiting::CreatingExtended(n) => extended_threw(state, n, f),
        Waiting::Upgrading(n, d) => upgraded_turn(state, alloc, n, d, Err(f)),
        Waiting::Checking(_, kept) => {
            drop(kept);
            Ok(Came::Threw(f))
        }
        Waiting::DrainingBackup(_) => Ok(Came::Threw(f)),
        Waiting::Naming(_) => Ok(Came::Threw(f)),
        Waiting::Draining(_, _, elements, kept) => {
            drop(elements);
            drop(kept);
            Ok(Came::Threw(f))
        }
        Waiting::Constructing => Ok(Came::Threw(f)),
    }
}

// The reply behind a checkpoint.
fn checked(state: &mut State, line: u64, kept: Result<Given, Fault>) -> Result<Came, NoMemory>
    ensures turn { IfOk result (λ now. ended (came_in now state.new) ≡ turn_went (waiting.Checking line kept) Given.Nothing state.old) }
    ensures page { state.new.page ≡ state.old.page }
{
    state.log(reply(line, kept))?;
    Ok(Came::Went(Given::Nothing))
}

// The variable of an operation is set to the node that it gave.
fn named(state: &mut State, var: Text, given: Given) -> Result<Came, NoMemory>
    requires { IsThere state.old.page.forest given }
    ensures step { IfOk result (λ now. came_in now state.new ≡ named_step (Some var) given state.old) }
    ensures page { state.new.page ≡ state.old.page }
{
    match given {
        Given::Node(n) => {
            state.set_variable(var, n)?;
            Ok(Came::Went(Given::Node(n)))
        }
        Given::Nothing => Ok(Came::Went(Given::Nothing)),
        Given::Answers(a) => Ok(Came::Went(Given::Answers(a))),
        Given::Ignored => Ok(Came::Went(Given::Ignored)),
    }
}

// A reaction has ended.
fn finished(state: &mut State, number: ReactionNo) -> Result<Came, NoMemory>
    ensures turn { IfOk result (λ now. ended (came_in now state.new) ≡ turn_went (waiting.InReaction number) Given.Nothing state.old) }
    ensures page { state.new.page ≡ state.old.page }
{
    state.log(Event::Finished(number))?;
    Ok(Came::Went(Given::Nothing))
}

// A reaction has thrown.
fn reported(state: &mut State, number: ReactionNo, f: Fault) -> Result<Came, NoMemory>
    ensures turn { IfOk result (λ now. ended (came_in now state.new) ≡ turn_threw (waiting.InReaction number) f state.old) }
    ensures page { state.new.page ≡ state.old.page }
{
    state.log(Event::Reported(f))?;
    finished(state, number)
}
