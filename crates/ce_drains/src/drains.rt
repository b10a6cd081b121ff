// Turns of drains: a popped queue, the backup element queue, and the checkpoint of a command (HTML Standard, section
// "Custom element reactions", "invoke custom element reactions" and "enqueue an element on the appropriate element
// queue").
ghost use Rattle.std.specs.Prelude.{◌≡◌, ◌≤◌, ◌∷◌, Ok, IfOk, OnOk};
ghost use Rattle.node_trees.specs.Nodes.{size};
ghost use Rattle.ce_algorithms.specs.Session.{reply};
ghost use Rattle.ce_frames.specs.DrainTurns.{backup_turn, check_turn, drain_turn, next_backup_turn};
ghost use Rattle.ce_frames.specs.OperateTurns.{next_turn, pop_turn};
ghost use Rattle.frame_stack.specs.Sessions.{ArePaired, session};
ghost use Rattle.frame_stack.specs.Stacked.{behaviours_of, frames_of};
ghost use Rattle.ce_reactions.specs.Turns.{Turns};

use ce_algorithms::Given;
use ce_base::{Fault, NoMemory, NodeNo, QueueNo};
use ce_events::Event;
use ce_reactions::reactions::start;
use ce_reactions::{Came, State, came_of};
use frame_stack::{Stack, Waiting};
use reaction_queue::ElementQueue;
use std::alloc::Global;

/// The steps of an operation have ended: its queue is popped, and is to be drained (HTML Standard, section "Custom
/// element reactions", `CEReactions`). NoMemory: see `Came`.
pub fn pop_turn(
    state: &mut State,
    stack: &mut Stack,
    queue: QueueNo,
    kept: Result<Given, Fault>,
) -> Result<Came, NoMemory>
    ensures turn { IfOk result (λ now. Turns (frames_of stack.old) (frames_of stack.new) now state.new (pop_turn queue kept state.old)) }
    ensures same { OnOk result (behaviours_of stack.new ≡ behaviours_of stack.old) }
    ensures forest { state.new.page.forest ≡ state.old.page.forest }
{
    let elements = state.pop_queue();
    match state.log(Event::DrainBegun(queue)) {
        Err(NoMemory) => Err(NoMemory),
        Ok(()) => {
            let now = next_turn(state, stack, queue, elements, kept)?;
            Ok(now)
        }
    }
}

// A popped queue goes on with its next element, or is closed.
fn next_turn(
    state: &mut State,
    stack: &mut Stack,
    queue: QueueNo,
    elements: ElementQueue,
    kept: Result<Given, Fault>,
) -> Result<Came, NoMemory>
    ensures turn { IfOk result (λ now. Turns (frames_of stack.old) (frames_of stack.new) now state.new (next_turn queue elements kept state.old)) }
    ensures same { OnOk result (behaviours_of stack.new ≡ behaviours_of stack.old) }
    ensures forest { state.new.page.forest ≡ state.old.page.forest }
{
    let mut elements = elements;
    match state.next_element(&mut elements) {
        None => {
            drop(elements);
            match state.log(Event::QueueClosed(queue)) {
                Err(NoMemory) => {
                    drop(kept);
                    Err(NoMemory)
                }
                Ok(()) => Ok(came_of(kept)),
            }
        }
        Some(next) => {
            stack.push(Waiting::Draining(queue, next, elements, kept))?;
            Ok(Came::Went(Given::Nothing))
        }
    }
}

/// The next reaction of a popped queue starts, or the queue goes on (HTML Standard, section "Custom element reactions",
/// "invoke custom element reactions"). NoMemory: see `Came`.
pub fn drain_turn(
    state: &mut State,
    alloc: Global,
    stack: &mut Stack,
    queue: QueueNo,
    e: NodeNo,
    elements: ElementQueue,
    kept: Result<Given, Fault>,
) -> Result<Came, NoMemory>
    requires paired { ArePaired stack.old state.old }
    ensures turn { IfOk result (λ now. Turns (frames_of stack.old) (frames_of stack.new) now (session stack.new state.new)
        (drain_turn queue (e ∷ elements) kept (session stack.old state.old))) }
    ensures paired { OnOk result (ArePaired stack.new state.new) }
    ensures grows { size state.old.page.forest ≤ size state.new.page.forest }
{
    match state.next_reaction(e) {
        Some((number, r)) => match stack.push(Waiting::Draining(queue, e, elements, kept)) {
            Err(NoMemory) => {
                drop(r);
                Err(NoMemory)
            }
            Ok(()) => {
                let now = start(state, alloc, stack, e, number, &r);
                drop(r);
                now
            }
        },
        None => {
            let now = next_turn(state, stack, queue, elements, kept)?;
            Ok(now)
        }
    }
}

/// The next reaction of the element at hand starts, or the backup element queue goes on (HTML Standard, section "Custom
/// element reactions", "enqueue an element on the appropriate element queue", the microtask). NoMemory: see `Came`.
pub fn backup_turn(
    state: &mut State,
    alloc: Global,
    stack: &mut Stack,
    e: NodeNo,
) -> Result<Came, NoMemory>
    requires paired { ArePaired stack.old state.old }
    ensures turn { IfOk result
        (λ now. Turns (frames_of stack.old) (frames_of stack.new) now (session stack.new state.new) (backup_turn e (session stack.old state.old))) }
    ensures paired { OnOk result (ArePaired stack.new state.new) }
    ensures grows { size state.old.page.forest ≤ size state.new.page.forest }
{
    match state.next_reaction(e) {
        Some((number, r)) => match stack.push(Waiting::DrainingBackup(e)) {
            Err(NoMemory) => {
                drop(r);
                Err(NoMemory)
            }
            Ok(()) => {
                let now = start(state, alloc, stack, e, number, &r);
                drop(r);
                now
            }
        },
        None => {
            let now = next_backup_turn(state, stack)?;
            Ok(now)
        }
    }
}

// The backup element queue goes on with its next element, or its drain is closed.
fn next_backup_turn(state: &mut State, stack: &mut Stack) -> Result<Came, NoMemory>
    ensures turn { IfOk result
        (λ now. Turns (frames_of stack.old) (frames_of stack.new) now state.new (next_backup_turn state.old.page.queues.backup state.old)) }
    ensures same { OnOk result (behaviours_of stack.new ≡ behaviours_of stack.old) }
    ensures forest { state.new.page.forest ≡ state.old.page.forest }
{
    match state.next_backup() {
        None => {
            state.log(Event::QueueClosed(QueueNo(0)))?;
            Ok(Came::Went(Given::Nothing))
        }
        Some(e) => {
            stack.push(Waiting::DrainingBackup(e))?;
            Ok(Came::Went(Given::Nothing))
        }
    }
}

/// The checkpoint of a command: the backup element queue is drained, where it is not empty, and then comes the
/// reply. NoMemory: see `Came`.
pub fn check_turn(
    state: &mut State,
    stack: &mut Stack,
    line: u64,
    kept: Result<Given, Fault>,
) -> Result<Came, NoMemory>
    ensures turn { IfOk result (λ now. Turns (frames_of stack.old) (frames_of stack.new) now state.new (check_turn line kept state.old)) }
    ensures same { OnOk result (behaviours_of stack.new ≡ behaviours_of stack.old) }
    ensures forest { state.new.page.forest ≡ state.old.page.forest }
{
    if state.has_backup() {
        stack.push(Waiting::Checking(line, kept))?;
        state.log(Event::DrainBegun(QueueNo(0)))?;
        let now = next_backup_turn(state, stack)?;
        return Ok(now);
    }
    state.log(reply(line, kept))?;
    Ok(Came::Went(Given::Nothing))
}

/// The reply to a command that gave something, or threw.
pub fn reply(line: u64, kept: Result<Given, Fault>) -> Event
    ensures { result ≡ reply line kept }
{
    match kept {
        Ok(given) => reply_with(line, given),
        Err(f) => Event::Threw(line, f),
    }
}

fn reply_with(line: u64, given: Given) -> Event
    ensures { result ≡ reply line (Ok given) }
{
    match given {
        Given::Nothing => Event::Fine(line),
        Given::Node(n) => Event::Gave(line, n),
        Given::Answers(a) => Event::Answered(line, a),
        Given::Ignored => Event::Ignored(line),
    }
}
