// The machine: parsed lines of a script, one after another.
ghost use Rattle.std.specs.Prelude.{◌≡◌, ◌≤◌, ◌<◌, [], Err, Ok, true, IfOk, IfErr, OnErr, OnOk, IsErrOf};
ghost use Rattle.ce_base.specs.Faults.{Rose};
ghost use Rattle.ce_base.specs.Outside.{AppendsPart};
ghost use Rattle.rule_lines.specs.Acts.{part_of};
ghost use Rattle.ce_algorithms.specs.Model.{model};
ghost use Rattle.ce_algorithms.specs.Session.{command, class_part, run_line, start, log_of};
ghost use Rattle.ce_algorithms.specs.Steps.{Goes};
ghost use Rattle.ce_events.specs.Text.{text};
ghost use Rattle.ce_algorithms.specs.Written.{Did};
ghost use Rattle.frame_stack.specs.Sessions.{session};
ghost use Rattle.ce_machine.specs.Ended.{IsAtRest, outcome_of};
ghost use Rattle.ce_machine.specs.Rested.{AreAtHome};

use crate::End;
use crate::command::run_command;
use crate::writing::{write_part, write_refused};
use ce_algorithms::Settings;
use ce_base::{NoMemory, Sink, Stop};
use ce_operations::State;
use ce_page::Page;
use frame_stack::Stack;
use rule_lines::{ClassPart, Cmd};
use rule_tokens::Bad;
use std::alloc::Global;
use std::marker::Model;

/// A machine: the state of a session of which everything logged was written out, and the stack of frames, on which
/// none lies between two lines. It is handed on by value with each line, so both stand behind pointers.
///
/// A line that gives a `Stop` leaves no machine, and a front of what it writes was written. WriteFault: a write failed,
/// and the sink's count of faults rose. NoMemory: memory was refused.
#[derive(Drop)]
pub struct Machine {
    state: Box<State>,
    stack: Box<Stack>,
}

impl Model for Machine {
    ghost use Rattle.std.specs.Coded.{codes};
    ghost use Rattle.rule_lines.specs.ActCode.{act_code};
    ghost use Rattle.node_trees.specs.TreesCode.{trees_code};
    ghost use Rattle.frame_stack.specs.Sessions.{session};
    ghost use Rattle.ce_machine.specs.Ended.{IsAtRest};
    ghost use Rattle.ce_machine.specs.Rested.{Rested};

    ghost Value = { Rested };

    ghost coded = { Prim.hlevel (codes, act_code, trees_code) };

    ghost view = { λ m. record { session = session m.stack.value m.state.value; stack = m.stack.value } };

    ghost invariant = { λ m. IsAtRest m.stack.value m.state.value };
}

impl Machine {
    /// The machine before the first line, with these settings. NoMemory: memory was refused.
    pub fn make(alloc: Global, settings: Settings) -> Result<Machine, NoMemory>
        ensures session { IfOk result (λ m. m.session ≡ start settings) }
        ensures at_home { IfOk result AreAtHome }
    {
        let state = State::make(alloc, settings)?;
        let state = Box::new(alloc, state)?;
        let stack = Box::new(alloc, Stack::make(alloc))?;
        Ok(rested(state, stack))
    }

    /// How many units of fuel the session has left.
    pub fn fuel_left(&self) -> u32
        ensures { result ≡ self.now.session.fuel }
    {
        self.state.fuel_left()
    }

    /// The page as the lines so far have left it.
    pub fn page(&self) -> &Page
        ensures { result.now ≡ self.now.session.page }
    {
        self.state.page()
    }

    /// Takes a part of a class, and writes the reply where it is refused. WriteFault, NoMemory: see `Machine`.
    pub fn part<K: Sink>(
        self,
        alloc: Global,
        line: u64,
        p: ClassPart,
        trace: bool,
        sink: &mut K,
    ) -> Result<Machine, Stop>
        ensures ran { IfOk result (λ m. Did trace (K.held sink.old) (K.held sink.new) (class_part line (part_of p) self.session) (Goes tt m.session)) }
        ensures empty { IfOk result (λ m. m.session.log ≡ []) }
        ensures at_home { IfOk result AreAtHome }
        ensures part { OnErr result (AppendsPart (K.held sink.old) (K.held sink.new) (text trace (log_of (class_part line (part_of p) self.session)))) }
        ensures later { K.failed sink.old ≤ K.failed sink.new }
        ensures cause { IsErrOf result Stop.WriteFault → Rose (K.failed sink.old) (K.failed sink.new) }
        ensures told { K.failed sink.old < K.failed sink.new → IsErrOf result Stop.WriteFault }
        ensures home { K.home sink.new ≡ K.home sink.old }
        ensures below { K.below sink.old ≤ K.below sink.new }
    {
        let Machine { state, stack } = self;
        let mut state = state;
        let mut stack = stack;
        match write_part(&mut *state, alloc, &mut *stack, line, p, trace, sink) {
            Err(stop) => Err(stop),
            Ok(()) => Ok(rested(state, stack)),
        }
    }

    /// Replies to a line that was refused. WriteFault, NoMemory: see `Machine`.
    pub fn refused<K: Sink>(
        self,
        alloc: Global,
        line: u64,
        bad: Bad,
        trace: bool,
        sink: &mut K,
    ) -> Result<Machine, Stop>
        ensures ran { IfOk result (λ m. Did trace (K.held sink.old) (K.held sink.new) (run_line model line (Err bad) self.session) (Goes tt m.session)) }
        ensures empty { IfOk result (λ m. m.session.log ≡ []) }
        ensures at_home { IfOk result AreAtHome }
        ensures part { OnErr result (AppendsPart (K.held sink.old) (K.held sink.new) (text trace (log_of (run_line model line (Err bad) self.session)))) }
        ensures later { K.failed sink.old ≤ K.failed sink.new }
        ensures cause { IsErrOf result Stop.WriteFault → Rose (K.failed sink.old) (K.failed sink.new) }
        ensures told { K.failed sink.old < K.failed sink.new → IsErrOf result Stop.WriteFault }
        ensures home { K.home sink.new ≡ K.home sink.old }
        ensures below { K.below sink.old ≤ K.below sink.new }
    {
        let Machine { state, stack } = self;
        let mut state = state;
        match write_refused(&mut *state, alloc, &*stack, line, bad, trace, sink) {
            Err(stop) => Err(stop),
            Ok(()) => Ok(rested(state, stack)),
        }
    }

    /// Runs a command, and writes what comes of it. FuelSpent exactly where the fuel is spent in it: then the line
    /// `fuel` was written last, and the session has ended. Replied: it was replied to. WriteFault, NoMemory: see
    /// `Machine`.
    pub fn command<K: Sink>(
        self,
        alloc: Global,
        line: u64,
        c: Cmd,
        trace: bool,
        sink: &mut K,
    ) -> Result<(Machine, End), Stop>
        ensures ran { IfOk result (λ r. Did trace (K.held sink.old) (K.held sink.new) (command model line c self.session) (outcome_of r.1 r.0.session)) }
        ensures empty { IfOk result (λ r. r.0.session.log ≡ []) }

        // At each reply every behaviour is at home, in one place, with the counter and the text of the model.
        ensures at_home { IfOk result (λ r. AreAtHome r.0) }

        ensures part { OnErr result (AppendsPart (K.held sink.old) (K.held sink.new) (text trace (log_of (command model line c self.session)))) }
        ensures later { K.failed sink.old ≤ K.failed sink.new }
        ensures cause { IsErrOf result Stop.WriteFault → Rose (K.failed sink.old) (K.failed sink.new) }
        ensures told { K.failed sink.old < K.failed sink.new → IsErrOf result Stop.WriteFault }
        ensures home { K.home sink.new ≡ K.home sink.old }
        ensures below { K.below sink.old ≤ K.below sink.new }
    {
        let Machine { state, stack } = self;
        let mut state = state;
        let mut stack = stack;
        let ran = run_command(&mut *state, alloc, &mut *stack, line, c, trace, sink);
        with_end(state, stack, ran)
    }

    /// Lets the machine go, with all that its session owns.
    pub fn close(self) {
        drop(self);
    }
}

// The machine behind a line, where nothing stopped it: all behaviours are at home.
fn rested(state: Box<State>, stack: Box<Stack>) -> Machine
    requires { IsAtRest stack.value state.value }
    ensures session { result.session ≡ session stack.value state.value }
    ensures at_home { AreAtHome result }
{
    // Each behaviour is in one place: the clause of `is_empty` says so.
    let _empty = stack.is_empty();
    Machine { state, stack }
}

// The machine behind a command, where nothing stopped it.
fn with_end(
    state: Box<State>,
    stack: Box<Stack>,
    ran: Result<End, Stop>,
) -> Result<(Machine, End), Stop>
    requires { OnOk ran (IsAtRest stack.value state.value) }
    ensures went { IfOk result (λ r. (ran ≡ Ok r.1) × (r.0.session ≡ session stack.value state.value)) }
    ensures at_home { IfOk result (λ r. AreAtHome r.0) }
    ensures stopped { IfErr result (λ stop. ran ≡ Err stop) }
{
    match ran {
        Err(stop) => Err(stop),
        Ok(end) => Ok((rested(state, stack), end)),
    }
}
