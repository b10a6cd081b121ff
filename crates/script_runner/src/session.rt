// A session: the lines of a script, one after another.
ghost use Rattle.std.specs.Prelude.{◌≡◌, ◌+◌, ◌<◌, ◌≤◌, ◌^◌, ◌||◌, [], Ok, Err, true, IfOk, IfErr, OnErr, IsErrOf};
ghost use Rattle.ce_base.specs.Faults.{Rose};
ghost use Rattle.ce_base.specs.Outside.{AppendsPart};
ghost use Rattle.rule_lines.specs.Acts.{line_of};
ghost use Rattle.rule_script.specs.Reading.{longest, reading};
ghost use Rattle.ce_algorithms.specs.Model.{model};
ghost use Rattle.ce_algorithms.specs.Session.{run_line, log_of};
ghost use Rattle.ce_events.specs.Text.{text};
ghost use Rattle.ce_algorithms.specs.Written.{Did};
ghost use Rattle.ce_machine.specs.Ended.{outcome_of};
ghost use Rattle.script_runner.specs.Ran.{fresh};
ghost use Rattle.script_runner.specs.Script.{is_bad};

use ce_algorithms::Settings;
use ce_base::{NoMemory, Sink, Stop};
use ce_machine::{End, Machine, Page};
use command_words::Options;
use rule_script::{Line, LineRefused, read_line};
use std::alloc::Global;
use std::marker::Model;

/// A session: what has come of the lines so far.
#[derive(Drop)]
pub struct Session {
    machine: Machine,
    line: u64,
    bad: bool,
    trace: bool,
}

impl Model for Session {
    ghost use Rattle.std.specs.Coded.{codes};
    ghost use Rattle.node_trees.specs.TreesCode.{trees_code};
    ghost use Rattle.rule_lines.specs.ActCode.{act_code};
    ghost use Rattle.script_runner.specs.Sitting.{Sitting};

    ghost Value = { Sitting };

    ghost coded = { Prim.hlevel (codes, act_code, trees_code) };

    ghost view = { λ s. record { state = s.machine.session; line = s.line; bad = s.bad; trace = s.trace } };
}

impl Session {
    /// A session before its first line. NoMemory: memory was refused.
    pub fn make(alloc: Global, options: Options) -> Result<Session, NoMemory>
        ensures { IfOk result (λ s. s ≡ fresh options) }
    {
        let Options { fuel, site, trace } = options;
        Ok(Session {
            machine: Machine::make(alloc, Settings { fuel, site })?,
            line: 0,
            bad: false,
            trace,
        })
    }

    /// Whether some line was refused.
    pub fn is_bad(&self) -> bool
        ensures { result ≡ self.now.bad }
    {
        self.bad
    }

    /// How many units of fuel are left.
    pub fn fuel_left(&self) -> u32
        ensures { result ≡ self.now.state.fuel }
    {
        self.machine.fuel_left()
    }

    /// The page as the lines so far have left it.
    pub fn page(&self) -> &Page
        ensures { result.now ≡ self.now.state.page }
    {
        self.machine.page()
    }

    /// Lets the session go, with all that its machine owns.
    pub fn close(self) {
        self.machine.close();
    }

    // Passes over a line that says nothing.
    pub(crate) fn pass(&mut self)
        requires { self.old.line + 1 < 2 ^ 64 }
        ensures { self.new ≡ record self.old { line = self.old.line + 1 } }
    {
        self.line += 1;
    }

    /// Reads a line, runs it, and writes what comes of it. FuelSpent exactly where the fuel is spent in it: then the
    /// line `fuel` was written last, and the session has ended. Replied: else, also where the line was refused.
    ///
    /// A `Stop` leaves no session, and a front of what the line writes was written. WriteFault: a write failed, and the
    /// sink's count of faults rose. NoMemory: memory was refused.
    pub fn line<K: Sink>(
        self,
        alloc: Global,
        bytes: &[u8],
        sink: &mut K,
    ) -> Result<(Session, End), Stop>
        requires room { self.line + 1 < 2 ^ 64 }
        ensures ran { IfOk result (λ r. Did self.trace (K.held sink.old) (K.held sink.new)
            (run_line model (self.line + 1) (reading longest bytes.now) self.state) (outcome_of r.1 r.0.state)) }
        ensures number { IfOk result (λ r. r.0.line ≡ self.line + 1) }
        ensures bad { IfOk result (λ r. r.0.bad ≡ (self.bad || is_bad (reading longest bytes.now))) }
        ensures trace { IfOk result (λ r. r.0.trace ≡ self.trace) }
        ensures empty { IfOk result (λ r. r.0.state.log ≡ []) }
        ensures part { OnErr result (AppendsPart (K.held sink.old) (K.held sink.new)
            (text self.trace (log_of (run_line model (self.line + 1) (reading longest bytes.now) self.state)))) }
        ensures later { K.failed sink.old ≤ K.failed sink.new }
        ensures cause { IsErrOf result Stop.WriteFault → Rose (K.failed sink.old) (K.failed sink.new) }
        ensures told { K.failed sink.old < K.failed sink.new → IsErrOf result Stop.WriteFault }
        ensures home { K.home sink.new ≡ K.home sink.old }
        ensures below { K.below sink.old ≤ K.below sink.new }
    {
        let Session {
            machine,
            line,
            bad,
            trace,
        } = self;
        let line = line + 1;
        match read_line(alloc, bytes) {
            Ok(said) => match run_said(machine, alloc, line, said, trace, sink) {
                Ok((machine, end)) => Ok((
                    Session {
                        machine,
                        line,
                        bad,
                        trace,
                    },
                    end,
                )),
                Err(stop) => Err(stop),
            },
            Err(LineRefused::Bad(fault)) => {
                match machine.refused(alloc, line, fault, trace, sink) {
                    Ok(machine) => Ok((
                        Session {
                            machine,
                            line,
                            bad: true,
                            trace,
                        },
                        End::Replied,
                    )),
                    Err(stop) => Err(stop),
                }
            }
            Err(LineRefused::NoMemory) => {
                machine.close();
                Err(Stop::NoMemory)
            }
        }
    }
}

// A part of a class ends as a line that was replied to, though only a refused one has a reply.
fn replied(done: Result<Machine, Stop>) -> Result<(Machine, End), Stop>
    ensures done { IfOk done (λ m. result ≡ Ok (m, End.Replied)) }
    ensures stopped { IfErr done (λ stop. result ≡ Err stop) }
{
    match done {
        Ok(machine) => Ok((machine, End::Replied)),
        Err(stop) => Err(stop),
    }
}

// Runs what a line says.
fn run_said<K: Sink>(
    machine: Machine,
    alloc: Global,
    line: u64,
    said: Line,
    trace: bool,
    sink: &mut K,
) -> Result<(Machine, End), Stop>
    ensures ran { IfOk result
        (λ r. Did trace (K.held sink.old) (K.held sink.new) (run_line model line (Ok (line_of said)) machine.session) (outcome_of r.1 r.0.session)) }
    ensures empty { IfOk result (λ r. r.0.session.log ≡ []) }
    ensures part { OnErr result
        (AppendsPart (K.held sink.old) (K.held sink.new) (text trace (log_of (run_line model line (Ok (line_of said)) machine.session)))) }
    ensures later { K.failed sink.old ≤ K.failed sink.new }
    ensures cause { IsErrOf result Stop.WriteFault → Rose (K.failed sink.old) (K.failed sink.new) }
    ensures told { K.failed sink.old < K.failed sink.new → IsErrOf result Stop.WriteFault }
    ensures home { K.home sink.new ≡ K.home sink.old }
    ensures below { K.below sink.old ≤ K.below sink.new }
{
    match said {
        Line::Blank => Ok((machine, End::Replied)),
        Line::Command(c) => machine.command(alloc, line, c, trace, sink),
        Line::Part(p) => replied(machine.part(alloc, line, p, trace, sink)),
    }
}
