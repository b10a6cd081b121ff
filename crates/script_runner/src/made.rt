// A script that is made, a line at a time, and run; only the figures of its transcript are kept.
ghost use Rattle.std.specs.Prelude.{◌≡◌, ◌≤◌, ◌<◌, ◌+◌, ◌^◌, Some, [], length, IfOk};
ghost use Rattle.ce_algorithms.specs.Session.{log_of};
ghost use Rattle.ce_algorithms.specs.Steps.{is_spent};
ghost use Rattle.ce_events.specs.Text.{text};
ghost use Rattle.script_runner.specs.Making.{MadeMeets, fuel_left, made_session, says_spent};
ghost use Rattle.script_runner.specs.Ran.{Answered};
ghost use Rattle.script_runner.specs.Table.{status_of};

use crate::{Session, Status};
use ce_base::{NoMemory, Sink, Stop, write_all};
use ce_machine::End;
use command_words::Options;
use made_scripts::{Figures, Maker, line_count, summary};
use std::alloc::Global;

/// Makes the script of so many elements, runs it with these options, and writes the summary of the run to the sink.
///
/// Fuel: a unit of fuel was wanted, and none was left. Done: the fuel sufficed. With both the summary was written whole.
/// WriteFault: a write failed, and the sink's count of faults rose. NoMemory: memory was refused. With both a front of
/// the summary was written.
pub fn run_made<K: Sink>(
    alloc: Global,
    options: Options,
    count: u32,
    sink: &mut K,
) -> Result<Status, Stop>
    ensures table { MadeMeets options count (status_of result) (K.held sink.old) (K.held sink.new) (K.failed sink.old) (K.failed sink.new) }
    ensures later { K.failed sink.old ≤ K.failed sink.new }
    ensures write_fault { K.failed sink.old < K.failed sink.new → status_of result ≡ Status.WriteFault }
{
    let fuel = options.fuel;
    let mut figures = Figures::make();
    let (left, spent) = run_all(alloc, options, count, &mut figures)?;
    let used = fuel.saturating_sub(left);
    let text = summary(alloc, count, line_count(count), &figures, used, spent)?;
    write_all(sink, text.as_str().as_bytes())?;
    Ok(if spent { Status::Fuel } else { Status::Done })
}

// Runs the made script into the figures. Says how much fuel is left, and whether a unit was wanted and none was left.
fn run_all(
    alloc: Global,
    options: Options,
    count: u32,
    figures: &mut Figures,
) -> Result<(u32, bool), NoMemory>
    requires { figures.old ≡ [] }
    ensures figures { IfOk result (λ r. figures.new ≡ text options.trace (log_of (made_session options count))) }
    ensures left { IfOk result (λ r. r.0 ≡ fuel_left (made_session options count)) }
    ensures spent { IfOk result (λ r. r.1 ≡ is_spent (made_session options count)) }
{
    let session = Session::make(alloc, options)?;
    let (session, end) = run_made_lines(alloc, session, Maker::of(count), figures)?;
    let left = session.fuel_left();
    session.close();
    Ok((left, is_fuel_spent(end)))
}

fn is_fuel_spent(end: End) -> bool
    ensures { result ≡ says_spent end }
{
    match end {
        End::FuelSpent => true,
        End::Replied => false,
    }
}

// Runs the lines as they are made, until none is left or the fuel is spent.
fn run_made_lines(
    alloc: Global,
    mut session: Session,
    mut maker: Maker,
    figures: &mut Figures,
) -> Result<(Session, End), NoMemory>
    requires room { session.line + length maker < 2 ^ 63 }
    requires empty { session.state.log ≡ [] }
    ensures ran { IfOk result (λ r. Answered session maker r.1 r.0 (Some figures.old) (Some figures.new)) }
{
    loop {
        let line = match maker.next_line(alloc) {
            Ok(Some(line)) => line,
            Ok(None) => return Ok((session, End::Replied)),
            Err(NoMemory) => {
                session.close();
                return Err(NoMemory);
            }
        };
        match session.line(alloc, line.as_str().as_bytes(), figures) {
            Ok((next, End::Replied)) => session = next,
            Ok((next, End::FuelSpent)) => return Ok((next, End::FuelSpent)),
            Err(_) => return Err(NoMemory),
        }
    }
}
