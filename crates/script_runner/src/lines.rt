// Runs the lines of a feed.
ghost use Rattle.std.specs.Prelude.{◌≡◌, ◌≤◌, ◌<◌, ◌+◌, ◌^◌, [], length, IfOk, OnErr, IsErrOf};
ghost use Rattle.ce_base.specs.Faults.{Rose};
ghost use Rattle.ce_base.specs.Outside.{AppendsPart};
ghost use Rattle.ce_algorithms.specs.Lines.{whole_lines};
ghost use Rattle.script_runner.specs.Ran.{Answered, Drained, answers};

use crate::Session;
use crate::blank::says_nothing;
use ce_base::{NoMemory, Sink, Stop};
use ce_machine::End;
use line_feed::Feed;
use rule_script::LONGEST;
use std::alloc::Global;

// Runs the whole lines of the feed, until none is left or the fuel is spent.
pub(crate) fn run_lines<K: Sink>(
    alloc: Global,
    mut session: Session,
    feed: &mut Feed,
    sink: &mut K,
) -> Result<(Session, End), Stop>
    requires room { session.line + length feed.old < 2 ^ 63 }
    requires empty { session.state.log ≡ [] }
    ensures ran { IfOk result (λ r. Answered session (whole_lines feed.old) r.1 r.0 (K.held sink.old) (K.held sink.new)) }
    ensures drained { IfOk result (λ r. r.1 ≡ End.Replied → Drained feed.old feed.new) }
    ensures number { IfOk result (λ r. r.0.line + length feed.new ≤ session.line + length feed.old) }
    ensures part { OnErr result (AppendsPart (K.held sink.old) (K.held sink.new) (answers session (whole_lines feed.old))) }
    ensures later { K.failed sink.old ≤ K.failed sink.new }
    ensures cause { IsErrOf result Stop.WriteFault → Rose (K.failed sink.old) (K.failed sink.new) }
    ensures told { K.failed sink.old < K.failed sink.new → IsErrOf result Stop.WriteFault }
    ensures home { K.home sink.new ≡ K.home sink.old }
    ensures below { K.below sink.old ≤ K.below sink.new }
{
    'lines: loop {
        let line = match feed.next_line(alloc) {
            Ok(Some(line)) => line,
            Ok(None) => return Ok((session, End::Replied)),
            Err(NoMemory) => {
                session.close();
                return Err(Stop::NoMemory);
            }
        };
        if says_nothing(LONGEST, line.as_slice()) {
            session.pass();
            continue 'lines;
        }
        let (next, end) = session.line(alloc, line.as_slice(), sink)?;
        session = next;
        if let End::FuelSpent = end {
            return Ok((session, end));
        }
    }
}
