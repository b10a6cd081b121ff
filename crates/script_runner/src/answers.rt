// Answers to lines are gathered, so that few and large writes reach the sink.
ghost use Rattle.std.specs.Prelude.{◌≡◌, ◌≢◌, ◌≤◌, ◌<◌, ◌+◌, ◌^◌, ◌++◌, ◌∷◌, [], length, IfOk, OnErr, IsErrOf, All};
ghost use Rattle.ce_base.specs.Faults.{Rose};
ghost use Rattle.ce_base.specs.Outside.{AppendsPart};
ghost use Rattle.ce_algorithms.specs.Lines.{whole_lines, last_line};
ghost use Rattle.script_runner.specs.Ran.{Answered, Drained, answers};

use crate::Session;
use crate::lines::run_lines;
use ce_base::{Gathering, NoMemory, Pending, Sink, Stop};
use ce_machine::End;
use line_feed::Feed;
use std::alloc::Global;

// Feeds a piece, runs the lines that are whole then, and writes all answers.
pub(crate) fn take_piece<K: Sink>(
    alloc: Global,
    session: Session,
    feed: &mut Feed,
    piece: &[u8],
    sink: &mut K,
) -> Result<(Session, End), Stop>
    requires room { session.line + length feed.old + length piece.now < 2 ^ 63 }
    requires empty { session.state.log ≡ [] }
    ensures ran { IfOk result (λ r. Answered session (whole_lines (feed.old ++ piece.now)) r.1 r.0 (K.held sink.old) (K.held sink.new)) }
    ensures drained { IfOk result (λ r. r.1 ≡ End.Replied → Drained (feed.old ++ piece.now) feed.new) }
    ensures number { IfOk result (λ r. r.0.line + length feed.new ≤ session.line + length feed.old + length piece.now) }
    ensures part { OnErr result (AppendsPart (K.held sink.old) (K.held sink.new) (answers session (whole_lines (feed.old ++ piece.now)))) }
    ensures later { K.failed sink.old ≤ K.failed sink.new }
    ensures cause { IsErrOf result Stop.WriteFault → Rose (K.failed sink.old) (K.failed sink.new) }
    ensures told { K.failed sink.old < K.failed sink.new → IsErrOf result Stop.WriteFault }
{
    if let Err(NoMemory) = feed.piece(alloc, piece) {
        session.close();
        return Err(Stop::NoMemory);
    }
    let mut pending = Pending::make(alloc);
    let mut out = Gathering::make(sink, &mut pending);
    answer_lines(alloc, session, feed, &mut out)
}

// Runs what is left at the end of the script, if anything, as a last line, and writes its answer.
pub(crate) fn finish<K: Sink>(
    alloc: Global,
    session: Session,
    feed: Feed,
    sink: &mut K,
) -> Result<(Session, End), Stop>
    requires room { session.line < 2 ^ 63 }
    requires empty { session.state.log ≡ [] }
    requires clean { All (λ b. b ≢ 10) feed }
    ensures ran { IfOk result (λ r. Answered session (last_line feed) r.1 r.0 (K.held sink.old) (K.held sink.new)) }
    ensures part { OnErr result (AppendsPart (K.held sink.old) (K.held sink.new) (answers session (last_line feed))) }
    ensures later { K.failed sink.old ≤ K.failed sink.new }
    ensures cause { IsErrOf result Stop.WriteFault → Rose (K.failed sink.old) (K.failed sink.new) }
    ensures told { K.failed sink.old < K.failed sink.new → IsErrOf result Stop.WriteFault }
{
    match feed.rest() {
        None => Ok((session, End::Replied)),
        Some(line) => {
            let mut pending = Pending::make(alloc);
            let mut out = Gathering::make(sink, &mut pending);
            answer_line(alloc, session, line.as_slice(), &mut out)
        }
    }
}

// Runs the whole lines of the feed, and passes all answers on.
fn answer_lines<K: Sink>(
    alloc: Global,
    session: Session,
    feed: &mut Feed,
    out: &mut Gathering<'_, '_, K>,
) -> Result<(Session, End), Stop>
    requires room { session.line + length feed.old < 2 ^ 63 }
    requires empty { session.state.log ≡ [] }
    requires none { out.old.pending.now ≡ [] }
    ensures ran { IfOk result (λ r. Answered session (whole_lines feed.old) r.1 r.0 (K.held out.old.sink.now) (K.held out.new.sink.now)) }
    ensures drained { IfOk result (λ r. r.1 ≡ End.Replied → Drained feed.old feed.new) }
    ensures number { IfOk result (λ r. r.0.line + length feed.new ≤ session.line + length feed.old) }
    ensures part { OnErr result (AppendsPart (K.held out.old.sink.now) (K.held out.new.sink.now) (answers session (whole_lines feed.old))) }
    ensures later { K.failed out.old.sink.now ≤ K.failed out.new.sink.now }
    ensures cause { IsErrOf result Stop.WriteFault → Rose (K.failed out.old.sink.now) (K.failed out.new.sink.now) }
    ensures told { K.failed out.old.sink.now < K.failed out.new.sink.now → IsErrOf result Stop.WriteFault }
    ensures home { out.new.sink.ghost_name ≡ out.old.sink.ghost_name }
{
    let ran = run_lines(alloc, session, feed, out)?;
    if let Err(stop) = out.pass_on() {
        ran.0.close();
        return Err(stop);
    }
    Ok(ran)
}

// Runs a line, and passes its answer on.
fn answer_line<K: Sink>(
    alloc: Global,
    session: Session,
    line: &[u8],
    out: &mut Gathering<'_, '_, K>,
) -> Result<(Session, End), Stop>
    requires room { session.line < 2 ^ 63 }
    requires empty { session.state.log ≡ [] }
    requires none { out.old.pending.now ≡ [] }
    ensures ran { IfOk result (λ r. Answered session (line.now ∷ []) r.1 r.0 (K.held out.old.sink.now) (K.held out.new.sink.now)) }
    ensures part { OnErr result (AppendsPart (K.held out.old.sink.now) (K.held out.new.sink.now) (answers session (line.now ∷ []))) }
    ensures later { K.failed out.old.sink.now ≤ K.failed out.new.sink.now }
    ensures cause { IsErrOf result Stop.WriteFault → Rose (K.failed out.old.sink.now) (K.failed out.new.sink.now) }
    ensures told { K.failed out.old.sink.now < K.failed out.new.sink.now → IsErrOf result Stop.WriteFault }
    ensures home { out.new.sink.ghost_name ≡ out.old.sink.ghost_name }
{
    let ran = session.line(alloc, line, out)?;
    if let Err(stop) = out.pass_on() {
        ran.0.close();
        return Err(stop);
    }
    Ok(ran)
}
