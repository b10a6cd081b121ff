// A script that comes in pieces: each is run before the next is asked for.
ghost use Rattle.std.specs.Prelude.{◌≡◌, ◌≤◌, ◌<◌, length};
ghost use Rattle.ce_base.specs.Whole.{piece};
ghost use Rattle.command_words.specs.declared.words.Meaning.TheVariants.{Script};
ghost use Rattle.script_runner.specs.Table.{RunMeets, status_of};

use crate::answers::{finish, take_piece};
use crate::{Session, Status};
use ce_base::{Got, Sink, Source, Stop, ask, make_buffer};
use ce_machine::End;
use command_words::Options;
use line_feed::Feed;
use std::alloc::Global;

// How many bytes a script may have.
const LIMIT: usize = 16_777_216;

/// Runs the script that the source gives, with these options, and writes its transcript to the sink. All lines that were
/// wholly read are run, and their answers written, before the source is asked again.
///
/// What comes of it is a status as `page_runner::run` gives it, or a `Stop`, as `Status::of` says.
pub fn run_script<S: Source, K: Sink>(
    alloc: Global,
    options: Options,
    source: &mut S,
    sink: &mut K,
) -> Result<Status, Stop>
    ensures table { RunMeets (Script options) (status_of result) (S.left source.old) (S.left source.new) (K.held sink.old) (K.held sink.new)
        (S.ended source.new) (S.failed source.old) (S.failed source.new) (K.failed sink.old) (K.failed sink.new) }
    ensures later { (S.failed source.old ≤ S.failed source.new) × (K.failed sink.old ≤ K.failed sink.new) }
    ensures read_fault { S.failed source.old < S.failed source.new → status_of result ≡ Status.ReadFault }
    ensures write_fault { K.failed sink.old < K.failed sink.new → status_of result ≡ Status.WriteFault }
{
    let mut buffer = make_buffer(alloc)?;
    run_pieces(alloc, options, &mut buffer, source, sink)
}

// Asks for a piece after the other, and runs each before it asks again.
fn run_pieces<S: Source, K: Sink>(
    alloc: Global,
    options: Options,
    buffer: &mut [u8],
    source: &mut S,
    sink: &mut K,
) -> Result<Status, Stop>
    requires { length buffer.old ≡ piece }
    ensures table { RunMeets (Script options) (status_of result) (S.left source.old) (S.left source.new) (K.held sink.old) (K.held sink.new)
        (S.ended source.new) (S.failed source.old) (S.failed source.new) (K.failed sink.old) (K.failed sink.new) }
    ensures later { (S.failed source.old ≤ S.failed source.new) × (K.failed sink.old ≤ K.failed sink.new) }
    ensures read_fault { S.failed source.old < S.failed source.new → status_of result ≡ Status.ReadFault }
    ensures write_fault { K.failed sink.old < K.failed sink.new → status_of result ≡ Status.WriteFault }
{
    let mut feed = Feed::make(alloc);
    let mut session = Session::make(alloc, options)?;
    let mut taken = 0;
    'pieces: loop {
        match ask(source, buffer) {
            Got::Failed => {
                session.close();
                return Ok(Status::ReadFault);
            }
            Got::End => {
                let (session, end) = finish(alloc, session, feed, sink)?;
                return Ok(Status::at_end(session, end));
            }
            Got::Bytes(count) => {
                let within = count.min(LIMIT - taken);
                let (next, end) = take_piece(alloc, session, &mut feed, &buffer[..within], sink)?;
                if let End::FuelSpent = end {
                    next.close();
                    return Ok(Status::Fuel);
                }
                if within < count {
                    next.close();
                    return Ok(Status::TooLong);
                }
                session = next;
                taken += count;
            }
        }
    }
}
