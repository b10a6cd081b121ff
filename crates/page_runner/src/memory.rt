// A script that is run in memory.
ghost use Rattle.std.specs.Prelude.{◌≡◌, ◌≤◌, ◌<◌, ◌⊎◌, ◌++◌, None, Some, length, min, take, drop, vec_len};
ghost use Rattle.ce_base.specs.Outside.{IsPrefix};
ghost use Rattle.page_runner.specs.Asked.{asked};
ghost use Rattle.page_runner.specs.Ending.{end_status, script_transcript};
ghost use Rattle.page_runner.specs.Memory.{Holds};

use crate::asked::asked;
use crate::bounded::BoundedSink;
use crate::script::ScriptSource;
use crate::top::run_with;
use ce_base::NoMemory;
use command_words::Options;
use script_runner::Status;
use std::alloc::Global;

/// Runs a script with so much fuel, with the trace or without it, at a URL and with a boundary. An empty URL or boundary is
/// the default one. The transcript goes into `out`: all of it, or as many bytes as there is room for, or fewer where memory is
/// refused. What is behind them in `out` is as it was. Gives the status, and how many bytes of the transcript are there.
///
/// Usage comes exactly where the words that say so would be refused, unless memory is refused before that is known; then
/// nothing is written. WriteFault comes exactly where the transcript is longer than `out`, which then holds its front,
/// unless memory is refused before that is known. NoMemory: memory was refused, and `out` has a front of the transcript.
/// With each other status the transcript was written whole, and that is the script's status. ReadFault never comes.
///
/// The fuel is from 1 to 200,000 units. Of a script of more than 16,777,216 bytes the whole lines within them are run, and the
/// status is TooLong, unless the fuel is spent.
pub fn run_in_memory(
    alloc: Global,
    script: &[u8],
    fuel: u32,
    trace: bool,
    url: &[u8],
    boundary: &[u8],
    out: &mut [u8],
) -> (Status, usize)
    ensures usage { result.0 ≡ Status.Usage → asked fuel trace url.now boundary.now ≡ None }
    ensures refused { asked fuel trace url.now boundary.now ≡ None
        → ((result.0 ≡ Status.Usage) ⊎ (result.0 ≡ Status.NoMemory)) × (result.1 ≡ 0) × (out.new ≡ out.old) }

    // Where the transcript fits, it is there whole, with its status.
    ensures whole { (set : Options) → asked fuel trace url.now boundary.now ≡ Some set → length (script_transcript set script.now) ≤ length out.old
        → ((result.0 ≡ end_status set script.now) × (result.1 ≡ length (script_transcript set script.now))) ⊎ (result.0 ≡ Status.NoMemory) }

    // A failed write tells that it does not fit, and then the buffer is full.
    ensures longer { (set : Options) → asked fuel trace url.now boundary.now ≡ Some set → length out.old < length (script_transcript set script.now)
        → ((result.0 ≡ Status.WriteFault) × (result.1 ≡ length out.old)) ⊎ (result.0 ≡ Status.NoMemory) }
    ensures more_room { (set : Options) → asked fuel trace url.now boundary.now ≡ Some set → result.0 ≡ Status.WriteFault
        → length out.old < length (script_transcript set script.now) }

    // With each status what was written is the front of the transcript.
    ensures front { (set : Options) → asked fuel trace url.now boundary.now ≡ Some set
        → Holds (script_transcript set script.now) out.old out.new result.1 }
    ensures within { result.1 ≤ length out.old }
{
    match asked(alloc, fuel, trace, url, boundary) {
        Err(NoMemory) => (Status::NoMemory, 0),
        Ok(None) => (Status::Usage, 0),
        Ok(Some(options)) => run_into(alloc, options, script, out),
    }
}

// Runs the script with these options, and puts its transcript into the buffer, as far as there is room. Gives the status,
// which is WriteFault exactly where there is too little, and how many bytes were put.
//
// A byte more than there is room for is held, which shows that the transcript is longer.
fn run_into(alloc: Global, options: Options, script: &[u8], out: &mut [u8]) -> (Status, usize)
    ensures whole { length (script_transcript options script.now) ≤ length out.old
        → ((result.0 ≡ end_status options script.now) × (result.1 ≡ length (script_transcript options script.now))) ⊎ (result.0 ≡ Status.NoMemory) }
    ensures longer { length out.old < length (script_transcript options script.now)
        → ((result.0 ≡ Status.WriteFault) × (result.1 ≡ length out.old)) ⊎ (result.0 ≡ Status.NoMemory) }
    ensures front { Holds (script_transcript options script.now) out.old out.new result.1 }
{
    let (status, transcript) = transcribe(alloc, options, script, out.len() + 1);
    let count = fill(out, &transcript);
    if count < transcript.len() {
        return (Status::WriteFault, count);
    }
    (status, count)
}

// Runs the script with these options. Gives the status, and so many bytes of the transcript at most.
fn transcribe(alloc: Global, options: Options, script: &[u8], most: usize) -> (Status, Vec<u8>)
    ensures front { IsPrefix result.1.items (script_transcript options script.now) }
    ensures within { vec_len result.1 ≤ most }
    ensures whole { vec_len result.1 < most
        → ((result.0 ≡ end_status options script.now) × (result.1.items ≡ script_transcript options script.now)) ⊎ (result.0 ≡ Status.NoMemory) }
{
    let mut source = ScriptSource::make(script);
    let mut sink = BoundedSink::make(alloc, most);
    let status = run_with(alloc, options, &mut source, &mut sink);
    (status, sink.into_bytes())
}

// Puts the front of the text into the buffer, and says how many bytes of it.
fn fill(out: &mut [u8], text: &[u8]) -> usize
    ensures count { result ≡ min (length text.now) (length out.old) }
    ensures bytes { out.new ≡ take result text.now ++ drop result out.old }
{
    let count = text.len().min(out.len());
    out[..count].copy_from_slice(&text[..count]);
    count
}
