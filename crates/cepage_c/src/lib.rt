//! The engine for programs in other languages: a script is run in memory.
#![tactic(auto)]

ghost use Rattle.std.specs.Prelude.{◌≡◌, ◌≤◌, ◌<◌, ◌⊎◌, Some, None, length};
ghost use Rattle.command_words.specs.declared.words.Options.{Options};
ghost use Rattle.page_runner.specs.Table.{number_of};
ghost use Rattle.page_runner.specs.Ending.{end_status, script_transcript};
ghost use Rattle.page_runner.specs.Asked.{asked};
ghost use Rattle.page_runner.specs.Memory.{Holds};
ghost use Rattle.cepage_c.specs.Numbers.{more_room, no_memory, usage};

use page_runner::run_in_memory;
use std::alloc::Global;

/// Runs a script with so much fuel, with the trace or without it, at a URL and with a boundary, and gives the number of its
/// status. An empty URL or boundary is the default one. The transcript goes into `out`, and `written` says how many bytes
/// of it: all of it, or as many as there is room for, or fewer where memory is refused. What is behind them in `out` is as
/// it was.
///
/// Usage comes exactly where the words that say so would be refused, unless memory is refused before that is known; then
/// nothing is written. WriteFault comes exactly where the transcript is longer than `out`, which then holds its front,
/// unless memory is refused before that is known. NoMemory: memory was refused, and `out` has a front of the transcript.
/// With each other status the transcript was written whole, and that is the script's status. ReadFault never comes.
///
/// The fuel is from 1 to 200,000 units. Of a script of more than 16,777,216 bytes the whole lines within them are run, and the
/// status is TooLong, unless the fuel is spent. `Status::number` says which number is whose.
#[unsafe(no_mangle)]
pub extern "C" fn cepage_run(
    alloc: Global,
    script: &[u8],
    fuel: u32,
    trace: bool,
    url: &[u8],
    boundary: &[u8],
    out: &mut [u8],
    written: &mut usize,
) -> u8
    ensures usage { result ≡ usage → asked fuel trace url.now boundary.now ≡ None }
    ensures refused { asked fuel trace url.now boundary.now ≡ None
        → ((result ≡ usage) ⊎ (result ≡ no_memory)) × (written.new ≡ 0) × (out.new ≡ out.old) }

    // Where the transcript fits, it is there whole, with its status.
    ensures whole { (set : Options) → asked fuel trace url.now boundary.now ≡ Some set → length (script_transcript set script.now) ≤ length out.old
        → ((result ≡ number_of (end_status set script.now)) × (written.new ≡ length (script_transcript set script.now))) ⊎ (result ≡ no_memory) }

    // More room is asked for exactly where it does not fit, and then the buffer is full.
    ensures longer { (set : Options) → asked fuel trace url.now boundary.now ≡ Some set → length out.old < length (script_transcript set script.now)
        → ((result ≡ more_room) × (written.new ≡ length out.old)) ⊎ (result ≡ no_memory) }
    ensures more_room { (set : Options) → asked fuel trace url.now boundary.now ≡ Some set → result ≡ more_room
        → length out.old < length (script_transcript set script.now) }

    // With each status what was written is the front of the transcript.
    ensures front { (set : Options) → asked fuel trace url.now boundary.now ≡ Some set
        → Holds (script_transcript set script.now) out.old out.new written.new }
    ensures within { written.new ≤ length out.old }
{
    let (status, count) = run_in_memory(alloc, script, fuel, trace, url, boundary, out);
    *written = count;
    status.number()
}
