// A whole run, from the words and the source to the sink and a status.
ghost use Rattle.std.specs.Prelude.{◌≡◌, ◌≤◌, ◌<◌, ◌⊎◌, true, length, map, string_bytes, Some, List, ℕ};
ghost use Rattle.std.specs.Io.KnownBytes.{IsAtEnd};
ghost use Rattle.ce_base.specs.Faults.{Rose};
ghost use Rattle.ce_base.specs.Outside.{AppendsPart};
ghost use Rattle.command_words.specs.Words.{meaning};
ghost use Rattle.page_runner.specs.Ending.{Ends, script_transcript};
ghost use Rattle.script_runner.specs.Making.{RunsMade};
ghost use Rattle.script_runner.specs.Table.{RunMeets, RunsWhole, limit};

use ce_base::{NoMemory, Sink, Source};
use command_words::{Meaning, Options};
use script_runner::{Status, run_made, run_script};
use std::alloc::Global;

/// Runs the script that the source gives, as the words say, and writes its transcript to the sink. Words are options, as
/// `Meaning::of` reads them; others are refused, and then nothing is read or written.
///
/// All lines that were wholly read are run, and their answers written, before the source is asked again.
///
/// With `--make N` the source is not read: the made script of N elements is run, and in place of its transcript the summary
/// is written. Then the status is Done or Fuel, or one of the two last ones below.
///
/// Usage comes exactly where the words are refused, unless memory is refused before that is known. The others speak of
/// the lines that count: all lines where the source gave its end within 16,777,216 bytes, else the whole lines within
/// them. Done: the source gave its end within them, the fuel sufficed, and no line was refused. BadLines: the same, but
/// some line was refused. Fuel: a unit of fuel was wanted, and none was left. ReadFault: a read failed, and the source's
/// count of faults rose. TooLong: the source gave more bytes. With each of these the transcript of the lines that count
/// was written whole.
///
/// WriteFault: a write failed, and the sink's count of faults rose. NoMemory: memory was refused. With both a front of
/// that transcript was written.
pub fn run<S: Source, K: Sink>(
    alloc: Global,
    words: &Vec<String>,
    source: &mut S,
    sink: &mut K,
) -> Status
    ensures usage { result ≡ Status.Usage → meaning (map (λ w. string_bytes w) words.now.items) ≡ Meaning.Refused }
    ensures refused { meaning (map (λ w. string_bytes w) words.now.items) ≡ Meaning.Refused → (result ≡ Status.Usage) ⊎ (result ≡ Status.NoMemory) }
    ensures untouched { result ≡ Status.Usage → (source.new ≡ source.old) × (sink.new ≡ sink.old) }
    ensures table { RunMeets (meaning (map (λ w. string_bytes w) words.now.items)) result (S.left source.old) (S.left source.new)
        (K.held sink.old) (K.held sink.new)
        (S.ended source.new) (S.failed source.old) (S.failed source.new) (K.failed sink.old) (K.failed sink.new) }
    ensures later { (S.failed source.old ≤ S.failed source.new) × (K.failed sink.old ≤ K.failed sink.new) }

    // A fault that was counted is the status: a read that failed is not tried again, nor a failed write told as want of memory.
    ensures read_fault { S.failed source.old < S.failed source.new → result ≡ Status.ReadFault }
    ensures write_fault { K.failed sink.old < K.failed sink.new → result ≡ Status.WriteFault }

    // Where a script is made, the source is not read, and the summary is written whole unless memory is refused or the sink's
    // count of faults rises.
    ensures unread { (n : ℕ) (set : Options) → meaning (map (λ w. string_bytes w) words.now.items) ≡ Meaning.Made n set → source.new ≡ source.old }
    ensures made { (n : ℕ) (set : Options) → meaning (map (λ w. string_bytes w) words.now.items) ≡ Meaning.Made n set
        → ¬ Rose (K.failed sink.old) (K.failed sink.new) → RunsMade set n result (K.held sink.old) (K.held sink.new) }

    // A script that ends within the limit is run whole, unless a count of faults rises or memory is refused.
    ensures complete { (set : Options) (script : List ℕ)
        → meaning (map (λ w. string_bytes w) words.now.items) ≡ Meaning.Script set → S.left source.old ≡ Some script → length script ≤ limit
        → ¬ Rose (S.failed source.old) (S.failed source.new) → ¬ Rose (K.failed sink.old) (K.failed sink.new)
        → RunsWhole set script result (K.held sink.old) (K.held sink.new) }
{
    match Meaning::of(alloc, words) {
        Err(NoMemory) => Status::NoMemory,
        Ok(Meaning::Refused) => Status::Usage,
        Ok(Meaning::Script(options)) => run_with(alloc, options, source, sink),
        Ok(Meaning::Made(count, options)) => Status::of(run_made(alloc, options, count, sink)),
    }
}

/// Runs the script that the source gives with these options, as `run` does with words that mean them. The status is one of
/// those that `run` gives there, and says the same; it is never Usage.
pub fn run_with<S: Source, K: Sink>(
    alloc: Global,
    options: Options,
    source: &mut S,
    sink: &mut K,
) -> Status
    ensures table { RunMeets (Meaning.Script options) result (S.left source.old) (S.left source.new) (K.held sink.old) (K.held sink.new)
        (S.ended source.new) (S.failed source.old) (S.failed source.new) (K.failed sink.old) (K.failed sink.new) }
    ensures later { (S.failed source.old ≤ S.failed source.new) × (K.failed sink.old ≤ K.failed sink.new) }
    ensures read_fault { S.failed source.old < S.failed source.new → result ≡ Status.ReadFault }
    ensures write_fault { K.failed sink.old < K.failed sink.new → result ≡ Status.WriteFault }

    // A script of any length comes to its status and its transcript, unless a count of faults rises or memory is refused.
    ensures complete { (script : List ℕ) → S.left source.old ≡ Some script
        → ¬ Rose (S.failed source.old) (S.failed source.new) → ¬ Rose (K.failed sink.old) (K.failed sink.new)
        → Ends options script result (K.held sink.old) (K.held sink.new) }

    // With each status a front of the script's transcript was written.
    ensures front { (script : List ℕ) → S.left source.old ≡ Some script → (S.ended source.new ≡ true → IsAtEnd (S.left source.new))
        → AppendsPart (K.held sink.old) (K.held sink.new) (script_transcript options script) }
{
    Status::of(run_script(alloc, options, source, sink))
}
