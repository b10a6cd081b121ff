// Writes the entries of a list, a line each.
ghost use Rattle.std.specs.Prelude.{◌≡◌, ◌≤◌, ◌<◌, [], IfOk, OnErr, OnOk, IsErrOf, string_bytes};
ghost use Rattle.std.specs.Io.KnownBytes.{Appends};
ghost use Rattle.ce_base.specs.Faults.{Rose};
ghost use Rattle.ce_base.specs.Outside.{AppendsPart};
ghost use Rattle.body_reader.specs.Listing.{entry_line, listing};

use ce_base::{Entry, Gathering, NoMemory, Pending, Sink, Stop, write_all};
use ce_lines::quoted;
use std::alloc::Global;

// The line of an entry.
fn entry_line(alloc: Global, e: &Entry) -> Result<String, NoMemory>
    ensures { IfOk result (λ line. string_bytes line ≡ entry_line e.now) }
{
    let mut line = String::new(alloc);
    line.push_str(quoted(alloc, e.name.as_str())?.as_str())?;
    line.push_str(" ")?;
    line.push_str(quoted(alloc, e.value.as_str())?.as_str())?;
    line.push_str("\n")?;
    Ok(line)
}

// Writes the line of an entry.
fn write_entry<K: Sink>(alloc: Global, e: &Entry, sink: &mut K) -> Result<(), Stop>
    ensures all { OnOk result (Appends (K.held sink.old) (K.held sink.new) (entry_line e.now)) }
    ensures part { OnErr result (AppendsPart (K.held sink.old) (K.held sink.new) (entry_line e.now)) }
    ensures later { K.failed sink.old ≤ K.failed sink.new }
    ensures cause { IsErrOf result Stop.WriteFault → Rose (K.failed sink.old) (K.failed sink.new) }
    ensures told { K.failed sink.old < K.failed sink.new → IsErrOf result Stop.WriteFault }
    ensures home { K.home sink.new ≡ K.home sink.old }
    ensures below { K.below sink.old ≤ K.below sink.new }
{
    let line = entry_line(alloc, e)?;
    write_all(sink, line.as_bytes())
}

// Writes the lines of the entries, one by one.
fn write_entries<K: Sink>(alloc: Global, entries: &[Entry], sink: &mut K) -> Result<(), Stop>
    ensures all { OnOk result (Appends (K.held sink.old) (K.held sink.new) (listing entries.now)) }
    ensures part { OnErr result (AppendsPart (K.held sink.old) (K.held sink.new) (listing entries.now)) }
    ensures later { K.failed sink.old ≤ K.failed sink.new }
    ensures cause { IsErrOf result Stop.WriteFault → Rose (K.failed sink.old) (K.failed sink.new) }
    ensures told { K.failed sink.old < K.failed sink.new → IsErrOf result Stop.WriteFault }
    ensures home { K.home sink.new ≡ K.home sink.old }
    ensures below { K.below sink.old ≤ K.below sink.new }
{
    for e in entries {
        write_entry(alloc, e, sink)?;
    }
    Ok(())
}

// Writes the lines of the entries, and passes them on.
fn write_through<K: Sink>(
    alloc: Global,
    entries: &[Entry],
    out: &mut Gathering<'_, '_, K>,
) -> Result<(), Stop>
    requires { out.old.pending.now ≡ [] }
    ensures all { OnOk result (Appends (K.held out.old.sink.now) (K.held out.new.sink.now) (listing entries.now)) }
    ensures part { OnErr result (AppendsPart (K.held out.old.sink.now) (K.held out.new.sink.now) (listing entries.now)) }
    ensures later { K.failed out.old.sink.now ≤ K.failed out.new.sink.now }
    ensures cause { IsErrOf result Stop.WriteFault → Rose (K.failed out.old.sink.now) (K.failed out.new.sink.now) }
    ensures told { K.failed out.old.sink.now < K.failed out.new.sink.now → IsErrOf result Stop.WriteFault }
    ensures home { out.new.sink.ghost_name ≡ out.old.sink.ghost_name }
{
    write_entries(alloc, entries, out)?;
    out.pass_on()
}

/// Writes the listing of the entries, in few and large writes. Where it stops, a front of it was written.
pub(crate) fn write_listing<K: Sink>(
    alloc: Global,
    entries: &[Entry],
    sink: &mut K,
) -> Result<(), Stop>
    ensures all { OnOk result (Appends (K.held sink.old) (K.held sink.new) (listing entries.now)) }
    ensures part { OnErr result (AppendsPart (K.held sink.old) (K.held sink.new) (listing entries.now)) }
    ensures later { K.failed sink.old ≤ K.failed sink.new }
    ensures cause { IsErrOf result Stop.WriteFault → Rose (K.failed sink.old) (K.failed sink.new) }
    ensures told { K.failed sink.old < K.failed sink.new → IsErrOf result Stop.WriteFault }
{
    let mut pending = Pending::make(alloc);
    let mut out = Gathering::make(sink, &mut pending);
    write_through(alloc, entries, &mut out)
}
