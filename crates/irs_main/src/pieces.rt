//! Writing lines one after the other: nothing is written after a write that failed.
ghost use Rattle.std.specs.Prelude.{◌≡◌, ◌++◌, codes, OnOk, OnErr};
ghost use Rattle.irs_outside.specs.Outside.{Grew, GrewByFront, Rose};
ghost use Rattle.irs_main.specs.Answering.{ended_lines};
ghost use Rattle.irs_main.specs.Private.Lookup.{texts};

use irs_cli::{PutFailed, Sink};

/// Writes texts, each with a line feed after it.
pub(crate) fn put_lines<S: Sink>(out: &mut S, lines: &[&str]) -> Result<(), PutFailed>
    ensures ok { OnOk result (Grew (S.written out.old) (S.written out.new) (ended_lines (texts lines.now))) }
    ensures quiet { OnOk result (S.faults out.new ≡ S.faults out.old) }
    ensures err { OnErr result (GrewByFront (S.written out.old) (S.written out.new) (ended_lines (texts lines.now))) }
    ensures rose { OnErr result (Rose (S.faults out.old) (S.faults out.new)) }
{
    for line in lines {
        put_line(out, line)?;
    }
    Ok(())
}

// Writes a text and a line feed.
fn put_line<S: Sink>(out: &mut S, line: &str) -> Result<(), PutFailed>
    ensures ok { OnOk result (Grew (S.written out.old) (S.written out.new) (line.now ++ codes "\n")) }
    ensures quiet { OnOk result (S.faults out.new ≡ S.faults out.old) }
    ensures err { OnErr result (GrewByFront (S.written out.old) (S.written out.new) (line.now ++ codes "\n")) }
    ensures rose { OnErr result (Rose (S.faults out.old) (S.faults out.new)) }
{
    out.put(line.as_bytes())?;
    out.put(b"\n")
}
