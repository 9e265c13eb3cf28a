//! Rows over files and a sink that never fail.
use crate::commands::{ROOM, run_words, words_of};
use crate::named_files::sure_files_of;
use anyhow::Result;
use irs_cli::{MemSink, Sink, SureSink, run};

/// `sure WORDS`: the words are run over files, where a missing one is empty, into a sink that has room.
/// Then they are run into a sink that counts, and the row says whether it counts as many bytes.
pub fn run_sure(rt: &HostRuntime, command: &str) -> Result<()> {
    let words = words_of(rt.alloc(), command)?;
    let mut files = sure_files_of(rt, &words)?;
    let mut out = MemSink::with_room(rt.alloc(), ROOM)?;
    run_words(rt, &words, &mut files, &mut out)?;
    let mut printed = SureSink::new();
    printed.put(out.bytes())?;
    let mut counted = SureSink::new();
    let status = run(rt.alloc(), &words, &mut files, &mut counted);
    let many = if counted == printed {
        "as many"
    } else {
        "other"
    };
    println!(rt; "= {status}, {many} bytes")?;
    Ok(())
}
