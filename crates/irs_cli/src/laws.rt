//! A law: a run in which no read and no write fails is complete.
ghost use Rattle.irs_cli.specs.Commands.{word_texts};
ghost use Rattle.irs_cli.specs.Run.{IsComplete, IsFaultless, Ran, source, written};

use crate::{Files, Sink};

/// A run of the words took the source of files from `files` to `files_after`, and the sink from `out` to
/// `out_after`. Where no read and no write failed, the status is 7 or the one that is due. Then exactly its
/// text was written. So it is over files and sinks that never fail, such as `SureFiles` and `SureSink`. The
/// function does nothing; its contract is the law.
pub fn a_run_without_faults_is_complete<F: Files, S: Sink>(
    words: &[String],
    files: &F,
    files_after: &F,
    out: &S,
    out_after: &S,
    status: u8,
)
    ensures { let told = source (F.told files.now) (F.gives files.now) (F.failed files_after.now) (F.faults files.now)
        (F.faults files_after.now) in
        let grew = written (S.written out.now) (S.written out_after.now) (S.faults out.now) (S.faults out_after.now) in
        Ran (word_texts words.now) told grew status → IsFaultless told grew → IsComplete (word_texts words.now) told grew status }
{}
