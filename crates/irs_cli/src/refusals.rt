//! Why a request isn't carried out over files, and what is written then.
ghost use Rattle.std.specs.Prelude.{◌≡◌, Some, IfOk};
ghost use Rattle.irs_cli.specs.Run.{run_reply_status, run_reply_text, of_fetch};
ghost use Rattle.irs_cli.specs.Private.Fetching.{IsUnreplied, run_answer_of};
ghost use Rattle.irs_cli.specs.declared.refusals.Refusal.TheVariants.{Memory as OfMemory};

use crate::causes::RunReply;
use crate::fetching::Unfetched;
use irs_base::Memory;

/// Why a request isn't carried out over files.
#[derive(Clone, Copy)]
pub(crate) enum Refusal {
    /// The words are no listed command.
    BadWords,
    /// The file of the word at this place after the command can't be read.
    NoFile(u32),
    /// The file of the word at this place after the command is too long.
    TooLong(u32),
    /// Memory ran out.
    Memory,
}

impl From<Unfetched> for Refusal {
    ghost from_gives = { λ e r. r ≡ of_fetch e };

    fn from(e: Unfetched) -> Refusal {
        match e {
            Unfetched::NoFile(place) => Refusal::NoFile(place),
            Unfetched::TooLong(place) => Refusal::TooLong(place),
            Unfetched::Memory => Refusal::Memory,
        }
    }
}

impl From<Memory> for Refusal {
    ghost from_gives = { λ _ r. r ≡ OfMemory };

    fn from(_e: Memory) -> Refusal {
        Refusal::Memory
    }
}

impl Refusal {
    /// What a refusal comes to; `Memory` has no line.
    pub(crate) fn reply(self) -> Result<RunReply, Memory>
        ensures answer { IfOk result (λ r. run_answer_of self ≡ Some (run_reply_status r, run_reply_text r)) }
        ensures unreplied { IfOk result IsUnreplied }
    {
        match self {
            Refusal::BadWords => Ok(RunReply::BadWords),
            Refusal::NoFile(place) => Ok(RunReply::NoFile(place)),
            Refusal::TooLong(place) => Ok(RunReply::TooLong(place)),
            Refusal::Memory => Err(Memory),
        }
    }
}
