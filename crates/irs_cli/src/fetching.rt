//! Fetching the files of a command: all of them, in the order of the words.
ghost use Rattle.std.specs.Prelude.{◌≡◌, ℕ, List, map, IfOk, OnOk};
ghost use Rattle.irs_cli.specs.Private.Fetching.{wanted_by, AreGiven, FetchesOne, FetchesAll};
ghost use Rattle.irs_answers.specs.Forms.{source_by, files_given_by};
ghost use Rattle.irs_cli.specs.Given.{with_file, IsGiven};
ghost use Rattle.irs_cli.specs.declared.fetching.Unfetched.TheVariants.{Memory as OfMemory};

use crate::commands::{Named, Role};
use crate::params::form_of;
use crate::{FetchErr, Files};
use irs_answers::{Source, TaskFiles};
use irs_base::{MOST_BYTES, Memory};
use std::alloc::Global;

/// How many bytes of a file are requested: one more than it may have.
const MOST: usize = MOST_BYTES + 1;

/// What ended the fetching.
#[derive(Clone, Copy)]
pub(crate) enum Unfetched {
    /// The file of the word at this place after the command can't be read.
    NoFile(u32),
    /// The file of the word at this place after the command is too long.
    TooLong(u32),
    /// Memory ran out.
    Memory,
}

impl From<Memory> for Unfetched {
    ghost from_gives = { λ _ e. e ≡ OfMemory };

    fn from(_e: Memory) -> Unfetched {
        Unfetched::Memory
    }
}

/// Takes the text of a file by its role; the form counts for the document and for the flows alone.
fn put_file(files: &mut TaskFiles, role: Role, text: Source) -> Result<(), Memory>
    ensures { OnOk result (files_given_by files.new ≡ with_file (files_given_by files.old) role (source_by text)) }
{
    match role {
        Role::Document => files.document = text,
        Role::Fixings => files.fixings = Some(text.bytes),
        Role::Flows => files.flows = text,
        Role::Calendar => files.calendars.push(text.bytes)?,
    }
    Ok(())
}

/// The bytes of all files of a command; the first that can't be read or is too long ends it.
pub(crate) fn fetch_all<F: Files>(
    alloc: Global,
    names: &[Named<'_>],
    files: &mut F,
) -> Result<TaskFiles, Unfetched>
    ensures told { (n : List ℕ) → F.told files.new n ≡ F.told files.old n }
    ensures given { AreGiven (F.gives files.old) (map wanted_by names.now) result }
    ensures all { FetchesAll (F.told files.old) (F.failed files.new) (F.faults files.old) (F.faults files.new)
        (map wanted_by names.now) result }
{
    let mut fetched = TaskFiles::new(alloc);
    for named in names {
        let bytes = fetch(alloc, files, named.name, named.place)?;
        let form = form_of(named.name);
        put_file(&mut fetched, named.role, Source { form, bytes })?;
    }
    Ok(fetched)
}

/// The bytes of a file, by its name and the place of its word.
fn fetch<F: Files>(
    alloc: Global,
    files: &mut F,
    name: &str,
    place: u32,
) -> Result<Vec<u8>, Unfetched>
    ensures told { (n : List ℕ) → F.told files.new n ≡ F.told files.old n }
    ensures given { IfOk result (λ b. IsGiven (F.gives files.old) name.now b.items) }
    ensures same { (n : List ℕ) (k : ℕ) (b : List ℕ) → F.gives files.new n k b → F.gives files.old n k b }
    ensures one { FetchesOne (F.told files.old) (F.failed files.new) (F.faults files.old)
        (F.faults files.new) name.now place result }
{
    match files.fetch(alloc, name, MOST) {
        Ok(bytes) if bytes.len() < MOST => Ok(bytes),
        Ok(_) => Err(Unfetched::TooLong(place)),
        Err(FetchErr::Failed) => Err(Unfetched::NoFile(place)),
        Err(FetchErr::Memory) => Err(Unfetched::Memory),
    }
}
