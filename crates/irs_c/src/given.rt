//! Words and files that a C caller lends.
ghost use Rattle.std.specs.Prelude.{◌≡◌, ℕ, List, ◌++◌, Some, None, option_map, string_bytes};
ghost use Rattle.irs_outside.specs.Outside.{IsFrontUnder};
ghost use Rattle.irs_c.specs.Each.{file_in};

use irs_cli::{FetchErr, Files};
use std::alloc::Global;

/// Bytes that are lent for a call: in C a pointer and a length.
#[repr(C)]
#[derive(Drop)]
pub struct Bytes<'a> {
    /// The bytes; they stay the caller's.
    pub at: &'a [u8],
}

/// A file that is lent: its name and its bytes.
#[repr(C)]
#[derive(Drop)]
pub struct File<'a> {
    /// Its name, the bytes of a word of the call.
    pub name: Bytes<'a>,
    /// What it holds.
    pub bytes: Bytes<'a>,
}

/// A trade of a call for many: the files that are its own.
#[repr(C)]
#[derive(Drop)]
pub struct Trade<'a> {
    /// Its files, which come after the common ones.
    pub files: &'a [File<'a>],
}

/// The lent files as a source: those that runs have in common, and after them a run's own. The first of a name
/// counts, and a name that isn't there fails.
#[derive(Drop)]
pub(crate) struct GivenFiles<'a> {
    files: &'a [File<'a>],
    own: &'a [File<'a>],
    faults: u64,
    failed: Option<String>,
    // No file has the name of the last fetch that failed.
    ghost absent: { (name : List ℕ) → option_map string_bytes failed ≡ Some name
        → file_in (files.now ++ own.now) name ≡ None },
}

impl<'a> GivenFiles<'a> {
    /// The lent files, none of which has failed.
    pub(crate) fn new(files: &'a [File<'a>], own: &'a [File<'a>]) -> GivenFiles<'a>
        ensures files { result.files.now ≡ files.now }
        ensures own { result.own.now ≡ own.now }
    {
        GivenFiles {
            files,
            own,
            faults: 0,
            failed: None,
        }
    }
}

// The bytes of the first file of a name, in two lists of files.
fn find_in<'a>(files: &'a [File<'a>], own: &'a [File<'a>], name: &[u8]) -> Option<&'a [u8]>
    ensures { option_map (λ s. s.now) result ≡ file_in (files.now ++ own.now) name.now }
{
    match find(files, name) {
        Some(bytes) => Some(bytes),
        None => find(own, name),
    }
}

// The bytes of the first file of a name.
fn find<'a>(files: &'a [File<'a>], name: &[u8]) -> Option<&'a [u8]>
    ensures { option_map (λ s. s.now) result ≡ file_in files.now name.now }
{
    for file in files {
        if file.name.at == name {
            return Some(file.bytes.at);
        }
    }
    None
}

impl<'a> Files for GivenFiles<'a> {
    ghost told = { λ m name. file_in (m.files.now ++ m.own.now) name };

    ghost gives = { λ m name most bytes. IsFrontUnder (file_in (m.files.now ++ m.own.now) name) most bytes };

    ghost faults = { λ m. m.faults };

    ghost failed = { λ m. option_map string_bytes m.failed };

    fn fetch(&mut self, alloc: Global, name: &str, most: usize) -> Result<Vec<u8>, FetchErr> {
        let asked = String::from_str(alloc, name)?;
        let Some(bytes) = find_in(self.files, self.own, name.as_bytes()) else {
            self.faults = self.faults.saturating_add(1);
            self.failed = Some(asked);
            return Err(FetchErr::Failed);
        };
        let front = most.min(bytes.len());
        Ok(Vec::from_slice(alloc, &bytes[..front])?)
    }
}
