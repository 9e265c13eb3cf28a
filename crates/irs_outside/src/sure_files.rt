//! Files in memory that never fail: a file that isn't there reads as empty.
ghost use Rattle.std.specs.Prelude.{◌≡◌, ◌≢◌, ℕ, ◌≤◌, List, [], length, take, Some, None, IfOk};
ghost use Rattle.std.specs.Prelude.{IsErrOf, OnOk, OnErr};
ghost use Rattle.irs_outside.specs.Outside.{sure_file};

use crate::file_map::FileMap;
use crate::{FetchErr, Files};
use irs_base::Memory;
use std::alloc::Global;

/// A map of names to bytes.
#[derive(Drop)]
pub struct SureFiles {
    kept: FileMap,
}

impl SureFiles {
    /// Each file is empty.
    pub fn new(alloc: Global) -> SureFiles
        ensures { (n : List ℕ) → sure_file result n ≡ [] }
    {
        SureFiles {
            kept: FileMap::new(alloc),
        }
    }

    /// Adds bytes under a name, and replaces those it had. Where no memory is found the files stay
    /// as they were.
    pub fn add(&mut self, name: &str, bytes: &[u8]) -> Result<(), Memory>
        ensures under { OnOk result (sure_file self.new name.now ≡ bytes.now) }
        ensures beside { OnOk result ((n : List ℕ) → n ≢ name.now → sure_file self.new n ≡ sure_file self.old n) }
        ensures err { OnErr result ((n : List ℕ) → sure_file self.new n ≡ sure_file self.old n) }
    {
        self.kept.add(name, bytes)
    }
}

impl Files for SureFiles {
    ghost use Rattle.std.specs.Prelude.{◌≡◌, take, Some, None};

    ghost told = { λ m name. Some (sure_file m name) };

    ghost gives = { λ m name most bytes. bytes ≡ take most (sure_file m name) };

    ghost faults = { λ m. 0 };

    ghost failed = { λ m. None };

    /// It returns the bytes, or `Memory`.
    fn fetch(&mut self, alloc: Global, name: &str, most: usize) -> Result<Vec<u8>, FetchErr>
        ensures bytes { IfOk result (λ b. b.items ≡ take most (sure_file self.old name.now)) }
        ensures fits { IfOk result (λ b. length b.items ≤ most) }
        ensures told { (n : List ℕ) → sure_file self.new n ≡ sure_file self.old n }
        ensures sure { IsErrOf result FetchErr.Failed → ⊥ }
    {
        match self.kept.front(alloc, name, most)? {
            Some(bytes) => Ok(bytes),
            None => Ok(Vec::new(alloc)),
        }
    }
}
