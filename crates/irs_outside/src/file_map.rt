//! Names and the bytes under them, in memory. Each name occurs once: adding a name again replaces
//! its bytes.
ghost use Rattle.std.specs.Prelude.{◌≡◌, ◌≢◌, ℕ, List, take, Some, None, IfOk, OnOk, OnErr, option_map};
ghost use Rattle.irs_outside.specs.Outside.{bytes_under};

use irs_base::Memory;
use std::alloc::{AllocError, Global};
use std::collections::BTreeMap;

/// A map of names to bytes, and the allocator that it was made with.
#[derive(Drop)]
pub(crate) struct FileMap {
    alloc: Global,
    files: BTreeMap<String, Vec<u8>>,
}

impl FileMap {
    /// The map without a name.
    pub(crate) fn new(alloc: Global) -> FileMap
        ensures { (n : List ℕ) → bytes_under result n ≡ None }
    {
        FileMap {
            alloc,
            files: BTreeMap::new(alloc),
        }
    }

    /// Adds bytes under a name, and replaces those it had. Where no memory is found the map stays
    /// as it was.
    pub(crate) fn add(&mut self, name: &str, bytes: &[u8]) -> Result<(), Memory>
        ensures under { OnOk result (bytes_under self.new name.now ≡ Some bytes.now) }
        ensures beside { OnOk result ((n : List ℕ) → n ≢ name.now → bytes_under self.new n ≡ bytes_under self.old n) }
        ensures err { OnErr result ((n : List ℕ) → bytes_under self.new n ≡ bytes_under self.old n) }
    {
        let name = String::from_str(self.alloc, name)?;
        let bytes = Vec::from_slice(self.alloc, bytes)?;
        self.files.insert(name, bytes)?;
        Ok(())
    }

    /// The first `most` bytes under a name, or none where there is no such name.
    pub(crate) fn front(
        &self,
        alloc: Global,
        name: &str,
        most: usize,
    ) -> Result<Option<Vec<u8>>, AllocError>
        ensures { IfOk result (λ o. option_map (λ v. v.items) o
            ≡ option_map (take most) (bytes_under self.now name.now)) }
    {
        let Some(bytes) = self.files.get(name) else {
            return Ok(None);
        };
        let front = most.min(bytes.len());
        Ok(Some(Vec::from_slice(alloc, &bytes[..front])?))
    }
}
