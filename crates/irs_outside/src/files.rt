//! Where the program's files come from. The trait is ours, so that each clause on the program holds
//! for any source of files. It holds for a folder as for a table in memory.
ghost use Rattle.std.specs.Prelude.{◌≡◌, ℕ, ◌≤◌, List, length, take, Option, Some, IfOk, IfSome, IsErrOf};
ghost use Rattle.irs_outside.specs.Outside.{Rose};
ghost use Rattle.irs_outside.specs.declared.files.FetchErr.TheVariants.{Memory as OfMemory};

use std::alloc::{AllocError, AllocFailed, Global};
use thiserror::Error;

/// Why a fetch gave nothing.
#[derive(Clone, Copy, Debug, PartialEq, Eq, Error)]
pub enum FetchErr {
    /// The source has no such file, or it can't be read.
    #[error("the file can't be read")]
    Failed,
    /// No memory was found for the bytes or for the name.
    #[error("out of memory")]
    Memory,
}

impl From<AllocError> for FetchErr {
    ghost from_gives = { λ _ e. e ≡ OfMemory };

    fn from(_e: AllocError) -> FetchErr {
        FetchErr::Memory
    }
}

impl<T: Drop> From<AllocFailed<T>> for FetchErr {
    ghost from_gives = { λ _ e. e ≡ OfMemory };

    fn from(_e: AllocFailed<T>) -> FetchErr {
        FetchErr::Memory
    }
}

/// A source of files.
pub trait Files {
    /// The bytes under a name, where the source says what they are. No call changes them.
    ghost told: { Self → List ℕ → Option (List ℕ) };

    /// The bytes that a fetch of at most that number under a name gives. No clause says where they
    /// come from.
    ghost gives: { Self → List ℕ → ℕ → List ℕ → Type 0 };

    /// How often a fetch has failed. The count never falls.
    ghost faults: { Self → ℕ };

    /// The name that was handed to the last fetch that failed, none before the first.
    ghost failed: { Self → Option (List ℕ) };

    /// The first `most` bytes of a file, or all of it where it is shorter. `Failed` comes only
    /// where the count of faults rose in this call.
    fn fetch(&mut self, alloc: Global, name: &str, most: usize) -> Result<Vec<u8>, FetchErr>
        ensures bytes { IfOk result (λ b. IfSome (told self.old name.now) (λ xs. b.items ≡ take most xs)) }
        ensures fits { IfOk result (λ b. length b.items ≤ most) }
        ensures told { (n : List ℕ) → told self.new n ≡ told self.old n }
        // The bytes are what such a fetch gives; afterwards no fetch gives anything else.
        ensures gave { IfOk result (λ b. gives self.old name.now most b.items) }
        ensures same { (n : List ℕ) (k : ℕ) (b : List ℕ) → gives self.new n k b → gives self.old n k b }
        ensures rose { IsErrOf result FetchErr.Failed → Rose (faults self.old) (faults self.new) }
        ensures failed { IsErrOf result FetchErr.Failed → failed self.new ≡ Some name.now }
        ensures quiet { (IsErrOf result FetchErr.Failed → ⊥)
            → (faults self.new ≡ faults self.old) × (failed self.new ≡ failed self.old) };
}
