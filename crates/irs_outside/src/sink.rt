//! Where the program's text goes. The trait is ours, so that each clause on the program holds for
//! any sink, for standard output as for a buffer in memory.
ghost use Rattle.std.specs.Prelude.{◌≡◌, ℕ, List, Option, OnOk, OnErr};
ghost use Rattle.irs_outside.specs.Outside.{Rose, Grew, GrewByFront};

use thiserror::Error;

/// A write failed.
#[derive(Clone, Copy, Debug, Error)]
#[error("the text can't be written")]
pub struct PutFailed;

/// Takes bytes, one piece after the other.
pub trait Sink {
    /// What was written, where the sink says it.
    ghost written: { Self → Option (List ℕ) };

    /// How often a write has failed. The count never falls.
    ghost faults: { Self → ℕ };

    /// Appends the bytes, and takes no memory. A write that fails has appended a front of them, and
    /// the count of faults rose in this call.
    fn put(&mut self, bytes: &[u8]) -> Result<(), PutFailed>
        ensures ok { OnOk result (Grew (written self.old) (written self.new) bytes.now) }
        ensures quiet { OnOk result (faults self.new ≡ faults self.old) }
        ensures err { OnErr result (GrewByFront (written self.old) (written self.new) bytes.now) }
        ensures rose { OnErr result (Rose (faults self.old) (faults self.new)) };
}
