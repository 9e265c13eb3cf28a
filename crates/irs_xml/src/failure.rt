//! Why reading ended.
ghost use Rattle.irs_xml.specs.declared.failure.Failure.TheVariants.{Memory};
ghost use Rattle.std.specs.Prelude.{◌≡◌};

use std::alloc::{AllocError, AllocFailed};

/// Why reading ended.
#[derive(Clone, Copy, Debug, PartialEq, Eq)]
pub(crate) enum Failure {
    /// What is there is no XML as this crate reads it.
    NotXml,
    /// There was no memory for the value.
    Memory,
}

impl From<AllocError> for Failure {
    ghost from_gives = { λ _ e. e ≡ Memory };

    fn from(_error: AllocError) -> Failure {
        Failure::Memory
    }
}

impl<T: Drop> From<AllocFailed<T>> for Failure {
    ghost from_gives = { λ _ e. e ≡ Memory };

    fn from(_error: AllocFailed<T>) -> Failure {
        Failure::Memory
    }
}
