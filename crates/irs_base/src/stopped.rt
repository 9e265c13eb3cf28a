//! Why a call that works dates or amounts out gives none.
ghost use Rattle.std.specs.Prelude.{◌≡◌};
ghost use Rattle.irs_base.specs.declared.stopped.Stopped.TheVariants.{Memory as OfMemory};

use crate::Memory;
use std::alloc::AllocFailed;
use thiserror::Error;

/// Why a call gives no answer: a rule is broken, or memory ran out. `F` is what names the rule: a
/// `Fault` of irs_terms within one stream, or its `Broken` within the swap.
#[derive(Clone, Copy, Debug, Error)]
pub enum Stopped<F> {
    /// The first rule that is broken, with its place.
    #[error("a rule is broken")]
    Broken(F),
    /// Memory ran out.
    #[error("out of memory")]
    Memory,
}

impl<F> From<Memory> for Stopped<F> {
    ghost from_gives = { λ _ e. e ≡ OfMemory };

    fn from(_e: Memory) -> Stopped<F> {
        Stopped::Memory
    }
}

impl<F, T: Drop> From<AllocFailed<T>> for Stopped<F> {
    ghost from_gives = { λ _ e. e ≡ OfMemory };

    fn from(_e: AllocFailed<T>) -> Stopped<F> {
        Stopped::Memory
    }
}
