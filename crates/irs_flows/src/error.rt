//! Why a document gave no cash flows.
ghost use Rattle.irs_flows.specs.declared.error.FlowErr.TheVariants.{Memory as OfMemory};
ghost use Rattle.std.specs.Prelude.{◌≡◌};

use irs_base::Memory;
use irs_terms::Place;
use thiserror::Error;

/// How a document of cash flows is out of shape, in the order in which faults are reported.
#[derive(Clone, Copy, Debug, PartialEq, Eq)]
pub enum ShapeKind {
    /// The text has no JSON reading. `read_flows` takes a value and never returns this.
    NotJson,
    /// A required element is absent: `cashflows`, or what leads to it.
    Missing,
    /// An element is of the wrong kind, or an `@id` or `@href` is no text.
    Kind,
    /// A member of an object is unknown.
    Unknown,
    /// A member that is out of the profile is present.
    Profile,
    /// A leaf's text is outside its grammar.
    Value,
    /// An element occurs too often, or a period has both `fixedRate` and `calculatedRate`.
    Count,
}

/// Why a document gave no cash flows.
#[derive(Clone, Copy, Debug, Error)]
pub enum FlowErr {
    /// The document is out of shape; this is the first fault, with its place.
    #[error("the cash flows are out of shape")]
    Shape(ShapeKind, Place),
    /// There was no memory for the flows.
    #[error("out of memory")]
    Memory,
}

impl From<Memory> for FlowErr {
    ghost from_gives = { λ _ e. e ≡ OfMemory };

    fn from(_e: Memory) -> FlowErr {
        FlowErr::Memory
    }
}
