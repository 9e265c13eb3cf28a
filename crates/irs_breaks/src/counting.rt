//! How the fields of a pair are counted.
ghost use Rattle.std.specs.Prelude.{◌≡◌, ◌+◌, ◌<◌, ◌^◌, length};
ghost use Rattle.irs_breaks.specs.Findings.{counts_in};
ghost use Rattle.irs_breaks.specs.Private.Findings.{together};

use crate::values::{FieldValues, Standing, standing_of};

/// How the fields of a pair are counted: each of them once.
#[derive(Clone, Copy)]
pub struct Counts {
    /// Fields that the schedule knows and the cash flows state.
    pub compared: u32,
    /// Fields that the schedule knows and the cash flows don't state.
    pub unstated: u32,
    /// Fields that the schedule doesn't know.
    pub unknown: u32,
}

/// How these fields are counted.
pub fn counts_of(fields: &[FieldValues]) -> Counts
    requires { length fields.now < 2 ^ 32 }
    ensures { result ≡ counts_in fields.now }
{
    let mut compared = 0;
    let mut unstated = 0;
    let mut unknown = 0;
    for field in fields {
        match standing_of(field.values) {
            Standing::Compared => compared += 1,
            Standing::Unstated => unstated += 1,
            Standing::Unknown => unknown += 1,
        }
    }
    Counts {
        compared,
        unstated,
        unknown,
    }
}

/// The sums of two counts.
pub(crate) fn both(a: Counts, b: Counts) -> Counts
    requires compared { a.compared + b.compared < 2 ^ 32 }
    requires unstated { a.unstated + b.unstated < 2 ^ 32 }
    requires unknown { a.unknown + b.unknown < 2 ^ 32 }
    ensures { result ≡ together a b }
{
    Counts {
        compared: a.compared + b.compared,
        unstated: a.unstated + b.unstated,
        unknown: a.unknown + b.unknown,
    }
}
