//! How long a frequency is: a week is 7 days and a year 12 months. So 7D and 1W are the same, and
//! 12M and 1Y are.
ghost use Rattle.std.specs.Prelude.{◌≡◌};
ghost use Rattle.irs_terms.specs.TermDates.{is_same_length, length_of, same_length};

use crate::{Frequency, Unit};

/// The length of a frequency.
#[derive(Clone, Copy)]
pub enum Length {
    /// A number of days; a week counts 7.
    Days(u32),
    /// A number of months; a year counts 12.
    Months(u32),
    /// The whole term, with the multiplier that is given.
    Term(u32),
}

impl Length {
    /// Whether both are as long.
    pub fn is_same(self, other: Length) -> bool
        ensures { result ≡ is_same_length self other }
    {
        match (self, other) {
            (Length::Days(a), Length::Days(b)) => a == b,
            (Length::Months(a), Length::Months(b)) => a == b,
            (Length::Term(a), Length::Term(b)) => a == b,
            (Length::Days(_), Length::Months(_) | Length::Term(_)) => false,
            (Length::Months(_), Length::Days(_) | Length::Term(_)) => false,
            (Length::Term(_), Length::Days(_) | Length::Months(_)) => false,
        }
    }
}

impl Frequency {
    /// Its length.
    pub fn length(self) -> Length
        ensures { result ≡ length_of self }
    {
        let count = u32::from(self.count);
        match self.unit {
            Unit::D => Length::Days(count),
            Unit::W => Length::Days(7 * count),
            Unit::M => Length::Months(count),
            Unit::Y => Length::Months(12 * count),
            Unit::T => Length::Term(count),
        }
    }

    /// Whether both are as long.
    pub fn is_as_long_as(self, other: Frequency) -> bool
        ensures { result ≡ same_length self other }
    {
        self.length().is_same(other.length())
    }
}
