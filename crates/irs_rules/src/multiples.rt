//! Whole multiples of a number of days or of months.
ghost use Rattle.std.specs.Prelude.{◌<◌, ◌↔◌, IsTrue};
ghost use Rattle.irs_terms.specs.TermDates.{IsWholeMultiple, IsLargerMultiple};

/// Whether the first is a whole multiple of the second.
pub(crate) fn is_multiple(whole: u32, part: u32) -> bool
    requires { 0 < part }
    ensures { IsTrue result ↔ IsWholeMultiple whole part }
{
    whole % part == 0
}

/// Whether the first is a whole multiple of the second, more than once.
pub(crate) fn is_larger_multiple(whole: u32, part: u32) -> bool
    requires { 0 < part }
    ensures { IsTrue result ↔ IsLargerMultiple whole part }
{
    whole > part && is_multiple(whole, part)
}
