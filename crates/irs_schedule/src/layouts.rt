//! The boundaries of a stream's calculation periods over its regular span.
use irs_base::DayList;
use irs_terms::Span;

/// The regular span of a stream, and the boundaries of its periods, unadjusted and adjusted.
#[derive(Drop)]
pub(crate) struct Layout {
    /// The regular part of the term.
    pub(crate) span: Span,
    /// The boundaries before adjustment, one more than there are periods.
    pub(crate) unadjusted: DayList,
    /// The same boundaries, adjusted (FpML `calculationPeriodDatesAdjustments`).
    pub(crate) adjusted: DayList,
}
