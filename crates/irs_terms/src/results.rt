//! What is worked out of the terms: spans, payments, exchanges, resets and fractions.
use crate::Listed;
use irs_base::{Day, Dec};

/// The regular part of the term: its first and last day, and the anchor of its grid. For frequency T
/// the anchor is the first day of the term.
#[derive(Clone, Copy)]
pub struct Span {
    /// Where the first regular period begins, before adjustment.
    pub first: Day,
    /// Where the last regular period ends, before adjustment.
    pub last: Day,
    /// The date that the grid of regular dates is reckoned from.
    pub anchor: Day,
}

/// A day count fraction, not reduced.
#[derive(Clone, Copy)]
pub struct Frac {
    /// The numerator.
    pub num: i64,
    /// The denominator, above 0.
    pub den: i64,
}

/// A payment: its unadjusted and adjusted date, and the numbers, from 1, of its first and its last
/// calculation period.
#[derive(Clone, Copy)]
pub struct Payment {
    /// The boundary by which it is due, before offset and adjustment.
    pub unadjusted: Day,
    /// The date on which it is paid.
    pub adjusted: Day,
    /// The number of the first period that it pays, from 1.
    pub first_period: u32,
    /// The number of the last one; it is included.
    pub last_period: u32,
}

/// A principal exchange: its unadjusted and adjusted date, and its amount, which is positive where
/// the stream's payer pays it.
#[derive(Clone, Copy)]
pub struct Exchange {
    /// The date before adjustment.
    pub unadjusted: Day,
    /// The date on which it is paid.
    pub adjusted: Day,
    /// The amount in the decimals of the currency, positive where the stream's payer pays it.
    pub amount: Dec,
}

/// The reset of a calculation period: reset date, fixing date, and the observed rate in units of
/// 10^-9 where it is known.
#[derive(Clone, Copy)]
pub struct Reset {
    /// The date from which the rate counts (FpML `resetDates`).
    pub reset: Day,
    /// The date on which it is observed (FpML `fixingDates`).
    pub fixing: Day,
    /// The observed rate in units of 10^-9; `None` where it isn't known.
    pub observed: Option<i64>,
}

/// Payments in order.
pub type Payments = Listed<Payment>;

/// Principal exchanges in order.
pub type Exchanges = Listed<Exchange>;

/// Resets in order, one for each calculation period of a floating stream.
pub type Resets = Listed<Reset>;
