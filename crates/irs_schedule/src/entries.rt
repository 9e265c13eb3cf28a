//! What a schedule says of a payment and of a calculation period.
use irs_base::{Day, Dec};
use irs_terms::{Frac, Listed};

/// A payment with its amount.
#[derive(Clone, Copy)]
pub struct PaymentEntry {
    /// Its date before the offset and the adjustment: an unadjusted boundary.
    pub unadjusted: Day,
    /// The date on which it is due.
    pub adjusted: Day,
    /// The number, from 1, of its first calculation period.
    pub first_period: u32,
    /// The number of its last calculation period.
    pub last_period: u32,
    /// The amount in the decimals of the currency; absent where an observed rate of its periods is.
    pub amount: Option<Dec>,
}

/// Payments with their amounts, in order.
pub(crate) type PaymentEntries = Listed<PaymentEntry>;

/// What is worked out for a calculation period.
#[derive(Clone, Copy)]
pub struct PeriodEntry {
    /// Its days by the day count.
    pub days: i64,
    /// Its day count fraction, not reduced.
    pub frac: Frac,
    /// The notional in units of 10^-4.
    pub notional: i128,
    /// The rate in units of 10^-9, where it is known.
    pub rate: Option<i64>,
}
