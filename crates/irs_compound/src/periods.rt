//! What a payment is made of: its calculation periods with their rates and fractions, and what
//! each of them adds.
use irs_terms::Frac;

/// The rates of a period, in units of 10^-9.
#[derive(Clone, Copy)]
pub struct Rates {
    /// Multiplier times observed rate; the fixed rate on a fixed stream.
    pub base: i64,
    /// The base rate with the spread, by the treatment of a rate below 0; the fixed rate on a fixed
    /// stream.
    pub all_in: i64,
}

/// A calculation period of a payment.
#[derive(Clone, Copy)]
pub struct PeriodTerm {
    /// The notional, in units of 10^-4.
    pub notional: i128,
    /// Its rates; none where its observed rate is absent.
    pub rates: Option<Rates>,
    /// Its day count fraction.
    pub frac: Frac,
}

/// What a period adds to its payment, in two parts that are rounded apart. Without compounding there is
/// one exact part, in units of 10^-13 over the fraction's denominator. All other parts are in units of
/// 10^-6. Straight compounding has one part, and flat compounding the basic and the additional amount.
/// The spread exclusive has the compounded and the spread part.
#[derive(Clone, Copy)]
pub struct Parts {
    /// The exact amount; the amount; the basic amount; or the compounded part.
    pub main: i128,
    /// The additional amount, or the spread part; 0 without compounding and with straight compounding.
    pub extra: i128,
}
