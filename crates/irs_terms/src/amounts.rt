//! The terms of rates, stubs and principal exchanges. Rates, multipliers and spreads are in units
//! of 10^-9.
use crate::{CalculationParameters, Frequency, RefState, StepValues, Treatment};
use irs_base::{Direction, Text};

/// How a rate is rounded: its number of decimals, and the direction (FpML `finalRateRounding`).
#[derive(Clone, Copy)]
pub struct Rounding {
    /// The direction (FpML `roundingDirection`).
    pub dir: Direction,
    /// How many decimals of the rate stay (FpML `precision`).
    pub places: u8,
}

/// The terms of a floating rate (FpML `floatingRateCalculation`).
#[derive(Drop)]
pub struct FloatTerms {
    /// `floatingRateIndex`.
    pub index: Text,
    /// `indexTenor`.
    pub tenor: Option<Frequency>,
    /// `floatingRateMultiplierSchedule`; 1 where it is absent.
    pub multiplier: StepValues,
    /// `spreadSchedule`; 0 where it is absent.
    pub spread: StepValues,
    /// `initialRate`.
    pub initial_rate: Option<i64>,
    /// `finalRateRounding`; where it is absent Nearest, to 7 decimals with `calculationParameters` and
    /// to 9 without.
    pub rounding: Rounding,
    /// `negativeInterestRateTreatment`; NegativeInterestRateMethod where it is absent.
    pub treatment: Treatment,
    /// `calculationParameters`, by which the rate is compounded or averaged from daily rates.
    pub parameters: Option<CalculationParameters>,
}

/// What a stream pays.
#[derive(Drop)]
pub enum Leg {
    /// A fixed rate (FpML `fixedRateSchedule`).
    Fixed(StepValues),
    /// A floating rate (FpML `floatingRateCalculation`).
    Floating(FloatTerms),
}

/// The rate of a stub (FpML `StubValue`).
#[derive(Drop)]
pub enum StubRate {
    /// Another index with its tenor (FpML `floatingRate`).
    Index(Text, Option<Frequency>),
    /// A rate (FpML `stubRate`).
    Fixed(i64),
}

/// The rates of stubs (FpML `stubCalculationPeriodAmount`).
#[derive(Drop)]
pub struct StubTerms {
    /// `calculationPeriodDatesReference`.
    pub calc_ref: RefState,
    /// `initialStub`.
    pub initial: Option<StubRate>,
    /// `finalStub`.
    pub last: Option<StubRate>,
}

/// Which principal amounts are exchanged (FpML `principalExchanges`).
#[derive(Clone, Copy)]
pub struct ExchangeFlags {
    /// The notional at the effective date (FpML `initialExchange`).
    pub initial: bool,
    /// The change of the notional at each of its steps (FpML `intermediateExchange`).
    pub intermediate: bool,
    /// The notional at the termination date (FpML `finalExchange`).
    pub last: bool,
}
