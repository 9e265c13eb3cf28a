//! Cash flows as a document states them (FpML 5, `cashflows` of an InterestRateStream). Each field is
//! there where it is stated.
ghost use Rattle.irs_flows.specs.FlowReading.{FlowPart};
ghost use Rattle.std.specs.Prelude.{◌≡◌, List};

use irs_base::Day;
use irs_terms::Currency;
use std::marker::Model;

/// A principal exchange of cash flows (FpML `principalExchange`): each field where it is stated;
/// amounts in units of 10^-12.
#[derive(Clone, Copy)]
pub struct FlowExchange {
    /// `unadjustedPrincipalExchangeDate`.
    pub unadjusted: Option<Day>,
    /// `adjustedPrincipalExchangeDate`.
    pub adjusted: Option<Day>,
    /// `principalExchangeAmount`, in units of 10^-12.
    pub amount: Option<i128>,
}

/// A payment of cash flows (FpML `paymentCalculationPeriod`).
#[derive(Clone, Copy)]
pub struct FlowPayment {
    /// `unadjustedPaymentDate`.
    pub unadjusted: Option<Day>,
    /// `adjustedPaymentDate`.
    pub adjusted: Option<Day>,
    /// The number of calculation periods in the payment.
    pub periods: usize,
    /// `forecastPaymentAmount/currency`.
    pub currency: Option<Currency>,
    /// `forecastPaymentAmount/amount`, in units of 10^-12.
    pub amount: Option<i128>,
}

/// A stated day count fraction (FpML `dayCountYearFraction`).
#[derive(Clone, Copy)]
pub struct StatedFraction {
    /// Its value in units of 10^-places.
    pub units: i128,
    /// The decimals with which it is stated, at most 12.
    pub places: u8,
}

/// A reset of cash flows (FpML `rateObservation`).
#[derive(Clone, Copy)]
pub struct FlowReset {
    /// `resetDate`.
    pub reset: Option<Day>,
    /// `adjustedFixingDate`.
    pub fixing: Option<Day>,
    /// `observedRate`, in units of 10^-12.
    pub observed: Option<i128>,
}

/// A calculation period of cash flows (FpML `calculationPeriod`).
#[derive(Clone, Copy)]
pub struct FlowPeriod {
    /// `unadjustedStartDate`.
    pub start: Option<Day>,
    /// `unadjustedEndDate`.
    pub end: Option<Day>,
    /// `adjustedStartDate`.
    pub adjusted_start: Option<Day>,
    /// `adjustedEndDate`.
    pub adjusted_end: Option<Day>,
    /// `calculationPeriodNumberOfDays`.
    pub days: Option<i64>,
    /// `notionalAmount`, in units of 10^-12.
    pub notional: Option<i128>,
    /// `fixedRate` or `floatingRateDefinition/calculatedRate`, in units of 10^-12.
    pub rate: Option<i128>,
    /// `dayCountYearFraction`.
    pub fraction: Option<StatedFraction>,
    /// `floatingRateDefinition/rateObservation`.
    pub reset: Option<FlowReset>,
}

/// The cash flows of one stream: its exchanges, its payments, and the calculation periods of all of
/// its payments, each in order.
#[derive(Drop)]
pub struct FlowStream {
    exchanges: Vec<FlowExchange>,
    payments: Vec<FlowPayment>,
    periods: Vec<FlowPeriod>,
}

impl Model for FlowStream {
    ghost Value = { FlowPart };

    ghost view = { λ s. record {
      exchanges = s.exchanges.items;
      payments = s.payments.items;
      periods = s.periods.items;
    } };
}

impl FlowStream {
    /// The cash flows of a stream, of these rows in order.
    pub fn new(
        exchanges: Vec<FlowExchange>,
        payments: Vec<FlowPayment>,
        periods: Vec<FlowPeriod>,
    ) -> FlowStream
        ensures exchanges { result.exchanges ≡ exchanges.items }
        ensures payments { result.payments ≡ payments.items }
        ensures periods { result.periods ≡ periods.items }
    {
        FlowStream {
            exchanges,
            payments,
            periods,
        }
    }

    /// The principal exchanges in order.
    pub fn exchanges(&self) -> &[FlowExchange]
        ensures { result.now ≡ self.now.exchanges }
    {
        &self.exchanges
    }

    /// The payments in order.
    pub fn payments(&self) -> &[FlowPayment]
        ensures { result.now ≡ self.now.payments }
    {
        &self.payments
    }

    /// The calculation periods of all payments in order.
    pub fn periods(&self) -> &[FlowPeriod]
        ensures { result.now ≡ self.now.periods }
    {
        &self.periods
    }
}

/// The cash flows of a document: one stream for each of its streams, in order.
#[derive(Drop)]
pub struct Flows {
    streams: Vec<FlowStream>,
}

impl Model for Flows {
    ghost Value = { List FlowPart };

    ghost view = { λ f. f.streams.items };
}

impl Flows {
    /// The cash flows of these streams in order.
    pub fn new(streams: Vec<FlowStream>) -> Flows
        ensures { result ≡ streams.items }
    {
        Flows { streams }
    }

    /// The streams in order.
    pub fn streams(&self) -> &[FlowStream]
        ensures { result.now ≡ self.now }
    {
        &self.streams
    }
}
