//! Departures: where cash flows don't agree with a schedule. They are reported by streams, kinds of
//! rows, rows and fields, in an order that is our rule.
ghost use Rattle.std.specs.Prelude.{◌≡◌, ◌≤◌, length};
ghost use Rattle.irs_audit.specs.Verdicts.{field_name, row_name};

/// A kind of rows, in the order in which they are compared.
#[derive(Clone, Copy, PartialEq, Eq)]
pub enum RowKind {
    /// A stream as a whole; its row is 0.
    Stream,
    /// A principal exchange (FpML `principalExchange`).
    Exchange,
    /// A payment (FpML `paymentCalculationPeriod`).
    Payment,
    /// A calculation period (FpML `calculationPeriod`), counted through its stream.
    Period,
    /// The reset of a calculation period (FpML `rateObservation`), with the period's number.
    Reset,
}

impl RowKind {
    /// Its name, as it is printed.
    pub fn name(self) -> &'static str
        ensures text { result.now ≡ row_name self }
        ensures short { length result.now ≤ 8 }
    {
        match self {
            RowKind::Stream => "stream",
            RowKind::Exchange => "exchange",
            RowKind::Payment => "payment",
            RowKind::Period => "period",
            RowKind::Reset => "reset",
        }
    }
}

/// What departs: the whole row, or the field of that name in FpML `cashflows`. The order is that in
/// which the fields of a row are compared.
#[derive(Clone, Copy, PartialEq, Eq)]
pub enum Field {
    /// The schedule has the row and the flows lack it.
    Missing,
    /// The flows alone have the row.
    Extra,
    /// `unadjustedPrincipalExchangeDate`.
    UnadjustedPrincipalExchangeDate,
    /// `adjustedPrincipalExchangeDate`, which must be stated.
    AdjustedPrincipalExchangeDate,
    /// `principalExchangeAmount`, which must be stated.
    PrincipalExchangeAmount,
    /// `unadjustedPaymentDate`.
    UnadjustedPaymentDate,
    /// `adjustedPaymentDate`, which must be stated.
    AdjustedPaymentDate,
    /// `calculationPeriod`: how many the payment has.
    CalculationPeriod,
    /// `forecastPaymentAmount/currency`.
    Currency,
    /// `forecastPaymentAmount/amount`, which must be stated where the schedule's amount is known.
    Amount,
    /// `unadjustedStartDate`.
    UnadjustedStartDate,
    /// `unadjustedEndDate`.
    UnadjustedEndDate,
    /// `adjustedStartDate`, which must be stated.
    AdjustedStartDate,
    /// `adjustedEndDate`, which must be stated.
    AdjustedEndDate,
    /// `calculationPeriodNumberOfDays`.
    CalculationPeriodNumberOfDays,
    /// `notionalAmount`.
    NotionalAmount,
    /// `fixedRate`, or `calculatedRate` of the `floatingRateDefinition`.
    Rate,
    /// `dayCountYearFraction`.
    DayCountYearFraction,
    /// `resetDate`.
    ResetDate,
    /// `adjustedFixingDate`, which must be stated.
    AdjustedFixingDate,
    /// `observedRate`.
    ObservedRate,
}

impl Field {
    /// Its name: that of the field in FpML, or `missing` or `extra`.
    pub fn name(self) -> &'static str
        ensures text { result.now ≡ field_name self }
        ensures short { length result.now ≤ 31 }
    {
        match self {
            Field::Missing => "missing",
            Field::Extra => "extra",
            Field::UnadjustedPrincipalExchangeDate => "unadjustedPrincipalExchangeDate",
            Field::AdjustedPrincipalExchangeDate => "adjustedPrincipalExchangeDate",
            Field::PrincipalExchangeAmount => "principalExchangeAmount",
            Field::UnadjustedPaymentDate => "unadjustedPaymentDate",
            Field::AdjustedPaymentDate => "adjustedPaymentDate",
            Field::CalculationPeriod => "calculationPeriod",
            Field::Currency => "currency",
            Field::Amount => "amount",
            Field::UnadjustedStartDate => "unadjustedStartDate",
            Field::UnadjustedEndDate => "unadjustedEndDate",
            Field::AdjustedStartDate => "adjustedStartDate",
            Field::AdjustedEndDate => "adjustedEndDate",
            Field::CalculationPeriodNumberOfDays => "calculationPeriodNumberOfDays",
            Field::NotionalAmount => "notionalAmount",
            Field::Rate => "rate",
            Field::DayCountYearFraction => "dayCountYearFraction",
            Field::ResetDate => "resetDate",
            Field::AdjustedFixingDate => "adjustedFixingDate",
            Field::ObservedRate => "observedRate",
        }
    }
}

/// Where cash flows depart from a schedule.
#[derive(Clone, Copy)]
pub struct Departure {
    /// The stream, counted from 1.
    pub stream: u8,
    /// The kind of the row.
    pub kind: RowKind,
    /// Its number, counted from 1; 0 for a stream.
    pub row: u32,
    /// The field.
    pub field: Field,
}

/// The verdict of an audit.
#[derive(Clone, Copy)]
pub enum Verdict {
    /// The flows agree with the schedule. It counts the exchanges, payments, calculation periods
    /// and resets of the schedule, and its payments that have no amount yet.
    Yes { rows: u32, unfixed: u32 },
    /// The flows depart from it, and here first.
    No(Departure),
}
