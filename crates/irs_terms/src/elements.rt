//! Elements: the paths of FpML elements by which places are named, as one constant table.
//!
//! The first broken rule is sought in the order of the table. First comes what lies outside the
//! streams, then the elements of a stream of a trade (FpML's InterestRateStream), then those of
//! another party's cash flows. The table and its order are our rule.
ghost use Rattle.std.specs.Prelude.{◌≡◌, ◌<◌, ◌≤◌, ℕ, [], Some, SomeIff, codes, map, slice_get, length, true};
ghost use Rattle.irs_terms.specs.Elements.{count, named_elements};
ghost use Rattle.irs_terms.specs.Paths.{printed_paths, are_whole, path_of, longest_path};
ghost use Rattle.irs_terms.specs.declared.elements.TheConstants.{PATHS};

use std::marker::Model;

/// The number of elements in the table.
pub const ELEMENTS: u8 = 167;

/// An element, by its place in the table of paths. Contracts see the place.
#[derive(Clone, Copy, Debug, PartialEq, Eq)]
pub struct Elem {
    place: u8,
}

impl Model for Elem {
    ghost Value = { ℕ };

    ghost view = { λ e. e.place };

    ghost invariant = { λ e. e.place < count };

    ghost inverse = { λ n. record { place = n } };
}

impl Elem {
    /// `document`.
    pub const DOCUMENT: Elem = Elem { place: 0 };
    /// `swap`.
    pub const SWAP: Elem = Elem { place: 1 };
    /// `swapStream`.
    pub const SWAP_STREAM: Elem = Elem { place: 2 };
    /// `payerPartyReference`.
    pub const PAYER_PARTY_REFERENCE: Elem = Elem { place: 3 };
    /// `calculationPeriodDates`.
    pub const CALCULATION_PERIOD_DATES: Elem = Elem { place: 4 };
    /// `calculationPeriodDates/effectiveDate`.
    pub const EFFECTIVE_DATE: Elem = Elem { place: 5 };
    /// `calculationPeriodDates/effectiveDate/dateAdjustments`.
    pub const EFFECTIVE_DATE_ADJUSTMENTS: Elem = Elem { place: 7 };
    /// `calculationPeriodDates/effectiveDate/dateAdjustments/businessCentersReference`.
    pub const EFFECTIVE_DATE_CENTERS_REFERENCE: Elem = Elem { place: 9 };
    /// `calculationPeriodDates/terminationDate`.
    pub const TERMINATION_DATE: Elem = Elem { place: 12 };
    /// `calculationPeriodDates/terminationDate/dateAdjustments`.
    pub const TERMINATION_DATE_ADJUSTMENTS: Elem = Elem { place: 14 };
    /// `calculationPeriodDates/terminationDate/dateAdjustments/businessCentersReference`.
    pub const TERMINATION_DATE_CENTERS_REFERENCE: Elem = Elem { place: 16 };
    /// `calculationPeriodDates/calculationPeriodDatesAdjustments`.
    pub const PERIOD_DATES_ADJUSTMENTS: Elem = Elem { place: 19 };
    /// `calculationPeriodDates/calculationPeriodDatesAdjustments/businessCentersReference`.
    pub const PERIOD_DATES_CENTERS_REFERENCE: Elem = Elem { place: 21 };
    /// `calculationPeriodDates/firstPeriodStartDate`.
    pub const FIRST_PERIOD_START_DATE: Elem = Elem { place: 24 };
    /// `calculationPeriodDates/firstPeriodStartDate/dateAdjustments`.
    pub const FIRST_PERIOD_START_ADJUSTMENTS: Elem = Elem { place: 26 };
    /// `calculationPeriodDates/firstPeriodStartDate/dateAdjustments/businessCentersReference`.
    pub const FIRST_PERIOD_START_CENTERS_REFERENCE: Elem = Elem { place: 28 };
    /// `calculationPeriodDates/firstRegularPeriodStartDate`.
    pub const FIRST_REGULAR_PERIOD_START_DATE: Elem = Elem { place: 31 };
    /// `calculationPeriodDates/lastRegularPeriodEndDate`.
    pub const LAST_REGULAR_PERIOD_END_DATE: Elem = Elem { place: 32 };
    /// `calculationPeriodDates/calculationPeriodFrequency`.
    pub const CALCULATION_PERIOD_FREQUENCY: Elem = Elem { place: 34 };
    /// `paymentDates`.
    pub const PAYMENT_DATES: Elem = Elem { place: 38 };
    /// `paymentDates/calculationPeriodDatesReference`.
    pub const PAYMENT_DATES_REFERENCE: Elem = Elem { place: 39 };
    /// `paymentDates/paymentFrequency`.
    pub const PAYMENT_FREQUENCY: Elem = Elem { place: 40 };
    /// `paymentDates/firstPaymentDate`.
    pub const FIRST_PAYMENT_DATE: Elem = Elem { place: 43 };
    /// `paymentDates/lastRegularPaymentDate`.
    pub const LAST_REGULAR_PAYMENT_DATE: Elem = Elem { place: 44 };
    /// `paymentDates/paymentDaysOffset`.
    pub const PAYMENT_DAYS_OFFSET: Elem = Elem { place: 46 };
    /// `paymentDates/paymentDatesAdjustments`.
    pub const PAYMENT_DATES_ADJUSTMENTS: Elem = Elem { place: 50 };
    /// `paymentDates/paymentDatesAdjustments/businessCentersReference`.
    pub const PAYMENT_DATES_CENTERS_REFERENCE: Elem = Elem { place: 52 };
    /// `resetDates`.
    pub const RESET_DATES: Elem = Elem { place: 55 };
    /// `resetDates/calculationPeriodDatesReference`.
    pub const RESET_DATES_REFERENCE: Elem = Elem { place: 56 };
    /// `resetDates/fixingDates`.
    pub const FIXING_DATES: Elem = Elem { place: 58 };
    /// `resetDates/fixingDates/businessCentersReference`.
    pub const FIXING_DATES_CENTERS_REFERENCE: Elem = Elem { place: 63 };
    /// `resetDates/fixingDates/dateRelativeTo`.
    pub const FIXING_DATES_RELATIVE_TO: Elem = Elem { place: 66 };
    /// `resetDates/resetFrequency`.
    pub const RESET_FREQUENCY: Elem = Elem { place: 67 };
    /// `resetDates/resetDatesAdjustments`.
    pub const RESET_DATES_ADJUSTMENTS: Elem = Elem { place: 70 };
    /// `resetDates/resetDatesAdjustments/businessCentersReference`.
    pub const RESET_DATES_CENTERS_REFERENCE: Elem = Elem { place: 72 };
    /// `calculationPeriodAmount`.
    pub const CALCULATION_PERIOD_AMOUNT: Elem = Elem { place: 75 };
    /// `calculationPeriodAmount/calculation/notionalSchedule/notionalStepSchedule/step/stepDate`.
    pub const NOTIONAL_STEP_DATE: Elem = Elem { place: 81 };
    /// `calculationPeriodAmount/calculation/fixedRateSchedule/step/stepDate`.
    pub const FIXED_RATE_STEP_DATE: Elem = Elem { place: 87 };
    /// `calculationPeriodAmount/calculation/floatingRateCalculation/indexTenor`.
    pub const INDEX_TENOR: Elem = Elem { place: 91 };
    /// `calculationPeriodAmount/calculation/floatingRateCalculation/floatingRateMultiplierSchedule/step/stepDate`.
    pub const MULTIPLIER_STEP_DATE: Elem = Elem { place: 97 };
    /// `calculationPeriodAmount/calculation/floatingRateCalculation/spreadSchedule/step/stepDate`.
    pub const SPREAD_STEP_DATE: Elem = Elem { place: 102 };
    /// `calculationPeriodAmount/calculation/floatingRateCalculation/initialRate`.
    pub const INITIAL_RATE: Elem = Elem { place: 104 };
    /// `calculationPeriodAmount/calculation/floatingRateCalculation/calculationParameters`.
    pub const CALCULATION_PARAMETERS: Elem = Elem { place: 109 };
    /// `calculationPeriodAmount/calculation/floatingRateCalculation/calculationParameters/applicableBusinessDays`.
    pub const APPLICABLE_BUSINESS_DAYS: Elem = Elem { place: 117 };
    /// `calculationPeriodAmount/calculation/dayCountFraction`.
    pub const DAY_COUNT_FRACTION: Elem = Elem { place: 119 };
    /// `calculationPeriodAmount/calculation/compoundingMethod`.
    pub const COMPOUNDING_METHOD: Elem = Elem { place: 120 };
    /// `stubCalculationPeriodAmount`.
    pub const STUB_AMOUNT: Elem = Elem { place: 121 };
    /// `stubCalculationPeriodAmount/calculationPeriodDatesReference`.
    pub const STUB_AMOUNT_REFERENCE: Elem = Elem { place: 122 };
    /// `stubCalculationPeriodAmount/initialStub`.
    pub const INITIAL_STUB: Elem = Elem { place: 123 };
    /// `stubCalculationPeriodAmount/initialStub/floatingRate`.
    pub const INITIAL_STUB_FLOATING_RATE: Elem = Elem { place: 124 };
    /// `stubCalculationPeriodAmount/finalStub`.
    pub const FINAL_STUB: Elem = Elem { place: 130 };
    /// `stubCalculationPeriodAmount/finalStub/floatingRate`.
    pub const FINAL_STUB_FLOATING_RATE: Elem = Elem { place: 131 };
    /// `principalExchanges`.
    pub const PRINCIPAL_EXCHANGES: Elem = Elem { place: 137 };
    /// `cashflows`.
    pub const CASHFLOWS: Elem = Elem { place: 141 };
    /// `calculationPeriod`.
    pub const FLOW_PERIOD: Elem = Elem { place: 152 };

    /// The element at a place of the table; `None` exactly past its end.
    pub fn at(place: u8) -> Option<Elem>
        ensures { SomeIff result (place < count) place }
    {
        if place < ELEMENTS {
            Some(Elem { place })
        } else {
            None
        }
    }

    /// The place in the table.
    pub fn place(self) -> u8
        ensures value { result ≡ self }
        ensures within { self < count }
    {
        self.place
    }

    /// The path as it is printed: the names from below the stream down, joined by `/`.
    pub fn path(self) -> &'static str
        ensures path { result.now ≡ path_of self }
        ensures length { length result.now ≤ longest_path }
    {
        path_at(&PATHS, self.place as usize)
    }
}

fn path_at(paths: &[&'static str], place: usize) -> &'static str
    requires { place < length paths.now }
    ensures { slice_get (map (λ p. p.now) paths.now) place ≡ Some result.now }
{
    paths[place]
}

/// The paths are those that the specification lists, in its order.
pub fn paths_listed()
    ensures { map (λ p. p.now) PATHS ≡ printed_paths }
{}

/// No path stands twice. Each is a name, or it continues a path before it by a `/` and a name.
pub fn paths_fit()
    ensures { are_whole [] printed_paths ≡ true }
{}

// Each element in the order of the table: its path, after the constant of one that rules and readers name.
macro_rules! elements {
    ($part:ident) => {
        $part![
            [DOCUMENT, "document"],
            [SWAP, "swap"],
            [SWAP_STREAM, "swapStream"],
            [PAYER_PARTY_REFERENCE, "payerPartyReference"],
            [CALCULATION_PERIOD_DATES, "calculationPeriodDates"],
            [EFFECTIVE_DATE, "calculationPeriodDates/effectiveDate"],
            ["calculationPeriodDates/effectiveDate/unadjustedDate"],
            [EFFECTIVE_DATE_ADJUSTMENTS, "calculationPeriodDates/effectiveDate/dateAdjustments"],
            ["calculationPeriodDates/effectiveDate/dateAdjustments/businessDayConvention"],
            [EFFECTIVE_DATE_CENTERS_REFERENCE, "calculationPeriodDates/effectiveDate/dateAdjustments/businessCentersReference"],
            ["calculationPeriodDates/effectiveDate/dateAdjustments/businessCenters"],
            ["calculationPeriodDates/effectiveDate/dateAdjustments/businessCenters/businessCenter"],
            [TERMINATION_DATE, "calculationPeriodDates/terminationDate"],
            ["calculationPeriodDates/terminationDate/unadjustedDate"],
            [TERMINATION_DATE_ADJUSTMENTS, "calculationPeriodDates/terminationDate/dateAdjustments"],
            ["calculationPeriodDates/terminationDate/dateAdjustments/businessDayConvention"],
            [TERMINATION_DATE_CENTERS_REFERENCE, "calculationPeriodDates/terminationDate/dateAdjustments/businessCentersReference"],
            ["calculationPeriodDates/terminationDate/dateAdjustments/businessCenters"],
            ["calculationPeriodDates/terminationDate/dateAdjustments/businessCenters/businessCenter"],
            [PERIOD_DATES_ADJUSTMENTS, "calculationPeriodDates/calculationPeriodDatesAdjustments"],
            ["calculationPeriodDates/calculationPeriodDatesAdjustments/businessDayConvention"],
            [PERIOD_DATES_CENTERS_REFERENCE, "calculationPeriodDates/calculationPeriodDatesAdjustments/businessCentersReference"],
            ["calculationPeriodDates/calculationPeriodDatesAdjustments/businessCenters"],
            ["calculationPeriodDates/calculationPeriodDatesAdjustments/businessCenters/businessCenter"],
            [FIRST_PERIOD_START_DATE, "calculationPeriodDates/firstPeriodStartDate"],
            ["calculationPeriodDates/firstPeriodStartDate/unadjustedDate"],
            [FIRST_PERIOD_START_ADJUSTMENTS, "calculationPeriodDates/firstPeriodStartDate/dateAdjustments"],
            ["calculationPeriodDates/firstPeriodStartDate/dateAdjustments/businessDayConvention"],
            [FIRST_PERIOD_START_CENTERS_REFERENCE, "calculationPeriodDates/firstPeriodStartDate/dateAdjustments/businessCentersReference"],
            ["calculationPeriodDates/firstPeriodStartDate/dateAdjustments/businessCenters"],
            ["calculationPeriodDates/firstPeriodStartDate/dateAdjustments/businessCenters/businessCenter"],
            [FIRST_REGULAR_PERIOD_START_DATE, "calculationPeriodDates/firstRegularPeriodStartDate"],
            [LAST_REGULAR_PERIOD_END_DATE, "calculationPeriodDates/lastRegularPeriodEndDate"],
            ["calculationPeriodDates/stubPeriodType"],
            [CALCULATION_PERIOD_FREQUENCY, "calculationPeriodDates/calculationPeriodFrequency"],
            ["calculationPeriodDates/calculationPeriodFrequency/periodMultiplier"],
            ["calculationPeriodDates/calculationPeriodFrequency/period"],
            ["calculationPeriodDates/calculationPeriodFrequency/rollConvention"],
            [PAYMENT_DATES, "paymentDates"],
            [PAYMENT_DATES_REFERENCE, "paymentDates/calculationPeriodDatesReference"],
            [PAYMENT_FREQUENCY, "paymentDates/paymentFrequency"],
            ["paymentDates/paymentFrequency/periodMultiplier"],
            ["paymentDates/paymentFrequency/period"],
            [FIRST_PAYMENT_DATE, "paymentDates/firstPaymentDate"],
            [LAST_REGULAR_PAYMENT_DATE, "paymentDates/lastRegularPaymentDate"],
            ["paymentDates/payRelativeTo"],
            [PAYMENT_DAYS_OFFSET, "paymentDates/paymentDaysOffset"],
            ["paymentDates/paymentDaysOffset/periodMultiplier"],
            ["paymentDates/paymentDaysOffset/period"],
            ["paymentDates/paymentDaysOffset/dayType"],
            [PAYMENT_DATES_ADJUSTMENTS, "paymentDates/paymentDatesAdjustments"],
            ["paymentDates/paymentDatesAdjustments/businessDayConvention"],
            [PAYMENT_DATES_CENTERS_REFERENCE, "paymentDates/paymentDatesAdjustments/businessCentersReference"],
            ["paymentDates/paymentDatesAdjustments/businessCenters"],
            ["paymentDates/paymentDatesAdjustments/businessCenters/businessCenter"],
            [RESET_DATES, "resetDates"],
            [RESET_DATES_REFERENCE, "resetDates/calculationPeriodDatesReference"],
            ["resetDates/resetRelativeTo"],
            [FIXING_DATES, "resetDates/fixingDates"],
            ["resetDates/fixingDates/periodMultiplier"],
            ["resetDates/fixingDates/period"],
            ["resetDates/fixingDates/dayType"],
            ["resetDates/fixingDates/businessDayConvention"],
            [FIXING_DATES_CENTERS_REFERENCE, "resetDates/fixingDates/businessCentersReference"],
            ["resetDates/fixingDates/businessCenters"],
            ["resetDates/fixingDates/businessCenters/businessCenter"],
            [FIXING_DATES_RELATIVE_TO, "resetDates/fixingDates/dateRelativeTo"],
            [RESET_FREQUENCY, "resetDates/resetFrequency"],
            ["resetDates/resetFrequency/periodMultiplier"],
            ["resetDates/resetFrequency/period"],
            [RESET_DATES_ADJUSTMENTS, "resetDates/resetDatesAdjustments"],
            ["resetDates/resetDatesAdjustments/businessDayConvention"],
            [RESET_DATES_CENTERS_REFERENCE, "resetDates/resetDatesAdjustments/businessCentersReference"],
            ["resetDates/resetDatesAdjustments/businessCenters"],
            ["resetDates/resetDatesAdjustments/businessCenters/businessCenter"],
            [CALCULATION_PERIOD_AMOUNT, "calculationPeriodAmount"],
            ["calculationPeriodAmount/calculation"],
            ["calculationPeriodAmount/calculation/notionalSchedule"],
            ["calculationPeriodAmount/calculation/notionalSchedule/notionalStepSchedule"],
            ["calculationPeriodAmount/calculation/notionalSchedule/notionalStepSchedule/initialValue"],
            ["calculationPeriodAmount/calculation/notionalSchedule/notionalStepSchedule/step"],
            [NOTIONAL_STEP_DATE, "calculationPeriodAmount/calculation/notionalSchedule/notionalStepSchedule/step/stepDate"],
            ["calculationPeriodAmount/calculation/notionalSchedule/notionalStepSchedule/step/stepValue"],
            ["calculationPeriodAmount/calculation/notionalSchedule/notionalStepSchedule/currency"],
            ["calculationPeriodAmount/calculation/fixedRateSchedule"],
            ["calculationPeriodAmount/calculation/fixedRateSchedule/initialValue"],
            ["calculationPeriodAmount/calculation/fixedRateSchedule/step"],
            [FIXED_RATE_STEP_DATE, "calculationPeriodAmount/calculation/fixedRateSchedule/step/stepDate"],
            ["calculationPeriodAmount/calculation/fixedRateSchedule/step/stepValue"],
            ["calculationPeriodAmount/calculation/floatingRateCalculation"],
            ["calculationPeriodAmount/calculation/floatingRateCalculation/floatingRateIndex"],
            [INDEX_TENOR, "calculationPeriodAmount/calculation/floatingRateCalculation/indexTenor"],
            ["calculationPeriodAmount/calculation/floatingRateCalculation/indexTenor/periodMultiplier"],
            ["calculationPeriodAmount/calculation/floatingRateCalculation/indexTenor/period"],
            ["calculationPeriodAmount/calculation/floatingRateCalculation/floatingRateMultiplierSchedule"],
            ["calculationPeriodAmount/calculation/floatingRateCalculation/floatingRateMultiplierSchedule/initialValue"],
            ["calculationPeriodAmount/calculation/floatingRateCalculation/floatingRateMultiplierSchedule/step"],
            [MULTIPLIER_STEP_DATE, "calculationPeriodAmount/calculation/floatingRateCalculation/floatingRateMultiplierSchedule/step/stepDate"],
            ["calculationPeriodAmount/calculation/floatingRateCalculation/floatingRateMultiplierSchedule/step/stepValue"],
            ["calculationPeriodAmount/calculation/floatingRateCalculation/spreadSchedule"],
            ["calculationPeriodAmount/calculation/floatingRateCalculation/spreadSchedule/initialValue"],
            ["calculationPeriodAmount/calculation/floatingRateCalculation/spreadSchedule/step"],
            [SPREAD_STEP_DATE, "calculationPeriodAmount/calculation/floatingRateCalculation/spreadSchedule/step/stepDate"],
            ["calculationPeriodAmount/calculation/floatingRateCalculation/spreadSchedule/step/stepValue"],
            [INITIAL_RATE, "calculationPeriodAmount/calculation/floatingRateCalculation/initialRate"],
            ["calculationPeriodAmount/calculation/floatingRateCalculation/finalRateRounding"],
            ["calculationPeriodAmount/calculation/floatingRateCalculation/finalRateRounding/roundingDirection"],
            ["calculationPeriodAmount/calculation/floatingRateCalculation/finalRateRounding/precision"],
            ["calculationPeriodAmount/calculation/floatingRateCalculation/negativeInterestRateTreatment"],
            [CALCULATION_PARAMETERS, "calculationPeriodAmount/calculation/floatingRateCalculation/calculationParameters"],
            ["calculationPeriodAmount/calculation/floatingRateCalculation/calculationParameters/calculationMethod"],
            ["calculationPeriodAmount/calculation/floatingRateCalculation/calculationParameters/observationShift"],
            ["calculationPeriodAmount/calculation/floatingRateCalculation/calculationParameters/observationShift/offsetDays"],
            ["calculationPeriodAmount/calculation/floatingRateCalculation/calculationParameters/lookback"],
            ["calculationPeriodAmount/calculation/floatingRateCalculation/calculationParameters/lookback/offsetDays"],
            ["calculationPeriodAmount/calculation/floatingRateCalculation/calculationParameters/lockout"],
            ["calculationPeriodAmount/calculation/floatingRateCalculation/calculationParameters/lockout/offsetDays"],
            [APPLICABLE_BUSINESS_DAYS, "calculationPeriodAmount/calculation/floatingRateCalculation/calculationParameters/applicableBusinessDays"],
            ["calculationPeriodAmount/calculation/floatingRateCalculation/calculationParameters/applicableBusinessDays/businessCenter"],
            [DAY_COUNT_FRACTION, "calculationPeriodAmount/calculation/dayCountFraction"],
            [COMPOUNDING_METHOD, "calculationPeriodAmount/calculation/compoundingMethod"],
            [STUB_AMOUNT, "stubCalculationPeriodAmount"],
            [STUB_AMOUNT_REFERENCE, "stubCalculationPeriodAmount/calculationPeriodDatesReference"],
            [INITIAL_STUB, "stubCalculationPeriodAmount/initialStub"],
            [INITIAL_STUB_FLOATING_RATE, "stubCalculationPeriodAmount/initialStub/floatingRate"],
            ["stubCalculationPeriodAmount/initialStub/floatingRate/floatingRateIndex"],
            ["stubCalculationPeriodAmount/initialStub/floatingRate/indexTenor"],
            ["stubCalculationPeriodAmount/initialStub/floatingRate/indexTenor/periodMultiplier"],
            ["stubCalculationPeriodAmount/initialStub/floatingRate/indexTenor/period"],
            ["stubCalculationPeriodAmount/initialStub/stubRate"],
            [FINAL_STUB, "stubCalculationPeriodAmount/finalStub"],
            [FINAL_STUB_FLOATING_RATE, "stubCalculationPeriodAmount/finalStub/floatingRate"],
            ["stubCalculationPeriodAmount/finalStub/floatingRate/floatingRateIndex"],
            ["stubCalculationPeriodAmount/finalStub/floatingRate/indexTenor"],
            ["stubCalculationPeriodAmount/finalStub/floatingRate/indexTenor/periodMultiplier"],
            ["stubCalculationPeriodAmount/finalStub/floatingRate/indexTenor/period"],
            ["stubCalculationPeriodAmount/finalStub/stubRate"],
            [PRINCIPAL_EXCHANGES, "principalExchanges"],
            ["principalExchanges/initialExchange"],
            ["principalExchanges/finalExchange"],
            ["principalExchanges/intermediateExchange"],
            [CASHFLOWS, "cashflows"],
            ["principalExchange"],
            ["principalExchange/unadjustedPrincipalExchangeDate"],
            ["principalExchange/adjustedPrincipalExchangeDate"],
            ["principalExchange/principalExchangeAmount"],
            ["paymentCalculationPeriod"],
            ["paymentCalculationPeriod/unadjustedPaymentDate"],
            ["paymentCalculationPeriod/adjustedPaymentDate"],
            ["paymentCalculationPeriod/forecastPaymentAmount"],
            ["paymentCalculationPeriod/forecastPaymentAmount/currency"],
            ["paymentCalculationPeriod/forecastPaymentAmount/amount"],
            [FLOW_PERIOD, "calculationPeriod"],
            ["calculationPeriod/unadjustedStartDate"],
            ["calculationPeriod/unadjustedEndDate"],
            ["calculationPeriod/adjustedStartDate"],
            ["calculationPeriod/adjustedEndDate"],
            ["calculationPeriod/calculationPeriodNumberOfDays"],
            ["calculationPeriod/notionalAmount"],
            ["calculationPeriod/fixedRate"],
            ["calculationPeriod/dayCountYearFraction"],
            ["calculationPeriod/floatingRateDefinition"],
            ["calculationPeriod/floatingRateDefinition/calculatedRate"],
            ["rateObservation"],
            ["rateObservation/resetDate"],
            ["rateObservation/adjustedFixingDate"],
            ["rateObservation/observedRate"]
        ]
    };
}

macro_rules! paths {
    ($([$($name:ident,)? $path:literal]),*) => {
        [$($path),*]
    };
}

macro_rules! named {
    ($([$($name:ident,)? $path:literal]),*) => {
        [$($(Elem::$name,)?)*]
    };
}

/// The path of each element.
pub const PATHS: [&str; 167] = elements!(paths);

/// The elements that rules and readers name have the paths that the specification states.
pub fn elements_named() -> [Elem; 55]
    ensures places { result ≡ map (λ e. e.0) named_elements }
    ensures paths { map (λ e. path_of e.0) named_elements ≡ map (λ e. codes e.1) named_elements }
{
    elements!(named)
}
