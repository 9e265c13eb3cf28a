//! The lines of a swap: how many streams it has, and for each stream a field a line.
//!
//! The names are those of the elements that give the fields. The values are those of irs_terms:
//! notionals in units of 10^-4, rates in units of 10^-9.
use crate::lines::Lines;
use crate::told::Told;
use crate::values::Tell;
use irs_terms::{
    ExchangeFlags, FixTerms, FloatTerms, Leg, PayTerms, RefState, ResetTerms, Stream, StubTerms,
    Swap,
};

impl Lines<'_, '_> {
    fn push_reference(&mut self, name: &str, reference: RefState) {
        let told = self.begin(name);
        told.text("reference ");
        told.debug(&reference);
        told.end_line();
    }

    fn push_grid(&mut self, stream: &Stream) {
        let told = self.begin("calculationPeriodFrequency");
        stream.freq.tell(told);
        told.text(" ");
        told.debug(&stream.roll);
        told.end_line();
    }

    fn push_periods(&mut self, stream: &Stream) {
        self.push_value("effectiveDate", &stream.effective);
        self.push_value("terminationDate", &stream.termination);
        self.push_value("calculationPeriodDatesAdjustments", &stream.period_adj);
        self.push_value("firstPeriodStartDate", &stream.first_start);
        self.push_value("firstRegularPeriodStartDate", &stream.first_regular);
        self.push_value("lastRegularPeriodEndDate", &stream.last_regular);
        self.push_given("stubPeriodType", &stream.stub);
        self.push_grid(stream);
    }

    fn push_payments(&mut self, pay: &PayTerms) {
        self.push_reference("paymentDates", pay.calc_ref);
        self.push_value("paymentFrequency", &pay.freq);
        self.push_value("firstPaymentDate", &pay.first);
        self.push_value("lastRegularPaymentDate", &pay.last);
        self.push_given("payRelativeTo", &Some(pay.relative));
        self.push_value("paymentDaysOffset", &pay.offset);
        self.push_value("paymentDatesAdjustments", &pay.adj);
    }

    fn push_references(&mut self, reset: &ResetTerms) {
        let told = self.begin("resetDates");
        told.text("reference ");
        told.debug(&reset.calc_ref);
        told.text(", of fixing dates ");
        told.debug(&reset.fixing_ref);
        told.end_line();
    }

    fn push_resets(&mut self, reset: &ResetTerms) {
        self.push_references(reset);
        self.push_given("resetRelativeTo", &Some(reset.relative));
        self.push_value("fixingDates", &reset.fixing);
        self.push_value("resetFrequency", &reset.freq);
        self.push_value("resetDatesAdjustments", &reset.adj);
    }

    fn push_index(&mut self, float: &FloatTerms) {
        let told = self.begin("floatingRateIndex");
        told.bytes(float.index.as_slice());
        told.text(", tenor ");
        float.tenor.tell(told);
        told.end_line();
    }

    fn push_rounding(&mut self, float: &FloatTerms) {
        let told = self.begin("finalRateRounding");
        told.debug(&float.rounding.dir);
        told.text(" ");
        told.number(float.rounding.places);
        told.end_line();
    }

    fn push_floating(&mut self, float: &FloatTerms) {
        self.push_index(float);
        self.push_value("floatingRateMultiplierSchedule", &float.multiplier);
        self.push_value("spreadSchedule", &float.spread);
        self.push_given("initialRate", &float.initial_rate);
        self.push_rounding(float);
        self.push_given("negativeInterestRateTreatment", &Some(float.treatment));
        self.push_value("calculationParameters", &float.parameters);
    }

    fn push_amounts(&mut self, stream: &Stream) {
        self.push_value("notionalStepSchedule", &stream.notional);
        self.push_value("currency", &stream.currency);
        match &stream.leg {
            Leg::Fixed(rate) => self.push_value("fixedRateSchedule", rate),
            Leg::Floating(float) => self.push_floating(float),
        }
        self.push_given("dayCountFraction", &Some(stream.day_count));
        self.push_given("compoundingMethod", &Some(stream.compounding));
    }

    fn push_stubs(&mut self, stubs: &StubTerms) {
        self.push_reference("stubCalculationPeriodAmount", stubs.calc_ref);
        self.push_value("initialStub", &stubs.initial);
        self.push_value("finalStub", &stubs.last);
    }

    fn push_exchanges(&mut self, exchanges: ExchangeFlags) {
        let told = self.begin("principalExchanges");
        for (name, flag) in [
            ("initial ", exchanges.initial),
            (", intermediate ", exchanges.intermediate),
            (", final ", exchanges.last),
        ] {
            told.text(name);
            told.debug(&flag);
        }
        told.end_line();
    }

    fn push_stream(&mut self, stream: &Stream) {
        self.push_periods(stream);
        self.push_payments(&stream.pay);
        match &stream.reset {
            Some(reset) => self.push_resets(reset),
            None => self.push("resetDates", "absent"),
        }
        self.push_amounts(stream);
        match &stream.stubs {
            Some(stubs) => self.push_stubs(stubs),
            None => self.push("stubCalculationPeriodAmount", "absent"),
        }
        self.push_exchanges(stream.exchanges);
    }
}

/// The offset, then the adjustments.
impl Tell for FixTerms {
    fn tell(&self, told: &mut Told) {
        self.offset.tell(told);
        told.text(" ");
        self.adj.tell(told);
    }
}

/// Reports the lines of a swap.
pub fn tell_swap(told: &mut Told, swap: &Swap) {
    let mut lines = Lines::new(told, swap.streams.len());
    for stream in swap.streams.as_slice() {
        lines.next_stream();
        lines.push_stream(stream);
    }
}
