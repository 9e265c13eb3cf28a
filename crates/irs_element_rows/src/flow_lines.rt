//! The lines of cash flows: how many streams they have, and for each stream the fields of its rows, a
//! line each.
//!
//! The names are those of the elements, with the number of the exchange, of the payment or of the
//! calculation period in front. Amounts, notionals and rates are in units of 10^-12.
use crate::lines::Lines;
use crate::told::Told;
use irs_flows::{FlowExchange, FlowPayment, FlowPeriod, FlowReset, FlowStream, Flows};

impl Lines<'_, '_> {
    fn push_exchange(&mut self, n: usize, exchange: &FlowExchange) {
        self.next_row("exchange", n);
        self.push_value("unadjustedPrincipalExchangeDate", &exchange.unadjusted);
        self.push_value("adjustedPrincipalExchangeDate", &exchange.adjusted);
        self.push_given("principalExchangeAmount", &exchange.amount);
    }

    fn push_payment(&mut self, n: usize, payment: &FlowPayment) {
        self.next_row("payment", n);
        self.push_value("unadjustedPaymentDate", &payment.unadjusted);
        self.push_value("adjustedPaymentDate", &payment.adjusted);
        self.push_given("calculationPeriod", &Some(payment.periods));
        self.push_value("currency", &payment.currency);
        self.push_given("amount", &payment.amount);
    }

    fn push_dates(&mut self, period: &FlowPeriod) {
        for (name, day) in [
            ("unadjustedStartDate", period.start),
            ("unadjustedEndDate", period.end),
            ("adjustedStartDate", period.adjusted_start),
            ("adjustedEndDate", period.adjusted_end),
        ] {
            self.push_value(name, &day);
        }
    }

    fn push_reset(&mut self, n: usize, reset: &FlowReset) {
        self.next_row("reset", n);
        self.push_value("resetDate", &reset.reset);
        self.push_value("adjustedFixingDate", &reset.fixing);
        self.push_given("observedRate", &reset.observed);
    }

    fn push_period(&mut self, n: usize, period: &FlowPeriod) {
        self.next_row("period", n);
        self.push_dates(period);
        self.push_given("calculationPeriodNumberOfDays", &period.days);
        self.push_given("notionalAmount", &period.notional);
        self.push_given("rate", &period.rate);
        self.push_value("dayCountYearFraction", &period.fraction);
        match &period.reset {
            Some(reset) => self.push_reset(n, reset),
            None => self.push("rateObservation", "absent"),
        }
    }

    fn push_flows(&mut self, stream: &FlowStream) {
        for (j, exchange) in stream.exchanges().iter().enumerate() {
            self.push_exchange(j.saturating_add(1), exchange);
        }
        for (j, payment) in stream.payments().iter().enumerate() {
            self.push_payment(j.saturating_add(1), payment);
        }
        for (j, period) in stream.periods().iter().enumerate() {
            self.push_period(j.saturating_add(1), period);
        }
    }
}

/// Reports the lines of cash flows.
pub fn tell_flows(told: &mut Told, flows: &Flows) {
    let mut lines = Lines::new(told, flows.streams().len());
    for stream in flows.streams() {
        lines.next_stream();
        lines.push_flows(stream);
    }
}
