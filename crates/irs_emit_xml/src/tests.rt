//! The rows of cash flows byte for byte, and what a reader of XML makes of a document. The dates and
//! amounts are those of a swap of 50 million euro from December 1994. It pays 6 percent by 30E/360
//! against a floating rate by ACT/360.
use crate::rows::{exchange, forecast, period};
use crate::writer::{begin, close_tag, leaf, open_tag};
use irs_base::{Dec, Memory, read_date};
use irs_schedule::{CalculationPeriod, PaymentEntry};
use irs_terms::{Currency, Exchange, Frac, Reset};
use irs_xml::read_xml;
use std::alloc::Global;
use std::test::*;

const EXCHANGE: &[u8] = b"      <principalExchange>
        <unadjustedPrincipalExchangeDate>1994-12-14</unadjustedPrincipalExchangeDate>
        <adjustedPrincipalExchangeDate>1994-12-15</adjustedPrincipalExchangeDate>
        <principalExchangeAmount>-50000000.00</principalExchangeAmount>
      </principalExchange>
";

const FIXED: &[u8] = b"        <calculationPeriod>
          <unadjustedStartDate>1994-12-14</unadjustedStartDate>
          <unadjustedEndDate>1995-12-14</unadjustedEndDate>
          <adjustedStartDate>1994-12-14</adjustedStartDate>
          <adjustedEndDate>1995-12-14</adjustedEndDate>
          <calculationPeriodNumberOfDays>360</calculationPeriodNumberOfDays>
          <notionalAmount>50000000.0000</notionalAmount>
          <fixedRate>0.060000000</fixedRate>
          <dayCountYearFraction>1.0000000000</dayCountYearFraction>
        </calculationPeriod>
";

const FLOATING: &[u8] = b"        <calculationPeriod>
          <unadjustedStartDate>1994-12-14</unadjustedStartDate>
          <unadjustedEndDate>1995-06-14</unadjustedEndDate>
          <adjustedStartDate>1994-12-14</adjustedStartDate>
          <adjustedEndDate>1995-06-14</adjustedEndDate>
          <calculationPeriodNumberOfDays>182</calculationPeriodNumberOfDays>
          <notionalAmount>50000000.0000</notionalAmount>
          <floatingRateDefinition>
            <calculatedRate>0.071250000</calculatedRate>
            <rateObservation>
              <resetDate>1994-12-14</resetDate>
              <adjustedFixingDate>1994-12-12</adjustedFixingDate>
              <observedRate>0.070000000</observedRate>
            </rateObservation>
          </floatingRateDefinition>
          <dayCountYearFraction>0.5055555556</dayCountYearFraction>
        </calculationPeriod>
";

const UNKNOWN: &[u8] = b"        <calculationPeriod>
          <unadjustedStartDate>1994-12-14</unadjustedStartDate>
          <unadjustedEndDate>1995-06-14</unadjustedEndDate>
          <adjustedStartDate>1994-12-14</adjustedStartDate>
          <adjustedEndDate>1995-06-14</adjustedEndDate>
          <calculationPeriodNumberOfDays>182</calculationPeriodNumberOfDays>
          <notionalAmount>50000000.0000</notionalAmount>
          <floatingRateDefinition>
            <rateObservation>
              <resetDate>1994-12-14</resetDate>
              <adjustedFixingDate>1994-12-12</adjustedFixingDate>
            </rateObservation>
          </floatingRateDefinition>
          <dayCountYearFraction>0.5055555556</dayCountYearFraction>
        </calculationPeriod>
";

const AMOUNT: &[u8] = b"        <forecastPaymentAmount>
          <currency>EUR</currency>
          <amount>3000000.00</amount>
        </forecastPaymentAmount>
";

const NO_AMOUNT: &[u8] = b"        <forecastPaymentAmount>
          <currency>EUR</currency>
        </forecastPaymentAmount>
";

const DOCUMENT: &[u8] = b"<?xml version=\"1.0\" encoding=\"UTF-8\"?>
<swap xmlns=\"http://www.fpml.org/FpML-5/confirmation\">
  <swapStream>
    <a>1</a>
    <b></b>
    <a>-2.50</a>
  </swapStream>
  <swapStream>
    <b>c > d</b>
  </swapStream>
</swap>
";

const MEANS: &str =
    "{\"swap\":{\"swapStream\":[{\"a\":[\"1\",\"-2.50\"],\"b\":\"\"},{\"b\":\"c > d\"}]}}";

// The text of an exchange on a day that was moved by one.
fn exchange_text(alloc: Global) -> Option<Vec<u8>> {
    let x = Exchange {
        unadjusted: read_date(b"1994-12-14")?,
        adjusted: read_date(b"1994-12-15")?,
        amount: Dec {
            units: -5_000_000_000,
            places: 2,
        },
    };
    let mut out = Vec::new(alloc);
    exchange(&mut out, &x).ok()?;
    Some(out)
}

// The text of a year at a fixed rate of 6 percent.
fn fixed_text(alloc: Global) -> Option<Vec<u8>> {
    let (start, end) = (read_date(b"1994-12-14")?, read_date(b"1995-12-14")?);
    let x = CalculationPeriod {
        start,
        end,
        adjusted_start: start,
        adjusted_end: end,
        days: 360,
        frac: Frac { num: 360, den: 360 },
        notional: 500_000_000_000,
        rate: Some(60_000_000),
    };
    let mut out = Vec::new(alloc);
    period(&mut out, &x, None).ok()?;
    Some(out)
}

// The text of half a year at a floating rate with a spread, where the rate is known.
fn floating_text(alloc: Global, rate: Option<i64>, observed: Option<i64>) -> Option<Vec<u8>> {
    let (start, end) = (read_date(b"1994-12-14")?, read_date(b"1995-06-14")?);
    let x = CalculationPeriod {
        start,
        end,
        adjusted_start: start,
        adjusted_end: end,
        days: 182,
        frac: Frac { num: 182, den: 360 },
        notional: 500_000_000_000,
        rate,
    };
    let r = Reset {
        reset: start,
        fixing: read_date(b"1994-12-12")?,
        observed,
    };
    let mut out = Vec::new(alloc);
    period(&mut out, &x, Some(&r)).ok()?;
    Some(out)
}

// The text of the amount of a payment in cents, where it is known.
fn amount_text(alloc: Global, cents: Option<i128>) -> Option<Vec<u8>> {
    let day = read_date(b"1995-12-14")?;
    let y = PaymentEntry {
        unadjusted: day,
        adjusted: day,
        first_period: 1,
        last_period: 1,
        amount: match cents {
            Some(units) => Some(Dec { units, places: 2 }),
            None => None,
        },
    };
    let mut out = Vec::new(alloc);
    forecast(&mut out, Currency { letters: *b"EUR" }, &y).ok()?;
    Some(out)
}

// A document of two streams, the first with three elements of two names.
fn document(alloc: Global) -> Result<Vec<u8>, Memory> {
    let mut out = Vec::new(alloc);
    begin(&mut out, "swap")?;
    open_tag(&mut out, 1, "swapStream")?;
    leaf(&mut out, 2, "a", b"1")?;
    leaf(&mut out, 2, "b", b"")?;
    leaf(&mut out, 2, "a", b"-2.50")?;
    close_tag(&mut out, 1, "swapStream")?;
    open_tag(&mut out, 1, "swapStream")?;
    leaf(&mut out, 2, "b", b"c > d")?;
    close_tag(&mut out, 1, "swapStream")?;
    close_tag(&mut out, 0, "swap")?;
    Ok(out)
}

// What a reader of XML makes of the document, as JSON.
fn document_means(alloc: Global) -> Option<String> {
    let text = document(alloc).ok()?;
    let value = read_xml(alloc, text.as_slice()).ok()?;
    value.to_string(alloc).ok()
}

#[test]
fn exchanges(rt: HostRuntime) {
    assert!(rt; exchange_text(rt.alloc()).is_some_and(|text| text.as_slice() == EXCHANGE));
}

#[test]
fn calculation_periods(rt: HostRuntime) {
    let alloc = rt.alloc();
    let known = floating_text(alloc, Some(71_250_000), Some(70_000_000));
    assert!(rt; fixed_text(alloc).is_some_and(|text| text.as_slice() == FIXED));
    assert!(rt; known.is_some_and(|text| text.as_slice() == FLOATING));
    assert!(rt; floating_text(alloc, None, None).is_some_and(|text| text.as_slice() == UNKNOWN));
}

#[test]
fn amounts(rt: HostRuntime) {
    let alloc = rt.alloc();
    let known = amount_text(alloc, Some(300_000_000));
    assert!(rt; known.is_some_and(|text| text.as_slice() == AMOUNT));
    assert!(rt; amount_text(alloc, None).is_some_and(|text| text.as_slice() == NO_AMOUNT));
}

#[test]
fn a_document_is_read(rt: HostRuntime) {
    assert!(rt; document(rt.alloc()).is_ok_and(|text| text.as_slice() == DOCUMENT));
    assert!(rt; document_means(rt.alloc()).is_some_and(|json| json.as_str() == MEANS));
}
