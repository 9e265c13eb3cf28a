//! What is reported of principal exchanges: `none`, or the rule that is broken. Else it is of each
//! its date, the adjusted one where it is another, and its amount with its sign.
ghost use Rattle.irs_terms.specs.Lawful.{IsLawfulStream};

use crate::good_days::days_of;
use crate::telling::Told;
use irs_calendar::Calendars;
use irs_payments::principals;
use irs_terms::{Exchanges, Stream};
use std::alloc::Global;

/// What is reported of a list of exchanges.
pub fn exchanges_told(told: &mut Told, list: &Exchanges) {
    let mut between = "";
    for exchange in list.as_slice() {
        told.dates(between, exchange.unadjusted, exchange.adjusted);
        told.dec(" ", exchange.amount);
        between = ", ";
    }
    if between.is_empty() {
        told.text("none");
    }
    told.end();
}

/// The principal exchanges of a stream.
pub fn exchange_lines(
    told: &mut Told,
    alloc: Global,
    calendars: &Calendars,
    s: &Stream,
) -> Option<()>
    requires { IsLawfulStream s.now }
{
    let days = days_of(alloc, calendars, &s.pay.adj.centers)?;
    match principals(alloc, s, &days) {
        Ok(list) => {
            exchanges_told(told, &list);
            Some(())
        }
        Err(stopped) => told.stopped(stopped),
    }
}
