//! The first calculation period of a payment whose rate isn't known.
ghost use Rattle.std.specs.Prelude.{◌↔◌, ◌<◌, ◌^◌, IsTrue, nat_lt};
ghost use Rattle.irs_base.specs.Lists.{HoldsOf};
ghost use Rattle.irs_base.specs.Outcomes.{IsFirst};
ghost use Rattle.irs_unfixed.specs.Unfixed.{IsUnrated, LacksRate};

use irs_schedule::{PaymentEntry, StreamPart};

// Whether the rate of the period with that number, from 1, isn't known.
fn lacks_rate(part: &StreamPart, number: u32) -> bool
    requires { 0 < number }
    ensures { IsTrue result ↔ HoldsOf LacksRate part.now.periods number }
{
    match part.period(number as usize - 1) {
        Some(period) => period.rate.is_none(),
        None => false,
    }
}

/// The number, from 1, of the first calculation period of a payment whose rate isn't known.
pub(crate) fn first_unrated(part: &StreamPart, payment: &PaymentEntry) -> Option<u32>
    requires low { 0 < payment.now.first_period }
    requires high { payment.now.last_period < 2 ^ 31 }
    ensures { IsFirst nat_lt (IsUnrated part.now payment.now) result }
{
    for number in payment.first_period..payment.last_period + 1 {
        if lacks_rate(part, number) {
            return Some(number);
        }
    }
    None
}
