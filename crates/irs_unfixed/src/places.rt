//! The first payment of a schedule that has no amount.
ghost use Rattle.std.specs.Prelude.{◌<◌, ◌^◌, length, nat_lt};
ghost use Rattle.irs_base.specs.Lists.{HoldsOf};
ghost use Rattle.irs_base.specs.Outcomes.{IsFirst};
ghost use Rattle.irs_unfixed.specs.Unfixed.{UnfixedAt, LacksAmount, place_before};

use irs_schedule::{PaymentEntry, Schedule};

/// A payment by its place in a schedule.
#[derive(Clone, Copy)]
pub struct PaymentPlace {
    /// The number of the stream, from 1.
    pub stream: u8,
    /// The number of the payment in its stream, from 1.
    pub payment: u32,
}

// The number, from 1, of the first of these payments that has no amount.
fn first_of(payments: &[PaymentEntry]) -> Option<u32>
    requires { length payments.now < 2 ^ 32 }
    ensures { IsFirst nat_lt (HoldsOf LacksAmount payments.now) result }
{
    for (place, payment) in payments.iter().enumerate() {
        if payment.amount.is_none() {
            return Some(place as u32 + 1);
        }
    }
    None
}

/// The first payment of a schedule that has no amount: the lowest stream, and in it the lowest payment.
pub(crate) fn first_unfixed(schedule: &Schedule) -> Option<PaymentPlace>
    ensures { IsFirst place_before (UnfixedAt schedule.now) result }
{
    for (place, part) in schedule.streams().iter().enumerate() {
        if let Some(payment) = first_of(part.payments()) {
            return Some(PaymentPlace {
                stream: place as u8 + 1,
                payment,
            });
        }
    }
    None
}
