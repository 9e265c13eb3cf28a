//! How many payments a schedule has, and how many of them have no amount.
ghost use Rattle.std.specs.Prelude.{◌≡◌, ◌↔◌, ◌<◌, ◌^◌};
ghost use Rattle.irs_audit.specs.Verdicts.{stream_unfixed, unfixed_count};
ghost use Rattle.irs_unfixed.specs.Unfixed.{payment_count, stream_payments, EachHasAmount};

use irs_schedule::{Schedule, StreamPart};

fn stream_payments(part: &StreamPart) -> u32
    ensures { result ≡ stream_payments part.now }
{
    part.payments().len() as u32
}

fn stream_unfixed(part: &StreamPart) -> u32
    ensures { result ≡ stream_unfixed part.now }
{
    part.payments()
        .iter()
        .filter(|payment| payment.amount.is_none())
        .count() as u32
}

fn all_payments(parts: &[StreamPart]) -> u32
    requires { payment_count parts.now < 2 ^ 32 }
    ensures { result ≡ payment_count parts.now }
{
    parts.iter().map(|part| stream_payments(part)).sum()
}

fn all_unfixed(parts: &[StreamPart]) -> u32
    requires { unfixed_count parts.now < 2 ^ 32 }
    ensures { result ≡ unfixed_count parts.now }
{
    parts.iter().map(|part| stream_unfixed(part)).sum()
}

/// How many payments a schedule has. No memory is taken.
pub fn payment_count(schedule: &Schedule) -> u32
    ensures { result ≡ payment_count schedule.now }
{
    all_payments(schedule.streams())
}

/// How many payments of a schedule have no amount. It is the count of a verdict of `audit`, by the same
/// definition. No memory is taken.
pub fn unfixed_count(schedule: &Schedule) -> u32
    ensures count { result ≡ unfixed_count schedule.now }
    ensures none { result ≡ 0 ↔ EachHasAmount schedule.now }
{
    all_unfixed(schedule.streams())
}
