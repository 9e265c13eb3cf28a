//! What is added up of a schedule: its payments and calculation periods, what it pays, and its days.
ghost use Rattle.std.specs.Prelude.{◌≡◌, ◌+◌, ◌*◌, ◌<◌, ◌≤◌, ◌^◌, ◌+ℤ◌, pos, length, unsigned_abs, slice_get, sum_by};
ghost use Rattle.std.specs.Prelude.{IfSome};
ghost use Rattle.irs_base.specs.Limits.{most_streams};
ghost use Rattle.irs_audit.specs.StatedFlows.{IsStatableDec};
ghost use Rattle.irs_bulk.specs.BulkRuns.{all_days_from, days_added_from, known_or_zero, paid_from, payment_row_count};
ghost use Rattle.irs_bulk.specs.BulkRuns.{sums_in, total_from};
ghost use Rattle.irs_bulk.specs.Private.BulkRuns.{most_of_stream, most_stated_amount};

use irs_audit::stated_amount;
use irs_base::Dec;
use irs_schedule::{Schedule, StreamPart};

/// Sums over a schedule.
#[derive(Clone, Copy)]
pub(crate) struct Sums {
    /// How many payments and calculation periods it has.
    pub rows: u32,
    /// The amounts of its payments, in units of 10^-12; one that isn't known adds nothing.
    pub total: i128,
    /// The days of its calculation periods.
    pub days: i128,
}

fn sum(a: i128, b: i128) -> i128
    requires { unsigned_abs a + unsigned_abs b < 2 ^ 127 }
    ensures value { result ≡ a +ℤ b }
    ensures size { unsigned_abs result ≤ unsigned_abs a + unsigned_abs b }
{
    a + b
}

// An amount in units of 10^-12, and nothing where it isn't known.
fn known_or_zero(amount_of: Option<Dec>) -> i128
    requires { IfSome amount_of IsStatableDec }
    ensures value { result ≡ known_or_zero amount_of }
    ensures size { unsigned_abs result ≤ most_stated_amount }
{
    match amount_of {
        Some(v) => stated_amount(v),
        None => 0,
    }
}

fn payment_rows(part: &StreamPart) -> u32
    ensures { result ≡ payment_row_count part.now }
{
    (part.payments().len() + part.periods()) as u32
}

fn rows(parts: &[StreamPart]) -> u32
    requires { sum_by payment_row_count parts.now < 2 ^ 32 }
    ensures { result ≡ sum_by payment_row_count parts.now }
{
    parts.iter().map(|part| payment_rows(part)).sum()
}

// A sum plus what a stream pays.
fn paid(before: i128, part: &StreamPart) -> i128
    requires { unsigned_abs before ≤ most_streams * most_of_stream }
    ensures value { result ≡ paid_from before part.now.payments }
    ensures size { unsigned_abs result ≤ unsigned_abs before + most_of_stream }
{
    let mut total = before;
    for y in part.payments() {
        total = sum(total, known_or_zero(y.amount));
    }
    total
}

fn total(parts: &[StreamPart]) -> i128
    requires { length parts.now ≤ most_streams }
    ensures value { result ≡ total_from (pos 0) parts.now }
    ensures size { unsigned_abs result ≤ most_streams * most_of_stream }
{
    let mut total = 0;
    for part in parts {
        total = paid(total, part);
    }
    total
}

// The days of the period at a place.
fn days_at(part: &StreamPart, place: usize) -> i128
    requires { place < length part.now.periods }
    ensures value { IfSome (slice_get part.now.periods place) (λ e. result ≡ e.days) }
    ensures size { unsigned_abs result ≤ most_stated_amount }
{
    match part.days(place) {
        Some(days) => i128::from(days),
        None => 0,
    }
}

// A sum plus the days of a stream.
fn stream_days(before: i128, part: &StreamPart) -> i128
    requires { unsigned_abs before ≤ most_streams * most_of_stream }
    ensures value { result ≡ days_added_from before part.now.periods }
    ensures size { unsigned_abs result ≤ unsigned_abs before + most_of_stream }
{
    let mut days = before;
    for place in 0..part.periods() {
        days = sum(days, days_at(part, place));
    }
    days
}

fn all_days(parts: &[StreamPart]) -> i128
    requires { length parts.now ≤ most_streams }
    ensures value { result ≡ all_days_from (pos 0) parts.now }
    ensures size { unsigned_abs result ≤ most_streams * most_of_stream }
{
    let mut days = 0;
    for part in parts {
        days = stream_days(days, part);
    }
    days
}

/// What a run over many schedules adds up of one. It takes no memory.
pub(crate) fn sums_of(s: &Schedule) -> Sums
    ensures value { result ≡ sums_in s.now }
    ensures rows { result.rows < 2 ^ 32 }
    ensures total { unsigned_abs result.total ≤ most_streams * most_of_stream }
    ensures days { unsigned_abs result.days ≤ most_streams * most_of_stream }
{
    let parts = s.streams();
    Sums {
        rows: rows(parts),
        total: total(parts),
        days: all_days(parts),
    }
}
