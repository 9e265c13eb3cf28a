//! How many rows a schedule has, and how many of its payments have no amount yet.
ghost use Rattle.std.specs.Prelude.{◌≡◌, ◌<◌, ◌^◌};
ghost use Rattle.irs_audit.specs.Verdicts.{stream_row_count, stream_unfixed, row_count, unfixed_count};

use irs_schedule::StreamPart;

fn stream_rows(part: &StreamPart) -> u32
    ensures { result ≡ stream_row_count part.now }
{
    let resets = part.resets().len();
    (part.exchanges().len() + part.payments().len() + part.periods() + resets) as u32
}

fn stream_unfixed(part: &StreamPart) -> u32
    ensures { result ≡ stream_unfixed part.now }
{
    part.payments()
        .iter()
        .filter(|payment| payment.amount.is_none())
        .count() as u32
}

/// The exchanges, payments, calculation periods and resets of all streams.
pub(crate) fn row_count(parts: &[StreamPart]) -> u32
    requires { row_count parts.now < 2 ^ 32 }
    ensures { result ≡ row_count parts.now }
{
    parts.iter().map(|part| stream_rows(part)).sum()
}

/// The payments of all streams that have no amount yet.
pub(crate) fn unfixed_count(parts: &[StreamPart]) -> u32
    requires { unfixed_count parts.now < 2 ^ 32 }
    ensures { result ≡ unfixed_count parts.now }
{
    parts.iter().map(|part| stream_unfixed(part)).sum()
}
