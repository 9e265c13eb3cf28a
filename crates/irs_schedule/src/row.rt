//! The rows of a schedule, one kind for each kind of line of its text.
use irs_base::{Day, Dec};
use irs_terms::{Currency, DayCountCode, Frac};

/// A row. Streams, exchanges, payments and periods are counted from 1, the last three through their
/// stream. Notionals are in units of 10^-4, rates in units of 10^-9.
#[derive(Clone, Copy)]
pub enum Row {
    /// A stream begins.
    Stream {
        stream: u8,
        currency: Currency,
        day_count: DayCountCode,
        floating: bool,
    },
    /// A principal exchange; a positive amount is paid by the stream's payer.
    Exchange {
        stream: u8,
        number: u32,
        unadjusted: Day,
        adjusted: Day,
        amount: Dec,
    },
    /// A payment. Its amount is absent where an observed rate of its periods is.
    Payment {
        stream: u8,
        number: u32,
        unadjusted: Day,
        adjusted: Day,
        first_period: u32,
        last_period: u32,
        amount: Option<Dec>,
    },
    /// A calculation period. Its rate is absent where its observed rate is.
    Period {
        stream: u8,
        number: u32,
        start: Day,
        end: Day,
        adjusted_start: Day,
        adjusted_end: Day,
        days: i64,
        frac: Frac,
        notional: i128,
        rate: Option<i64>,
    },
    /// The reset of the period with that number. The observed rate is absent where the fixings
    /// have no line for it.
    Reset {
        stream: u8,
        number: u32,
        reset: Day,
        fixing: Day,
        observed: Option<i64>,
    },
}
