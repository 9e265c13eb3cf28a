//! The limits of terms, of files and of what is worked out of them, each in its one place. They are
//! our rule.
ghost use Rattle.std.specs.Prelude.{◌≡◌};
ghost use Rattle.irs_base.specs.Days.{all_days};
ghost use Rattle.irs_base.specs.Limits.{most_bytes, most_centers, most_exchanges, most_files, most_holidays};
ghost use Rattle.irs_base.specs.Limits.{most_index, most_name, most_periods, most_rate, most_rows, most_steps};
ghost use Rattle.irs_base.specs.Limits.{most_streams};

/// The number of days from 1901-01-01 to 2299-12-31.
pub const ALL_DAYS: u32 = 145_732;

/// The most streams of a swap.
pub const MOST_STREAMS: usize = 8;

/// The most calculation periods of a stream.
pub const MOST_PERIODS: u32 = 8_000;

/// The most steps of a schedule of values.
pub const MOST_STEPS: u32 = 4_000;

/// The most principal exchanges of a stream: one for each step, the initial and the final one.
pub const MOST_EXCHANGES: u32 = 4_002;

/// The most centres of an element.
pub const MOST_CENTERS: u32 = 16;

/// The greatest rate, spread and multiplier in size: 10, in units of 10^-9.
pub const MOST_RATE: u64 = 10_000_000_000;

/// The most bytes that the index of a rate has.
pub const MOST_INDEX: usize = 128;

/// The most bytes that the name of a centre has.
pub const MOST_NAME: usize = 32;

/// The most holidays that a centre has.
pub const MOST_HOLIDAYS: usize = 20_000;

/// The most calendar files that are read.
pub const MOST_FILES: usize = 16;

/// The most bytes that a file has: 4 MiB.
pub const MOST_BYTES: usize = 4_194_304;

/// The most rows of each kind in the cash flows of a stream.
pub const MOST_ROWS: u32 = 10_000;

/// Each limit of a trade is the number that the specification states.
pub fn limits_stated()
    ensures days { ALL_DAYS ≡ all_days }
    ensures streams { MOST_STREAMS ≡ most_streams }
    ensures periods { MOST_PERIODS ≡ most_periods }
    ensures steps { MOST_STEPS ≡ most_steps }
    ensures exchanges { MOST_EXCHANGES ≡ most_exchanges }
    ensures centers { MOST_CENTERS ≡ most_centers }
    ensures rate { MOST_RATE ≡ most_rate }
{}

/// Each limit of a file, and of what stands in one, is the number that the specification states.
pub fn file_limits_stated()
    ensures index { MOST_INDEX ≡ most_index }
    ensures name { MOST_NAME ≡ most_name }
    ensures holidays { MOST_HOLIDAYS ≡ most_holidays }
    ensures files { MOST_FILES ≡ most_files }
    ensures bytes { MOST_BYTES ≡ most_bytes }
    ensures rows { MOST_ROWS ≡ most_rows }
{}
