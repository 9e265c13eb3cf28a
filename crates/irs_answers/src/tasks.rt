//! The tasks over a document and the files that go with it.
ghost use Rattle.std.specs.Prelude.{◌≡◌};
ghost use Rattle.irs_answers.specs.Tasks.{nets, states_amounts, uses_rates};

use irs_average::{Mean, Side};
use irs_base::Day;
use irs_terms::Frequency;

/// A task over a document and the files that go with it.
#[derive(Clone, Copy)]
pub enum Task {
    /// Whether a document keeps every rule.
    Check,
    /// The schedule of a document.
    Schedule,
    /// Whether cash flows agree with the schedule of a document.
    Audit,
    /// Each break between cash flows and the schedule of a document, for what is due from a day on, or for all.
    Breaks(Option<Day>),
    /// The schedule of a document as cash flows.
    Emit,
    /// The same cash flows in FpML XML.
    EmitXml,
    /// What has accrued on a day in each stream of the schedule.
    Accrue(Day),
    /// What falls due between the two parties on each date and in each currency.
    Net,
    /// The days and the daily rates that each rate of the stream with this number, from 1, is made of.
    Observations(u8),
    /// The rates that daily rates give for the calculation periods of the stream with this number, from 1.
    Overnight(u8),
    /// The averages of a stream's rates, observed every `step` days, over its calculation periods.
    Average {
        stream: u8,
        mean: Mean,
        step: u32,
    },
    /// The rate of a stream's stub on a side, between those of two tenors.
    Interpolate {
        stream: u8,
        side: Side,
        low: Frequency,
        high: Frequency,
    },
}

impl Task {
    /// Whether the schedule is made with the rates of the file of fixings.
    pub(crate) fn uses_rates(&self) -> bool
        ensures { result ≡ uses_rates self.now }
    {
        match *self {
            Task::Check => true,
            Task::Schedule => true,
            Task::Audit => true,
            Task::Breaks(_) => true,
            Task::Emit => true,
            Task::EmitXml => true,
            Task::Accrue(_) => true,
            Task::Net => true,
            Task::Observations(_) => true,
            Task::Overnight(_) => false,
            Task::Average { .. } => false,
            Task::Interpolate { .. } => false,
        }
    }

    /// Whether the task needs to know which party pays each stream.
    pub(crate) fn nets(&self) -> bool
        ensures { result ≡ nets self.now }
    {
        match *self {
            Task::Check => false,
            Task::Schedule => false,
            Task::Audit => false,
            Task::Breaks(_) => false,
            Task::Emit => false,
            Task::EmitXml => false,
            Task::Accrue(_) => false,
            Task::Net => true,
            Task::Observations(_) => false,
            Task::Overnight(_) => false,
            Task::Average { .. } => false,
            Task::Interpolate { .. } => false,
        }
    }

    /// Whether the task states the amounts of payments.
    pub(crate) fn states_amounts(&self) -> bool
        ensures { result ≡ states_amounts self.now }
    {
        match *self {
            Task::Check => false,
            Task::Schedule => true,
            Task::Audit => true,
            Task::Breaks(_) => true,
            Task::Emit => true,
            Task::EmitXml => true,
            Task::Accrue(_) => true,
            Task::Net => true,
            Task::Observations(_) => false,
            Task::Overnight(_) => false,
            Task::Average { .. } => false,
            Task::Interpolate { .. } => false,
        }
    }
}
