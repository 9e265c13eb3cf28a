//! A law: `schedule` has the rates that `overnight`, `average` or `interpolate` printed.
ghost use Rattle.std.specs.Prelude.{ℕ, List};
ghost use Rattle.irs_terms.specs.declared.frequency.Frequency.{Frequency as Tenor};
ghost use Rattle.irs_average.specs.declared.means.Mean.{Mean};
ghost use Rattle.irs_average.specs.declared.stubs.Side.{Side};
ghost use Rattle.irs_answers.specs.Due.{Facts};
ghost use Rattle.irs_answers.specs.Forms.{Given};
ghost use Rattle.irs_answers.specs.PrintedRates.{AveragePrints, InterpolatePrints, OvernightPrints};

/// What `overnight`, `average` or `interpolate` prints with status 0 is a fixing file that has exactly the rates
/// of its rows, which are the only ones. Take the schedule that `schedule` makes of the same files with this text
/// as fixings. There each period whose observed rate comes from the stream's own index and tenor has the rate of
/// its row, on the row's fixing date. It has none where that rate is missing. After `interpolate` so has the
/// period of the stub. The function does nothing; its contract is the law.
pub fn printed_rates_are_used()
    ensures overnight { (number : ℕ) (g : Given) (f : Facts) (text : List ℕ) → OvernightPrints number g f text }
    ensures average { (number : ℕ) (mean : Mean) (step : ℕ) (g : Given) (f : Facts) (text : List ℕ)
        → AveragePrints number mean step g f text }
    ensures interpolate { (number : ℕ) (side : Side) (low high : Tenor) (g : Given) (f : Facts) (text : List ℕ)
        → InterpolatePrints number side low high g f text }
{}
