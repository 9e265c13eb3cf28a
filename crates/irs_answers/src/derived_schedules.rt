//! A law: a schedule that is made with derived rates has the rate of each of their rows.
ghost use Rattle.std.specs.Prelude.{ℕ, [], List};
ghost use Rattle.irs_terms.specs.declared.frequency.Frequency.{Frequency as Tenor};
ghost use Rattle.irs_terms.specs.declared.stream_list.Swap.{Swap};
ghost use Rattle.irs_calendar.specs.declared.sections.Section.{Section};
ghost use Rattle.irs_resets.specs.Rates.{RateTable};
ghost use Rattle.irs_schedule.specs.Parts.{Part};
ghost use Rattle.irs_average.specs.declared.means.Mean.{Mean};
ghost use Rattle.irs_average.specs.declared.stubs.Side.{Side};
ghost use Rattle.irs_answers.specs.Derived.{FloatingStream, IsFloatingAt, AverageIsUsed, OvernightIsUsed, StubIsUsed};
ghost use Rattle.irs_answers.specs.PrintedRates.{IsKeptSchedule};

/// Over the schedule of a swap without fixings, `overnight` and `average` derive a rate for each period of a
/// stream, and `interpolate` one for a stub. The calls have a clause `fixings`: the rows print a fixing file that
/// has exactly their rates. Take any schedule of the swap that is made with this file. There each period whose
/// observed rate comes from the stream's own index and tenor has the rate of its row, on the row's fixing date.
/// It has none where that rate is missing. After `interpolate` so has the period of the stub. The function does
/// nothing; its contract is the law.
pub fn derived_rates_are_used()
    ensures overnight { (swap : Swap) (cal : List Section) (parts : List Part) → IsKeptSchedule swap cal [] parts
        → (number : ℕ) (x : FloatingStream) → IsFloatingAt swap number x → (rates : RateTable)
        → OvernightIsUsed swap cal parts number x rates }
    ensures average { (swap : Swap) (cal : List Section) (parts : List Part) → IsKeptSchedule swap cal [] parts
        → (number : ℕ) (x : FloatingStream) → IsFloatingAt swap number x → (rates : RateTable) (mean : Mean) (step : ℕ)
        → AverageIsUsed swap cal parts number x rates mean step }
    ensures interpolate { (swap : Swap) (cal : List Section) (parts : List Part) → IsKeptSchedule swap cal [] parts
        → (number : ℕ) (x : FloatingStream) → IsFloatingAt swap number x → (rates : RateTable) (side : Side)
        (low high : Tenor) → StubIsUsed swap cal parts number rates side low high }
{}
