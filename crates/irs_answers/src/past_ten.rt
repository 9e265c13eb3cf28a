//! A law: a rate past 10 in size, which is above 1,000 per cent, is in a payment without an amount alone.
ghost use Rattle.std.specs.Prelude.{◌≡◌, ℕ, List, Some, false, slice_get};
ghost use Rattle.irs_terms.specs.declared.stream.Stream.{Stream};
ghost use Rattle.irs_terms.specs.declared.stream_list.Swap.{Swap};
ghost use Rattle.irs_calendar.specs.declared.sections.Section.{Section};
ghost use Rattle.irs_resets.specs.Rates.{RateTable};
ghost use Rattle.irs_schedule.specs.Parts.{is_daily, Part};
ghost use Rattle.irs_answers.specs.PrintedRates.{IsKeptSchedule, PaidWithinTen, PastTenUnpaid, UnaccruedUnpaid};

/// In the schedule of a swap that breaks no rule, with any fixings, a payment with an amount has rates of at most
/// 10 in size, and all of them are known. So a rate past 10 is in a payment without an amount alone. In a stream
/// without daily rates it is the same with what has accrued of a period: if it has no amount, the payment of the
/// period has none. The function does nothing; its contract is the law.
pub fn rates_past_ten_are_unpaid()
    ensures within { (swap : Swap) (cal : List Section) (fix : RateTable) (parts : List Part)
        → IsKeptSchedule swap cal fix parts → (place : ℕ) (p : Part) → slice_get parts place ≡ Some p
        → PaidWithinTen p }
    ensures past { (swap : Swap) (cal : List Section) (fix : RateTable) (parts : List Part)
        → IsKeptSchedule swap cal fix parts → (place : ℕ) (p : Part) → slice_get parts place ≡ Some p
        → PastTenUnpaid p }
    ensures accrued { (swap : Swap) (cal : List Section) (fix : RateTable) (parts : List Part)
        → IsKeptSchedule swap cal fix parts → (place : ℕ) (p : Part) → slice_get parts place ≡ Some p
        → (s : Stream) → slice_get swap.streams place ≡ Some s → is_daily s.leg ≡ false → UnaccruedUnpaid s p }
{}
