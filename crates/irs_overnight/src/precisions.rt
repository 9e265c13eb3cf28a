//! Laws of two precisions: the observed rate of a period, and the rate that is derived for it.
ghost use Rattle.irs_resets.specs.Rates.{RateTable};
ghost use Rattle.irs_observed.specs.OvernightRates.{OvernightSource};
ghost use Rattle.irs_observed.specs.declared.method.YearDays.{YearDays};
ghost use Rattle.irs_overnight.specs.Overnight.{DerivedSource};
ghost use Rattle.irs_overnight.specs.TwoPrecisions.{AgreeAsPrinted, AgreeInStream, AgreeUnrounded, CompoundedPeriod};

/// Laws. With `calculationParameters`, but without observation shift, lookback and lockout, the daily
/// rates of a period are compounded by factors of 18 decimals. Without them `overnight` does so by
/// factors of 15. Over the same period, business days and lines the two rates differ by less than
/// 2 * 10^-12 before they are rounded. As they are printed they differ by at most 1 in the ninth
/// decimal. So do the rates of a stream in both forms. This holds where no daily rate is below 0 and
/// no factor passes 10.
pub fn precisions_agree()
    ensures unrounded { (p : CompoundedPeriod) → AgreeUnrounded p }
    ensures printed { (p : CompoundedPeriod) → AgreeAsPrinted p }
    ensures stream { (observed : OvernightSource) (derived : DerivedSource) (rates : RateTable) (year : YearDays)
        → AgreeInStream observed derived rates year }
{}
