//! Laws of the rows, each the contract of a function that does nothing.
ghost use Rattle.irs_resets.specs.Rates.{RateTable};
ghost use Rattle.irs_observed.specs.OvernightRates.{OvernightSource};
ghost use Rattle.irs_daily.specs.Laws.{HasOneList, RatesHaveRows, RowsShowRates};

/// A stream has one list of rows over its fixings.
pub fn one_list()
    ensures { (source : OvernightSource) (rates : RateTable) → HasOneList source rates }
{}

/// Where a stream has its observed rates over the fixings, and none is out of range, each of its periods has rows. So
/// the call for the rows of a schedule that was made stops only where memory ran out.
pub fn rates_have_rows()
    ensures { (source : OvernightSource) (rates : RateTable) → RatesHaveRows source rates }
{}

/// The rows of a period show its observed rate. The factor that is shown gives the rate over the days of
/// the observation period, and is absent exactly where the rate is.
pub fn rows_show_rates()
    ensures { (source : OvernightSource) (rates : RateTable) → RowsShowRates source rates }
{}
