//! What holds of every observed rate.
ghost use Rattle.irs_observed.specs.ObservedRates.{daily_rates, NotAbove, NotBelow, OneGivesItself, ZeroGivesZero};

use crate::method::DailyRateMethod;
use crate::observation::ObservationList;
use irs_base::Text;
use irs_resets::Fixings;

/// Laws of the observed rate. If each daily rate is 0, it is 0. With one member it prints as that
/// member's daily rate. An average lies between the least and the greatest daily rate.
pub fn rates_keep_their_range(
    method: DailyRateMethod,
    observations: &ObservationList,
    daily: &Fixings,
    index: &Text,
)
    ensures zero { ZeroGivesZero method (daily_rates daily.now index.now) observations.now }
    ensures one { OneGivesItself method (daily_rates daily.now index.now) observations.now }
    ensures not_below { NotBelow (daily_rates daily.now index.now) observations.now }
    ensures not_above { NotAbove (daily_rates daily.now index.now) observations.now }
{
    // hands the prover that the weights are above 0
    let _observations = observations.as_slice();
}
