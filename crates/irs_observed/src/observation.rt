//! An observation, a list of them, and why there is none.
ghost use Rattle.std.specs.Prelude.{◌≡◌, List};
ghost use Rattle.irs_observed.specs.Observations.{HasWeights};
ghost use Rattle.irs_observed.specs.declared.observation.Observation.{Observation as AnObservation};

use irs_base::Day;
use std::marker::Model;
use thiserror::Error;

/// A member of an observation period: a day from which a daily rate applies.
#[derive(Clone, Copy, PartialEq, Eq)]
pub struct Observation {
    /// The member: the first day of the observation period, or a business day after it.
    pub day: Day,
    /// The number of calendar days for which the rate applies: up to the next member, or to the end.
    pub weight: u32,
    /// The day on which the rate is observed.
    pub observed: Day,
}

/// Observations in order, at least one. Their weights are above 0, and together they are fewer than
/// `ALL_DAYS`.
#[derive(Drop)]
pub struct ObservationList {
    pub(crate) all: Vec<Observation>,
}

impl Model for ObservationList {
    ghost use Rattle.std.specs.Prelude.{List};
    ghost use Rattle.irs_observed.specs.Observations.{HasWeights};
    ghost use Rattle.irs_observed.specs.declared.observation.Observation.{Observation as AnObservation};

    ghost Value = { List AnObservation };

    ghost view = { λ o. o.all.items };

    ghost invariant = { λ o. HasWeights o.all.items };
}

impl ObservationList {
    /// The observations in order.
    pub fn as_slice(&self) -> &[Observation]
        ensures value { result.now ≡ self.now }
        ensures weights { HasWeights self.now }
    {
        &self.all
    }
}

/// Why a calculation period has no observations. Where both hold it is `FewMembers`.
#[derive(Clone, Copy, Debug, PartialEq, Eq, Error)]
pub enum NoObservations {
    /// The observation period lies in the cover, and it has no day, or no more members than the
    /// lockout has days.
    #[error("too few days to observe a rate")]
    FewMembers,
    /// An end of the observation period has no result, a day of it lies outside the cover, or a
    /// member has no observation day.
    #[error("a day of the observation period has no result")]
    NoDay,
}
