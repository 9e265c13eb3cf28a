//! The observations of a calculation period. From each member of the observation period a daily rate
//! applies, up to the next member. It is the rate that is observed on the member's observation day.
ghost use Rattle.std.specs.Prelude.{◌≡◌, ◌+◌, ◌<◌, ◌<ℤ◌, ℤ, [], length, IfOk, IfSome, IfNone};
ghost use Rattle.irs_base.specs.Outcomes.{IfBroken, Determined, Meets};
ghost use Rattle.irs_base.specs.Lists.{day_at};
ghost use Rattle.irs_observed.specs.Observations.{observed_period, AddsUp, AreObserved, IsObservation, ObservesOn};
ghost use Rattle.irs_observed.specs.Observations.{lockout_days, place_observed, member_or_end};
ghost use Rattle.irs_observed.specs.Private.OvernightRates.{IsUnseen, IsWalk, LooksBack, good_at};
ghost use Rattle.irs_observed.specs.OvernightRates.{observations_of};
ghost use Rattle.irs_observed.specs.declared.observation.NoObservations.TheVariants.{NoDay as OfNoDay};

use crate::members::{days_ahead, leaves_cover, members};
use crate::observation::{NoObservations, Observation, ObservationList};
use crate::period::{moved_back, observation_period};
use irs_base::{Day, Memory, Stopped};
use irs_calendar::GoodDays;
use irs_terms::ObservationOffset;
use std::alloc::Global;

// The last business day at or before the member at a place; `first` is that of the first member.
fn good_at(first: Day, members: &[Day], place: usize) -> Day
    requires { place < length members.now }
    ensures { result ≡ good_at first members.now place }
{
    if place == 0 { first } else { members[place] }
}

// That day moved back by n business days. The member n places before gives it, if there is one.
fn looked_back<G: GoodDays>(
    n: u8,
    days: &G,
    first: Day,
    members: &[Day],
    end: Day,
    place: usize,
) -> Option<Day>
    requires place { place < length members.now }
    requires walk { IsWalk (G.days days.now) first members.now end }
    ensures some { IfSome result (LooksBack n (G.days days.now) (day_at members.now place)) }
    ensures none { IfNone result ((r : ℤ) → LooksBack n (G.days days.now) (day_at members.now place) r → ⊥) }
{
    let places = usize::from(n);
    if places <= place {
        Some(good_at(first, members, place - places))
    } else {
        moved_back(n, days, good_at(first, members, place))
    }
}

// The observation day that the member at a place takes.
fn observed_on<G: GoodDays>(
    offset: ObservationOffset,
    days: &G,
    first: Day,
    members: &[Day],
    end: Day,
    place: usize,
) -> Option<Day>
    requires place { place < length members.now }
    requires enough { lockout_days offset < length members.now }
    requires walk { IsWalk (G.days days.now) first members.now end }
    ensures some { let from = day_at members.now (place_observed offset (length members.now) place) in
        IfSome result (ObservesOn offset (G.days days.now) from) }
    ensures none { let from = day_at members.now (place_observed offset (length members.now) place) in
        IfNone result ((o : ℤ) → ObservesOn offset (G.days days.now) from o → ⊥) }
{
    match offset {
        ObservationOffset::Absent | ObservationOffset::Shift(_) => Some(good_at(
            first, members, place,
        )),
        ObservationOffset::Lookback(n) => looked_back(n, days, first, members, end, place),
        ObservationOffset::Lockout(n) => {
            let before = members.len() - 1 - usize::from(n);
            Some(good_at(first, members, place.min(before)))
        }
    }
}

// The member after the one at a place, or the end after the last.
fn next_member(members: &[Day], end: Day, place: usize) -> Day
    requires { place < length members.now }
    ensures { result ≡ member_or_end members.now end (place + 1) }
{
    match members.get(place + 1) {
        Some(next) => *next,
        None => end,
    }
}

// The member at a place.
fn member_at(members: &[Day], place: usize) -> Day
    requires { place < length members.now }
    ensures { result ≡ day_at members.now place }
{
    members[place]
}

// The observation of the member at a place.
fn observation_at<G: GoodDays>(
    offset: ObservationOffset,
    days: &G,
    first: Day,
    members: &[Day],
    end: Day,
    place: usize,
) -> Option<Observation>
    requires place { place < length members.now }
    requires enough { lockout_days offset < length members.now }
    requires walk { IsWalk (G.days days.now) first members.now end }
    ensures some { IfSome result (IsObservation offset (G.days days.now) members.now end place) }
    ensures none { IfNone result (IsUnseen offset (G.days days.now) members.now) }
{
    let observed = observed_on(offset, days, first, members, end, place)?;
    let day = member_at(members, place);
    Some(Observation {
        day,
        weight: days_ahead(day, next_member(members, end, place)),
        observed,
    })
}

// The empty list with room for this number of observations.
fn with_room(alloc: Global, count: usize) -> Result<Vec<Observation>, Memory>
    ensures { IfOk result (λ v. v.items ≡ []) }
{
    Ok(Vec::with_capacity(alloc, count)?)
}

// One observation for each member.
fn observed<G: GoodDays>(
    alloc: Global,
    offset: ObservationOffset,
    days: &G,
    first: Day,
    members: &[Day],
    end: Day,
) -> Result<Vec<Observation>, Stopped<NoObservations>>
    requires enough { lockout_days offset < length members.now }
    requires walk { IsWalk (G.days days.now) first members.now end }
    ensures ok { IfOk result (λ v. AreObserved offset (G.days days.now) members.now end v.items) }
    ensures broken { IfBroken result (λ r. (r ≡ OfNoDay) × IsUnseen offset (G.days days.now) members.now) }
{
    let mut all = with_room(alloc, members.len())?;
    for place in 0..members.len() {
        let Some(o) = observation_at(offset, days, first, members, end, place) else {
            return Err(Stopped::Broken(NoObservations::NoDay));
        };
        all.push(o)?;
    }
    Ok(all)
}

// The number of last members without an observation day of their own.
fn lockout_days(offset: ObservationOffset) -> usize
    ensures { result ≡ lockout_days offset }
{
    match offset {
        ObservationOffset::Lockout(n) => usize::from(n),
        ObservationOffset::Absent | ObservationOffset::Shift(_) | ObservationOffset::Lookback(_) =>
            0,
    }
}

/// The observations of a calculation period from its adjusted start to its adjusted end, over the
/// business days of the applicable business centres (FpML `applicableBusinessDays`).
///
/// The observation period is the calculation period; under an observation shift both its ends are
/// moved back. Its members are its first day and each business day after it. A member's weight is the
/// number of days to the next member, or to the end. A member's observation day is the last business
/// day at or before it, moved back under a lookback. Under a lockout the last members take that of the
/// member before them.
///
/// `Broken` is why there are none, and `Memory` that memory ran out.
pub fn observations<G: GoodDays>(
    alloc: Global,
    offset: ObservationOffset,
    days: &G,
    start: Day,
    end: Day,
) -> Result<ObservationList, Stopped<NoObservations>>
    requires order { start <ℤ end }
    ensures meets { let p = observed_period offset (G.days days.now) start end in Meets (observations_of p) result }
    // The weights are the days of the observation period.
    ensures weights { let p = observed_period offset (G.days days.now) start end in IfOk result (AddsUp p) }
{
    let Some(period) = observation_period(offset, days, start, end) else {
        return Err(Stopped::Broken(NoObservations::NoDay));
    };
    // hands the prover the range of the days
    let _range = (period.from.number(), period.to.number());
    if leaves_cover(days, period.from, period.to) {
        return Err(Stopped::Broken(NoObservations::NoDay));
    }
    let members = members(alloc, days, period.from, period.to)?;
    if members.len() <= lockout_days(offset) {
        return Err(Stopped::Broken(NoObservations::FewMembers));
    }
    let Some(first) = days.prev_good(period.from) else {
        return Err(Stopped::Broken(NoObservations::NoDay));
    };
    match observed(alloc, offset, days, first, members.as_slice(), period.to) {
        Ok(all) => Ok(ObservationList { all }),
        Err(stopped) => Err(stopped),
    }
}

/// A law: a calculation period has one list of observations, or one reason why it has none.
pub fn observations_are_determined<G: GoodDays>(
    offset: ObservationOffset,
    days: &G,
    start: Day,
    end: Day,
)
    ensures { Determined (observations_of (observed_period offset (G.days days.now) start end)) }
{}
