//! What holds of the first payment without an amount.
ghost use Rattle.std.specs.Prelude.{◌≡◌};
ghost use Rattle.irs_unfixed.specs.Unfixed.{Fixing, IsFirstLacking, made_from};
ghost use Rattle.irs_unfixed.specs.declared.places.PaymentPlace.{PaymentPlace};

use irs_calendar::Calendars;
use irs_resets::Fixings;
use irs_schedule::Schedule;
use irs_terms::Swap;

/// A law: a schedule has at most one first payment without an amount, and it lacks one fixing.
pub fn first_missing_is_determined(
    swap: &Swap,
    calendars: &Calendars,
    fixings: &Fixings,
    schedule: &Schedule,
)
    ensures { let x = made_from swap.now calendars.now fixings.now in
        (u v : PaymentPlace) (f g : Fixing) → IsFirstLacking x schedule.now u f → IsFirstLacking x schedule.now v g
        → (u ≡ v) × (f ≡ g) }
{}
