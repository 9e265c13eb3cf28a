//! The six business day conventions.
//!
//! FOLLOWING, MODFOLLOWING and PRECEDING are those of the 2006 ISDA Definitions, section 4.12.
//! MODPRECEDING, NEAREST and NONE are our rules. MODPRECEDING is the mirror of MODFOLLOWING,
//! NEAREST depends on the day of the week, and NONE leaves the day as it is.
ghost use Rattle.std.specs.Prelude.{◌≡◌, refl};
ghost use Rattle.irs_calendar.specs.GoodDays.{Next, Prev};
ghost use Rattle.irs_adjust.specs.MovedDays.{ModFollows, ModPrecedes, GoesNearest};
ghost use Rattle.irs_adjust.specs.Private.ConventionLaws.{one_next, next_stays, one_prev, prev_stays, one_modfollows};
ghost use Rattle.irs_adjust.specs.Private.ConventionLaws.{modfollows_stays, one_modprecedes, modprecedes_stays};
ghost use Rattle.irs_adjust.specs.Private.ConventionLaws.{one_nearest, nearest_stays, one_same};

use crate::Convention;
use crate::months::in_same_month;
use irs_base::{Day, DayName, weekday};
use irs_calendar::GoodDays;

/// FOLLOWING: the first business day at or after the day.
#[derive(Clone, Copy)]
pub struct Following;

/// MODFOLLOWING: the FOLLOWING day, which must exist; if it lies in another calendar month than
/// the day, the PRECEDING day.
#[derive(Clone, Copy)]
pub struct ModFollowing;

/// PRECEDING: the last business day at or before the day.
#[derive(Clone, Copy)]
pub struct Preceding;

/// MODPRECEDING: the PRECEDING day, which must exist; if it lies in another calendar month than
/// the day, the FOLLOWING day.
#[derive(Clone, Copy)]
pub struct ModPreceding;

/// NEAREST: a business day of the cover stays. A Sunday or a Monday that isn't one goes to the
/// FOLLOWING day, any other such day to the PRECEDING day. How far these are doesn't count.
#[derive(Clone, Copy)]
pub struct Nearest;

/// NONE: the day itself, with no need of a cover.
#[derive(Clone, Copy)]
pub struct Unadjusted;

impl Convention for Following {
    ghost adjusts = { λ _ s d r. Next s d r };

    fn adjust<G: GoodDays>(&self, g: &G, d: Day) -> Option<Day> {
        g.next_good(d)
    }

    ghost at_most_one = { λ _ s d r t a b. one_next s d r t a b };

    ghost good_stays = { λ _ s d _ good. next_stays s d good };
}

impl Convention for ModFollowing {
    ghost adjusts = { λ _ s d r. ModFollows s d r };

    fn adjust<G: GoodDays>(&self, g: &G, d: Day) -> Option<Day> {
        let following = g.next_good(d)?;
        if in_same_month(d, following) {
            Some(following)
        } else {
            g.prev_good(d)
        }
    }

    ghost at_most_one = { λ _ s d r t a b. one_modfollows s d r t a b };

    ghost good_stays = { λ _ s d day good. modfollows_stays s d day good };
}

impl Convention for Preceding {
    ghost adjusts = { λ _ s d r. Prev s d r };

    fn adjust<G: GoodDays>(&self, g: &G, d: Day) -> Option<Day> {
        g.prev_good(d)
    }

    ghost at_most_one = { λ _ s d r t a b. one_prev s d r t a b };

    ghost good_stays = { λ _ s d _ good. prev_stays s d good };
}

impl Convention for ModPreceding {
    ghost adjusts = { λ _ s d r. ModPrecedes s d r };

    fn adjust<G: GoodDays>(&self, g: &G, d: Day) -> Option<Day> {
        let preceding = g.prev_good(d)?;
        if in_same_month(d, preceding) {
            Some(preceding)
        } else {
            g.next_good(d)
        }
    }

    ghost at_most_one = { λ _ s d r t a b. one_modprecedes s d r t a b };

    ghost good_stays = { λ _ s d day good. modprecedes_stays s d day good };
}

impl Convention for Nearest {
    ghost adjusts = { λ _ s d r. GoesNearest s d r };

    fn adjust<G: GoodDays>(&self, g: &G, d: Day) -> Option<Day> {
        let (first, last) = g.cover();
        if d < first || last < d {
            return None;
        }
        if g.is_good(d) {
            return Some(d);
        }
        match weekday(d) {
            DayName::Sun | DayName::Mon => g.next_good(d),
            DayName::Tue | DayName::Wed | DayName::Thu | DayName::Fri | DayName::Sat => {
                g.prev_good(d)
            }
        }
    }

    ghost at_most_one = { λ _ s d r t a b. one_nearest s d r t a b };

    ghost good_stays = { λ _ s d _ good. nearest_stays s d good };
}

impl Convention for Unadjusted {
    ghost adjusts = { λ _ _ d r. r ≡ d };

    fn adjust<G: GoodDays>(&self, _g: &G, d: Day) -> Option<Day> {
        Some(d)
    }

    ghost at_most_one = { λ _ _ d r t a b. one_same d r t a b };

    ghost good_stays = { λ _ _ d _ _. refl };
}
