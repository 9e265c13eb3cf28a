//! Whole steps: the number of steps in a distance, also before the anchor.
ghost use Rattle.std.specs.Prelude.{◌≡◌, ◌<◌, pos, neg_ℤ, ◌*ℤ◌, ◌↔◌, IfSome, IfNone, IsTrue};
ghost use Rattle.jiff_core.specs.Calendar.{IsBetween};
ghost use Rattle.irs_roll.specs.Rolls.{IsMultiple};

/// The number of steps in `apart`; `None` exactly where it is no whole multiple of the step.
pub fn whole_steps(apart: i64, step: u32) -> Option<i64>
    requires step { 0 < step }
    requires near { IsBetween (neg_ℤ (pos 1_099_511_627_776)) (pos 1_099_511_627_776) apart }
    ensures some { IfSome result (λ k. apart ≡ k *ℤ pos step) }
    ensures none { IfNone result (IsMultiple step apart → ⊥) }
{
    let step = i64::from(step);
    let steps = apart.div_euclid(step);
    if steps * step != apart {
        return None;
    }
    Some(steps)
}

/// Whether `apart` is a whole number of steps.
pub fn is_multiple(apart: i64, step: u32) -> bool
    requires step { 0 < step }
    requires near { IsBetween (neg_ℤ (pos 1_099_511_627_776)) (pos 1_099_511_627_776) apart }
    ensures { IsTrue result ↔ IsMultiple step apart }
{
    whole_steps(apart, step).is_some()
}
