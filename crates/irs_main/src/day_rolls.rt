//! A law: which rolls by the day of the month there are.
ghost use Rattle.std.specs.Prelude.{◌≡◌, ℕ, List, Some};
ghost use Rattle.irs_terms.specs.declared.codes.RollCode.{RollCode};
ghost use Rattle.irs_elements.specs.Codes.{day_roll_at};
ghost use Rattle.irs_main.specs.Elements.{IsDayRoll};

/// A law: a text that names a roll by the day of the month is a number from 1 to 30, in digits with no zero
/// in front, and no other text is one. The sentence on K6 calls it a day from 1 to 30. The function does
/// nothing; its contract is the law.
pub fn day_rolls_are_numbers()
    ensures read { (text : List ℕ) (roll : RollCode) → day_roll_at text ≡ Some roll → IsDayRoll text roll }
    ensures back { (text : List ℕ) (roll : RollCode) → IsDayRoll text roll → day_roll_at text ≡ Some roll }
{}
