//! What a leaf has to be, in words: one of its codes, or its grammar and its range. That it is said is our rule.
ghost use Rattle.irs_elements.specs.Codes.{day_roll_at};
ghost use Rattle.irs_elements.specs.Leaves.{has_value};
ghost use Rattle.irs_elements.specs.declared.table.Leaf.TheVariants.{Roll};
ghost use Rattle.irs_elements.specs.declared.table.Leaf.{Leaf as LeafKind};
ghost use Rattle.irs_main.specs.Elements.{leaf_codes, rolls, value_words as value_words_of};
ghost use Rattle.std.specs.List.{list_any};
ghost use Rattle.std.specs.Prelude.{◌≡◌, ◌||◌, ℕ, List, Some, is_some};
ghost use Rattle.std.specs.Str.{bytes_eq};

use irs_answers::Leaf;

/// What a leaf of this kind has to be.
pub(crate) fn value_words<'a>(kind: Leaf) -> &'a [u8]
    ensures { result.now ≡ value_words_of kind }
{
    match kind {
        Leaf::Date => b"a date YYYY-MM-DD from 1901-01-01 to 2299-12-31",
        Leaf::Multiplier => b"a whole number from 1 to 999",
        Leaf::OffsetDays => b"a whole number from -60 to 60",
        Leaf::ObservationDays => b"a whole number from 1 to 30",
        Leaf::Precision => b"a whole number from 0 to 9",
        Leaf::Whole => b"a whole number of at most 9 digits",
        Leaf::Notional => b"a number from 0 to 10000000000000, with at most 4 decimals",
        Leaf::Rate => b"a number from -10 to 10, with at most 9 decimals",
        Leaf::Amount => b"a number with at most 12 decimals",
        Leaf::Fraction => b"a number without a sign",
        Leaf::Truth => b"one of true, 1, false, 0",
        Leaf::CenterName => b"1 to 32 bytes from ! to ~",
        Leaf::IndexName => b"1 to 128 bytes without a control",
        Leaf::CurrencyName => b"three capital letters",
        Leaf::Convention =>
            b"one of FOLLOWING, MODFOLLOWING, PRECEDING, MODPRECEDING, NEAREST, NONE",
        Leaf::PeriodUnit => b"one of D, W, M, Y, T",
        Leaf::TenorUnit => b"one of D, W, M, Y",
        Leaf::OffsetUnit => b"D",
        Leaf::DayType => b"one of Business, Calendar",
        Leaf::StubType => b"one of ShortInitial, LongInitial, ShortFinal, LongFinal",
        Leaf::Roll =>
            b"one of EOM, IMM, NONE, MON, TUE, WED, THU, FRI, SAT, SUN, or a day from 1 to 30",
        Leaf::PayRelative => b"one of CalculationPeriodStartDate, CalculationPeriodEndDate",
        Leaf::ResetRelative => b"one of CalculationPeriodStartDate, CalculationPeriodEndDate",
        Leaf::DayCount =>
            b"one of 1/1, ACT/ACT.ISDA, ACT/365.FIXED, ACT/360, 30/360, 30E/360, 30E/360.ISDA",
        Leaf::Compounding => b"one of None, Straight, Flat, SpreadExclusive",
        Leaf::CalculationMethod => b"one of Compounding, Averaging",
        Leaf::Treatment => b"one of NegativeInterestRateMethod, ZeroInterestRateMethod",
        Leaf::Direction => b"one of Up, Down, Nearest",
    }
}

/// A law: a leaf of codes has a value exactly where its text is one of those that the sentence on K6 lists. So has a
/// roll, but for the days of the month.
pub fn codes_are_listed()
    ensures codes { (kind : LeafKind) (names : List (List ℕ)) → leaf_codes kind ≡ Some names → (text : List ℕ)
        → has_value kind text ≡ list_any (bytes_eq text) names }
    ensures rolls { (text : List ℕ)
        → has_value Roll text ≡ (list_any (bytes_eq text) rolls || is_some (day_roll_at text)) }
{}
