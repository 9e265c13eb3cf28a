//! Codes of FpML, a variant for each value in the profile.
use irs_base::DayName;

/// The day on which periods roll (FpML `rollConvention`).
#[derive(Clone, Copy, Debug, PartialEq, Eq)]
pub enum RollCode {
    /// `EOM`: the last day of the month.
    Eom,
    /// `1` to `30`: that day of the month, or its last day where it is shorter.
    Dom(u8),
    /// `IMM`: the third Wednesday of the month.
    Imm,
    /// `MON` to `SUN`: that day of the week.
    OnWeekday(DayName),
    /// `NONE`.
    NoRoll,
}

/// How a day that isn't good is moved (FpML `businessDayConvention`; 2006 ISDA Definitions, 4.12).
#[derive(Clone, Copy, Debug, PartialEq, Eq)]
pub enum ConvCode {
    /// `FOLLOWING`.
    Following,
    /// `MODFOLLOWING`.
    ModFollowing,
    /// `PRECEDING`.
    Preceding,
    /// `MODPRECEDING`, by our rule.
    ModPreceding,
    /// `NEAREST`, by our rule.
    Nearest,
    /// `NONE`.
    Unadjusted,
}

/// A day count fraction (FpML `dayCountFraction`; 2006 ISDA Definitions, 4.16).
#[derive(Clone, Copy, Debug, PartialEq, Eq)]
pub enum DayCountCode {
    /// `1/1`.
    OneOne,
    /// `ACT/ACT.ISDA`.
    ActActIsda,
    /// `ACT/365.FIXED`.
    Act365Fixed,
    /// `ACT/360`.
    Act360,
    /// `30/360`.
    Thirty360,
    /// `30E/360`.
    ThirtyE360,
    /// `30E/360.ISDA`.
    ThirtyE360Isda,
}

/// How earlier amounts of a payment bear interest (FpML `compoundingMethod`).
#[derive(Clone, Copy, Debug, PartialEq, Eq)]
pub enum CompCode {
    /// `None`: they bear none.
    Simple,
    /// `Straight`: at the rate of the period.
    Straight,
    /// `Flat`: at the base rate of the period, without the spread.
    Flat,
    /// `SpreadExclusive`: at the base rate of the period; the spread is paid on the notional alone.
    /// That is our rule.
    SpreadExclusive,
}

/// What becomes of a rate below 0 (FpML `negativeInterestRateTreatment`).
#[derive(Clone, Copy, Debug, PartialEq, Eq)]
pub enum Treatment {
    /// `NegativeInterestRateMethod`: it stays.
    AsIs,
    /// `ZeroInterestRateMethod`: the rate is 0.
    ZeroFloor,
}

/// Where an irregular period is, and whether it is shorter or longer than a regular one (FpML
/// `stubPeriodType`).
#[derive(Clone, Copy, Debug, PartialEq, Eq)]
pub enum StubKind {
    /// `ShortInitial`: the first period, shorter than a regular one.
    ShortInitial,
    /// `LongInitial`: the first period, longer than a regular one.
    LongInitial,
    /// `ShortFinal`: the last period, shorter than a regular one.
    ShortFinal,
    /// `LongFinal`: the last period, longer than a regular one.
    LongFinal,
}

/// The end of a calculation period that a date is reckoned from (FpML `payRelativeTo`, `resetRelativeTo`).
#[derive(Clone, Copy, Debug, PartialEq, Eq)]
pub enum Relative {
    /// `CalculationPeriodStartDate`.
    Start,
    /// `CalculationPeriodEndDate`.
    End,
}

/// The days that an offset counts (FpML `dayType`).
#[derive(Clone, Copy, Debug, PartialEq, Eq)]
pub enum DayKind {
    /// Good business days.
    Business,
    /// All days.
    Calendar,
    /// No `dayType` is given.
    Unsaid,
}

/// What becomes of a reference by `@href`.
#[derive(Clone, Copy, Debug, PartialEq, Eq)]
pub enum RefState {
    /// There is no reference.
    Absent,
    /// It names its target.
    Good,
    /// It doesn't.
    Dangling,
}
