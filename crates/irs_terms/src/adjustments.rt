//! Dates with their adjustments, and offsets in days.
use crate::{ConvCode, DayKind};
use irs_base::{Day, Names};

/// A number of days, from -60 to 60, by which a date is moved (FpML `Offset`).
#[derive(Clone, Copy)]
pub struct Offset {
    /// How many days on, or back where it is negative (FpML `periodMultiplier`).
    pub days: i16,
    /// Which days are counted (FpML `dayType`).
    pub kind: DayKind,
}

/// The business centres of adjustments (FpML `businessCenters`, `businessCentersReference`).
#[derive(Drop)]
pub enum Centers {
    /// There are none.
    Absent,
    /// The list in the element itself, or the one list that it names.
    Listed(Names),
    /// The reference names no list, or more than one.
    Dangling,
}

/// How days that aren't good are moved, and by whose calendars (FpML `BusinessDayAdjustments`).
#[derive(Drop)]
pub struct Adjustments {
    /// How a day that isn't good is moved (FpML `businessDayConvention`).
    pub code: ConvCode,
    /// The centres whose calendars give the business days (FpML `businessCenters`).
    pub centers: Centers,
}

/// An unadjusted date with its adjustments (FpML `AdjustableDate`).
#[derive(Drop)]
pub struct AdjustableDate {
    /// The date before adjustment (FpML `unadjustedDate`).
    pub day: Day,
    /// How it is adjusted (FpML `dateAdjustments`).
    pub adj: Adjustments,
}
