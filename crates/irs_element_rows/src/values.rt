//! How the values of swaps and cash flows are reported.
use crate::told::Told;
use irs_base::{Day, Dec};
use irs_flows::StatedFraction;
use irs_terms::{
    AdjustableDate, Adjustments, Broken, CalculationParameters, Centers, Currency, Frequency,
    Offset, Place, StepValues, StubRate,
};

/// A value that can be reported.
pub trait Tell {
    /// Reports the value, as a part of a line.
    fn tell(&self, told: &mut Told);
}

/// A value that may be absent.
impl<T: Tell> Tell for Option<T> {
    fn tell(&self, told: &mut Told) {
        match self {
            Some(value) => value.tell(told),
            None => told.text("absent"),
        }
    }
}

impl Tell for Day {
    fn tell(&self, told: &mut Told) {
        told.day(*self);
    }
}

/// The number of the stream, the element and the index.
impl Tell for Place {
    fn tell(&self, told: &mut Told) {
        told.number(self.stream);
        told.text(" ");
        told.text(self.elem.path());
        told.text(" ");
        told.number(self.index);
    }
}

/// The name of the rule, then the place.
impl Tell for Broken {
    fn tell(&self, told: &mut Told) {
        told.debug(&self.rule);
        told.text(" ");
        self.place.tell(told);
    }
}

/// The multiplier and the unit.
impl Tell for Frequency {
    fn tell(&self, told: &mut Told) {
        told.number(self.count);
        told.text(" ");
        told.debug(&self.unit);
    }
}

/// The days and the kind of days.
impl Tell for Offset {
    fn tell(&self, told: &mut Told) {
        told.number(self.days);
        told.text(" ");
        told.debug(&self.kind);
    }
}

/// The names of the centres, a space before each, or ` absent` or ` dangling`.
impl Tell for Centers {
    fn tell(&self, told: &mut Told) {
        match self {
            Centers::Absent => told.text(" absent"),
            Centers::Dangling => told.text(" dangling"),
            Centers::Listed(names) => for name in names.as_slice() {
                told.text(" ");
                told.bytes(name.as_slice());
            },
        }
    }
}

/// The convention, then the centres.
impl Tell for Adjustments {
    fn tell(&self, told: &mut Told) {
        told.debug(&self.code);
        self.centers.tell(told);
    }
}

/// The day, then its adjustments.
impl Tell for AdjustableDate {
    fn tell(&self, told: &mut Told) {
        told.day(self.day);
        told.text(" ");
        self.adj.tell(told);
    }
}

/// The first value, then the value and the day of each step.
impl Tell for StepValues {
    fn tell(&self, told: &mut Told) {
        told.number(self.initial);
        for step in self.steps.as_slice() {
            told.text(", ");
            told.number(step.value);
            told.text(" from ");
            told.day(step.day);
        }
    }
}

/// A stub's index with its tenor, or its rate.
impl Tell for StubRate {
    fn tell(&self, told: &mut Told) {
        match self {
            StubRate::Fixed(rate) => {
                told.text("rate ");
                told.number(*rate);
            }
            StubRate::Index(index, tenor) => {
                told.text("index ");
                told.bytes(index.as_slice());
                told.text(", tenor ");
                tenor.tell(told);
            }
        }
    }
}

/// The method and the offset, then the names of the centres.
impl Tell for CalculationParameters {
    fn tell(&self, told: &mut Told) {
        told.debug(&self.method);
        told.text(" ");
        told.debug(&self.offset);
        for name in self.centers.as_slice() {
            told.text(" ");
            told.bytes(name.as_slice());
        }
    }
}

impl Tell for Currency {
    fn tell(&self, told: &mut Told) {
        told.bytes(&self.letters);
    }
}

// The units of a decimal, and the number of its decimals.
fn tell_decimal(told: &mut Told, units: i128, places: u8) {
    told.number(units);
    told.text(" of ");
    told.number(places);
    told.text(" decimals");
}

impl Tell for Dec {
    fn tell(&self, told: &mut Told) {
        tell_decimal(told, self.units, self.places);
    }
}

impl Tell for StatedFraction {
    fn tell(&self, told: &mut Told) {
        tell_decimal(told, self.units, self.places);
    }
}
