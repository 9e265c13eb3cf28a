//! The lines of the tables of elements: a line for each row, in their order, with the path, the kind
//! and the count.
use crate::told::Told;
use irs_elements::{Choice, Count, Kind, Leaf, Row};
use irs_flows::{FLOW_NAMES, FLOW_ROWS, PERIOD_NAMES, PERIOD_ROWS};
use irs_read::{NAMES, ROWS, SWAP_NAMES, SWAP_ROWS};

/// The most rows above another one, below the first.
const MOST_ABOVE: usize = 7;

/// A table: its rows, and the name of each.
#[derive(Clone, Copy)]
struct Table<'a> {
    rows: &'a [Row],
    names: &'a [&'static str],
}

fn leaf_text(leaf: Leaf) -> &'static str {
    match leaf {
        Leaf::Date => "D",
        Leaf::Multiplier => "I multiplier",
        Leaf::OffsetDays => "I offset",
        Leaf::ObservationDays => "I observation days",
        Leaf::Precision => "I precision",
        Leaf::Whole => "I",
        Leaf::Notional => "N",
        Leaf::Rate => "X",
        Leaf::Amount => "A",
        Leaf::Fraction => "F",
        Leaf::Truth => "B",
        Leaf::CenterName => "T centre",
        Leaf::IndexName => "T index",
        Leaf::CurrencyName => "T currency",
        Leaf::Convention => "C convention",
        Leaf::PeriodUnit => "C period",
        Leaf::TenorUnit => "C tenor period",
        Leaf::OffsetUnit => "C offset period",
        Leaf::DayType => "C day type",
        Leaf::StubType => "C stub type",
        Leaf::Roll => "C roll",
        Leaf::PayRelative => "C payment relative",
        Leaf::ResetRelative => "C reset relative",
        Leaf::DayCount => "C day count",
        Leaf::Compounding => "C compounding",
        Leaf::CalculationMethod => "C calculation method",
        Leaf::Treatment => "C treatment",
        Leaf::Direction => "C direction",
    }
}

impl Table<'_> {
    // The row that is a number of levels above another one; above the first, 0, is the first.
    fn above(self, place: usize, levels: usize) -> usize {
        let mut above = place;
        for _ in 0..levels {
            above = match self.rows.get(above) {
                Some(row) => row.parent,
                None => 0,
            };
        }
        above
    }

    fn tell_name(self, told: &mut Told, place: usize) {
        match self.names.get(place) {
            Some(name) => told.text(name),
            None => told.text("no name"),
        }
    }

    // The names on the way from the first row to this one, `/` between them.
    fn tell_path(self, told: &mut Told, place: usize) {
        for levels in (1..=MOST_ABOVE).rev() {
            let above = self.above(place, levels);
            if above > 0 {
                self.tell_name(told, above);
                told.text("/");
            }
        }
        self.tell_name(told, place);
    }

    // The names of the rows of a choice.
    fn tell_choice(self, told: &mut Told, text: &str, one: usize, other: usize) {
        told.text(text);
        self.tell_name(told, one);
        told.text(" ");
        self.tell_name(told, other);
    }

    fn tell_object(self, told: &mut Told, choice: Choice) {
        match choice {
            Choice::Free => told.text("O"),
            Choice::Reference => told.text("R"),
            Choice::AtMostOne(one, other) => {
                self.tell_choice(told, "O, at most one of ", one, other);
            }
            Choice::AtMostOneOfThree(one, other, third) => {
                self.tell_choice(told, "O, at most one of ", one, other);
                told.text(" ");
                self.tell_name(told, third);
            }
            Choice::ExactlyOne(one, other) => {
                self.tell_choice(told, "O, exactly one of ", one, other);
            }
        }
    }

    fn tell_kind(self, told: &mut Told, kind: Kind) {
        match kind {
            Kind::Object(choice) => self.tell_object(told, choice),
            Kind::Leaf(leaf) => told.text(leaf_text(leaf)),
            Kind::Passed => told.text("passed over"),
            Kind::Refused => told.text("out of profile"),
        }
    }

    // A line for a row.
    fn tell_row(self, told: &mut Told, place: usize, row: &Row) {
        self.tell_path(told, place);
        told.text(" | ");
        self.tell_kind(told, row.kind);
        told.text(" | ");
        tell_count(told, row.count);
        told.end_line();
    }
}

fn tell_count(told: &mut Told, count: Count) {
    match count {
        Count::One => told.text("1"),
        Count::Maybe => told.text("0..1"),
        Count::OneTo(most) => {
            told.text("1..");
            told.number(most);
        }
        Count::UpTo(most) => {
            told.text("0..");
            told.number(most);
        }
    }
}

// The name of a table, then a line for each row below the first, which is the object itself.
fn tell_table(told: &mut Told, name: &str, rows: &[Row], names: &[&'static str]) {
    told.text(name);
    told.end_line();
    let table = Table { rows, names };
    for (place, row) in rows.iter().enumerate().skip(1) {
        table.tell_row(told, place, row);
    }
}

/// Reports the table of a swap, that of a stream, that of cash flows and that of their calculation
/// periods.
pub fn tell_tables(told: &mut Told) {
    tell_table(told, "# the elements of a swap", &SWAP_ROWS, &SWAP_NAMES);
    tell_table(told, "# the elements of a stream", &ROWS, &NAMES);
    tell_table(
        told,
        "# the elements of cash flows",
        &FLOW_ROWS,
        &FLOW_NAMES,
    );
    tell_table(
        told,
        "# the elements of a calculation period of cash flows",
        &PERIOD_ROWS,
        &PERIOD_NAMES,
    );
}
