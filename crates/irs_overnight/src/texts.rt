//! The lines of a fixing file that derived rates print: DATE RATE TENOR INDEX, or a comment for a
//! rate that is missing. The format is ours.
ghost use Rattle.std.specs.Prelude.{◌≡◌, ◌+◌, ◌<◌, ◌≤◌, [], ◌∷◌, ◌++◌, length};
ghost use Rattle.std.specs.Fmt.{decimal};
ghost use Rattle.irs_base.specs.Limits.{most_index};
ghost use Rattle.irs_base.specs.Texts.{day_text, dec_text};
ghost use Rattle.irs_overnight.specs.Texts.{IsLawfulLine, ReadsAsRow, derived_text_of, derived_row_fields};
ghost use Rattle.irs_resets.specs.FixingFiles.{tenor_text, unit_text};

use crate::derived::{Derived, DerivedRow, Found};
use irs_base::{Day, Dec, Line, Text};
use irs_terms::{Frequency, Unit};

fn unit_text(unit: Unit) -> &'static str
    ensures text { result.now ≡ unit_text unit }
    ensures short { length result.now ≡ 1 }
{
    match unit {
        Unit::D => "D",
        Unit::W => "W",
        Unit::M => "M",
        Unit::Y => "Y",
        Unit::T => "T",
    }
}

// Each of these appends a text to the line.
fn put_frequency(line: &mut Line, f: Frequency)
    requires { length line.old + 41 ≤ 512 }
    ensures text { line.new ≡ line.old ++ (decimal f.count ++ unit_text f.unit) }
    ensures grows { length line.new ≤ length line.old + 41 }
{
    line.push_number(u32::from(f.count));
    line.push(unit_text(f.unit).as_bytes());
}

fn put_tenor(line: &mut Line, tenor: Option<Frequency>)
    requires { length line.old + 41 ≤ 512 }
    ensures text { line.new ≡ line.old ++ tenor_text tenor }
    ensures grows { length line.new ≤ length line.old + 41 }
{
    match tenor {
        Some(f) => put_frequency(line, f),
        None => line.push(b"-"),
    }
}

// DATE RATE TENOR INDEX
#[tactic(auto, using(irs_base::proofs::TextLemmas::appended))]
fn put_fixing(line: &mut Line, d: Day, rate: i64, tenor: Option<Frequency>, index: &Text)
    requires empty { line.old ≡ [] }
    requires index { length index.now ≤ most_index }
    ensures text { line.new ≡ day_text d ++ 32 ∷ dec_text rate 9 ++ 32 ∷ tenor_text tenor ++ 32 ∷ index.now }
    ensures fits { length line.new < 512 }
{
    line.push_day(d);
    line.put_dec(Dec {
        units: i128::from(rate),
        places: 9,
    });
    line.push(b" ");
    put_tenor(line, tenor);
    line.put_field(index.as_slice());
}

// # missing PERIOD DATE
fn put_missing(line: &mut Line, period: u32, d: Day)
    requires empty { line.old ≡ [] }
    ensures text { line.new ≡ codes "# missing" ++ 32 ∷ decimal period ++ 32 ∷ day_text d }
    ensures fits { length line.new < 512 }
{
    line.push(b"# missing");
    line.put_number(period);
    line.put_day(d);
}

fn put_fields(row: &DerivedRow, tenor: Option<Frequency>, index: &Text, line: &mut Line)
    requires empty { line.old ≡ [] }
    requires index { length index.now ≤ most_index }
    ensures text { line.new ≡ derived_row_fields row.now row.now.found tenor index.now }
    ensures fits { length line.new < 512 }
{
    match row.found {
        Found::Rate(rate) => put_fixing(line, row.fixing, rate, tenor, index),
        Found::Missing(day) => put_missing(line, row.period, day),
    }
}

/// Replaces what the line holds with the line of a fixing file that a derived rate prints, with its
/// line feed. It is `DATE RATE TENOR INDEX` or `# missing PERIOD DATE`. The rate has 9 decimals,
/// and the tenor is `-` where there is none. No memory is taken.
#[tactic(auto, unfolding(crate::specs::Texts::derived_text_of))]
pub fn derived_text(row: &DerivedRow, tenor: Option<Frequency>, index: &Text, line: &mut Line)
    requires { length index.now ≤ most_index }
    ensures text { line.new ≡ derived_text_of row.now tenor index.now }
    // For an index and a tenor as terms have them the line of a rate spells it. The line of a
    // missing rate is passed over.
    ensures reads { IsLawfulLine index.now tenor → ReadsAsRow row.now row.now.found tenor index.now }
{
    // hands the prover the range of the fixing date
    let _number = row.fixing.number();
    line.clear();
    put_fields(row, tenor, index, line);
    line.push(b"\n");
}

ghost use Rattle.std.specs.Prelude.{codes};

/// A law, for an index and a tenor as terms have them. Rows with days and rates in range whose
/// fixing dates rise print a fixing file, after the line `# irs-fixings 1`. Its lines give exactly
/// the rates of the rows. `Fixings::read` takes them, and none for a row whose rate is missing. The
/// call does nothing: its contract is the fact.
pub fn rates_read_back(rows: &Derived, tenor: Option<Frequency>, index: &Text)
    requires lawful { IsLawfulLine index.now tenor }
    requires kept { AreKept rows.now }
    ensures { AreFixings rows.now tenor index.now }
{
    let _ = (rows.len(), tenor, index.len());
}

ghost use Rattle.irs_overnight.specs.Texts.{AreFixings, AreKept};
