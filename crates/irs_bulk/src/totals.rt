//! What a run of `bulk` prints of its schedules.
ghost use Rattle.std.specs.Prelude.{◌≡◌, ◌+◌, ◌*◌, ◌<◌, ◌≤◌, ◌++◌, ◌∷◌, length, unsigned_abs, decimal, pos, ◌+ℤ◌, ◌^◌};
ghost use Rattle.irs_base.specs.Limits.{rounded};
ghost use Rattle.irs_base.specs.Texts.{dec_text};
ghost use Rattle.irs_base.specs.declared.rounding.Direction.TheVariants.{Nearest};
ghost use Rattle.irs_bulk.specs.BulkRuns.{AreRunTotals, both_totals, line_text, most_sum, no_totals};
ghost use Rattle.irs_bulk.specs.Documents.{most_bulk};

use irs_base::{Dec, Direction, Line, round};

/// Sums over the schedules of a run.
#[derive(Clone, Copy)]
pub struct Totals {
    /// The number of documents.
    pub documents: u32,
    /// Payments and calculation periods.
    pub rows: u64,
    /// The amounts of the payments, in units of 10^-12.
    pub total: i128,
    /// The days of the calculation periods.
    pub days: i128,
    /// How many schedules agree with the flows that state their plain schedule.
    pub agree: u32,
    /// The sum of the numbers of the first rows that depart in the others.
    pub first: u64,
}

fn sum(a: i128, b: i128) -> i128
    requires { unsigned_abs a + unsigned_abs b < 2 ^ 127 }
    ensures { result ≡ a +ℤ b }
{
    a + b
}

impl Totals {
    /// The sums of no documents.
    pub fn none() -> Totals
        ensures value { result ≡ no_totals }
        ensures run { AreRunTotals result }
    {
        Totals {
            documents: 0,
            rows: 0,
            total: 0,
            days: 0,
            agree: 0,
            first: 0,
        }
    }

    /// The sums of these documents and of more, up to 500 in all.
    pub fn with(self, more: Totals) -> Totals
        requires run { AreRunTotals self }
        requires more { AreRunTotals more }
        requires few { self.documents + more.documents ≤ most_bulk }
        ensures value { result ≡ both_totals self more }
        ensures run { AreRunTotals result }
    {
        Totals {
            documents: self.documents + more.documents,
            rows: self.rows + more.rows,
            total: sum(self.total, more.total),
            days: sum(self.days, more.days),
            agree: self.agree + more.agree,
            first: self.first + more.first,
        }
    }
}

// Appends a space and a count.
fn put_count(line: &mut Line, n: u64)
    requires { length line.old + 41 ≤ 512 }
    ensures text { line.new ≡ line.old ++ 32 ∷ decimal n }
    ensures grows { length line.new ≤ length line.old + 41 }
{
    line.put_whole(b' ', i128::from(n));
}

// Appends a space and an amount in units of 10^-12, rounded to two decimals.
fn put_total(line: &mut Line, total: i128)
    requires size { unsigned_abs total ≤ most_bulk * most_sum }
    requires room { length line.old + 54 ≤ 512 }
    ensures text { line.new ≡ line.old ++ 32 ∷ dec_text (rounded Nearest total (pos (10 ^ 10))) 2 }
    ensures grows { length line.new ≤ length line.old + 54 }
{
    let units = round(Direction::Nearest, total, 10_000_000_000);
    line.put_dec(Dec { units, places: 2 });
}

/// Replaces what the line holds by the line of a run, `bulk N ROWS TOTAL DAYS AGREE FIRST`, with
/// its line feed. TOTAL has two decimals, to which the sum is rounded.
#[tactic(auto, unfolding(crate::specs::BulkRuns::line_text))]
pub fn bulk_text(totals: &Totals, line: &mut Line)
    requires { AreRunTotals totals.now }
    ensures { line.new ≡ line_text totals.now }
{
    line.clear();
    line.push(b"bulk");
    line.put_number(totals.documents);
    put_count(line, totals.rows);
    put_total(line, totals.total);
    line.put_whole(b' ', totals.days);
    line.put_number(totals.agree);
    put_count(line, totals.first);
    line.push(b"\n");
}
