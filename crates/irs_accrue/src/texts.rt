//! The line of what has accrued in a stream: its mark and its fields, one space before each field, and
//! a line feed.
//!
//! The format is ours. Amounts have the decimals of their currency; what isn't known is `-`.
ghost use Rattle.std.specs.Prelude.{◌≡◌, ◌+◌, ◌≤◌, ◌++◌, length};
ghost use Rattle.irs_accrue.specs.Accruals.{AccrualHasPlaces, accrual_fields, accrual_text};

use crate::Accrual;
use irs_base::Line;
use irs_schedule::{put_frac, put_optional};

// The fields after the stream's number.
fn put_fields(line: &mut Line, a: &Accrual)
    requires places { AccrualHasPlaces a.now }
    requires room { length line.old + 218 ≤ 512 }
    ensures text { line.new ≡ line.old ++ accrual_fields a.now }
    ensures grows { length line.new ≤ length line.old + 218 }
{
    match *a {
        Accrual::Outside => line.push(b" none"),
        Accrual::Inside {
            period,
            days,
            frac,
            amount,
        } => {
            line.put_number(period);
            line.put_signed(b' ', days);
            put_frac(line, frac);
            put_optional(line, amount);
        }
    }
}

/// Replaces what the line holds with the line of what has accrued in the stream with this number. It
/// is `a STREAM none`, or `a STREAM PERIOD DAYS NUM/DEN AMOUNT` with `-` where there is no amount.
/// It takes no memory.
#[tactic(auto, unfolding(crate::specs::Accruals::accrual_text))]
pub fn accrued_text(stream: u8, a: &Accrual, line: &mut Line)
    requires { AccrualHasPlaces a.now }
    ensures { line.new ≡ accrual_text stream a.now }
{
    line.clear();
    line.push(b"a");
    line.put_number(u32::from(stream));
    put_fields(line, a);
    line.push(b"\n");
}
