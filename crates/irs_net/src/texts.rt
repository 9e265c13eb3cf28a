//! The line of a row of the net: `n DATE CURRENCY AMOUNT UNKNOWN` and a line feed. The format is ours.
ghost use Rattle.std.specs.Prelude.{◌≡◌};
ghost use Rattle.irs_net.specs.Nets.{NetRowHasPlaces, net_text};

use crate::NetRow;
use irs_base::Line;

/// Replaces what the line holds with the line of a row: `n DATE CURRENCY AMOUNT UNKNOWN`. It takes no
/// memory.
#[tactic(auto, unfolding(crate::specs::Nets::net_text))]
pub fn net_text(row: &NetRow, line: &mut Line)
    requires { NetRowHasPlaces row.now }
    ensures { line.new ≡ net_text row.now }
{
    line.clear();
    line.push(b"n");
    line.put_day(row.date);
    line.put_field(&row.currency.letters);
    line.put_dec(row.amount);
    line.put_number(row.unknown);
    line.push(b"\n");
}
