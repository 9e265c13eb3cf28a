//! The text of `net`: what falls due between the two parties, a line for each date and currency. No
//! standard has such a text, so its format is our rule.
ghost use Rattle.std.specs.Prelude.{◌≡◌, Some, length, IfOk};
ghost use Rattle.irs_base.specs.Lists.{Every};
ghost use Rattle.irs_net.specs.Nets.{NetRowHasPlaces};
ghost use Rattle.irs_answers.specs.Tasks.{TellsNet, TellsNetOf, net_page};
ghost use Rattle.irs_answers.specs.Private.Outcomes.{IsSided, MeetsReply, IsCarriedOut, NoneUnread};
ghost use Rattle.irs_answers.specs.Due.{told_by};

use crate::due::Found;
use crate::refusals::Refusal;
use crate::replies::Reply;
use irs_base::{Line, Memory};
use irs_net::{NetRow, Sides, net, net_text};
use irs_schedule::Schedule;
use std::alloc::Global;

/// The net of a schedule, by the sides that were read.
pub(crate) fn net_answer(alloc: Global, found: &Found<'_>) -> Result<Reply, Refusal>
    requires { IsSided found.now.sides found.now.schedule }
    ensures meets { MeetsReply (told_by (TellsNet found.now.sides found.now.schedule)) result }
    ensures carried { IfOk result IsCarriedOut }
    ensures placed { NoneUnread result }
{
    let Some(sides) = found.sides else {
        unreachable!()
    };
    let text = netted_page(alloc, &found.schedule, &sides)?;
    Ok(Reply::Text(text))
}

// The whole text of the table of the schedule.
fn netted_page(alloc: Global, schedule: &Schedule, sides: &Sides) -> Result<Vec<u8>, Memory>
    requires { sides.now.count ≡ length schedule.now }
    ensures { IfOk result (λ t. TellsNetOf sides.now schedule.now t.items) }
{
    let table = net(alloc, schedule, sides)?;
    rows_page(alloc, table.as_slice())
}

// The header, the rows and `end`.
fn rows_page(alloc: Global, rows: &[NetRow]) -> Result<Vec<u8>, Memory>
    requires { Every NetRowHasPlaces rows.now }
    ensures { IfOk result (λ t. t.items ≡ net_page rows.now) }
{
    let mut text = Vec::from_slice(alloc, b"irs-net 1\n")?;
    let mut line = Line::new();
    for row in rows {
        net_text(row, &mut line);
        text.extend_from_slice(line.bytes())?;
    }
    text.extend_from_slice(b"end\n")?;
    Ok(text)
}
