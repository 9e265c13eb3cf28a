//! The text of a schedule: its lines are gathered on a page, and a full page is written.
ghost use Rattle.std.specs.Prelude.{◌≡◌, OnOk, OnErr};
ghost use Rattle.irs_outside.specs.Outside.{Rose, Grew, GrewByFront};
ghost use Rattle.irs_schedule.specs.RowsOf.{schedule_text};

use crate::page::Page;
use crate::{PutFailed, Sink};
use irs_base::Line;
use irs_schedule::{Schedule, row_text};

/// Writes the text of a schedule, and nothing after a write that failed.
pub(crate) fn put_schedule<S: Sink>(out: &mut S, schedule: &Schedule) -> Result<(), PutFailed>
    ensures ok { OnOk result (Grew (S.written out.old) (S.written out.new) (schedule_text schedule.now)) }
    ensures quiet { OnOk result (S.faults out.new ≡ S.faults out.old) }
    ensures err { OnErr result (GrewByFront (S.written out.old) (S.written out.new) (schedule_text schedule.now)) }
    ensures rose { OnErr result (Rose (S.faults out.old) (S.faults out.new)) }
{
    let mut page = Page::new();
    page.add(out, b"irs-schedule 2\n")?;
    let mut line = Line::new();
    for row in schedule.rows() {
        row_text(&row, &mut line);
        page.add(out, line.bytes())?;
    }
    page.add(out, b"end\n")?;
    page.put(out)
}
