//! The lines of an audit: the verdict, and the first fault of the flows. Names of fields are FpML's. They take
//! no memory.
ghost use Rattle.std.specs.Prelude.{◌≡◌, ◌≤◌, ◌++◌, ◌∷◌, codes, decimal, length};
ghost use Rattle.irs_answers.specs.Messages.{bad_flows, departure_text, shape_name, whole_document};
ghost use Rattle.irs_flows.specs.declared.error.ShapeKind.TheVariants.{NotJson};

use irs_audit::Departure;
use irs_base::Line;
use irs_flows::ShapeKind;
use irs_terms::{Elem, Place};

/// The line of flows that agree: `yes ROWS UNFIXED`.
pub(crate) fn yes_line(rows: u32, unfixed: u32, line: &mut Line)
    ensures { line.new ≡ codes "yes " ++ decimal rows ++ 32 ∷ decimal unfixed ++ codes "\n" }
{
    line.clear();
    line.push(b"yes ");
    line.push_number(rows);
    line.put_number(unfixed);
    line.push(b"\n");
}

/// The line of a departure: `no STREAM KIND ROW FIELD`.
pub(crate) fn departure_line(departure: Departure, line: &mut Line)
    ensures { line.new ≡ departure_text departure }
{
    line.clear();
    line.push(b"no ");
    line.push_number(u32::from(departure.stream));
    line.put_field(departure.kind.name().as_bytes());
    line.put_number(departure.row);
    line.put_field(departure.field.name().as_bytes());
    line.push(b"\n");
}

/// The line of flows that are out of shape: `bad flows KIND STREAM PATH INDEX`.
pub(crate) fn bad_flows_line(kind: ShapeKind, place: Place, line: &mut Line)
    ensures { line.new ≡ bad_flows kind place }
{
    let elem = place.elem;
    line.clear();
    line.push(b"bad flows ");
    line.push(shape_name(kind).as_bytes());
    line.put_number(u32::from(place.stream));
    line.put_field(elem.path().as_bytes());
    line.put_number(place.index);
    line.push(b"\n");
}

/// The line of flows without a reading.
pub(crate) fn not_read_line(line: &mut Line)
    ensures { line.new ≡ bad_flows NotJson whole_document }
{
    let place = Place {
        stream: 0,
        elem: Elem::DOCUMENT,
        index: 0,
    };
    bad_flows_line(ShapeKind::NotJson, place, line);
}

fn shape_name(kind: ShapeKind) -> &'static str
    ensures text { result.now ≡ shape_name kind }
    ensures short { length result.now ≤ 7 }
{
    match kind {
        ShapeKind::NotJson => "notjson",
        ShapeKind::Missing => "missing",
        ShapeKind::Kind => "kind",
        ShapeKind::Unknown => "unknown",
        ShapeKind::Profile => "profile",
        ShapeKind::Value => "value",
        ShapeKind::Count => "count",
    }
}
