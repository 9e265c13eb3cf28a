//! The lines of broken rules and of faulty files. They take no memory.
ghost use Rattle.std.specs.Prelude.{◌≡◌, ◌≤◌, ◌++◌, ◌∷◌, codes, decimal, length};
ghost use Rattle.irs_answers.specs.Messages.{refused, unreadable};

use irs_base::Line;
use irs_terms::{Broken, Elem, Place, Rule};

/// The line of a broken rule: `refused RULE STREAM PATH INDEX`.
pub(crate) fn refused_line(broken: Broken, line: &mut Line)
    ensures { line.new ≡ refused broken }
{
    let place = broken.place;
    let elem = place.elem;
    line.clear();
    line.push(b"refused K");
    line.push_number(u32::from(broken.rule.number()));
    line.put_number(u32::from(place.stream));
    line.put_field(elem.path().as_bytes());
    line.put_number(place.index);
    line.push(b"\n");
}

/// The line of a document without a reading: that of K1.
pub(crate) fn unreadable_line(line: &mut Line)
    ensures { line.new ≡ refused unreadable }
{
    let place = Place {
        stream: 0,
        elem: Elem::DOCUMENT,
        index: 0,
    };
    let rule = Rule::K1;
    refused_line(Broken { rule, place }, line);
}

/// The line of a calendar file that is at fault: `bad calendar FILE LINE FAULT`.
pub(crate) fn bad_calendar_line(file: u32, number: u32, fault: &str, line: &mut Line)
    requires { length fault.now ≤ 7 }
    ensures { line.new ≡ codes "bad calendar " ++ decimal file ++ 32 ∷ decimal number ++ 32 ∷ fault.now ++ codes "\n" }
{
    line.clear();
    line.push(b"bad calendar ");
    line.push_number(file);
    line.put_number(number);
    line.put_field(fault.as_bytes());
    line.push(b"\n");
}

/// The line of a file of fixings that is at fault: `bad fixings LINE FAULT`. The fault has the space before it,
/// and the line feed after it.
pub(crate) fn bad_fixings_line(number: u32, fault: &[u8], line: &mut Line)
    requires { length fault.now ≤ 8 }
    ensures { line.new ≡ codes "bad fixings " ++ decimal number ++ fault.now }
{
    line.clear();
    line.push(b"bad fixings ");
    line.push_number(number);
    line.push(fault);
}
