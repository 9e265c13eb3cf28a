//! The rows of the order in which broken rules are reported. Each has two of them, `, ` between
//! them. It says whether the first comes before the second, or which of them is reported.
use crate::told::Told;
use crate::values::Tell;
use irs_elements::{comes_before, earlier};
use irs_terms::{Broken, Elem, Place, Rule};

// A rule by its name; the rows have these.
fn rule_of(name: &str) -> Option<Rule> {
    match name {
        "K1" => Some(Rule::K1),
        "K2" => Some(Rule::K2),
        "K3" => Some(Rule::K3),
        "K4" => Some(Rule::K4),
        "K5" => Some(Rule::K5),
        "K6" => Some(Rule::K6),
        "K7" => Some(Rule::K7),
        "K10" => Some(Rule::K10),
        "K12" => Some(Rule::K12),
        "K13" => Some(Rule::K13),
        "K30" => Some(Rule::K30),
        "K38" => Some(Rule::K38),
        "K39" => Some(Rule::K39),
        "K46" => Some(Rule::K46),
        "K49" => Some(Rule::K49),
        _ => None,
    }
}

/// The element with a path.
pub fn elem_of(path: &str) -> Option<Elem> {
    for place in 0..u8::MAX {
        let elem = Elem::at(place)?;
        if elem.path() == path {
            return Some(elem);
        }
    }
    None
}

/// The broken rule of a text: the rule, the number of the stream, the element and the index.
pub fn broken_of(text: &str) -> Option<Broken> {
    let (rule, rest) = text.split_once(' ')?;
    let (stream, rest) = rest.split_once(' ')?;
    let (path, index) = rest.split_once(' ')?;
    Some(Broken {
        rule: rule_of(rule)?,
        place: Place {
            stream: stream.parse::<u8>().ok()?,
            elem: elem_of(path)?,
            index: index.parse::<u32>().ok()?,
        },
    })
}

fn answer_of(text: &str) -> Option<Option<Broken>> {
    if text == "absent" {
        return Some(None);
    }
    Some(Some(broken_of(text)?))
}

/// Reports whether the first of two broken rules comes before the second, or the earlier of two
/// answers.
pub fn tell_order(told: &mut Told, question: &str, pair: &str) -> Option<()> {
    let (first, second) = pair.split_once(", ")?;
    match question {
        "before" => told.debug(&comes_before(&broken_of(first)?, &broken_of(second)?)),
        "earlier" => earlier(answer_of(first)?, answer_of(second)?).tell(told),
        _ => return None,
    }
    Some(())
}
