//! Finding a value by its name, and the text of a leaf.
ghost use Rattle.irs_elements.specs.Elements.{member as member_of, once as once_of, seen, leaf_text_in, values_in};
ghost use Rattle.serde_json.specs.View.{view};
ghost use Rattle.std.specs.Prelude.{◌≡◌, Some, map, option_map};

use irs_json::{LeafValue, Value, child, items, leaf};
use itoa::Buffer;

/// The element of that name in `v` that occurs once: a value, or the first of an array.
pub fn once<'a>(v: &'a Value, name: &str) -> Option<&'a Value>
    ensures { seen result ≡ once_of name.now (view v.now) }
{
    items(child(v, name)?).as_slice().first()
}

/// The same below an element that may be absent.
pub fn member<'a>(v: Option<&'a Value>, name: &str) -> Option<&'a Value>
    ensures { seen result ≡ member_of name.now (seen v.entry) }
{
    once(v?, name)
}

/// The values of the repeated element of that name below an element that may be absent.
pub fn values<'a>(v: Option<&'a Value>, name: &str) -> &'a [Value]
    ensures { map view result.now ≡ values_in name.now (seen v.entry) }
{
    v.map_or(&[], |v| values_at(v, name))
}

/// The values of the repeated element of that name in `v`.
pub fn values_at<'a>(v: &'a Value, name: &str) -> &'a [Value]
    ensures { map view result.now ≡ values_in name.now (Some (view v.now)) }
{
    child(v, name).map_or(&[], |found| items(found).as_slice())
}

/// The text of a leaf that may be absent. A whole number's digits are written into `digits`.
pub fn leaf_text<'a>(v: Option<&'a Value>, digits: &'a mut Buffer) -> Option<&'a str>
    ensures { option_map (λ s. s.now) result ≡ leaf_text_in (seen v.entry) }
{
    match leaf(v?)? {
        LeafValue::Word(word) => Some(word),
        LeafValue::Whole(n) => Some(digits.format(n)),
        LeafValue::Truth(b) => Some(if b { "true" } else { "false" }),
    }
}
