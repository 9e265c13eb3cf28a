//! An element is a member of a JSON object. A member that is null or an empty array counts as
//! absent.
ghost use Rattle.irs_json.specs.Leaves.{child_of, present as present_of};
ghost use Rattle.serde_json.specs.View.{view};
ghost use Rattle.std.specs.Prelude.{◌≡◌, option_map};

use serde_json::Value;

/// The element of that name in `v`. `None` exactly where `v` is no object, or has no such member,
/// or has null or an empty array there.
pub fn child<'a>(v: &'a Value, name: &str) -> Option<&'a Value>
    ensures { option_map (λ c. view c.now) result ≡ child_of name.now (view v.now) }
{
    match v.get(name) {
        None => None,
        Some(found) => present(found),
    }
}

/// The value, unless it counts as absent.
pub(crate) fn present(v: &Value) -> Option<&Value>
    ensures { option_map (λ c. view c.now) result ≡ present_of (view v.now) }
{
    match v {
        Value::Null => None,
        Value::Array(list) => if list.is_empty() { None } else { Some(v) },
        Value::Bool(_) => Some(v),
        Value::Number(_) => Some(v),
        Value::String(_) => Some(v),
        Value::Object(_) => Some(v),
    }
}
