//! The names of the elements that an object holds.
ghost use Rattle.irs_json.specs.Leaves.{child_of, member_names, element_names};
ghost use Rattle.serde_json.specs.View.{members_view, view};
ghost use Rattle.std.specs.Cmp.Lexicographic.{slice_cmp};
ghost use Rattle.std.specs.Iterator.{YieldsFirstRef, item_count};
ghost use Rattle.std.specs.List.{Contains};
ghost use Rattle.std.specs.List.Sorted.{IsStrictlySortedBy};
ghost use Rattle.std.specs.Ordering.{nat_cmp};
ghost use Rattle.std.specs.Prelude.{◌≡◌, ◌↔◌, ℕ, List, IfSome, IsSome};

use crate::carrier::present;
use serde_json::Value;
use std::collections::btree_map;
use std::marker::Model;

/// Iterates over the names of an object's elements.
#[derive(Drop)]
pub struct MemberIter<'a> {
    left: btree_map::Iter<'a, String, Value>,
}

impl<'a> Model for MemberIter<'a> {
    ghost Value = { List (List ℕ) };

    ghost view = { λ s. member_names (members_view s.left) };
}

impl<'a> Iterator for MemberIter<'a> {
    type Item = &'a str;

    ghost next_gives = { YieldsFirstRef (λ s. s) };

    ghost remaining = { item_count (λ s. s) };

    fn next(&mut self) -> Option<&'a str> {
        while let Some((name, v)) = self.left.next() {
            if present(v).is_some() {
                return Some(name.as_str());
            }
        }
        None
    }
}

/// The names that `child` finds in `v`, each once, in the order of their bytes. `None` exactly
/// where `v` is no object.
pub fn members<'a>(v: &'a Value) -> Option<MemberIter<'a>>
    ensures names { result ≡ element_names (view v.now) }
    ensures rising { IfSome result (λ names. IsStrictlySortedBy (slice_cmp nat_cmp) names) }
    ensures found { IfSome result (λ names. (name : List ℕ)
        → (Contains names name ↔ IsSome (child_of name (view v.now)))) }
{
    match v {
        Value::Object(map) => Some(MemberIter { left: map.iter() }),
        Value::Null => None,
        Value::Array(_) => None,
        Value::Bool(_) => None,
        Value::Number(_) => None,
        Value::String(_) => None,
    }
}
