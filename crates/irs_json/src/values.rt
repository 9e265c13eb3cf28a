//! A repeated element is an array of values, or a single value.
ghost use Rattle.irs_json.specs.Leaves.{items_left, items_of};
ghost use Rattle.serde_json.specs.View.{view};
ghost use Rattle.std.specs.Iterator.{YieldsFirstRef, item_count};
ghost use Rattle.std.specs.Prelude.{◌≡◌, map};

use serde_json::Value;
use std::slice;

/// Iterates over the values of a repeated element.
#[derive(Drop)]
pub struct ItemIter<'a> {
    left: &'a [Value],
}

impl<'a> ItemIter<'a> {
    /// The remaining values, as a slice.
    pub fn as_slice(&self) -> &'a [Value]
        ensures { result.now ≡ items_left self.now }
    {
        self.left
    }
}

impl<'a> Iterator for ItemIter<'a> {
    type Item = &'a Value;

    ghost next_gives = { YieldsFirstRef (λ s. s.left.now) };

    ghost remaining = { item_count (λ s. s.left.now) };

    fn next(&mut self) -> Option<&'a Value> {
        let (first, others) = self.left.split_first()?;
        self.left = others;
        Some(first)
    }
}

/// The items of an array in order, else the value itself once.
pub fn items<'a>(v: &'a Value) -> ItemIter<'a>
    ensures { map view (items_left result) ≡ items_of (view v.now) }
{
    ItemIter { left: listed(v) }
}

// The items of an array, else the value itself.
fn listed(v: &Value) -> &[Value]
    ensures { map view result.now ≡ items_of (view v.now) }
{
    match v {
        Value::Array(list) => list.as_slice(),
        Value::Null => slice::from_ref(v),
        Value::Bool(_) => slice::from_ref(v),
        Value::Number(_) => slice::from_ref(v),
        Value::String(_) => slice::from_ref(v),
        Value::Object(_) => slice::from_ref(v),
    }
}
