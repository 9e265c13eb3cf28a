//! The kind of leaf that the table of elements has for an element, and the kind of value that lies at a place.
ghost use Rattle.irs_elements.specs.declared.table.Leaf.{Leaf as LeafKind};
ghost use Rattle.irs_elements.specs.declared.table.Row.{Row as TableRow};
ghost use Rattle.irs_locate.specs.Ways.{IsLeafKindOf, IsShapeAt, leaf_in as leaf_in_kind, shape_in};
ghost use Rattle.irs_locate.specs.declared.kinds.Shape.{Shape as ShapeOfValue};
ghost use Rattle.serde_json.specs.View.{view};
ghost use Rattle.std.specs.Prelude.{◌≡◌, IfSome, Some, option_and_then, slice_get};

use crate::members::{row_of, table_of, value_at};
use irs_elements::{Kind, Leaf, Row};
use irs_json::Value;
use irs_terms::{Elem, Place};

/// What kind of value there is in a document.
#[derive(Clone, Copy)]
pub enum Shape {
    /// `null`.
    Null,
    /// `true` or `false`.
    Truth,
    /// A whole number of at most 64 bits.
    Whole,
    /// Any other number: with a fraction, with an exponent or past 64 bits, and `-0`.
    Fraction,
    /// A text.
    Text,
    /// A list.
    List,
    /// An object.
    Object,
}

// ---- the kind of a leaf

// The kind of leaf that a row is of.
fn leaf_in(kind: Kind) -> Option<Leaf>
    ensures { result ≡ leaf_in_kind kind }
{
    match kind {
        Kind::Object(_) => None,
        Kind::Leaf(leaf) => Some(leaf),
        Kind::Passed => None,
        Kind::Refused => None,
    }
}

// The same at a row.
fn leaf_at(rows: &[Row], r: usize) -> Option<Leaf>
    ensures { result ≡ option_and_then (λ (row : TableRow). leaf_in_kind row.kind) (slice_get rows.now r) }
{
    match rows.get(r) {
        None => None,
        Some(row) => leaf_in(row.kind),
    }
}

/// The kind of leaf that the table of elements has for an element. `None` exactly where it has none.
pub fn kind_of(elem: Elem) -> Option<Leaf>
    ensures is { IfSome result (IsLeafKindOf elem) }
    ensures found { (kind : LeafKind) → IsLeafKindOf elem kind → result ≡ Some kind }
{
    let table = table_of(elem);
    match row_of(table.rows, elem) {
        None => None,
        Some(r) => leaf_at(table.rows, r),
    }
}

// ---- the kind of a value

// The kind of a value.
fn shape_of(v: &Value) -> Shape
    ensures { result ≡ shape_in (view v.now) }
{
    match v {
        Value::Null => Shape::Null,
        Value::Bool(_) => Shape::Truth,
        Value::Number(n) => if let Some(_) = n.as_u64() {
            Shape::Whole
        } else if let Some(_) = n.as_i64() {
            Shape::Whole
        } else {
            Shape::Fraction
        },
        Value::String(_) => Shape::Text,
        Value::Array(_) => Shape::List,
        Value::Object(_) => Shape::Object,
    }
}

/// The kind of the value that lies in the document at a place. `None` exactly where none lies there.
pub fn shape_at(document: &Value, place: Place) -> Option<Shape>
    ensures is { IfSome result (IsShapeAt (view document.now) place) }
    ensures found { (shape : ShapeOfValue) → IsShapeAt (view document.now) place shape → result ≡ Some shape }
{
    match value_at(document, &place) {
        None => None,
        Some(v) => Some(shape_of(v)),
    }
}
