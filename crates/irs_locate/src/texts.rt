//! The text of the leaf at a place.
ghost use Rattle.irs_locate.specs.Ways.{IsTextOf};
ghost use Rattle.serde_json.specs.View.{view};
ghost use Rattle.std.specs.Prelude.{◌≡◌, ℕ, IfSome, List, Some, option_map};

use crate::members::value_at;
use irs_elements::leaf_text;
use irs_json::Value;
use irs_terms::Place;
use itoa::Buffer;

/// The text of the leaf at a place; a whole number's digits are written into `digits`. `None` exactly where
/// no leaf lies there.
pub fn text_of<'a>(document: &'a Value, place: Place, digits: &'a mut Buffer) -> Option<&'a str>
    ensures is { IfSome result (λ t. IsTextOf (view document.now) place t.now) }
    ensures found { (text : List ℕ) → IsTextOf (view document.now) place text
        → option_map (λ t. t.now) result ≡ Some text }
{
    leaf_text(value_at(document, &place), digits)
}
