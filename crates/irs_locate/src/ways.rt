//! The way from the root of a document to the element at a place, a step for each element on it.
ghost use Rattle.irs_locate.specs.Ways.{below_swap as below_swap_of, from_one as from_one_of};
ghost use Rattle.irs_locate.specs.Ways.{is_repeated as is_repeated_of, first_in, names_on_way, once as once_of};
ghost use Rattle.irs_locate.specs.Ways.{step_below as step_below_of, stream_step as stream_step_of};
ghost use Rattle.irs_locate.specs.Ways.{to_swap as to_swap_of, way};
ghost use Rattle.irs_locate.specs.Private.Lines.{IsRestOf};
ghost use Rattle.irs_terms.specs.Paths.{path_of};
ghost use Rattle.irs_locate.specs.Private.Seen.{step_seen};
ghost use Rattle.std.specs.Prelude.{◌≡◌, ◌<◌, IfSome, length, map, option_map, slice_get};

use irs_terms::{Elem, Place};

/// An element on the way: its name, and its number from 1 among the elements of that name in one
/// element.
#[derive(Clone, Copy)]
pub(crate) struct Step<'a> {
    /// The name, without a prefix.
    pub(crate) name: &'a [u8],
    /// The number, from 1.
    pub(crate) number: u32,
}

// An element that occurs once.
fn once(name: &[u8]) -> Step<'_>
    ensures is { step_seen result ≡ once_of name.now }
    ensures some { 0 < result.number }
{
    Step { name, number: 1 }
}

// 0 means none in particular, and so the first.
fn from_one(n: u32) -> u32
    ensures is { result ≡ from_one_of n }
    ensures some { 0 < result }
{
    if n == 0 { 1 } else { n }
}

// Whether an element of that name occurs more than once in one element.
fn is_repeated(name: &[u8]) -> bool
    ensures { result ≡ is_repeated_of name.now }
{
    name == b"step".as_slice() || name == b"businessCenter".as_slice()
}

// The index of a place counts a repeated element.
fn step_below(index: u32, name: &[u8]) -> Step<'_>
    ensures is { step_seen result ≡ step_below_of index name.now }
    ensures some { 0 < result.number }
{
    if is_repeated(name) {
        Step {
            name,
            number: from_one(index),
        }
    } else {
        once(name)
    }
}

// A stream.
fn stream_step<'a>(stream: u8) -> Step<'a>
    ensures is { step_seen result ≡ stream_step_of stream }
    ensures some { 0 < result.number }
{
    Step {
        name: b"swapStream",
        number: from_one(stream as u32),
    }
}

// The first name of a path.
fn first_name(path: &[u8]) -> &[u8]
    ensures { result.now ≡ first_in path.now }
{
    for i in 0..path.len() {
        if path[i] == b'/' {
            return &path[..i];
        }
    }
    path
}

// The path after its first name, where it has more.
fn other_names(path: &[u8]) -> Option<&[u8]>
    ensures { IsRestOf path.now (option_map (λ p. p.now) result) }
{
    for i in 0..path.len() {
        if path[i] == b'/' {
            return Some(&path[i + 1..]);
        }
    }
    None
}

// The name at position k in a path.
fn name_at(path: &[u8], k: usize) -> Option<&[u8]>
    ensures { option_map (λ n. n.now) result ≡ slice_get (names_on_way path.now) k }
{
    let mut rest = path;
    let mut left = k;
    while left > 0 {
        let Some(others) = other_names(rest) else {
            return None;
        };
        rest = others;
        left -= 1;
    }
    Some(first_name(rest))
}

// The step at position k of the way from the stream down.
#[tactic(auto, using(crate::proofs::Searches::named))]
fn below_stream<'a>(place: &Place, k: usize) -> Option<Step<'a>>
    ensures is { option_map step_seen result
        ≡ slice_get (map (step_below_of place.now.index) (names_on_way (path_of place.now.elem))) k }
    ensures some { IfSome result (λ s. 0 < s.number) }
{
    match name_at(place.elem.path().as_bytes(), k) {
        None => None,
        Some(name) => Some(step_below(place.index, name)),
    }
}

// The step at position k of the way from the swap down.
#[tactic(auto, unfolding(crate::specs::Ways::below_swap))]
fn below_swap<'a>(place: &Place, k: usize) -> Option<Step<'a>>
    ensures is { option_map step_seen result ≡ slice_get (below_swap_of place.now) k }
    ensures some { IfSome result (λ s. 0 < s.number) }
{
    if place.elem == Elem::SWAP {
        None
    } else if k == 0 {
        Some(stream_step(place.stream))
    } else if place.elem == Elem::SWAP_STREAM {
        None
    } else {
        below_stream(place, k - 1)
    }
}

// How many steps the way to the swap has.
#[tactic(auto, unfolding(crate::specs::Ways::to_swap))]
fn steps_to_swap(root: &[u8]) -> usize
    ensures { result ≡ length (to_swap_of root.now) }
{
    if root == b"swap".as_slice() {
        1
    } else if root == b"trade".as_slice() {
        2
    } else {
        3
    }
}

// The step at position k of the way to the swap.
#[tactic(auto, unfolding(crate::specs::Ways::to_swap))]
fn to_swap(root: &[u8], k: usize) -> Option<Step<'_>>
    ensures is { option_map step_seen result ≡ slice_get (to_swap_of root.now) k }
    ensures some { IfSome result (λ s. 0 < s.number) }
{
    if k == 0 {
        Some(once(root))
    } else if root == b"swap".as_slice() {
        None
    } else if root == b"trade".as_slice() {
        if k == 1 { Some(once(b"swap")) } else { None }
    } else if k == 1 {
        Some(once(b"trade"))
    } else if k == 2 {
        Some(once(b"swap"))
    } else {
        None
    }
}

/// The step at position k, from 0, of the way from a root of that name to the element at a place. `None`
/// comes exactly past its end.
#[tactic(auto, unfolding(crate::specs::Ways::way))]
pub(crate) fn step_at<'a>(root: &'a [u8], place: &Place, k: usize) -> Option<Step<'a>>
    ensures is { option_map step_seen result ≡ slice_get (way root.now place.now) k }
    ensures some { IfSome result (λ s. 0 < s.number) }
{
    if place.elem == Elem::DOCUMENT {
        return if k == 0 { Some(once(root)) } else { None };
    }
    let above = steps_to_swap(root);
    if k < above {
        to_swap(root, k)
    } else {
        below_swap(place, k - above)
    }
}
