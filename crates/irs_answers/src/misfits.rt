//! The roll that K30 is about, and the day that it doesn't fit.
ghost use Rattle.std.specs.Prelude.{◌≡◌, IfSome};
ghost use Rattle.irs_answers.specs.Forms.{source_by};
ghost use Rattle.irs_answers.specs.Notes.{IsMisfitAt, IsMisfitIn};
ghost use Rattle.irs_periods.specs.Spans.{given_anchor_of, stub_anchor};

use crate::forms::{Source, read_document};
use irs_base::Day;
use irs_read::read_swap;
use irs_terms::{Place, RollCode, Stream, StubKind, Swap};
use std::alloc::Global;

/// The roll that K30 is about, and the day that it doesn't fit.
#[derive(Clone, Copy)]
pub struct Misfit {
    /// The roll of the stream (FpML `rollConvention`).
    pub roll: RollCode,
    /// The day from which the stream's periods are counted.
    pub day: Day,
}

/// The roll and the day of the stream at a place of K30 in a document. None where there is none, or memory ran out.
pub(crate) fn misfit_at(alloc: Global, document: &Source, place: Place) -> Option<Misfit>
    ensures { IfSome result (IsMisfitIn (source_by document.now) place) }
{
    let Ok(value) = read_document(alloc, document) else {
        return None;
    };
    let Ok(swap) = read_swap(alloc, &value) else {
        return None;
    };
    let misfit = misfit_of(&swap, place)?;
    Some(misfit)
}

// The same in a swap.
fn misfit_of(swap: &Swap, place: Place) -> Option<Misfit>
    ensures { IfSome result (IsMisfitAt swap.now place) }
{
    let stream = swap
        .streams
        .as_slice()
        .get(usize::from(place.stream).saturating_sub(1))?;
    Some(Misfit {
        roll: stream.roll,
        day: anchor(stream),
    })
}

// The day from which the periods of a stream are counted, whose frequency isn't the term.
fn anchor(s: &Stream) -> Day
    ensures { result ≡ given_anchor_of s.now }
{
    match (s.first_regular, s.last_regular) {
        (Some(first), _) => first,
        (None, Some(_)) => s.first_day(),
        (None, None) => anchor_by_stub(s.stub, s.first_day(), s.termination.day),
    }
}

// The same by the type of its stub alone.
fn anchor_by_stub(stub: Option<StubKind>, begin: Day, termination: Day) -> Day
    ensures { result ≡ stub_anchor stub begin termination }
{
    match stub {
        Some(StubKind::ShortInitial) | Some(StubKind::LongInitial) => termination,
        None | Some(StubKind::ShortFinal) | Some(StubKind::LongFinal) => begin,
    }
}
