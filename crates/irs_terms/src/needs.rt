//! The business centres whose calendars an element of a stream needs. It lists them or has them by
//! its reference (FpML `businessCenters`, `businessCentersReference`); none where it needs no days.
//!
//! An element needs days where its convention isn't NONE. Payment dates and fixing dates also need
//! them where their offset is a Business offset other than 0.
ghost use Rattle.std.specs.Prelude.{◌≡◌, option_copied};
ghost use Rattle.irs_terms.specs.Centers.{adjusts_days, counts_days, fixing_names, fixing_names_of, is_business};
ghost use Rattle.irs_terms.specs.Centers.{listed_names, names_by, names_for, names_with, reset_names};

use crate::{Adjustments, Centers, ConvCode, DayKind, FixTerms, Offset, ResetTerms};
use irs_base::Names;

/// The centres whose business days adjust a date; `None` where the convention is NONE.
pub fn names_by(adj: &Adjustments) -> Option<&Names>
    ensures { option_copied result ≡ names_by adj.now }
{
    names_for(adjusts_days(adj.code), &adj.centers)
}

/// The centres whose business days move a date by an offset and adjust it; `None` where neither
/// needs days.
pub fn names_with(offset: Offset, adj: &Adjustments) -> Option<&Names>
    ensures { option_copied result ≡ names_with offset adj.now }
{
    names_for(adjusts_days(adj.code) || counts_days(offset), &adj.centers)
}

/// The centres whose business days adjust reset dates; `None` where there are no reset dates.
pub fn reset_names(reset: &Option<ResetTerms>) -> Option<&Names>
    ensures { option_copied result ≡ reset_names reset.now }
{
    match reset {
        None => None,
        Some(terms) => names_by(&terms.adj),
    }
}

/// The centres whose business days move and adjust fixing dates; `None` where there are no fixing
/// dates.
pub fn fixing_names(reset: &Option<ResetTerms>) -> Option<&Names>
    ensures { option_copied result ≡ fixing_names reset.now }
{
    match reset {
        None => None,
        Some(terms) => names_of_fixing(&terms.fixing),
    }
}

fn names_of_fixing(fixing: &Option<FixTerms>) -> Option<&Names>
    ensures { option_copied result ≡ fixing_names_of fixing.now }
{
    match fixing {
        None => None,
        Some(fixing) => names_with(fixing.offset, &fixing.adj),
    }
}

fn names_for(needed: bool, centers: &Centers) -> Option<&Names>
    ensures { option_copied result ≡ names_for needed centers.now }
{
    if needed { listed_names(centers) } else { None }
}

fn listed_names(centers: &Centers) -> Option<&Names>
    ensures { option_copied result ≡ listed_names centers.now }
{
    match centers {
        Centers::Absent => None,
        Centers::Listed(names) => Some(names),
        Centers::Dangling => None,
    }
}

/// Whether adjusting by the convention needs days: it isn't NONE.
pub fn adjusts_days(code: ConvCode) -> bool
    ensures { result ≡ adjusts_days code }
{
    match code {
        ConvCode::Following => true,
        ConvCode::ModFollowing => true,
        ConvCode::Preceding => true,
        ConvCode::ModPreceding => true,
        ConvCode::Nearest => true,
        ConvCode::Unadjusted => false,
    }
}

/// Whether moving by the offset needs days: it is a Business offset other than 0.
pub fn counts_days(offset: Offset) -> bool
    ensures { result ≡ counts_days offset }
{
    is_business(offset.kind) && offset.days != 0
}

fn is_business(kind: DayKind) -> bool
    ensures { result ≡ is_business kind }
{
    match kind {
        DayKind::Business => true,
        DayKind::Calendar => false,
        DayKind::Unsaid => false,
    }
}
