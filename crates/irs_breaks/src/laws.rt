//! Laws of the pairing and of the list of breaks, each the contract of a function that does nothing.
ghost use Rattle.std.specs.Prelude.{◌≡◌, List, None, Option, sum_by, ℤ};
ghost use Rattle.irs_audit.specs.Verdicts.{Agrees};
ghost use Rattle.irs_flows.specs.FlowReading.{FlowsAreWithin, FlowPart};
ghost use Rattle.irs_audit.specs.StatedFlows.{stated_flows};
ghost use Rattle.irs_breaks.specs.BreakLists.{HasBreak, IsBreakList};
ghost use Rattle.irs_breaks.specs.Findings.{Findings};
ghost use Rattle.irs_schedule.specs.Parts.{IsWithin, Part};
ghost use Rattle.irs_breaks.specs.Laws.{DontCross, HasOnePartner, IsOnlyPairing, IsSymmetric, HaveOneNumber};
ghost use Rattle.irs_breaks.specs.Pairing.{IsPairing};
ghost use Rattle.irs_breaks.specs.declared.counting.Counts.{Counts};
ghost use Rattle.irs_breaks.specs.declared.dated.DatedRow.{DatedRow};
ghost use Rattle.irs_breaks.specs.declared.dated.PairedRow.{PairedRow};

/// Each row is in at most one pair.
pub fn one_partner()
    ensures { (ours theirs : List DatedRow) → HasOnePartner ours theirs }
{}

/// Two pairs don't cross: the one with our earlier date doesn't have their later date.
pub fn no_crossing()
    ensures { (ours theirs : List DatedRow) → DontCross ours theirs }
{}

/// The same rows are paired, whichever of the lists is called ours.
pub fn same_either_way()
    ensures { (ours theirs : List DatedRow) → IsSymmetric ours theirs }
{}

/// The pairing of two lists of dates is the only one.
pub fn only_pairing()
    ensures { (from : ℤ) (ours theirs : List (Option ℤ)) (rows : List PairedRow)
        → IsPairing from ours theirs rows → IsOnlyPairing from ours theirs rows }
{}

/// The list of breaks is the only one.
pub fn one_list()
    ensures { (from : Option ℤ) (s : List Part) (f : List FlowPart) (l m : Findings) → IsBreakList from s f l
        → IsBreakList from s f m → l ≡ m }
{}

/// Where the cash flows agree with a schedule, so that `audit` says yes, nothing breaks, whichever the first
/// day.
pub fn agreed_is_unbroken()
    ensures { (from : Option ℤ) (s : List Part) (f : List FlowPart) (l : Findings) → IsWithin s → Agrees f s
        → IsBreakList from s f l → ¬ (HasBreak l) }
{}

/// For the cash flows that state a schedule nothing breaks and nothing is unstated, whichever the first day.
pub fn stated_is_unbroken()
    ensures unbroken { (from : Option ℤ) (s : List Part) (l : Findings) → IsWithin s → IsBreakList from s (stated_flows s) l
        → ¬ (HasBreak l) }
    ensures whole { (from : Option ℤ) (s : List Part) (l : Findings) → IsWithin s → IsBreakList from s (stated_flows s) l
        → sum_by (λ (c : Counts). c.unstated) l.pairs ≡ 0 }
{}

/// The converse, from no day on. Let nothing break, let nothing be unstated, and let each pair of rows have one number
/// on both sides. Then the cash flows agree with the schedule, so that `audit` says yes.
pub fn unbroken_is_agreed()
    ensures { (s : List Part) (f : List FlowPart) (l : Findings) → IsWithin s → FlowsAreWithin f → HaveOneNumber None s f
        → IsBreakList None s f l → ¬ (HasBreak l) → sum_by (λ (c : Counts). c.unstated) l.pairs ≡ 0 → Agrees f s }
{}
