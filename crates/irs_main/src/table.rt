//! The sentences of the rules K1 to K49 and of the faults of cash flows, as two parallel lists. They hold what
//! is said before the element, and after it.
ghost use Rattle.irs_answers.specs.Messages.{shape_name};
ghost use Rattle.irs_flows.specs.declared.error.ShapeKind.{ShapeKind as ShapeSpec};
ghost use Rattle.irs_terms.specs.Faults.{rule_number};
ghost use Rattle.irs_terms.specs.declared.places.Rule.{Rule as RuleSpec};
ghost use Rattle.irs_main.specs.Rules.{row_of_rule, row_of_shape, text_at, rule_codes, texts_after, texts_before};
ghost use Rattle.std.specs.Prelude.{◌≡◌, ◌++◌, [], codes, decimal, map};

/// What is said before the element.
pub const BEFORE: [&str; 47] = [
    "",
    "",
    "",
    "",
    "",
    "the text of ",
    "",
    "",
    "",
    "",
    "a centre of ",
    "",
    "",
    "",
    "",
    "",
    "",
    "",
    "",
    "",
    "",
    "",
    "",
    "a day of ",
    "two adjusted dates of ",
    "",
    "",
    "",
    "an offset in calendar days of ",
    "a rate or an amount of ",
    "",
    "a fixing date of ",
    "",
    "an observation of ",
    "a compounded rate of ",
    "",
    "the stub of ",
    "",
    "a period has too few applicable business days for ",
    "",
    "",
    "",
    "",
    "",
    "",
    "the text of ",
    "",
];

/// What is said after the element.
pub const AFTER: [&str; 47] = [
    " isn't JSON",
    " is missing, or lacks a member that it has to have",
    " isn't the text or the object that it has to be",
    " has a member that isn't known",
    " has a member or a value that FpML knows and this program doesn't read",
    " is none of its values, or is out of range",
    " appears too often, or has two members that don't go together",
    " and receiverPartyReference don't name two parties, the same two in each stream",
    " names nothing, or more than one list",
    " asks for business days and names no centre",
    " is in no calendar file",
    " is out of order among the dates of the stream",
    " and the roll convention don't go together",
    " isn't a whole multiple of the calculation frequency",
    " is required and absent, or isn't allowed there, or is out of order",
    " doesn't say whether it counts business or calendar days",
    " isn't after the step before it, or isn't inside the life of the stream",
    " doesn't go with a fixed rate, or is missing beside a floating one",
    " isn't as long as the calculation frequency",
    " isn't allowed with a fixed rate, nor where negative rates count as zero",
    " isn't a roll day, and the periods are counted from it",
    " isn't on the grid of roll days, so no regular period ends there",
    " makes more than 8,000 calculation periods",
    " can't be adjusted: the calendars don't cover it, or have no business day there",
    " fall on one day or change their order",
    " is no date on which payments fall",
    " isn't on a boundary of the periods",
    " is given, and the stream has no such stub",
    " leaves the range of dates",
    " passes its limit",
    " isn't there, has a fixed rate, or has calculationParameters",
    " isn't after the one before it",
    " has to be ACT/360 or ACT/365.FIXED for this command",
    " lies outside the calendars, or before every business day",
    " passes its limit",
    " has no floating rate for a stub on that side",
    " doesn't end between the two tenors",
    " doesn't go with calculationParameters",
    "",
    " isn't there, or has no calculationParameters",
    " isn't JSON",
    " is missing, or lacks a member that it has to have",
    " isn't the text or the object that it has to be",
    " has a member that isn't known",
    " has a member or a value that FpML knows and this program doesn't read",
    " is none of its values, or is out of range",
    " appears too often, or has two members that don't go together",
];

/// The lists are those of the specification. In its table the row of a rule has the name that is printed, and so
/// has that of a fault of cash flows.
#[tactic(auto, using(crate::proofs::TableLaws::before_are, crate::proofs::TableLaws::after_are, crate::proofs::NameLaws::rules_named, crate::proofs::NameLaws::shapes_named))]
pub fn rules_listed()
    ensures before { map (λ n. n.now) BEFORE ≡ texts_before }
    ensures after { map (λ n. n.now) AFTER ≡ texts_after }
    ensures rules { (r : RuleSpec) → text_at rule_codes (row_of_rule r) [] ≡ codes "K" ++ decimal (rule_number r) }
    ensures shapes { (k : ShapeSpec) → text_at rule_codes (row_of_shape k) [] ≡ shape_name k }
{}
