//! Laws: the audit of emitted cash flows is yes, every list in the relations of a schedule has the text that
//! `schedule` prints, and one outcome is due for every task and its files.
ghost use Rattle.std.specs.Prelude.{◌≡◌, ◌↔◌, ℕ, List};
ghost use Rattle.irs_base.specs.Outcomes.{Determined};
ghost use Rattle.irs_schedule.specs.Parts.{IsWithin, Part};
ghost use Rattle.irs_emit.specs.Emitted.{emit_text};
ghost use Rattle.irs_emit_xml.specs.Flows.{flows_text};
ghost use Rattle.irs_answers.specs.Tasks.{IsAuditedYes, IsLawfulTask, carrier_of};
ghost use Rattle.irs_answers.specs.Due.{DueFor, Facts, IsCertain, IsTextOfEach, PassesEachStep, due, found_of};
ghost use Rattle.irs_answers.specs.Forms.{json_text, xml_text, Given};
ghost use Rattle.irs_answers.specs.declared.tasks.Task.{Task};
ghost use Rattle.irs_answers.specs.declared.tasks.Task.TheVariants.{Schedule};

/// The audit of emitted cash flows against their schedule is yes, with the number of its rows and that of its
/// payments without an amount. That is due for the text that `emit` prints and for that of `emit-xml`. The
/// function does nothing; its contract is the law.
#[tactic(auto, using(crate::proofs::EmittedLemmas::json_audited, crate::proofs::EmittedLemmas::xml_audited))]
pub fn emitted_flows_are_audited()
    ensures json { (s : List Part) → IsWithin s → IsAuditedYes s (json_text (emit_text s)) }
    ensures xml { (s : List Part) → IsWithin s → IsAuditedYes s (xml_text (flows_text s)) }
{}

/// Where the files of `schedule` pass every step, the status is 0. The text that is due is that of every list
/// in the relations of dates, fractions and amounts, for what the files say. The function does nothing; its
/// contract is the law.
pub fn every_schedule_has_the_printed_text()
    ensures { (g : Given) (f : Facts) (status : ℕ) (text : List ℕ) → PassesEachStep Schedule g f
        → DueFor Schedule g status text → (status ≡ 0) × IsTextOfEach f text }
{}

/// One outcome is due for every task and its files: there is one answer and no refusal, or one refusal and no answer.
/// Where a status and a text are due, nothing else is. That something is due can't be otherwise, whatever the files hold,
/// where the task's parameters lie in their ranges. So it is for the carrier of any bytes. The logic of the prover is
/// constructive, and deciding whether bytes have a reading would take a reader within it. So these clauses say what the
/// usual logic of mathematics says, and nothing of a way to find the outcome. What the files say, step by step, is what
/// they say where every step passes. The function does nothing; its contract is the law.
pub fn one_outcome_is_due()
    ensures outcome { (t : Task) (g : Given) (s : ℕ) (text : List ℕ) → DueFor t g s text → Determined (due t g) }
    ensures always { (t : Task) (g : Given) → IsLawfulTask t → IsCertain (Determined (due t g)) }
    ensures carrier { (bytes : List ℕ) → IsCertain (Determined (carrier_of bytes)) }
    ensures passes { (t : Task) (g : Given) (f : Facts) → PassesEachStep t g f ↔ (found_of t g).Answers f }
{}
