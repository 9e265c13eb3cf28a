//! Which boundary a payment date is worked out from (FpML `payRelativeTo`).
ghost use Rattle.std.specs.Prelude.{◌≡◌, ◌<◌};
ghost use Rattle.irs_payments.specs.Payments.{pay_place};

use irs_terms::Relative;

/// The place, among the payment boundaries from the first day on, of the unadjusted date of payment
/// j. It is that of the end of the payment period, or of its start.
pub fn pay_place(relative: Relative, j: usize) -> usize
    requires { 0 < j }
    ensures { result ≡ pay_place relative j }
{
    match relative {
        Relative::Start => j - 1,
        Relative::End => j,
    }
}
