//! Laws: each leaf reads back as its value, and each row as its flow.
ghost use Rattle.irs_emit.specs.RowLaws.{AmountReadsBack, CountReadsBack, CurrencyReadsBack, DayReadsBack};
ghost use Rattle.irs_emit.specs.RowLaws.{FractionReadsBack, NotionalReadsBack, RateReadsBack};

/// By the rules of cash flows each leaf reads back as the value that it was written for. Leaves are
/// a date, an amount, a notional, a rate, a number of days, a fraction and a currency. The function
/// does nothing; its contract is the law.
#[tactic(auto, using(crate::proofs::LeavesRead::day_reads, crate::proofs::LeavesRead::amount_reads, crate::proofs::LeavesRead::notional_reads, crate::proofs::LeavesRead::rate_reads, crate::proofs::LeavesRead::count_reads, crate::proofs::LeavesRead::fraction_reads, crate::proofs::LeavesRead::currency_reads))]
pub fn leaves_read_back()
    ensures days { DayReadsBack }
    ensures amounts { AmountReadsBack }
    ensures notionals { NotionalReadsBack }
    ensures rates { RateReadsBack }
    ensures counts { CountReadsBack }
    ensures fractions { FractionReadsBack }
    ensures currencies { CurrencyReadsBack }
{}

ghost use Rattle.irs_emit.specs.RowLaws.{StreamReadsBack, ExchangeReadsBack, PaymentReadsBack, PeriodReadsBack};
ghost use Rattle.irs_emit.specs.RowLaws.{ResetReadsBack};

/// By the meaning of cash flows each object reads back as the flow that states its row. Its dates
/// have to be days, and its numbers to have few digits. Objects are an exchange, a reset, a
/// calculation period with its reset, a payment with the number of its periods, and a stream. The
/// function does nothing; its contract is the law.
#[tactic(auto, using(crate::proofs::RowsRead::exchange_reads, crate::proofs::RowsRead::reset_reads, crate::proofs::RowsRead::period_reads, crate::proofs::RowsRead::payment_reads, crate::proofs::PartsRead::stream_reads))]
pub fn rows_read_back()
    ensures exchanges { ExchangeReadsBack }
    ensures resets { ResetReadsBack }
    ensures periods { PeriodReadsBack }
    ensures payments { PaymentReadsBack }
    ensures streams { StreamReadsBack }
{}
