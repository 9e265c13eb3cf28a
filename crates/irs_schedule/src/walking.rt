//! The rows of one stream after its first, one after the other.
ghost use Rattle.std.specs.Prelude.{◌≡◌, ◌++◌, map, ◌<◌};
ghost use Rattle.std.specs.List.{flat_map, enumerate_from};
ghost use Rattle.std.specs.Iterator.{YieldsFirst, item_count};
ghost use Rattle.irs_schedule.specs.RowsOf.{exchange_row, payment_rows};

use crate::streams::StreamPart;
use crate::{PaymentEntry, Row};
use irs_terms::Exchange;
use std::marker::Model;

// The rows of a stream after its first, seen as the list of those that are still to come.
#[derive(Drop)]
pub(crate) struct StreamRows<'a> {
    part: &'a StreamPart,
    stream: u8,
    exchanges: &'a [Exchange],
    // The number of the first of `exchanges`.
    exchange: u32,
    payments: &'a [PaymentEntry],
    // The number of the first of `payments`.
    payment: u32,
    // The next period of the payment that is walked, and the first one after the payment.
    period: u32,
    end: u32,
    // Whether the reset of the period before comes next.
    reset: bool,
}

impl<'a> Model for StreamRows<'a> {
    ghost use Rattle.std.specs.Prelude.{List};
    ghost use Rattle.irs_schedule.specs.declared.row.Row.{Row};

    ghost Value = { List Row };

    ghost use Rattle.irs_schedule.specs.RowsOf.{stream_left, IsWalk};

    ghost view = { stream_left };

    ghost invariant = { IsWalk };
}

impl<'a> StreamRows<'a> {
    /// The rows of the stream with this number, from 1, before the first one.
    pub(crate) fn new(part: &'a StreamPart, stream: u8) -> StreamRows<'a>
        ensures { result ≡ map (exchange_row stream) (enumerate_from 1 part.now.exchanges)
            ++ flat_map (payment_rows stream part.now) (enumerate_from 1 part.now.payments) }
    {
        StreamRows {
            part,
            stream,
            exchanges: part.exchanges(),
            exchange: 1,
            payments: part.payments(),
            payment: 1,
            period: 1,
            end: 1,
            reset: false,
        }
    }
}

impl<'a> Iterator for StreamRows<'a> {
    type Item = Row;

    ghost next_gives = { YieldsFirst (λ rest. rest) };

    ghost remaining = { item_count (λ rest. rest) };

    fn next(&mut self) -> Option<Row> {
        if self.reset {
            self.reset = false;
            return Some(self.part.reset_row(self.stream, self.period - 1));
        }
        if self.period < self.end {
            let number = self.period;
            self.period += 1;
            self.reset = self.part.is_floating();
            return Some(self.part.period_row(self.stream, number));
        }
        if let Some((entry, rest)) = self.exchanges.split_first() {
            let number = self.exchange;
            self.exchange += 1;
            self.exchanges = rest;
            return Some(exchange_row(self.stream, number, entry));
        }
        let (entry, rest) = self.payments.split_first()?;
        let number = self.payment;
        self.payment += 1;
        self.payments = rest;
        self.period = entry.first_period;
        self.end = entry.last_period + 1;
        Some(payment_row(self.stream, number, entry))
    }
}

ghost use Rattle.irs_schedule.specs.RowsOf.{payment_row};

fn exchange_row(stream: u8, number: u32, entry: &Exchange) -> Row
    ensures { result ≡ exchange_row stream (number, entry.now) }
{
    Row::Exchange {
        stream,
        number,
        unadjusted: entry.unadjusted,
        adjusted: entry.adjusted,
        amount: entry.amount,
    }
}

fn payment_row(stream: u8, number: u32, entry: &PaymentEntry) -> Row
    ensures { result ≡ payment_row stream number entry.now }
{
    Row::Payment {
        stream,
        number,
        unadjusted: entry.unadjusted,
        adjusted: entry.adjusted,
        first_period: entry.first_period,
        last_period: entry.last_period,
        amount: entry.amount,
    }
}
