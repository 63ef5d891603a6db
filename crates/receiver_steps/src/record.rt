// The record: the tests of number 1, how a burst begins, and failure.
ghost use Rattle.std.specs.Prelude.{◌≡◌};
ghost use Rattle.status.specs.Stepped.{stepped};
ghost use Rattle.status.specs.Number.{failure_number};
ghost use Rattle.receiver_steps.specs.Record.{holds_of, right_length, lent_of, beginning, failed_of};

use crate::types::Receiver;
use status::{Answer, Failure, Stepped};
use transfer::Transfer;

// Number 1 does not apply: limits and marks are in order.
#[tactic(auto, unfolding(crate::specs::Record::holds_of, crate::specs::Record::tests))]
pub fn holds(r: Receiver) -> bool
    ensures { result ≡ holds_of r }
{
    let t = r.transfer;
    t.limits_hold()
        & (t.start <= r.base)
        & (r.base <= r.expected)
        & (r.expected <= r.filled)
        & (r.filled <= r.end)
        & ((r.end as usize) <= t.past())
}

// A write's buffer has the byte count. A read's reaches at least to start plus count.
#[tactic(auto, unfolding(crate::specs::Record::right_length, status::specs::Pick::pick))]
fn right_length(t: Transfer, n: usize) -> bool
    ensures { result ≡ right_length t n }
{
    if t.write {
        n == t.count as usize
    } else {
        t.past() <= n
    }
}

// Number 1 does not apply, the data buffer's length included.
#[tactic(auto, unfolding(crate::specs::Record::lent_of))]
pub fn lent(r: Receiver, n: usize) -> bool
    ensures { result ≡ lent_of r n }
{
    holds(r) & right_length(r.transfer, n)
}

// A burst of which nothing is stored yet; whether it is in order is tested at the first call.
pub fn begin(t: Transfer, base: u32, end: u32) -> Receiver
    ensures { result ≡ beginning t base end }
{
    Receiver {
        transfer: t,
        base,
        end,
        expected: base,
        filled: base,
        waiting: false,
        ended: false,
    }
}

// A failure ends the port.
pub fn failed(mut r: Receiver, why: Failure) -> Stepped<Receiver>
    ensures { stepped result ≡ failed_of r (failure_number why) }
{
    r.ended = true;
    Stepped {
        left: r,
        answer: Answer::Failed(why, 0),
    }
}
