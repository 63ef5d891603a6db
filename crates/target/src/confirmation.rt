// ACK, NAK, timeout, cut and nexus loss at the XFER_RDY.
// Each event of the paper keeps a public name of its own: what differs is its step or its number.
// The tests of a record, what a cut and a retry do to it, and whether a buffer is its own are each port's: no generic
// is plainer.
ghost use Rattle.std.specs.Prelude.{◌≡◌};
ghost use Rattle.status.specs.Stepped.{stepped};
ghost use Rattle.status.specs.Number.{failure_number};
ghost use Rattle.status.specs.Answer.{Word, Said, ◌saying◌, unless};
ghost use Rattle.target.specs.Confirmation.{confirms_of, acknowledged_of, retry_of, ack_of, nak_of, timeout_of, cut_step_of, cut_of, loss_of};

use crate::record;
use crate::types::Target;
use status::{Answer, Failure, Refusal, Stepped};

// 1, 2, then 4.
// Built into each caller: apart, the record is copied for it (docs/SPEED.md).
#[inline(always)]
#[tactic(auto, unfolding(crate::specs::Confirmation::confirms_of))]
fn confirmable(x: Target) -> Result<(), Refusal>
    ensures { result ≡ confirms_of x }
{
    status::confirmable(
        record::holds(x),
        x.receiver.ended,
        x.state == Target::UNANSWERED,
    )
}

// At its ACK, expected offset and filled mark are the burst's base, and the sum of milliseconds starts from zero.
fn acknowledged(mut x: Target) -> Stepped<Target>
    ensures { stepped result ≡ (acknowledged_of x saying Said.word Word.acknowledged) }
{
    x.receiver.expected = x.receiver.base;
    x.receiver.filled = x.receiver.base;
    x.receiver.waiting = false;
    x.state = Target::READY;
    x.elapsed = 0;
    Stepped {
        left: x,
        answer: Answer::Acknowledged,
    }
}

#[tactic(auto, unfolding(crate::specs::Confirmation::retry_of, status::specs::Pick::pick))]
fn retry(mut x: Target, cause: Failure) -> Stepped<Target>
    ensures { stepped result ≡ retry_of x (failure_number cause) }
{
    if x.retries < x.receiver.transfer.limit {
        x.retries += 1;
        x.state = Target::AGAIN;
        Stepped {
            left: x,
            answer: Answer::Retry,
        }
    } else {
        record::failed(x, cause)
    }
}

// 1, 2, 4, else acknowledged.
pub fn write_ack_received(x: Target) -> Stepped<Target>
    ensures { stepped result ≡ ack_of x }
{
    Stepped::unless(confirmable(x), x, |x| acknowledged(x))
}

// 1, 2, 4; retry, or the failure with that cause.
// Built into each caller, as `confirmable` is.
#[inline(always)]
fn unconfirmed(x: Target, cause: Failure) -> Stepped<Target>
    ensures { stepped result ≡ unless (confirms_of x) x (retry_of x (failure_number cause)) }
{
    Stepped::unless(confirmable(x), x, |x| retry(x, cause))
}

// 1, 2, 4; retry or 28.
pub fn write_nak_received(x: Target) -> Stepped<Target>
    ensures { stepped result ≡ nak_of x }
{
    unconfirmed(x, Failure::NakReceived)
}

// 1, 2, 4; retry or 29.
pub fn write_ack_nak_timeout(x: Target) -> Stepped<Target>
    ensures { stepped result ≡ timeout_of x }
{
    unconfirmed(x, Failure::AckNakTimeout)
}

// A cut with none unanswered changes nothing.
#[tactic(auto, unfolding(status::specs::Pick::pick))]
fn cut(x: Target) -> Stepped<Target>
    ensures { stepped result ≡ cut_step_of x }
{
    if x.state == Target::UNANSWERED {
        retry(x, Failure::ConnectionLost)
    } else {
        Stepped {
            left: x,
            answer: Answer::Unchanged,
        }
    }
}

// 1, 2; unchanged, retry or 30.
pub fn write_connection_lost(x: Target) -> Stepped<Target>
    ensures { stepped result ≡ cut_of x }
{
    Stepped::unless(record::admitted(x), x, |x| cut(x))
}

// 1, 2, else 31.
pub fn write_nexus_lost(x: Target) -> Stepped<Target>
    ensures { stepped result ≡ loss_of x }
{
    Stepped::unless(
        record::admitted(x),
        x,
        |x| record::failed(x, Failure::NexusLoss),
    )
}
