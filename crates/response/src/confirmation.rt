// ACK, NAK, timeout, cut and nexus loss at the RESPONSE.
// Each event of the paper keeps a public name of its own: what differs is its step or its number.
// The tests of a record, what a cut and a retry do to it, and whether a buffer is its own are each port's: no generic
// is plainer.
ghost use Rattle.std.specs.Prelude.{◌≡◌};
ghost use Rattle.status.specs.Stepped.{stepped};
ghost use Rattle.status.specs.Number.{failure_number};
ghost use Rattle.status.specs.Entry.{entry_of};
ghost use Rattle.status.specs.Answer.{unless};
ghost use Rattle.response.specs.Record.{holds_of};
ghost use Rattle.response.specs.Confirmation.{confirms_of, failed_of, retry_of, ack_of, nak_of, timeout_of, cut_step_of, cut_of, loss_of};

use crate::record;
use crate::types::Responder;
use status::{Answer, Failure, Refusal, Stepped};

// 1, then 2. Each record has tests of its own, so each port has this.
fn admitted(x: Responder) -> Result<(), Refusal>
    ensures { result ≡ entry_of (holds_of x) x.ended }
{
    status::admit(record::holds(x), x.ended)
}

// 1, 2, then 4.
#[tactic(auto, unfolding(crate::specs::Confirmation::confirms_of))]
fn confirmable(x: Responder) -> Result<(), Refusal>
    ensures { result ≡ confirms_of x }
{
    status::confirmable(record::holds(x), x.ended, x.unanswered)
}

fn failed(x: Responder, why: Failure) -> Stepped<Responder>
    ensures { stepped result ≡ failed_of x (failure_number why) }
{
    Stepped {
        left: record::ended(x),
        answer: Answer::Failed(why, 0),
    }
}

#[tactic(auto, unfolding(crate::specs::Confirmation::retry_of, status::specs::Pick::pick))]
fn retry(mut x: Responder, cause: Failure) -> Stepped<Responder>
    ensures { stepped result ≡ retry_of x (failure_number cause) }
{
    if x.retries < record::most(x) {
        x.retries += 1;
        x.unanswered = false;
        Stepped {
            left: x,
            answer: Answer::Retry,
        }
    } else {
        failed(x, cause)
    }
}

// 1, 2, 4; retry or the failure.
fn retry_if_confirmable(x: Responder, cause: Failure) -> Stepped<Responder>
    ensures { stepped result ≡ unless (confirms_of x) x (retry_of x (failure_number cause)) }
{
    Stepped::unless(confirmable(x), x, |x| retry(x, cause))
}

// A cut with nothing unanswered changes nothing.
#[tactic(auto, unfolding(status::specs::Pick::pick))]
fn cut(x: Responder) -> Stepped<Responder>
    ensures { stepped result ≡ cut_step_of x }
{
    if x.unanswered {
        retry(x, Failure::ConnectionLost)
    } else {
        Stepped {
            left: x,
            answer: Answer::Unchanged,
        }
    }
}

// 1, 2, 4, else delivered: the record has ended.
pub fn ack_received(x: Responder) -> Stepped<Responder>
    ensures { stepped result ≡ ack_of x }
{
    Stepped::unless(
        confirmable(x),
        x,
        |x| Stepped {
            left: record::ended(x),
            answer: Answer::Delivered(0),
        },
    )
}

// 1, 2, 4; retry or 28.
pub fn nak_received(x: Responder) -> Stepped<Responder>
    ensures { stepped result ≡ nak_of x }
{
    retry_if_confirmable(x, Failure::NakReceived)
}

// 1, 2, 4; retry or 29.
pub fn ack_nak_timeout(x: Responder) -> Stepped<Responder>
    ensures { stepped result ≡ timeout_of x }
{
    retry_if_confirmable(x, Failure::AckNakTimeout)
}

// 1, 2; unchanged, retry or 30.
pub fn connection_lost(x: Responder) -> Stepped<Responder>
    ensures { stepped result ≡ cut_of x }
{
    Stepped::unless(admitted(x), x, |x| cut(x))
}

// 1, 2, else 31.
pub fn nexus_lost(x: Responder) -> Stepped<Responder>
    ensures { stepped result ≡ loss_of x }
{
    Stepped::unless(admitted(x), x, |x| failed(x, Failure::NexusLoss))
}
