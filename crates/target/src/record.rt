// The record: its set-up, and the tests of number 1.
ghost use Rattle.std.specs.Prelude.{◌≡◌};
ghost use Rattle.status.specs.Stepped.{stepped};
ghost use Rattle.status.specs.Entry.{entry_of};
ghost use Rattle.status.specs.Result.{or_refusal};
ghost use Rattle.status.specs.Number.{failure_number};
ghost use Rattle.target.specs.Record.{holds_of, failed_of, set_up_write_of};

use crate::types::Target;
use status::{Answer, Failure, Refusal, Stepped};
use transfer::Transfer;

// Number 1 does not apply: limits, marks, state and counts are in order.
#[tactic(auto, unfolding(crate::specs::Record::holds_of, crate::specs::Record::tests))]
pub(crate) fn holds(x: Target) -> bool
    ensures { result ≡ holds_of x }
{
    receiver_steps::holds(x.receiver)
        & x.receiver.transfer.write
        & (x.state <= Target::READY)
        & ((x.state == Target::NONE) | (x.receiver.base < x.receiver.end))
        & (x.retries <= x.receiver.transfer.limit)
        & (x.since <= 16)
        & (x.elapsed <= x.receiver.transfer.irt)
}

// 1, then 2. Each record has tests of its own, so each port has this.
pub(crate) fn admitted(x: Target) -> Result<(), Refusal>
    ensures { result ≡ entry_of (holds_of x) x.receiver.ended }
{
    status::admit(holds(x), x.receiver.ended)
}

// A failure ends the port: nothing is unanswered.
#[tactic(auto, unfolding(status::specs::Pick::pick))]
pub(crate) fn failed(mut x: Target, why: Failure) -> Stepped<Target>
    ensures { stepped result ≡ failed_of x (failure_number why) }
{
    x.receiver.ended = true;
    if x.state == Target::UNANSWERED {
        x.state = Target::AGAIN;
    }
    Stepped {
        left: x,
        answer: Answer::Failed(why, 0),
    }
}

// No XFER_RDY is handed out yet: 1, else the record with an empty burst at 0, filled.
#[tactic(auto, unfolding(status::specs::Result::granted, status::specs::Pick::pick))]
pub fn set_up_write(t: Transfer) -> Result<Target, Refusal>
    ensures { or_refusal result ≡ set_up_write_of t }
{
    if t.limits_hold() & t.write {
        Ok(Target {
            receiver: receiver_steps::begin(t, 0, 0),
            state: Target::NONE,
            tptt: 0,
            retries: 0,
            stored: false,
            under: 0,
            since: 0,
            elapsed: 0,
        })
    } else {
        Err(Refusal::BadRequest)
    }
}
