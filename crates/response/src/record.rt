// The record: its set-up, and the tests of number 1.
ghost use Rattle.std.specs.Prelude.{◌≡◌};
ghost use Rattle.status.specs.Result.{or_refusal};
ghost use Rattle.status.specs.Pick.{all};
ghost use Rattle.response.specs.Record.{most_of, holds_of, ended_of, set_up_tests, set_up_of};

use crate::types::Responder;
use status::Refusal;
use transfer::Transfer;

// Resent up to the limit, and once even with retries off.
pub(crate) fn most(x: Responder) -> u32
    ensures { result ≡ most_of x }
{
    x.transfer.limit.max(1)
}

// The limits hold, and an IU of that length can be a RESPONSE's.
fn fits(t: Transfer, len: u32) -> bool
    ensures { result ≡ all (set_up_tests t len) }
{
    t.limits_hold() & (Responder::LEN_LEAST <= len) & (len <= Responder::LEN_MOST)
}

// Number 1 does not apply: limits, length and retries are in order.
#[tactic(auto, unfolding(crate::specs::Record::holds_of, crate::specs::Record::tests))]
pub(crate) fn holds(x: Responder) -> bool
    ensures { result ≡ holds_of x }
{
    fits(x.transfer, x.len) & (x.retries <= most(x))
}

// The record has ended: nothing is unanswered.
pub(crate) fn ended(mut x: Responder) -> Responder
    ensures { result ≡ ended_of x }
{
    x.unanswered = false;
    x.ended = true;
    x
}

// 1 (also for an IU of other than 24 to 1,024 bytes), else the record.
#[tactic(auto, unfolding(status::specs::Result::granted, status::specs::Pick::pick))]
pub fn set_up(t: Transfer, len: u32) -> Result<Responder, Refusal>
    ensures { or_refusal result ≡ set_up_of t len }
{
    if fits(t, len) {
        Ok(Responder {
            transfer: t,
            len,
            unanswered: false,
            retries: 0,
            ended: false,
        })
    } else {
        Err(Refusal::BadRequest)
    }
}
