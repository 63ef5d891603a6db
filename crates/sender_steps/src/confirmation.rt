// ACK, NAK, timeout, cut and nexus loss, once the event's own numbers are tested.
ghost use Rattle.std.specs.Prelude.{◌≡◌, ◌-◌};
ghost use Rattle.status.specs.Stepped.{stepped};
ghost use Rattle.status.specs.Number.{failure_number};
ghost use Rattle.sender_steps.specs.Confirmation.{lowered_of, failed_of, restart_of, retry_of, moved_of, advance_of, settle_of, cause_of, ack_step_of, nak_step_of, retry_step_of};

use crate::types::Sender;
use status::{Answer, Failure, Stepped};

// One confirmation less to come; none stays none. Public as it was: initiator takes one off too.
pub fn less_one(n: u32) -> u32
    ensures { result ≡ n - 1 }
{
    n.saturating_sub(1)
}

// One confirmation less to come, a NAK pending or not.
fn lowered(mut s: Sender, nak: bool) -> Sender
    ensures { result ≡ lowered_of s nak }
{
    s.unanswered = less_one(s.unanswered);
    s.nak = nak;
    s
}

// A failure ends the port.
pub fn failed(mut s: Sender, cause: Failure) -> Stepped<Sender>
    ensures { stepped result ≡ failed_of s (failure_number cause) }
{
    s.unanswered = 0;
    s.nak = false;
    s.ended = true;
    Stepped {
        left: s,
        answer: Answer::Failed(cause, s.frames),
    }
}

// Where a retry goes on: the balance point of a read, the base of a write.
#[tactic(auto, unfolding(status::specs::Pick::pick))]
fn restart(s: Sender) -> u32
    ensures { result ≡ restart_of s }
{
    if s.transfer.write {
        s.burst.base
    } else {
        s.balance
    }
}

#[tactic(auto, unfolding(crate::specs::Confirmation::retry_of, status::specs::Pick::pick))]
fn retry(mut s: Sender, cause: Failure) -> Stepped<Sender>
    ensures { stepped result ≡ retry_of s (failure_number cause) }
{
    if s.retries < s.burst.limit {
        let next = restart(s);
        s.next = next;
        s.balance = next;
        s.cdp = true;
        s.retries += 1;
        s.unanswered = 0;
        s.nak = false;
        Stepped {
            left: s,
            answer: Answer::Retry,
        }
    } else {
        failed(s, cause)
    }
}

// The balance point of a read moves to the next offset; a write's stays its base.
#[tactic(auto, unfolding(status::specs::Pick::pick))]
fn moved(mut s: Sender) -> Sender
    ensures { result ≡ moved_of s }
{
    if !s.transfer.write {
        s.balance = s.next;
        s.retries = 0;
    }
    s
}

// Nothing is unanswered and no NAK pending.
#[tactic(auto, unfolding(crate::specs::Confirmation::advance_of, status::specs::Pick::pick))]
fn advance(s: Sender) -> Stepped<Sender>
    ensures { stepped result ≡ advance_of s }
{
    let mut left = moved(s);
    if s.next == s.burst.end {
        left.ended = !s.transfer.write;
        Stepped {
            left,
            answer: Answer::Delivered(s.frames),
        }
    } else {
        Stepped {
            left,
            answer: Answer::Taken,
        }
    }
}

// What ACK or NAK leave, once the count is lowered.
#[tactic(auto, unfolding(crate::specs::Confirmation::settle_of, status::specs::Pick::pick))]
fn settle(s: Sender) -> Stepped<Sender>
    ensures { stepped result ≡ settle_of s }
{
    if s.unanswered != 0 {
        Stepped {
            left: s,
            answer: Answer::Taken,
        }
    } else if s.nak {
        retry(s, Failure::NakReceived)
    } else {
        advance(s)
    }
}

// "by the first bad event of the attempt"
#[tactic(auto, unfolding(status::specs::Pick::pick))]
fn cause(s: Sender, event: Failure) -> Failure
    ensures { failure_number result ≡ cause_of s (failure_number event) }
{
    if s.nak { Failure::NakReceived } else { event }
}

// An ACK: taken, delivered, retry, or 28 (a NAK is pending).
pub fn ack_step(s: Sender) -> Stepped<Sender>
    ensures { stepped result ≡ ack_step_of s }
{
    settle(lowered(s, s.nak))
}

// A NAK: taken, retry, or 28.
pub fn nak_step(s: Sender) -> Stepped<Sender>
    ensures { stepped result ≡ nak_step_of s }
{
    settle(lowered(s, true))
}

// A timeout or cut with frames unanswered: retry, 28 (a NAK is pending) or the event's own number.
pub fn retry_step(s: Sender, event: Failure) -> Stepped<Sender>
    ensures { stepped result ≡ retry_step_of s (failure_number event) }
{
    retry(s, cause(s, event))
}
