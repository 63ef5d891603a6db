// ACK, NAK, timeout, cut and nexus loss.
// Each event of the paper keeps a public name of its own: what differs is its step or its number.
// The tests of a record, what a cut and a retry do to it, and whether a buffer is its own are each port's: no generic
// is plainer.
ghost use Rattle.std.specs.Prelude.{◌≡◌, []};
ghost use Rattle.status.specs.Stepped.{stepped};
ghost use Rattle.status.specs.Entry.{entry_of};
ghost use Rattle.sender_steps.specs.Record.{holds_of};
ghost use Rattle.sender_steps.specs.Count.{Counts};
ghost use Rattle.sender.specs.Confirmation.{confirms_of, ack_of, nak_of, timeout_of, cut_step_of, cut_of, loss_of};

use sender_steps::Sender;
use status::{Answer, Failure, Refusal, Stepped};

// 1, then 2. Each record has tests of its own, so each port has this.
fn admitted(s: Sender) -> Result<(), Refusal>
    ensures { result ≡ entry_of (holds_of s) s.ended }
{
    status::admit(sender_steps::holds(s), s.ended)
}

// 1, 2, then 4, of an ACK. Built in: apart, an ACK that is refused takes 70 instructions more (docs/SPEED.md).
#[inline(always)]
#[tactic(auto, unfolding(crate::specs::Confirmation::confirms_of))]
fn confirms(s: Sender) -> Result<(), Refusal>
    ensures { result ≡ confirms_of s }
{
    status::confirmable(sender_steps::holds(s), s.ended, s.unanswered != 0)
}

// The same of a NAK and a timeout. Apart: built in, a NAK in a write takes 41 instructions more.
#[inline(never)]
fn confirmable(s: Sender) -> Result<(), Refusal>
    ensures { result ≡ confirms_of s }
{
    confirms(s)
}

// 1, 2, 4; taken, delivered, retry, or 28 (a NAK is pending).
pub fn ack_received(s: Sender) -> Stepped<Sender>
    ensures { (stepped result ≡ ack_of s) × Counts s [] (stepped result) }
{
    Stepped::unless(confirms(s), s, |s| sender_steps::ack_step(s))
}

// 1, 2, 4; taken, retry, or 28.
pub fn nak_received(s: Sender) -> Stepped<Sender>
    ensures { (stepped result ≡ nak_of s) × Counts s [] (stepped result) }
{
    Stepped::unless(confirmable(s), s, |s| sender_steps::nak_step(s))
}

// 1, 2, 4; retry, 28 (a NAK is pending) or 29.
pub fn ack_nak_timeout(s: Sender) -> Stepped<Sender>
    ensures { (stepped result ≡ timeout_of s) × Counts s [] (stepped result) }
{
    Stepped::unless(confirmable(s), s, |s| {
        sender_steps::retry_step(s, Failure::AckNakTimeout)
    })
}

// A cut with none unanswered changes nothing.
#[tactic(auto, unfolding(status::specs::Pick::pick))]
fn cut(s: Sender) -> Stepped<Sender>
    ensures { stepped result ≡ cut_step_of s }
{
    if s.unanswered == 0 {
        Stepped {
            left: s,
            answer: Answer::Unchanged,
        }
    } else {
        sender_steps::retry_step(s, Failure::ConnectionLost)
    }
}

// 1, 2; unchanged, retry, 28 (a NAK is pending) or 30.
pub fn connection_lost(s: Sender) -> Stepped<Sender>
    ensures { (stepped result ≡ cut_of s) × Counts s [] (stepped result) }
{
    Stepped::unless(admitted(s), s, |s| cut(s))
}

// 1, 2, else 31.
pub fn nexus_lost(s: Sender) -> Stepped<Sender>
    ensures { (stepped result ≡ loss_of s) × Counts s [] (stepped result) }
{
    Stepped::unless(
        admitted(s),
        s,
        |s| sender_steps::failed(s, Failure::NexusLoss),
    )
}
