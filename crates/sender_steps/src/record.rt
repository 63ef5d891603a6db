// The record: the tests of number 1, and how a burst begins.
ghost use Rattle.std.specs.Prelude.{◌≡◌};
ghost use Rattle.sender_steps.specs.Record.{holds_of, lent_of, beginning};

use crate::types::{Burst, Sender};
use transfer::Transfer;

// Number 1 does not apply: limits, marks and counts are in order. Transfer and burst are copied first: read through
// `s`, their fields took 7 to 10 instructions a call more (docs/SPEED.md).
#[tactic(auto, unfolding(crate::specs::Record::holds_of, crate::specs::Record::tests))]
pub fn holds(s: Sender) -> bool
    ensures { result ≡ holds_of s }
{
    let t = s.transfer;
    let b = s.burst;
    t.limits_hold()
        & (t.start <= b.base)
        & (b.base <= s.balance)
        & (s.balance <= s.next)
        & (s.next <= b.end)
        & ((b.end as usize) <= t.past())
        & (s.unanswered <= t.window)
        & (b.limit <= t.limit)
        & (s.retries <= b.limit)
        & (s.frames < Sender::FRAMES_END)
}

// Number 1 does not apply, the data buffer's length included.
#[tactic(auto, unfolding(crate::specs::Record::lent_of))]
pub fn lent(s: Sender, n: usize) -> bool
    ensures { result ≡ lent_of s n }
{
    holds(s) & (n == s.transfer.count as usize)
}

// A burst of which nothing is handed out yet; whether it is in order is tested at the first call.
pub fn begin(t: Transfer, b: Burst) -> Sender
    ensures { result ≡ beginning t b }
{
    Sender {
        transfer: t,
        burst: b,
        next: b.base,
        balance: b.base,
        unanswered: 0,
        nak: false,
        cdp: false,
        retries: 0,
        frames: 0,
        ended: false,
    }
}
