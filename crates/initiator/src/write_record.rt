// The record of a write command: its set-up, the tests of number 1, and how a burst starts.
ghost use Rattle.std.specs.Prelude.{◌≡◌};
ghost use Rattle.status.specs.Entry.{entry_of};
ghost use Rattle.status.specs.Result.{or_refusal};
ghost use Rattle.status.specs.Stepped.{stepped};
ghost use Rattle.initiator.specs.WriteRecord.{holds_of, begins_of, set_up_write_of};
ghost use Rattle.initiator.specs.WriteSend.{lifted_of};

use crate::types::Writer;
use sender::{Burst, Sender};
use status::{Refusal, Stepped};
use transfer::Transfer;

// Number 1 does not apply: limits, marks and counts are in order.
#[tactic(auto, unfolding(crate::specs::WriteRecord::holds_of, crate::specs::WriteRecord::tests))]
pub(crate) fn writer_holds(w: Writer) -> bool
    ensures { result ≡ holds_of w }
{
    let s = w.sender;
    let t = s.transfer;
    let n = w.taken;
    sender_steps::holds(s)
        & t.write
        & (s.next <= w.reached)
        & (w.reached <= s.burst.end)
        & (n.base <= n.end)
        & (n.end <= t.count)
        & (n.limit <= t.limit)
}

// 1, then 2. Each record has tests of its own, so each port has this.
pub(crate) fn admitted(w: Writer) -> Result<(), Refusal>
    ensures { result ≡ entry_of (holds_of w) w.sender.ended }
{
    status::admit(writer_holds(w), w.sender.ended)
}

// What the sending port answers.
pub(crate) fn lift(w: Writer, x: Stepped<Sender>) -> Stepped<Writer>
    ensures { stepped result ≡ lifted_of w (stepped x) }
{
    Stepped {
        left: Writer {
            sender: x.left,
            ..w
        },
        answer: x.answer,
    }
}

// A burst starts: retries zero, no NAK pending, nothing handed out.
pub(crate) fn begin(t: Transfer, b: Burst) -> Writer
    ensures { result ≡ begins_of t b }
{
    Writer {
        sender: sender_steps::begin(t, b),
        reached: b.base,
        pending: false,
        taken: Burst {
            base: 0,
            end: 0,
            tptt: 0,
            limit: 0,
        },
    }
}

// No burst is taken yet: 1, else the record with an empty burst at 0, all handed out.
#[tactic(auto, unfolding(status::specs::Result::granted, status::specs::Pick::pick))]
pub fn set_up_write(t: Transfer) -> Result<Writer, Refusal>
    ensures { or_refusal result ≡ set_up_write_of t }
{
    if t.limits_hold() & t.write {
        let b = Burst {
            base: 0,
            end: 0,
            tptt: 0,
            limit: t.limit,
        };
        Ok(begin(t, b))
    } else {
        Err(Refusal::BadRequest)
    }
}
