// Arrivals of any bytes in a write command: the target takes DATA.
// The tests of a record, what a cut and a retry do to it, and whether a buffer is its own are each port's: no generic
// is plainer.
ghost use Rattle.std.specs.Prelude.{◌≡◌, true, false, length, take, drop, ◌+◌, ◌≤◌};
ghost use Rattle.status.specs.Stepped.{stepped};
ghost use Rattle.status.specs.Entry.{entry_of};
ghost use Rattle.frame.specs.Read.{header_in, iu_of};
ghost use Rattle.receiver_steps.specs.DataFrame.{storing};
ghost use Rattle.target.specs.Arrival.{freed_of, lifted_of, is_current, taken_of, lent_of, write_arrival_of};

use crate::record;
use crate::types::Target;
use arrival::{Arrived, Role};
use frame::Header;
use receiver::Receiver;
use status::{Answer, Refusal, Stepped};

// DATA stored under the current tag: the earlier ones leave use.
fn freed(mut x: Target) -> Target
    ensures { result ≡ freed_of x }
{
    x.stored = true;
    x.under = x.tptt;
    x.since = 0;
    x
}

// The receiving port's answer; where DATA was stored, the sum of milliseconds starts from zero.
#[tactic(auto, unfolding(status::specs::Pick::pick))]
fn lift(mut x: Target, z: Stepped<Receiver>) -> Stepped<Target>
    ensures { stepped result ≡ lifted_of x (stepped z) }
{
    x.receiver = z.left;
    if z.answer.stores() {
        x.elapsed = 0;
        x = freed(x);
    }
    Stepped {
        left: x,
        answer: z.answer,
    }
}

// The DATA carries the tag of the last XFER_RDY handed out.
fn is_current(x: Target, h: Header) -> bool
    ensures { result ≡ is_current x h }
{
    (x.state != Target::NONE) & (h.tptt == x.tptt)
}

// Behind 1 and 2, DATA that has passed 5 to 7 and the tag: 8 for its transfer tag; discarded until the XFER_RDY's ACK,
// then the receiving port's.
#[tactic(auto, unfolding(crate::specs::Arrival::taken_of, status::specs::Pick::pick))]
fn take(x: Target, a: Arrived, bytes: &[u8], buffer: &mut [u8]) -> Stepped<Target>
    requires { (a.start + a.len ≤ length bytes.now) × (lent_of x (length buffer.old) ≡ true) × (x.receiver.ended ≡ false) }
    ensures { (stepped result ≡ taken_of x a (length buffer.old)) × (buffer.new ≡ storing (taken_of x a (length buffer.old)).says a.header.offset (take a.len (drop a.start bytes.now)) buffer.old) }
{
    if !is_current(x, a.header) {
        return Stepped::refused(x, Refusal::UnknownTag);
    }
    if x.state != Target::READY {
        return Stepped {
            left: x,
            answer: Answer::Discarded,
        };
    }
    let iu = &bytes[a.start..a.start + a.len];
    let h = a.header;
    lift(
        x,
        receiver_steps::data_step(x.receiver, h.offset, h.flags.cdp, iu, buffer),
    )
}

// Number 1 does not apply, the data buffer's length included.
#[tactic(auto, unfolding(crate::specs::Arrival::lent_of))]
fn lent(x: Target, n: usize) -> bool
    ensures { result ≡ lent_of x n }
{
    record::holds(x) & (n == x.receiver.transfer.count as usize)
}

// 1, then 2, at a data buffer of n bytes.
fn admitted(x: Target, n: usize) -> Result<(), Refusal>
    ensures { result ≡ entry_of (lent_of x n) x.receiver.ended }
{
    status::admit(lent(x, n), x.receiver.ended)
}

// 1, 2, 5, 6, 7, 8 (tag, then TPTT); discarded (no ACK yet); then as the receiving port: discarded (filled), 20, 21,
// 22, discarded, stored or received. A `match`, since `Stepped::unless` says nothing of a lent buffer.
#[tactic(auto, unfolding(crate::specs::Arrival::write_arrival_of))]
pub fn write_frame_received(x: Target, bytes: &[u8], buffer: &mut [u8]) -> Stepped<Target>
    ensures { (stepped result ≡ write_arrival_of x bytes.now (length buffer.old)) × (buffer.new ≡ storing (write_arrival_of x bytes.now (length buffer.old)).says (header_in bytes.now).offset (iu_of bytes.now) buffer.old) }
{
    match admitted(x, buffer.len()) {
        Err(why) => Stepped::refused(x, why),
        Ok(()) => match arrival::accept(Role::WriteTarget, x.receiver.transfer, bytes) {
            Err(why) => Stepped::refused(x, why),
            Ok(a) => take(x, a, bytes, buffer),
        },
    }
}
