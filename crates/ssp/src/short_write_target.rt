// The short path of a write at the target: what it tests and leaves.
ghost use Rattle.std.specs.Prelude.{◌≡◌, true, ◌≤◌, length};
ghost use Rattle.frame.specs.Format.{field};
ghost use Rattle.target.specs.Arrival.{lent_of};
ghost use Rattle.target.specs.Record.{READY};
ghost use Rattle.ssp.specs.ShortReceive.{Fits, Next, WriteNext, write_grown_of};

use crate::short_receive;
use target::Target;

// Of a record whose XFER_RDY had its ACK: number 1 does not apply.
// Joined by `&`: by `&&` an arrival takes 10 instructions more.
#[tactic(auto, using(crate::proofs::TargetCases::lent_well))]
fn is_lent(x: Target, room: usize) -> bool
    ensures { result ≡ true → x.state ≡ READY → x.receiver.transfer.write ≡ true → lent_of x room ≡ true }
{
    let r = x.receiver;
    let t = r.transfer;
    receiver_steps::holds(r)
        & (r.base < r.end)
        & (x.retries <= t.limit)
        & (x.since <= 16)
        & (x.elapsed <= t.irt)
        & (room == (t.count as usize))
}

// The frame is the next one in order, and carries the record's tag.
fn is_due(x: Target, bytes: &[u8]) -> bool
    ensures { result ≡ true → Fits x.receiver (length bytes.now) × Next x.receiver bytes.now × (field bytes.now 18 2 ≡ x.tptt) }
{
    short_receive::is_next(x.receiver, bytes) && frame::transfer_tag(bytes) == x.tptt
}

// 1 and 2 do not apply to such a frame.
pub(crate) fn is_next(x: Target, bytes: &[u8], room: usize) -> bool
    ensures { result ≡ true → WriteNext x bytes.now room }
{
    let r = x.receiver;
    is_due(x, bytes) && r.transfer.write && !r.ended && x.state == Target::READY && is_lent(x, room)
}

// The data of a frame of n bytes is stored.
pub(crate) fn grow(x: &mut Target, n: usize)
    requires { (24 ≤ n) × Fits x.old.receiver n }
    ensures { x.new ≡ write_grown_of x.old n }
{
    short_receive::grow(&mut x.receiver, n);
    x.elapsed = 0;
    x.stored = true;
    x.under = x.tptt;
    x.since = 0;
}
