// The short path of a write at the initiator: what it tests and leaves.
ghost use Rattle.std.specs.Prelude.{◌≡◌, true, false};
ghost use Rattle.initiator.specs.WriteRecord.{holds_of};
ghost use Rattle.initiator.specs.WriteSend.{lent_of};
ghost use Rattle.ssp.specs.ShortSend.{FullDue};
ghost use Rattle.ssp.specs.ShortWrite.{WriteOpen, LastOne, WriteLent, FullFrame, handed_out, WaitDue};

use crate::short_send;
use initiator::Writer;

// Of a write's record: 1 does not apply. Joined by `&`: by `&&` an ACK takes 121 instructions, not 92.
#[tactic(auto, using(crate::proofs::WriteCases::holds_well))]
fn holds(w: Writer) -> bool
    ensures { result ≡ true → w.sender.transfer.write ≡ true → holds_of w ≡ true }
{
    let s = w.sender;
    let t = s.transfer;
    let n = w.taken;
    sender_steps::holds(s)
        & (s.next <= w.reached)
        & (w.reached <= s.burst.end)
        & (n.base <= n.end)
        & (n.end <= t.count)
        & (n.limit <= t.limit)
}

// 1 and 2 do not apply.
pub(crate) fn is_open(w: Writer) -> bool
    ensures { result ≡ true → WriteOpen w }
{
    w.sender.transfer.write && !w.sender.ended && holds(w)
}

// An ACK leaves nothing unanswered; no burst is taken, and no NAK is pending.
pub(crate) fn is_last(w: Writer) -> bool
    ensures { result ≡ true → LastOne w }
{
    !w.sender.nak && !w.pending && w.sender.unanswered == 1 && is_open(w)
}

// 1 does not apply, with a data buffer of n bytes. Joined by `&`: by `&&` a frame asked for takes 32 instructions more.
#[tactic(auto, using(crate::proofs::WriteCases::lent_well))]
fn lent(w: Writer, n: usize) -> bool
    ensures { result ≡ true → w.sender.transfer.write ≡ true → lent_of w n ≡ true }
{
    holds(w) & (n == (w.sender.transfer.count as usize))
}

// 1 and 2 do not apply, with such a buffer.
// Built into both callers: apart, a frame asked for takes 74 instructions more.
#[inline(always)]
pub(crate) fn is_lent(w: Writer, n: usize) -> bool
    ensures { result ≡ true → WriteLent w n }
{
    w.sender.transfer.write && !w.sender.ended && lent(w, n)
}

// No burst is taken; a full frame is due, and there is room for it.
// Joined by `&`: by `&&` such a frame takes 49 instructions more.
pub(crate) fn is_full_due(w: Writer, room: usize) -> bool
    ensures { result ≡ true → (w.pending ≡ false) × FullDue w.sender room }
{
    !w.pending & short_send::is_full_due(w.sender, room)
}

// The frame is handed out.
pub(crate) fn send(w: &mut Writer, n: usize, room: usize)
    requires { FullFrame w.old n room }
    ensures { w.new ≡ handed_out w.old }
{
    short_send::send(&mut w.sender);
    w.reached = w.reached.max(w.sender.next);
}

// No burst is taken, and no frame is due.
pub(crate) fn is_wait(w: Writer, n: usize) -> bool
    ensures { result ≡ true → WaitDue w n }
{
    !w.pending && short_send::waits(w.sender) && is_lent(w, n)
}
