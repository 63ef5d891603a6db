// A write command's frames asked for, and their confirmations, over the sending port.
// Each event of the paper keeps a public name of its own: what differs is its step or its number.
// The tests of a record, what a cut and a retry do to it, and whether a buffer is its own are each port's: no generic
// is plainer.
ghost use Rattle.std.specs.Prelude.{◌-◌, ◌≡◌, []};
ghost use Rattle.status.specs.Stepped.{stepped};
ghost use Rattle.frame.specs.Write.{handing};
ghost use Rattle.sender_steps.specs.Confirmation.{ack_step_of};
ghost use Rattle.sender_steps.specs.Transmit.{frame_of, frame_step_of};
ghost use Rattle.initiator.specs.WriteRecord.{starts_of};
ghost use Rattle.initiator.specs.WriteCount.{Counts};
ghost use Rattle.initiator.specs.WriteSend.{reached_of, lent_of, held_up, begun_of, kept_of, next_of, counted_of, confirmed_of, served_of, confirms_of, ack_of, nak_of, timeout_of, cut_of, loss_of};

use crate::types::Writer;
use crate::write_record::{admitted, begin, lift, writer_holds};
use sender::Sender;
use status::{Answer, Refusal, Stepped};

// What the sending port answers to a frame asked for, which may have reached further.
fn reach(w: Writer, x: Stepped<Sender>) -> Stepped<Writer>
    ensures { stepped result ≡ reached_of w (stepped x) }
{
    let reached = w.reached.max(x.left.next);
    lift(Writer { reached, ..w }, x)
}

// A refusal leaves the record as it was.
#[tactic(auto, unfolding(status::specs::Pick::pick))]
fn keep(w: Writer, y: Stepped<Writer>) -> Stepped<Writer>
    ensures { stepped result ≡ kept_of w (stepped y) }
{
    if y.answer.refuses() {
        Stepped {
            left: w,
            answer: y.answer,
        }
    } else {
        y
    }
}

// Number 1 does not apply, the data buffer's length included.
#[tactic(auto, unfolding(crate::specs::WriteSend::lent_of))]
fn lent(w: Writer, n: usize) -> bool
    ensures { result ≡ lent_of w n }
{
    writer_holds(w) & (n == w.sender.transfer.count as usize)
}

// A burst is taken, and frames of the one before are unanswered.
fn held_up(w: Writer) -> bool
    ensures { result ≡ held_up w }
{
    w.pending & (w.sender.unanswered != 0)
}

// The burst that was taken starts.
fn start(w: Writer) -> Writer
    ensures { result ≡ starts_of w }
{
    begin(w.sender.transfer, w.taken)
}

// The burst that was taken starts with its first frame.
fn first(w: Writer, buffer: &[u8], out: &mut [u8]) -> Stepped<Writer>
    ensures { (stepped result ≡ kept_of w (reached_of (starts_of w) (frame_step_of (starts_of w).sender buffer.now out.old))) × (out.new ≡ handing (frame_step_of (starts_of w).sender buffer.now out.old).says (frame_of (starts_of w).sender buffer.now) out.old) }
{
    let v = start(w);
    keep(w, reach(v, sender_steps::frame_step(v.sender, buffer, out)))
}

// 1, 2; wait (also while a taken burst waits for confirmations); 3, else a frame of that length. A `match`, since
// `Stepped::unless` says nothing of a lent buffer.
pub fn write_next_frame(w: Writer, buffer: &[u8], out: &mut [u8]) -> Stepped<Writer>
    ensures { (stepped result ≡ next_of w buffer.now out.old) × (out.new ≡ handing (next_of w buffer.now out.old).says (frame_of (begun_of w).sender buffer.now) out.old) × Counts w (frame_of (begun_of w).sender buffer.now) (stepped result) }
{
    match status::admit(lent(w, buffer.len()), w.sender.ended) {
        Err(why) => Stepped::refused(w, why),
        Ok(()) => {
            if held_up(w) {
                Stepped {
                    left: w,
                    answer: Answer::Wait,
                }
            } else if w.pending {
                first(w, buffer, out)
            } else {
                reach(w, sender_steps::frame_step(w.sender, buffer, out))
            }
        }
    }
}

// A taken burst waits: only the count is left, and at zero the burst starts.
#[tactic(auto, unfolding(crate::specs::WriteSend::counted_of, status::specs::Pick::pick))]
fn counted(w: Writer, n: u32) -> Stepped<Writer>
    ensures { stepped result ≡ counted_of w n }
{
    let left = if n == 0 {
        start(w)
    } else {
        let sender = Sender {
            unanswered: n,
            ..w.sender
        };
        Writer { sender, ..w }
    };
    Stepped {
        left,
        answer: Answer::Taken,
    }
}

// The sending port's step, or, while a taken burst waits, the count left.
#[tactic(auto, unfolding(crate::specs::WriteSend::served_of, status::specs::Pick::pick))]
fn served(w: Writer, step: Stepped<Sender>, n: u32) -> Stepped<Writer>
    ensures { stepped result ≡ served_of w (stepped step) n }
{
    if held_up(w) {
        counted(w, n)
    } else {
        lift(w, step)
    }
}

// The same for an ACK. The step is taken only where it is needed: taken first, an ACK that starts a taken burst takes
// 442 instructions, not 250 (docs/SPEED.md).
#[tactic(auto, unfolding(crate::specs::WriteSend::served_of, status::specs::Pick::pick))]
fn acked(w: Writer) -> Stepped<Writer>
    ensures { stepped result ≡ served_of w (ack_step_of w.sender) (w.sender.unanswered - 1) }
{
    let left = sender_steps::less_one(w.sender.unanswered);
    if held_up(w) {
        counted(w, left)
    } else {
        lift(w, sender_steps::ack_step(w.sender))
    }
}

// The same, after 1 and 2.
#[tactic(auto, unfolding(crate::specs::WriteSend::confirmed_of, crate::specs::WriteSend::served_of))]
fn confirmed(w: Writer, step: Stepped<Sender>, n: u32) -> Stepped<Writer>
    ensures { stepped result ≡ confirmed_of w (stepped step) n }
{
    Stepped::unless(admitted(w), w, |w| served(w, step, n))
}

// 1, 2, then 4.
#[tactic(auto, unfolding(crate::specs::WriteSend::confirms_of))]
fn confirmable(w: Writer) -> Result<(), Refusal>
    ensures { result ≡ confirms_of w }
{
    let s = w.sender;
    status::confirmable(writer_holds(w), s.ended, s.unanswered != 0)
}

// 1, 2, 4; a burst is taken: taken; else taken, delivered, retry, or 28 (a NAK is pending).
pub fn write_ack_received(w: Writer) -> Stepped<Writer>
    ensures { (stepped result ≡ ack_of w) × Counts w [] (stepped result) }
{
    Stepped::unless(confirmable(w), w, |w| acked(w))
}

// 1, 2, 4; a burst is taken: taken; else taken, retry, or 28.
pub fn write_nak_received(w: Writer) -> Stepped<Writer>
    ensures { (stepped result ≡ nak_of w) × Counts w [] (stepped result) }
{
    let left = sender_steps::less_one(w.sender.unanswered);
    confirmed(w, sender::nak_received(w.sender), left)
}

// 1, 2, 4; a burst is taken: taken; else retry, 28 (a NAK is pending) or 29.
pub fn write_ack_nak_timeout(w: Writer) -> Stepped<Writer>
    ensures { (stepped result ≡ timeout_of w) × Counts w [] (stepped result) }
{
    confirmed(w, sender::ack_nak_timeout(w.sender), 0)
}

// 1, 2; unchanged; a burst is taken: taken; else retry, 28 (a NAK is pending) or 30.
pub fn write_connection_lost(w: Writer) -> Stepped<Writer>
    ensures { (stepped result ≡ cut_of w) × Counts w [] (stepped result) }
{
    confirmed(w, sender::connection_lost(w.sender), 0)
}

// 1, 2, else 31.
pub fn write_nexus_lost(w: Writer) -> Stepped<Writer>
    ensures { (stepped result ≡ loss_of w) × Counts w [] (stepped result) }
{
    Stepped::unless(admitted(w), w, |w| {
        lift(w, sender::nexus_lost(w.sender))
    })
}
