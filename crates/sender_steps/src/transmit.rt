// A frame asked for, once 1 and 2 are tested.
// `waits` stands once more in ssp, for the short paths: a public one would be one name more for a step's own test.
ghost use Rattle.std.specs.Prelude.{◌≡◌, true, false, length, ◌+◌, ◌^◌, ◌≤◌, ◌<◌};
ghost use Rattle.status.specs.Stepped.{stepped};
ghost use Rattle.frame.specs.Write.{handing};
ghost use Rattle.sender_steps.specs.Transmit.{waits_of, lesser, data_header, frame_of, sent_of, fits_of, writes_of, frame_step_of};

use crate::types::Sender;
use frame::{Flags, Header};
use status::{Answer, Refusal, Stepped};

#[tactic(auto, unfolding(crate::specs::Transmit::waits_of))]
fn waits(s: Sender) -> bool
    ensures { result ≡ waits_of s }
{
    s.nak | (s.transfer.window <= s.unanswered) | (s.next == s.burst.end)
}

// The lesser of the data size and what remains.
fn data_length(s: Sender) -> u32
    requires { s.next ≤ s.burst.end }
    ensures { result ≡ lesser s }
{
    s.transfer.size.min(s.burst.end - s.next)
}

// The header of the DATA frame at the next offset. Write DATA has its burst's transfer tag, read DATA the transfer's
// value.
#[tactic(auto, unfolding(crate::specs::Transmit::data_header, status::specs::Pick::pick))]
pub fn header(s: Sender) -> Header
    ensures { result ≡ data_header s }
{
    let t = s.transfer;
    Header {
        frametype: frame::DATA,
        dest: t.remote,
        source: t.local,
        flags: Flags {
            tlr: 0,
            retry: false,
            retransmit: false,
            cdp: s.cdp,
        },
        tag: t.tag,
        tptt: if t.write { s.burst.tptt } else { t.value },
        offset: s.next,
    }
}

// The record once a frame with n data bytes is handed out.
#[tactic(auto, unfolding(crate::specs::Transmit::sent_of))]
fn sent(mut s: Sender, n: u32) -> Sender
    requires { (s.next ≤ s.burst.end) × (s.unanswered < s.transfer.window) × (s.frames < 2 ^ 60) × (n ≡ lesser s) }
    ensures { result ≡ sent_of s }
{
    s.next += n;
    s.unanswered += 1;
    s.cdp = false;
    s.frames += 1;
    s
}

// A frame is due: it goes out, or the writer refuses it. s changes in place, which saves a copy of the record
// (docs/SPEED.md).
#[tactic(auto, using(crate::proofs::Fits::fits, crate::proofs::Due::due), unfolding(crate::specs::Transmit::frame_of))]
fn transmit(mut s: Sender, buffer: &[u8], out: &mut [u8]) -> Stepped<Sender>
    requires { (fits_of s (length buffer.now) ≡ true) × (waits_of s ≡ false) }
    ensures { (stepped result ≡ writes_of s buffer.now out.old) × (out.new ≡ handing (writes_of s buffer.now out.old).says (frame_of s buffer.now) out.old) }
{
    let n = data_length(s);
    let from = (s.next - s.transfer.start) as usize;
    let to = from + (n as usize);
    match frame::write(header(s), &buffer[from..to], out) {
        Ok(length) => {
            s = sent(s, n);
            Stepped {
                left: s,
                answer: Answer::Frame(length),
            }
        }
        Err(why) => Stepped::refused(s, why),
    }
}

// Of number 1 what a frame handed out leans on.
#[tactic(auto, unfolding(crate::specs::Transmit::fits_of))]
fn fits(s: Sender, n: usize) -> bool
    requires { s.transfer.start + n < 2 ^ 64 }
    ensures { result ≡ fits_of s n }
{
    let past = (s.transfer.start as usize) + n;
    (s.transfer.start <= s.next)
        & (s.next <= s.burst.end)
        & ((s.burst.end as usize) <= past)
        & (s.frames < Sender::FRAMES_END)
}

// A frame asked for: 1 where next offset, burst or frame count do not fit; wait; the writer's 1 or 3, else a frame of
// that length. One exit: with early returns the compiler does not build the step into its callers (docs/SPEED.md).
#[tactic(auto, unfolding(crate::specs::Transmit::frame_step_of, status::specs::Pick::pick))]
pub fn frame_step(s: Sender, buffer: &[u8], out: &mut [u8]) -> Stepped<Sender>
    ensures { (stepped result ≡ frame_step_of s buffer.now out.old) × (out.new ≡ handing (frame_step_of s buffer.now out.old).says (frame_of s buffer.now) out.old) }
{
    if !fits(s, buffer.len()) {
        Stepped::refused(s, Refusal::BadRequest)
    } else if waits(s) {
        Stepped {
            left: s,
            answer: Answer::Wait,
        }
    } else {
        transmit(s, buffer, out)
    }
}
