// The short paths of the sending ports, where a read's target and a write's initiator do the same.
ghost use Rattle.std.specs.Prelude.{◌≡◌, true, ◌+◌, length};
ghost use Rattle.frame.specs.Write.{over};
ghost use Rattle.sender_steps.specs.Transmit.{frame_of, sent_of, waits_of};
ghost use Rattle.ssp.specs.CAnswer.{answer_with};
ghost use Rattle.ssp.specs.ShortSend.{FullDue, Full, Sendable, last_told};

use crate::types::CAnswer;
use sender_steps::Sender;

// A frame of the full data size is due, and there is room for it. The last two tests stand here too, so that the
// compiler drops the writer's (docs/SPEED.md). Joined by `&`: by `&&` a frame asked for in a write takes 12
// instructions more.
pub(crate) fn is_full_due(s: Sender, room: usize) -> bool
    ensures { result ≡ true → FullDue s room }
{
    let t = s.transfer;
    let past = (s.next as usize) + (t.size as usize);
    let length = 24 + (t.size as usize);
    !s.nak
        & (s.unanswered < t.window)
        & (past <= (s.burst.end as usize))
        & (length <= room)
        & (t.size <= 1024)
        & (t.size % 4 == 0)
}

// No frame is due. The same line is private in sender_steps: a public one would be one name more for a step's own test.
#[tactic(auto, unfolding(sender_steps::specs::Transmit::waits_of))]
pub(crate) fn waits(s: Sender) -> bool
    ensures { result ≡ waits_of s }
{
    s.nak || s.transfer.window <= s.unanswered || s.next == s.burst.end
}

// The frame is put down.
pub(crate) fn put_down(s: Sender, buffer: &[u8], out: &mut [u8]) -> CAnswer
    requires { Full s (length buffer.now) (length out.old) }
    ensures { (result ≡ answer_with 0 3 0 0 (24 + s.transfer.size)) × (out.new ≡ over (frame_of s buffer.now) out.old) }
{
    let size = s.transfer.size as usize;
    let from = (s.next - s.transfer.start) as usize;
    let to = from + size;
    frame::write_full(sender_steps::header(s), &buffer[from..to], out);
    CAnswer {
        what: CAnswer::FRAME,
        len: 24 + size,
        ..CAnswer::NONE
    }
}

// It is handed out.
pub(crate) fn send(s: &mut Sender)
    requires { Sendable s.old }
    ensures { s.new ≡ sent_of s.old }
{
    s.next += s.transfer.size;
    s.unanswered += 1;
    s.cdp = false;
    s.frames += 1;
}

// The ACK of the last frame: it is delivered, or more is to be sent.
#[tactic(auto, unfolding(crate::specs::ShortSend::last_told, status::specs::Pick::pick))]
pub(crate) fn last_told(s: Sender) -> CAnswer
    ensures { result ≡ last_told s }
{
    if s.next == s.burst.end {
        return CAnswer {
            what: CAnswer::DELIVERED,
            frames: s.frames,
            ..CAnswer::NONE
        };
    }
    CAnswer::word(CAnswer::TAKEN)
}
