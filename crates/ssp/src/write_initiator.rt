// A write at the initiator: its record in place.
ghost use Rattle.std.specs.Prelude.{◌≡◌};
ghost use Rattle.frame.specs.Write.{handing};
ghost use Rattle.initiator.specs.WriteRecord.{set_up_write_of};
ghost use Rattle.initiator.specs.WriteSend.{ack_of, nak_of, timeout_of, cut_of, loss_of, begun_of, next_of};
ghost use Rattle.sender_steps.specs.Transmit.{frame_of};
ghost use Rattle.initiator.specs.WriteTake.{write_arrival_of};
ghost use Rattle.ssp.specs.CAnswer.{Leaves, SetsUp};

use crate::types::CAnswer;
use crate::{answer, short_send, short_write_initiator};
use initiator::Writer;
use transfer::Transfer;

// 1: the record stays as it was; else it is ready.
#[unsafe(no_mangle)]
pub extern "C" fn ssp_write_initiator_set_up(s: &mut Writer, t: Transfer) -> CAnswer
    ensures { SetsUp (set_up_write_of t) s.old s.new result }
{
    answer::set_up(initiator::set_up_write(t), s)
}

// The body for every other case stays apart from the short paths (docs/SPEED.md).
#[inline(never)]
fn whole_next_frame(s: &mut Writer, buffer: &[u8], out: &mut [u8]) -> CAnswer
    ensures { Leaves (next_of s.old buffer.now out.old) s.new result × (out.new ≡ handing (next_of s.old buffer.now out.old).says (frame_of (begun_of s.old).sender buffer.now) out.old) }
{
    answer::leave(initiator::write_next_frame(*s, buffer, out), s)
}

// 1, 2; wait; 3, else a frame of that length.
#[unsafe(no_mangle)]
pub extern "C" fn ssp_write_initiator_next_frame(
    s: &mut Writer,
    buffer: &[u8],
    out: &mut [u8],
) -> CAnswer
    ensures { Leaves (next_of s.old buffer.now out.old) s.new result × (out.new ≡ handing (next_of s.old buffer.now out.old).says (frame_of (begun_of s.old).sender buffer.now) out.old) }
{
    if short_write_initiator::is_full_due(*s, out.len()) {
        if short_write_initiator::is_lent(*s, buffer.len()) {
            let a = short_send::put_down(s.sender, buffer, out);
            short_write_initiator::send(s, buffer.len(), out.len());
            return a;
        }
    } else if short_write_initiator::is_wait(*s, buffer.len()) {
        return CAnswer::word(CAnswer::WAIT);
    }
    answer::again(whole_next_frame(s, buffer, out))
}

// As above.
#[inline(never)]
fn whole_ack_received(s: &mut Writer) -> CAnswer
    ensures { Leaves (ack_of s.old) s.new result }
{
    answer::leave(initiator::write_ack_received(*s), s)
}

// 1, 2, 4; taken, delivered, retry, or 28 (a NAK is pending).
#[unsafe(no_mangle)]
#[tactic(auto, using(crate::proofs::WriteCases::one_of_many, crate::proofs::WriteCases::last_one))]
pub extern "C" fn ssp_write_initiator_ack_received(s: &mut Writer) -> CAnswer
    ensures { Leaves (ack_of s.old) s.new result }
{
    if 1 < s.sender.unanswered {
        if short_write_initiator::is_open(*s) {
            s.sender.unanswered -= 1;
            return CAnswer::word(CAnswer::TAKEN);
        }
    } else if short_write_initiator::is_last(*s) {
        let a = short_send::last_told(s.sender);
        s.sender.unanswered = 0;
        return a;
    }
    answer::again(whole_ack_received(s))
}

// 1, 2, 4; taken, retry, or 28.
#[unsafe(no_mangle)]
pub extern "C" fn ssp_write_initiator_nak_received(s: &mut Writer) -> CAnswer
    ensures { Leaves (nak_of s.old) s.new result }
{
    answer::leave(initiator::write_nak_received(*s), s)
}

// 1, 2, 4; taken, retry, 28 (a NAK is pending) or 29.
#[unsafe(no_mangle)]
pub extern "C" fn ssp_write_initiator_ack_nak_timeout(s: &mut Writer) -> CAnswer
    ensures { Leaves (timeout_of s.old) s.new result }
{
    answer::leave(initiator::write_ack_nak_timeout(*s), s)
}

// 1, 2; unchanged, taken, retry, 28 (a NAK is pending) or 30.
#[unsafe(no_mangle)]
pub extern "C" fn ssp_write_initiator_connection_lost(s: &mut Writer) -> CAnswer
    ensures { Leaves (cut_of s.old) s.new result }
{
    answer::leave(initiator::write_connection_lost(*s), s)
}

// 1, 2, else 31.
#[unsafe(no_mangle)]
pub extern "C" fn ssp_write_initiator_nexus_lost(s: &mut Writer) -> CAnswer
    ensures { Leaves (loss_of s.old) s.new result }
{
    answer::leave(initiator::write_nexus_lost(*s), s)
}

// 1, 2, 5, 6, 7, 8; XFER_RDY 23, 24, 27, 26, 25, else which burst it is for; RESPONSE 32, 34, else what its IU says and
// where it stands.
#[unsafe(no_mangle)]
pub extern "C" fn ssp_write_initiator_frame_received(s: &mut Writer, bytes: &[u8]) -> CAnswer
    ensures { Leaves (write_arrival_of s.old bytes.now) s.new result }
{
    answer::leave(initiator::write_frame_received(*s, bytes), s)
}
