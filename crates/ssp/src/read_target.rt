// A read at the target: its sending record in place.
ghost use Rattle.std.specs.Prelude.{◌≡◌};
ghost use Rattle.frame.specs.Write.{handing};
ghost use Rattle.sender.specs.Record.{set_up_read_of};
ghost use Rattle.target.specs.ReadSend.{read_ack_of, read_nak_of, read_timeout_of, read_cut_of, read_loss_of, read_next_of};
ghost use Rattle.sender_steps.specs.Transmit.{frame_of};
ghost use Rattle.target.specs.Read.{read_arrival_of};
ghost use Rattle.ssp.specs.CAnswer.{Leaves, SetsUp};

use crate::types::CAnswer;
use crate::{answer, short_read_target, short_send};
use target::Sender;
use transfer::Transfer;

// 1: the record stays as it was; else it is ready.
#[unsafe(no_mangle)]
pub extern "C" fn ssp_read_target_set_up(s: &mut Sender, t: Transfer) -> CAnswer
    ensures { SetsUp (set_up_read_of t) s.old s.new result }
{
    answer::set_up(target::set_up_read(t), s)
}

// The body for every other case stays apart from the short paths (docs/SPEED.md).
#[inline(never)]
fn whole_next_frame(s: &mut Sender, buffer: &[u8], out: &mut [u8]) -> CAnswer
    ensures { Leaves (read_next_of s.old buffer.now out.old) s.new result × (out.new ≡ handing (read_next_of s.old buffer.now out.old).says (frame_of s.old buffer.now) out.old) }
{
    answer::leave(target::read_next_frame(*s, buffer, out), s)
}

// 1, 2; wait; 3, else a frame of that length.
#[unsafe(no_mangle)]
pub extern "C" fn ssp_read_target_next_frame(
    s: &mut Sender,
    buffer: &[u8],
    out: &mut [u8],
) -> CAnswer
    ensures { Leaves (read_next_of s.old buffer.now out.old) s.new result × (out.new ≡ handing (read_next_of s.old buffer.now out.old).says (frame_of s.old buffer.now) out.old) }
{
    if short_send::is_full_due(*s, out.len()) {
        if short_read_target::is_lent(*s, buffer.len()) {
            let a = short_send::put_down(*s, buffer, out);
            short_send::send(s);
            return a;
        }
    } else if short_read_target::is_wait(*s, buffer.len()) {
        return CAnswer::word(CAnswer::WAIT);
    }
    answer::again(whole_next_frame(s, buffer, out))
}

// As above.
#[inline(never)]
fn whole_ack_received(s: &mut Sender) -> CAnswer
    ensures left { Leaves (read_ack_of s.old) s.new result }
{
    answer::leave(target::read_ack_received(*s), s)
}

// 1, 2, 4; taken, delivered, retry, or 28 (a NAK is pending).
#[unsafe(no_mangle)]
#[tactic(auto, using(crate::proofs::Cases::one_of_many, crate::proofs::Cases::last_one))]
pub extern "C" fn ssp_read_target_ack_received(s: &mut Sender) -> CAnswer
    ensures { Leaves (read_ack_of s.old) s.new result }
{
    if 1 < s.unanswered {
        if short_read_target::is_open(*s) {
            s.unanswered -= 1;
            return CAnswer::word(CAnswer::TAKEN);
        }
    } else if short_read_target::is_last(*s) {
        let a = short_send::last_told(*s);
        short_read_target::last_answered(s);
        return a;
    }
    answer::again(whole_ack_received(s))
}

// 1, 2, 4; taken, retry, or 28.
#[unsafe(no_mangle)]
pub extern "C" fn ssp_read_target_nak_received(s: &mut Sender) -> CAnswer
    ensures { Leaves (read_nak_of s.old) s.new result }
{
    answer::leave(target::read_nak_received(*s), s)
}

// 1, 2, 4; retry, 28 (a NAK is pending) or 29.
#[unsafe(no_mangle)]
pub extern "C" fn ssp_read_target_ack_nak_timeout(s: &mut Sender) -> CAnswer
    ensures { Leaves (read_timeout_of s.old) s.new result }
{
    answer::leave(target::read_ack_nak_timeout(*s), s)
}

// 1, 2; unchanged, retry, 28 (a NAK is pending) or 30.
#[unsafe(no_mangle)]
pub extern "C" fn ssp_read_target_connection_lost(s: &mut Sender) -> CAnswer
    ensures { Leaves (read_cut_of s.old) s.new result }
{
    answer::leave(target::read_connection_lost(*s), s)
}

// 1, 2, else 31.
#[unsafe(no_mangle)]
pub extern "C" fn ssp_read_target_nexus_lost(s: &mut Sender) -> CAnswer
    ensures { Leaves (read_loss_of s.old) s.new result }
{
    answer::leave(target::read_nexus_lost(*s), s)
}

// 1, 2, 5, else 6: always a refusal.
#[unsafe(no_mangle)]
pub extern "C" fn ssp_read_target_frame_received(s: &mut Sender, bytes: &[u8]) -> CAnswer
    ensures { Leaves (read_arrival_of s.old bytes.now) s.new result }
{
    answer::leave(target::read_frame_received(*s, bytes), s)
}
