// A write at the target: its record in place.
ghost use Rattle.std.specs.Prelude.{◌≡◌, length};
ghost use Rattle.frame.specs.Read.{header_in, iu_of};
ghost use Rattle.receiver_steps.specs.DataFrame.{storing};
ghost use Rattle.frame.specs.Write.{handing};
ghost use Rattle.target.specs.Record.{set_up_write_of};
ghost use Rattle.target.specs.Confirmation.{ack_of, nak_of, timeout_of, cut_of, loss_of};
ghost use Rattle.target.specs.Transmit.{frame_of, next_of};
ghost use Rattle.target.specs.Arrival.{write_arrival_of};
ghost use Rattle.target.specs.Time.{time_of};
ghost use Rattle.ssp.specs.CAnswer.{Leaves, SetsUp};

use crate::types::CAnswer;
use crate::{answer, short_receive, short_write_target};
use target::Target;
use transfer::Transfer;

// 1: the record stays as it was; else it is ready.
#[unsafe(no_mangle)]
pub extern "C" fn ssp_write_target_set_up(s: &mut Target, t: Transfer) -> CAnswer
    ensures { SetsUp (set_up_write_of t) s.old s.new result }
{
    answer::set_up(target::set_up_write(t), s)
}

// 1, 2; wait; 3, else an XFER_RDY of that length.
#[unsafe(no_mangle)]
pub extern "C" fn ssp_write_target_next_frame(s: &mut Target, out: &mut [u8]) -> CAnswer
    ensures { Leaves (next_of s.old out.old) s.new result × (out.new ≡ handing (next_of s.old out.old).says (frame_of s.old) out.old) }
{
    answer::leave(target::write_next_frame(*s, out), s)
}

// 1, 2, 4, else acknowledged.
#[unsafe(no_mangle)]
pub extern "C" fn ssp_write_target_ack_received(s: &mut Target) -> CAnswer
    ensures { Leaves (ack_of s.old) s.new result }
{
    answer::leave(target::write_ack_received(*s), s)
}

// 1, 2, 4; retry or 28.
#[unsafe(no_mangle)]
pub extern "C" fn ssp_write_target_nak_received(s: &mut Target) -> CAnswer
    ensures { Leaves (nak_of s.old) s.new result }
{
    answer::leave(target::write_nak_received(*s), s)
}

// 1, 2, 4; retry or 29.
#[unsafe(no_mangle)]
pub extern "C" fn ssp_write_target_ack_nak_timeout(s: &mut Target) -> CAnswer
    ensures { Leaves (timeout_of s.old) s.new result }
{
    answer::leave(target::write_ack_nak_timeout(*s), s)
}

// 1, 2; unchanged, retry or 30.
#[unsafe(no_mangle)]
pub extern "C" fn ssp_write_target_connection_lost(s: &mut Target) -> CAnswer
    ensures { Leaves (cut_of s.old) s.new result }
{
    answer::leave(target::write_connection_lost(*s), s)
}

// 1, 2, else 31.
#[unsafe(no_mangle)]
pub extern "C" fn ssp_write_target_nexus_lost(s: &mut Target) -> CAnswer
    ensures { Leaves (loss_of s.old) s.new result }
{
    answer::leave(target::write_nexus_lost(*s), s)
}

// 1, 2; unchanged outside the span; 33 or taken.
#[unsafe(no_mangle)]
pub extern "C" fn ssp_write_target_time_reported(s: &mut Target, milliseconds: u16) -> CAnswer
    ensures { Leaves (time_of s.old milliseconds) s.new result }
{
    answer::leave(target::write_time_reported(*s, milliseconds), s)
}

// The body for every other case stays apart from the short path (docs/SPEED.md).
#[inline(never)]
fn whole_frame_received(s: &mut Target, bytes: &[u8], buffer: &mut [u8]) -> CAnswer
    ensures { Leaves (write_arrival_of s.old bytes.now (length buffer.old)) s.new result × (buffer.new ≡ storing (write_arrival_of s.old bytes.now (length buffer.old)).says (header_in bytes.now).offset (iu_of bytes.now) buffer.old) }
{
    answer::leave(target::write_frame_received(*s, bytes, buffer), s)
}

// 1, 2, 5, 6, 7, 8; DATA discarded, 20, 21, 22, stored or received.
#[unsafe(no_mangle)]
pub extern "C" fn ssp_write_target_frame_received(
    s: &mut Target,
    bytes: &[u8],
    buffer: &mut [u8],
) -> CAnswer
    ensures { Leaves (write_arrival_of s.old bytes.now (length buffer.old)) s.new result × (buffer.new ≡ storing (write_arrival_of s.old bytes.now (length buffer.old)).says (header_in bytes.now).offset (iu_of bytes.now) buffer.old) }
{
    if short_write_target::is_next(*s, bytes, buffer.len()) {
        let a = short_receive::store(s.receiver, bytes, buffer);
        short_write_target::grow(s, bytes.len());
        return a;
    }
    answer::again(whole_frame_received(s, bytes, buffer))
}
