// A read at the initiator: its receiving record in place.
ghost use Rattle.std.specs.Prelude.{◌≡◌, length};
ghost use Rattle.frame.specs.Read.{header_in, iu_of};
ghost use Rattle.receiver_steps.specs.DataFrame.{storing};
ghost use Rattle.receiver.specs.Record.{set_up_read_of};
ghost use Rattle.initiator.specs.Read.{read_loss_of, read_arrival_of};
ghost use Rattle.ssp.specs.CAnswer.{Leaves, SetsUp};

use crate::types::CAnswer;
use crate::{answer, short_read_initiator, short_receive};
use initiator::Receiver;
use transfer::Transfer;

// 1: the record stays as it was; else it is ready.
#[unsafe(no_mangle)]
pub extern "C" fn ssp_read_initiator_set_up(s: &mut Receiver, t: Transfer) -> CAnswer
    ensures { SetsUp (set_up_read_of t) s.old s.new result }
{
    answer::set_up(initiator::set_up_read(t), s)
}

// 1, 2, else 31.
#[unsafe(no_mangle)]
pub extern "C" fn ssp_read_initiator_nexus_lost(s: &mut Receiver) -> CAnswer
    ensures { Leaves (read_loss_of s.old) s.new result }
{
    answer::leave(initiator::read_nexus_lost(*s), s)
}

// The body for every other case stays apart from the short path (docs/SPEED.md).
#[inline(never)]
fn whole_frame_received(s: &mut Receiver, bytes: &[u8], buffer: &mut [u8]) -> CAnswer
    ensures { Leaves (read_arrival_of s.old bytes.now (length buffer.old)) s.new result × (buffer.new ≡ storing (read_arrival_of s.old bytes.now (length buffer.old)).says (header_in bytes.now).offset (iu_of bytes.now) buffer.old) }
{
    answer::leave(initiator::read_frame_received(*s, bytes, buffer), s)
}

// 1, 2, 5, 6, 7, 8; DATA discarded, 20, 21, 22, stored or received; XFER_RDY 23, 24, 27; RESPONSE 32, 34, else what its
// IU says and where it stands.
#[unsafe(no_mangle)]
pub extern "C" fn ssp_read_initiator_frame_received(
    s: &mut Receiver,
    bytes: &[u8],
    buffer: &mut [u8],
) -> CAnswer
    ensures { Leaves (read_arrival_of s.old bytes.now (length buffer.old)) s.new result × (buffer.new ≡ storing (read_arrival_of s.old bytes.now (length buffer.old)).says (header_in bytes.now).offset (iu_of bytes.now) buffer.old) }
{
    if short_read_initiator::is_next(*s, bytes, buffer.len()) {
        let a = short_receive::store(*s, bytes, buffer);
        short_receive::grow(s, bytes.len());
        return a;
    }
    answer::again(whole_frame_received(s, bytes, buffer))
}
