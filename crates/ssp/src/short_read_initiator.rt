// The short path of a read at the initiator: what it tests.
ghost use Rattle.std.specs.Prelude.{◌≡◌, true};
ghost use Rattle.ssp.specs.ShortReceive.{ReadNext};

use crate::short_receive;
use initiator::Receiver;

// 1 and 2 do not apply, and the frame is the next one in order.
pub(crate) fn is_next(r: Receiver, bytes: &[u8], room: usize) -> bool
    ensures { result ≡ true → ReadNext r bytes.now room }
{
    short_receive::is_next(r, bytes)
        && !r.transfer.write
        && !r.ended
        && receiver_steps::lent(r, room)
}
