// One DATA frame that has passed 5 to 8.
ghost use Rattle.std.specs.Prelude.{◌≡◌, length};
ghost use Rattle.status.specs.Stepped.{stepped};
ghost use Rattle.receiver_steps.specs.DataFrame.{storing};
ghost use Rattle.receiver.specs.DataFrame.{arrival_of};

use receiver_steps::Receiver;
use status::Stepped;

// 1, 2; discarded (filled); 20, 21, 22; discarded, stored or received.
pub fn data_received(
    r: Receiver,
    offset: u32,
    cdp: bool,
    iu: &[u8],
    buffer: &mut [u8],
) -> Stepped<Receiver>
    ensures { (stepped result ≡ arrival_of r offset cdp (length iu.now) (length buffer.old)) × (buffer.new ≡ storing (arrival_of r offset cdp (length iu.now) (length buffer.old)).says offset iu.now buffer.old) }
{
    let ok = receiver_steps::lent(r, buffer.len());
    // `Stepped::unless` says nothing of a lent buffer, so the match stands here.
    match status::admit(ok, r.ended) {
        Err(why) => Stepped::refused(r, why),
        Ok(()) => receiver_steps::data_step(r, offset, cdp, iu, buffer),
    }
}
