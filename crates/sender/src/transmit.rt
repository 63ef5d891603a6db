// A frame asked for.
ghost use Rattle.std.specs.Prelude.{◌≡◌};
ghost use Rattle.status.specs.Stepped.{stepped};
ghost use Rattle.frame.specs.Write.{handing};
ghost use Rattle.sender_steps.specs.Transmit.{frame_of};
ghost use Rattle.sender.specs.Transmit.{next_of};
ghost use Rattle.sender_steps.specs.Count.{Counts};

use sender_steps::Sender;
use status::Stepped;

// 1, 2; wait; 3, else a frame of that length. A `match`, since what `Stepped::unless` promises says nothing of `out`.
#[tactic(auto, unfolding(crate::specs::Transmit::next_of))]
pub fn next_frame(s: Sender, buffer: &[u8], out: &mut [u8]) -> Stepped<Sender>
    ensures { (stepped result ≡ next_of s buffer.now out.old) × (out.new ≡ handing (next_of s buffer.now out.old).says (frame_of s buffer.now) out.old) × Counts s (frame_of s buffer.now) (stepped result) }
{
    match status::admit(sender_steps::lent(s, buffer.len()), s.ended) {
        Err(why) => Stepped::refused(s, why),
        Ok(()) => sender_steps::frame_step(s, buffer, out),
    }
}
