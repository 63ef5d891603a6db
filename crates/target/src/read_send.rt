// A read's frames asked for at the target and their confirmations: the sending port's, for a read's record; a write's
// is 1. Each event of the paper keeps a public name of its own: what differs is its step or its number.
ghost use Rattle.std.specs.Prelude.{[], ◌≡◌};
ghost use Rattle.status.specs.Stepped.{stepped};
ghost use Rattle.frame.specs.Write.{handing};
ghost use Rattle.sender_steps.specs.Count.{Counts};
ghost use Rattle.sender_steps.specs.Transmit.{frame_of};
ghost use Rattle.target.specs.ReadSend.{is_read_of, read_next_of, read_ack_of, read_nak_of, read_timeout_of, read_cut_of, read_loss_of};

use sender::Sender;
use status::{Refusal, Stepped};

// A write's record is 1.
#[tactic(auto, unfolding(status::specs::Pick::pick))]
fn is_read(s: Sender) -> Result<(), Refusal>
    ensures { result ≡ is_read_of s }
{
    if s.transfer.write {
        Err(Refusal::BadRequest)
    } else {
        Ok(())
    }
}

// 1, 2; wait; 3, else a frame of that length. A `match`, since `Stepped::unless` says nothing of a lent buffer.
pub fn read_next_frame(s: Sender, buffer: &[u8], out: &mut [u8]) -> Stepped<Sender>
    ensures { (stepped result ≡ read_next_of s buffer.now out.old) × (out.new ≡ handing (read_next_of s buffer.now out.old).says (frame_of s buffer.now) out.old) × Counts s (frame_of s buffer.now) (stepped result) }
{
    match is_read(s) {
        Err(why) => Stepped::refused(s, why),
        Ok(()) => sender::next_frame(s, buffer, out),
    }
}

// 1, 2, 4; taken, delivered, retry, or 28 (a NAK is pending).
pub fn read_ack_received(s: Sender) -> Stepped<Sender>
    ensures { (stepped result ≡ read_ack_of s) × Counts s [] (stepped result) }
{
    Stepped::unless(is_read(s), s, |s| sender::ack_received(s))
}

// 1, 2, 4; taken, retry, or 28.
pub fn read_nak_received(s: Sender) -> Stepped<Sender>
    ensures { (stepped result ≡ read_nak_of s) × Counts s [] (stepped result) }
{
    Stepped::unless(is_read(s), s, |s| sender::nak_received(s))
}

// 1, 2, 4; retry, 28 (a NAK is pending) or 29.
pub fn read_ack_nak_timeout(s: Sender) -> Stepped<Sender>
    ensures { (stepped result ≡ read_timeout_of s) × Counts s [] (stepped result) }
{
    Stepped::unless(is_read(s), s, |s| sender::ack_nak_timeout(s))
}

// 1, 2; unchanged, retry, 28 (a NAK is pending) or 30.
pub fn read_connection_lost(s: Sender) -> Stepped<Sender>
    ensures { (stepped result ≡ read_cut_of s) × Counts s [] (stepped result) }
{
    Stepped::unless(is_read(s), s, |s| sender::connection_lost(s))
}

// 1, 2, else 31.
pub fn read_nexus_lost(s: Sender) -> Stepped<Sender>
    ensures { (stepped result ≡ read_loss_of s) × Counts s [] (stepped result) }
{
    Stepped::unless(is_read(s), s, |s| sender::nexus_lost(s))
}
