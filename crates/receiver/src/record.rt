// The set-up for a read, and the nexus loss.
ghost use Rattle.std.specs.Prelude.{◌≡◌};
ghost use Rattle.status.specs.Stepped.{stepped};
ghost use Rattle.status.specs.Result.{or_refusal};
ghost use Rattle.receiver.specs.Record.{set_up_read_of, loss_of};

use receiver_steps::Receiver;
use status::{Failure, Refusal, Stepped};
use transfer::Transfer;

// The initiator's receiving end of a read: 1, else the record.
pub fn set_up_read(t: Transfer) -> Result<Receiver, Refusal>
    ensures { or_refusal result ≡ set_up_read_of t }
{
    if t.limits_hold() & !t.write {
        Ok(receiver_steps::begin(t, t.start, t.past() as u32))
    } else {
        Err(Refusal::BadRequest)
    }
}

// 1, 2, else 31.
pub fn nexus_lost(r: Receiver) -> Stepped<Receiver>
    ensures { stepped result ≡ loss_of r }
{
    let entry = status::admit(receiver_steps::holds(r), r.ended);
    Stepped::unless(entry, r, |r| receiver_steps::failed(r, Failure::NexusLoss))
}
