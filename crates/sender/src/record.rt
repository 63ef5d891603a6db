// The set-up for a read.
ghost use Rattle.std.specs.Prelude.{◌≡◌};
ghost use Rattle.status.specs.Result.{or_refusal};
ghost use Rattle.sender.specs.Record.{set_up_read_of};

use sender_steps::{Burst, Sender};
use status::Refusal;
use transfer::Transfer;

// The target's sending end of a read: 1, else the record.
#[tactic(auto, unfolding(status::specs::Result::granted, status::specs::Pick::pick))]
pub fn set_up_read(t: Transfer) -> Result<Sender, Refusal>
    ensures { or_refusal result ≡ set_up_read_of t }
{
    if t.limits_hold() & !t.write {
        let end = t.past() as u32;
        let whole = Burst {
            base: t.start,
            end,
            tptt: 0,
            limit: t.limit,
        };
        Ok(sender_steps::begin(t, whole))
    } else {
        Err(Refusal::BadRequest)
    }
}
