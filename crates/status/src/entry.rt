// The numbers that every entry point tests first: 1, 2, and 4 for confirmations.
ghost use Rattle.std.specs.Prelude.{◌≡◌};
ghost use Rattle.status.specs.Entry.{entry_of, confirmable_of};

use crate::words::Refusal;

// 1, then 2. `ok`: number 1 does not apply.
#[tactic(auto, unfolding(crate::specs::Entry::entry_of, crate::specs::Pick::pick))]
pub fn admit(ok: bool, ended: bool) -> Result<(), Refusal>
    ensures { result ≡ entry_of ok ended }
{
    if !ok {
        return Err(Refusal::BadRequest);
    }
    if ended {
        return Err(Refusal::TransferEnded);
    }
    Ok(())
}

// 1, 2, then 4. `some`: a frame is unanswered.
#[tactic(auto, unfolding(crate::specs::Entry::confirmable_of, crate::specs::Entry::entry_of, crate::specs::Pick::pick))]
pub fn confirmable(ok: bool, ended: bool, some: bool) -> Result<(), Refusal>
    ensures { result ≡ confirmable_of ok ended some }
{
    admit(ok, ended)?;
    if some {
        Ok(())
    } else {
        Err(Refusal::AnswerWithoutFrame)
    }
}
