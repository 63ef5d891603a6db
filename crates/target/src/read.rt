// Arrivals at the target of a read command: it takes none.
ghost use Rattle.std.specs.Prelude.{◌≡◌};
ghost use Rattle.status.specs.Stepped.{stepped};
ghost use Rattle.status.specs.Entry.{entry_of};
ghost use Rattle.arrival.specs.Accept.{accept_of};
ghost use Rattle.arrival.specs.declared.Role.TheVariants.{ReadTarget};
ghost use Rattle.target.specs.Read.{read_holds_of, none_of, read_arrival_of};

use arrival::Role;
use sender::Sender;
use status::{Refusal, Stepped};

// 1, then 2. Each record has tests of its own, so each port has this.
#[tactic(auto, unfolding(crate::specs::Read::read_holds_of))]
fn admitted(s: Sender) -> Result<(), Refusal>
    ensures { result ≡ entry_of (read_holds_of s) s.ended }
{
    status::admit(sender_steps::holds(s) & !s.transfer.write, s.ended)
}

// 5, else 6.
fn no_frame(s: Sender, bytes: &[u8]) -> Stepped<Sender>
    ensures { stepped result ≡ none_of (accept_of ReadTarget s.transfer bytes.now) s }
{
    match arrival::accept(Role::ReadTarget, s.transfer, bytes) {
        Err(why) => Stepped::refused(s, why),
        Ok(_) => Stepped::refused(s, Refusal::UnexpectedFrameType),
    }
}

// 1, 2, 5, else 6: always a refusal.
#[tactic(auto, unfolding(crate::specs::Read::read_arrival_of))]
pub fn read_frame_received(s: Sender, bytes: &[u8]) -> Stepped<Sender>
    ensures { stepped result ≡ read_arrival_of s bytes.now }
{
    Stepped::unless(admitted(s), s, |s| no_frame(s, bytes))
}
