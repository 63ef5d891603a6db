// RESPONSE at the target: its record in place.
ghost use Rattle.std.specs.Prelude.{◌≡◌};
ghost use Rattle.frame.specs.Write.{handing};
ghost use Rattle.response.specs.Record.{set_up_of};
ghost use Rattle.response.specs.Confirmation.{ack_of, nak_of, timeout_of, cut_of, loss_of};
ghost use Rattle.response.specs.Transmit.{frame_of, next_of};
ghost use Rattle.ssp.specs.CAnswer.{Leaves, SetsUp};

use crate::answer;
use crate::types::CAnswer;
use response::Responder;
use status::Refusal;
use transfer::Transfer;

// 1 (also for an IU of other than 24 to 1,024 bytes): the record stays as it was; else it is ready.
#[tactic(auto, unfolding(response::specs::Record::set_up_of, status::specs::Result::granted, status::specs::Pick::pick))]
#[unsafe(no_mangle)]
pub extern "C" fn ssp_response_set_up(s: &mut Responder, t: Transfer, len: usize) -> CAnswer
    ensures { SetsUp (set_up_of t len) s.old s.new result }
{
    let Ok(n) = u32::try_from(len) else {
        return Refusal::BadRequest.into();
    };
    answer::set_up(response::set_up(t, n), s)
}

// 1 (also for an IU of another length than at set-up), 2; wait; 3, else a RESPONSE of that length.
#[unsafe(no_mangle)]
pub extern "C" fn ssp_response_next_frame(s: &mut Responder, iu: &[u8], out: &mut [u8]) -> CAnswer
    ensures { Leaves (next_of s.old iu.now out.old) s.new result × (out.new ≡ handing (next_of s.old iu.now out.old).says (frame_of s.old iu.now) out.old) }
{
    answer::leave(response::next_frame(*s, iu, out), s)
}

// 1, 2, 4, else delivered.
#[unsafe(no_mangle)]
pub extern "C" fn ssp_response_ack_received(s: &mut Responder) -> CAnswer
    ensures { Leaves (ack_of s.old) s.new result }
{
    answer::leave(response::ack_received(*s), s)
}

// 1, 2, 4; retry or 28.
#[unsafe(no_mangle)]
pub extern "C" fn ssp_response_nak_received(s: &mut Responder) -> CAnswer
    ensures { Leaves (nak_of s.old) s.new result }
{
    answer::leave(response::nak_received(*s), s)
}

// 1, 2, 4; retry or 29.
#[unsafe(no_mangle)]
pub extern "C" fn ssp_response_ack_nak_timeout(s: &mut Responder) -> CAnswer
    ensures { Leaves (timeout_of s.old) s.new result }
{
    answer::leave(response::ack_nak_timeout(*s), s)
}

// 1, 2; unchanged, retry or 30.
#[unsafe(no_mangle)]
pub extern "C" fn ssp_response_connection_lost(s: &mut Responder) -> CAnswer
    ensures { Leaves (cut_of s.old) s.new result }
{
    answer::leave(response::connection_lost(*s), s)
}

// 1, 2, else 31.
#[unsafe(no_mangle)]
pub extern "C" fn ssp_response_nexus_lost(s: &mut Responder) -> CAnswer
    ensures { Leaves (loss_of s.old) s.new result }
{
    answer::leave(response::nexus_lost(*s), s)
}
