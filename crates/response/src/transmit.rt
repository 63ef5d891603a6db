// The RESPONSE asked for.
// The tests of a record, what a cut and a retry do to it, and whether a buffer is its own are each port's: no generic
// is plainer.
ghost use Rattle.std.specs.Prelude.{◌≡◌, true, length};
ghost use Rattle.status.specs.Stepped.{stepped};
ghost use Rattle.frame.specs.Write.{handing};
ghost use Rattle.response.specs.Transmit.{lent_of, response_header, frame_of, hands_of, next_of, sent_of};

use crate::record;
use crate::types::Responder;
use frame::{Flags, Header};
use status::{Answer, Stepped};

// Number 1 does not apply, the IU's length included.
#[tactic(auto, unfolding(crate::specs::Transmit::lent_of))]
fn lent(x: Responder, n: usize) -> bool
    ensures { result ≡ lent_of x n }
{
    record::holds(x) & (n == x.len as usize)
}

// RETRANSMIT is one where it is sent again; the transfer's value stands in each.
#[tactic(auto, unfolding(crate::specs::Transmit::response_header))]
fn header(x: Responder) -> Header
    ensures { result ≡ response_header x }
{
    Header {
        frametype: frame::RESPONSE,
        dest: x.transfer.remote,
        source: x.transfer.local,
        flags: Flags {
            tlr: 0,
            retry: false,
            retransmit: 0 < x.retries,
            cdp: false,
        },
        tag: x.transfer.tag,
        tptt: x.transfer.value,
        offset: 0,
    }
}

fn sent(mut x: Responder) -> Responder
    ensures { result ≡ sent_of x }
{
    x.unanswered = true;
    x
}

// The RESPONSE is due: it goes out, or the output buffer is too short.
#[tactic(auto, unfolding(crate::specs::Transmit::frame_of), using(crate::proofs::Due::can_write, frame::proofs::Hands::hands_answered))]
fn transmit(x: Responder, iu: &[u8], out: &mut [u8]) -> Stepped<Responder>
    requires { lent_of x (length iu.now) ≡ true }
    ensures { (stepped result ≡ hands_of x iu.now out.old) × (out.new ≡ handing (hands_of x iu.now out.old).says (frame_of x iu.now) out.old) }
{
    match frame::write(header(x), iu, out) {
        Ok(length) => Stepped {
            left: sent(x),
            answer: Answer::Frame(length),
        },
        Err(why) => Stepped::refused(x, why),
    }
}

// 1 (also for an IU of another length than at set-up), 2; wait; 3, else a RESPONSE of that length.
// A `match`, since what `Stepped::unless` promises says nothing of `out`.
#[tactic(auto, unfolding(crate::specs::Transmit::next_of, status::specs::Pick::pick), using(status::proofs::OpenedCall::opened))]
pub fn next_frame(x: Responder, iu: &[u8], out: &mut [u8]) -> Stepped<Responder>
    ensures { (stepped result ≡ next_of x iu.now out.old) × (out.new ≡ handing (next_of x iu.now out.old).says (frame_of x iu.now) out.old) }
{
    match status::admit(lent(x, iu.len()), x.ended) {
        Err(why) => Stepped::refused(x, why),
        Ok(()) if x.unanswered => Stepped {
            left: x,
            answer: Answer::Wait,
        },
        Ok(()) => transmit(x, iu, out),
    }
}
