// An XFER_RDY asked for.
ghost use Rattle.std.specs.Prelude.{◌≡◌, true, ◌≤◌};
ghost use Rattle.status.specs.Stepped.{stepped};
ghost use Rattle.frame.specs.Write.{handing};
ghost use Rattle.target.specs.Record.{holds_of};
ghost use Rattle.target.specs.Transmit.{due_of, burst_end, next_burst, burst_of, issued_of, xfer_rdy_header, xfer_rdy_iu, frame_of, hands_of, next_of};

use crate::types::Target;
use crate::{record, tag};
use frame::{Flags, Header, XferRdy};
use status::{Answer, Stepped};

// One is to be sent again, or the previous burst is filled and the byte count is not reached.
#[tactic(auto, unfolding(crate::specs::Transmit::due_of))]
fn is_due(x: Target) -> bool
    ensures { result ≡ due_of x }
{
    (x.state == Target::AGAIN)
        | ((x.state != Target::UNANSWERED)
            & (x.receiver.filled == x.receiver.end)
            & (x.receiver.end < x.receiver.transfer.count))
}

// A record that number 1 does not refuse. Initiator has one of its own: the ghost facts are two definitions `holds_of`.
#[derive(Clone, Copy)]
struct Held {
    target: Target,
    ghost holds: { holds_of target ≡ true },
}

impl Held {
    // The lesser of the burst size and what remains, from the end of the previous burst.
    fn burst_end(self) -> u32
        ensures { result ≡ burst_end self.target }
    {
        let r = self.target.receiver;
        let left = r.transfer.count - r.end;
        r.end + r.transfer.burst.min(left)
    }

    // The next burst, from the end of the previous one.
    fn next_burst(self) -> Target
        ensures { result ≡ next_burst self.target }
    {
        let mut x = self.target;
        x.receiver = receiver_steps::begin(x.receiver.transfer, x.receiver.end, self.burst_end());
        x.retries = 0;
        x
    }

    // The burst that the XFER_RDY is for: the same one again, or the next.
    #[tactic(auto, unfolding(crate::specs::Transmit::burst_of, status::specs::Pick::pick))]
    fn burst(self) -> Target
        ensures { result ≡ burst_of self.target }
    {
        if self.target.state == Target::AGAIN {
            self.target
        } else {
            self.next_burst()
        }
    }

    // The record once the XFER_RDY is handed out, under a new tag.
    #[tactic(auto, unfolding(crate::specs::Transmit::issued_of))]
    fn issue(self) -> Target
        ensures { result ≡ issued_of self.target }
    {
        let x = self.target;
        let mut y = self.burst();
        y.state = Target::UNANSWERED;
        y.tptt = tag::new_tag(x.stored, x.under, x.since);
        y.since = x.since + 1;
        y
    }

    // An XFER_RDY is due: it goes out, or the output buffer is too short.
    fn transmit(self, out: &mut [u8]) -> Stepped<Target>
        ensures { (stepped result ≡ hands_of self.target out.old) × (out.new ≡ handing (hands_of self.target out.old).says (frame_of self.target) out.old) }
    {
        let y = self.issue();
        match frame::write(header(y, self.target.state == Target::AGAIN), &iu(y), out) {
            Ok(length) => Stepped {
                left: y,
                answer: Answer::Frame(length),
            },
            Err(why) => Stepped::refused(self.target, why),
        }
    }
}

// RETRANSMIT is one where it is sent again; `y` is the record that hands it out.
#[tactic(auto, unfolding(crate::specs::Transmit::xfer_rdy_header))]
fn header(y: Target, again: bool) -> Header
    ensures { result ≡ xfer_rdy_header y again }
{
    let t = y.receiver.transfer;
    Header {
        frametype: frame::XFER_RDY,
        dest: t.remote,
        source: t.local,
        flags: Flags {
            tlr: 0,
            retry: 0 < t.limit,
            retransmit: again,
            cdp: false,
        },
        tag: t.tag,
        tptt: y.tptt,
        offset: 0,
    }
}

#[tactic(auto, unfolding(crate::specs::Transmit::xfer_rdy_iu))]
fn iu(y: Target) -> [u8; 12]
    requires { y.receiver.base ≤ y.receiver.end }
    ensures { result ≡ xfer_rdy_iu y }
{
    frame::write_xfer_rdy(XferRdy {
        offset: y.receiver.base,
        len: y.receiver.end - y.receiver.base,
    })
}

// 1, 2; wait; 3, else an XFER_RDY of that length. A `match`, since `Stepped::unless` says nothing of a lent buffer.
#[tactic(auto, unfolding(crate::specs::Transmit::next_of, status::specs::Pick::pick), using(status::proofs::OpenedCall::opened))]
pub fn write_next_frame(x: Target, out: &mut [u8]) -> Stepped<Target>
    ensures { (stepped result ≡ next_of x out.old) × (out.new ≡ handing (next_of x out.old).says (frame_of x) out.old) }
{
    match record::admitted(x) {
        Err(why) => Stepped::refused(x, why),
        Ok(()) => {
            if is_due(x) {
                Held { target: x }.transmit(out)
            } else {
                Stepped {
                    left: x,
                    answer: Answer::Wait,
                }
            }
        }
    }
}
