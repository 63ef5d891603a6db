// The two ports of a ladder, of either direction.
ghost use Rattle.std.specs.Prelude.{◌≡◌};
ghost use Rattle.status.specs.Stepped.{stepped};
ghost use Rattle.link.specs.Ports.{lending};
ghost use Rattle.ladder_run.specs.Ends.{ask_of, told, signalled_of, arrive_of, filled_of, past_of};

use crate::types::{Receiving, Sending};
use status::Stepped;

// What the sending port is told of its frames.
#[derive(Clone, Copy)]
pub(crate) enum Signal {
    Ack,
    Nak,
    Timeout,
}

// What a call leaves, as a port of one direction.
fn onto<P, S, F: FnOnce(P) -> S>(y: Stepped<P>, port: F) -> Stepped<S>
    requires { F.IsAlwaysCallable port }
    ensures left { F.post port y.left result.left }
    ensures answer { result.answer ≡ y.answer }
{
    Stepped {
        left: port(y.left),
        answer: y.answer,
    }
}

// A frame asked for, with the data buffer and the output buffer.
pub(crate) fn ask(s: Sending, source: &[u8], out: &mut [u8]) -> Stepped<Sending>
    ensures { lending (stepped result) out.new ≡ ask_of s source.now out.old }
{
    match s {
        Sending::Read(x) => onto(target::read_next_frame(x, source, out), Sending::Read),
        Sending::Write(x) => onto(initiator::write_next_frame(x, source, out), Sending::Write),
    }
}

// A signal reaches the sending port. Six functions of two crates, each named once: closures would name each once too.
pub(crate) fn tell(s: Sending, g: Signal) -> Stepped<Sending>
    ensures { stepped result ≡ signalled_of (told g) s }
{
    match s {
        Sending::Read(x) => {
            let y = match g {
                Signal::Ack => target::read_ack_received(x),
                Signal::Nak => target::read_nak_received(x),
                Signal::Timeout => target::read_ack_nak_timeout(x),
            };
            onto(y, Sending::Read)
        }
        Sending::Write(x) => {
            let y = match g {
                Signal::Ack => initiator::write_ack_received(x),
                Signal::Nak => initiator::write_nak_received(x),
                Signal::Timeout => initiator::write_ack_nak_timeout(x),
            };
            onto(y, Sending::Write)
        }
    }
}

// A frame arrives whole, with the receiving port's data buffer.
pub(crate) fn arrive(r: Receiving, frame: &[u8], buffer: &mut [u8]) -> Stepped<Receiving>
    ensures { lending (stepped result) buffer.new ≡ arrive_of r frame.now buffer.old }
{
    match r {
        Receiving::Read(x) => onto(
            initiator::read_frame_received(x, frame, buffer),
            Receiving::Read,
        ),
        Receiving::Write(x) => onto(
            target::write_frame_received(x, frame, buffer),
            Receiving::Write,
        ),
    }
}

// Start plus count of the transfer at the sending end.
pub(crate) fn past(s: Sending) -> usize
    ensures { result ≡ past_of s }
{
    match s {
        Sending::Read(x) => x.transfer.past(),
        Sending::Write(x) => x.sender.transfer.past(),
    }
}

// The filled mark.
pub(crate) fn filled(r: Receiving) -> u32
    ensures { result ≡ filled_of r }
{
    match r {
        Receiving::Read(x) => x.filled,
        Receiving::Write(x) => x.receiver.filled,
    }
}
