// A read command at the initiator: arrivals at the receiving end of the transfer.
// Each event of the paper keeps a public name of its own. A `match` on a class or an arrival is one decision.
ghost use Rattle.std.specs.Prelude.{◌≡◌, true, false, ◌+◌, ◌≤◌, length, take, drop};
ghost use Rattle.status.specs.Stepped.{stepped};
ghost use Rattle.status.specs.Entry.{entry_of};
ghost use Rattle.status.specs.Result.{Result, or_refusal};
ghost use Rattle.frame.specs.Read.{header_in, iu_of};
ghost use Rattle.receiver_steps.specs.Record.{lent_of};
ghost use Rattle.receiver_steps.specs.DataFrame.{storing};
ghost use Rattle.initiator.specs.Read.{read_holds_of, not_expected_of, opened_by, response_of, taken_of, arrived_frame, read_arrival_of, read_loss_of};

use arrival::{Arrived, Class, Role};
use receiver::Receiver;
use status::{Answer, Failure, Opened, Part, Refusal, Stepped};

// An XFER_RDY in a read: 23, 24, then 27.
#[tactic(auto, unfolding(crate::specs::Read::not_expected_of))]
fn not_expected(r: Receiver, iu: &[u8]) -> Stepped<Receiver>
    ensures { stepped result ≡ not_expected_of r iu.now }
{
    let why = match frame::read_xfer_rdy(iu) {
        Err(why) => why,
        Ok(_) => Failure::XferRdyNotExpected,
    };
    receiver_steps::failed(r, why)
}

// The command has ended, with what the RESPONSE says.
fn opened(mut r: Receiver, iu: Part, o: Opened) -> Stepped<Receiver>
    ensures { stepped result ≡ opened_by (Result.value o) r iu.start iu.len }
{
    r.ended = true;
    Stepped {
        left: r,
        answer: Answer::Response {
            iu,
            opened: o,
            frames: 0,
        },
    }
}

// A RESPONSE, its IU at that place of the frame: 32, 34, else the command has ended.
#[tactic(auto, unfolding(crate::specs::Read::response_of))]
fn response(r: Receiver, at: Part, iu: &[u8]) -> Stepped<Receiver>
    ensures { stepped result ≡ response_of r at.start at.len iu.now }
{
    match frame::read_response(iu) {
        Err(why) => receiver_steps::failed(r, why),
        Ok(o) => opened(r, at, o),
    }
}

// Behind 1 and 2, a frame that has passed 5 to 8.
fn take(r: Receiver, a: Arrived, bytes: &[u8], buffer: &mut [u8]) -> Stepped<Receiver>
    requires { (a.start + a.len ≤ length bytes.now) × (lent_of r (length buffer.old) ≡ true) × (r.ended ≡ false) }
    ensures { (stepped result ≡ taken_of a.class r a bytes.now (length buffer.old)) × (buffer.new ≡ storing (taken_of a.class r a bytes.now (length buffer.old)).says a.header.offset (take a.len (drop a.start bytes.now)) buffer.old) }
{
    let iu = &bytes[a.start..a.start + a.len];
    let at = Part {
        start: a.start,
        len: a.len,
    };
    let h = a.header;
    match a.class {
        Class::Data => receiver_steps::data_step(r, h.offset, h.flags.cdp, iu, buffer),
        Class::XferRdy => not_expected(r, iu),
        Class::Response => response(r, at, iu),
    }
}

// 1, 2, 5, 6, 7, 8, else the frame, with what it is taken for; m is the buffer's length.
#[tactic(auto, unfolding(crate::specs::Read::arrived_frame, crate::specs::Read::read_lent_of))]
fn arrived(r: Receiver, bytes: &[u8], m: usize) -> Result<Arrived, Refusal>
    ensures { or_refusal result ≡ arrived_frame r bytes.now m }
{
    status::admit(receiver_steps::lent(r, m) & !r.transfer.write, r.ended)?;
    arrival::accept(Role::ReadInitiator, r.transfer, bytes)
}

// 1, 2, 5, 6, 7, 8; DATA as the receiving port: discarded (filled), 20, 21, 22, discarded, stored or received; XFER_RDY
// 23, 24, 27; RESPONSE 32, 34, else where its IU stands, kind, status and bytes of sense data. A `match`, since
// `Stepped::unless` says nothing of a lent buffer.
pub fn read_frame_received(r: Receiver, bytes: &[u8], buffer: &mut [u8]) -> Stepped<Receiver>
    ensures { (stepped result ≡ read_arrival_of r bytes.now (length buffer.old)) × (buffer.new ≡ storing (read_arrival_of r bytes.now (length buffer.old)).says (header_in bytes.now).offset (iu_of bytes.now) buffer.old) }
{
    match arrived(r, bytes, buffer.len()) {
        Err(why) => Stepped::refused(r, why),
        Ok(a) => take(r, a, bytes, buffer),
    }
}

// 1, then 2. Each record has tests of its own, so each port has this.
#[tactic(auto, unfolding(crate::specs::Read::read_holds_of))]
fn admitted(r: Receiver) -> Result<(), Refusal>
    ensures { result ≡ entry_of (read_holds_of r) r.ended }
{
    status::admit(receiver_steps::holds(r) & !r.transfer.write, r.ended)
}

// 1, 2, else 31.
pub fn read_nexus_lost(r: Receiver) -> Stepped<Receiver>
    ensures { stepped result ≡ read_loss_of r }
{
    Stepped::unless(
        admitted(r),
        r,
        |r| receiver_steps::failed(r, Failure::NexusLoss),
    )
}
