// Arrivals of any bytes at the initiator of a write command: XFER_RDY and RESPONSE.
// A `match` on a class, an arrival or a disposition is one decision: closures would say no more.
ghost use Rattle.std.specs.Prelude.{◌≡◌, true, [], ◌+◌, ◌^◌, ◌≤◌, ◌<◌, ltb, length};
ghost use Rattle.status.specs.Stepped.{stepped};
ghost use Rattle.status.specs.Answer.{says};
ghost use Rattle.status.specs.Result.{Result, or_refusal};
ghost use Rattle.status.specs.Number.{failure_number};
ghost use Rattle.initiator.specs.WriteRecord.{holds_of};
ghost use Rattle.initiator.specs.WriteCount.{Counts};
ghost use Rattle.initiator.specs.WriteTake.{ended_of, failed_of, or_failed, previous, all_handed, fits_of, repeat_of, disposition_of, limit_of, asked_of, next_taken, burst_taken, xfer_rdy_taken, opened_by, response_of, taken_of, arrived_frame, write_arrival_of};

use crate::types::{Writer, XferRdyDisposition};
use crate::write_record::{admitted, begin, lift};
use arrival::{Arrived, Class, Role};
use frame::{Header, XferRdy};
use sender::{Burst, Sender};
use status::{Answer, Failure, Opened, Part, Refusal, Stepped};

// The record has ended: nothing is unanswered and no NAK pending.
fn ended(w: Writer) -> Writer
    ensures { result ≡ ended_of w }
{
    let sender = Sender {
        unanswered: 0,
        nak: false,
        ended: true,
        ..w.sender
    };
    Writer { sender, ..w }
}

fn failed(w: Writer, why: Failure) -> Stepped<Writer>
    ensures { stepped result ≡ failed_of w (failure_number why) }
{
    lift(w, sender_steps::failed(w.sender, why))
}

// The previous burst is the last one taken, started or not.
#[tactic(auto, unfolding(status::specs::Pick::pick))]
fn previous(w: Writer) -> Burst
    ensures { result ≡ previous w }
{
    if w.pending { w.taken } else { w.sender.burst }
}

// Every frame of it was handed out at least once.
#[tactic(auto, unfolding(status::specs::Pick::pick))]
fn all_handed(w: Writer) -> bool
    ensures { result ≡ all_handed w }
{
    if w.pending {
        w.taken.base == w.taken.end
    } else {
        w.reached == w.sender.burst.end
    }
}

// 25: 0, or offset plus length passes the count.
#[tactic(auto, unfolding(crate::specs::WriteTake::fits_of, status::specs::Pick::pick))]
fn fits(w: Writer, x: XferRdy) -> Result<(), Failure>
    ensures { result ≡ fits_of w x (Ok tt) }
{
    let past = (x.offset as u64) + (x.len as u64);
    if (x.len == 0) | ((w.sender.transfer.count as u64) < past) {
        Err(Failure::XferRdyIncorrectWriteDataLength)
    } else {
        Ok(())
    }
}

// 25 where its length is not that of the burst it repeats, else as it fits.
#[tactic(auto, unfolding(crate::specs::WriteTake::repeat_of, crate::specs::WriteTake::fits_of, status::specs::Pick::pick))]
fn repeated(w: Writer, x: XferRdy) -> Result<XferRdyDisposition, Failure>
    ensures { result ≡ repeat_of w x }
{
    let p = previous(w);
    let past = (p.base as u64) + (x.len as u64);
    if past == (p.end as u64) {
        fits(w, x)?;
        Ok(XferRdyDisposition::Repeat)
    } else {
        Err(Failure::XferRdyIncorrectWriteDataLength)
    }
}

// There is a burst to repeat: before any is taken the record has an empty one.
fn repeatable(p: Burst) -> bool
    ensures { result ≡ ltb p.base p.end }
{
    p.base < p.end
}

// 27, 26, then 25.
#[tactic(auto, unfolding(crate::specs::WriteTake::disposition_of, crate::specs::WriteTake::fits_of, status::specs::Pick::pick))]
fn judge(w: Writer, x: XferRdy, retransmit: bool) -> Result<XferRdyDisposition, Failure>
    ensures { result ≡ disposition_of w x retransmit }
{
    let p = previous(w);
    if retransmit & (x.offset == p.base) & repeatable(p) {
        repeated(w, x)
    } else if x.offset != p.end {
        Err(Failure::XferRdyRequestedOffsetError)
    } else if !all_handed(w) {
        Err(Failure::XferRdyNotExpected)
    } else {
        fits(w, x)?;
        Ok(XferRdyDisposition::Next)
    }
}

// RETRY DATA FRAMES zero makes the burst's limit 0.
#[tactic(auto, unfolding(status::specs::Pick::pick))]
fn limit(w: Writer, retry: bool) -> u32
    ensures { result ≡ limit_of w retry }
{
    if retry { w.sender.transfer.limit } else { 0 }
}

// The burst that the XFER_RDY asks for.
fn asked(w: Writer, h: Header, x: XferRdy) -> Burst
    requires { x.offset + x.len < 2 ^ 32 }
    ensures { result ≡ asked_of w h x }
{
    Burst {
        base: x.offset,
        end: x.offset + x.len,
        tptt: h.tptt,
        limit: limit(w, h.flags.retry),
    }
}

// The burst before counts as delivered, with its count where that was not reported before.
#[tactic(auto, unfolding(crate::specs::WriteTake::next_taken, status::specs::Pick::pick))]
fn next_taken(w: Writer) -> Answer
    ensures { says result ≡ next_taken w }
{
    let s = w.sender;
    if (s.unanswered == 0) & (s.next == s.burst.end) {
        Answer::NextBurst
    } else {
        Answer::NextBurstDelivers(s.frames)
    }
}

// The new burst starts once nothing is unanswered.
#[tactic(auto, unfolding(crate::specs::WriteTake::burst_taken, status::specs::Pick::pick))]
fn taken(w: Writer, b: Burst, answer: Answer) -> Stepped<Writer>
    ensures { stepped result ≡ burst_taken w b (says answer) }
{
    let left = if w.sender.unanswered == 0 {
        begin(w.sender.transfer, b)
    } else {
        Writer {
            pending: true,
            taken: b,
            ..w
        }
    };
    Stepped { left, answer }
}

// The command has ended, with what the RESPONSE says.
fn opened(w: Writer, iu: Part, o: Opened) -> Stepped<Writer>
    ensures { stepped result ≡ opened_by (Result.value o) w iu.start iu.len }
{
    Stepped {
        left: ended(w),
        answer: Answer::Response {
            iu,
            opened: o,
            frames: w.sender.frames,
        },
    }
}

// A RESPONSE, its IU at that place of the frame: 32, 34, else the command has ended.
#[tactic(auto, unfolding(crate::specs::WriteTake::response_of))]
fn response(w: Writer, at: Part, iu: &[u8]) -> Stepped<Writer>
    ensures { stepped result ≡ response_of w at.start at.len iu.now }
{
    match frame::read_response(iu) {
        Err(why) => failed(w, why),
        Ok(o) => opened(w, at, o),
    }
}

// A record that number 1 does not refuse. Target has one of its own: the ghost facts are two definitions `holds_of`.
#[derive(Clone, Copy)]
struct Held {
    writer: Writer,
    ghost holds: { holds_of writer ≡ true },
}

impl Held {
    // 23, 24, 27, 26, 25, else taken.
    #[tactic(auto, unfolding(crate::specs::WriteTake::xfer_rdy_taken))]
    fn burst_of(self, h: Header, iu: &[u8]) -> Result<Stepped<Writer>, Failure>
        ensures { or_failed self.writer result ≡ xfer_rdy_taken self.writer h iu.now }
    {
        let w = self.writer;
        let x = frame::read_xfer_rdy(iu)?;
        let disposition = judge(w, x, h.flags.retransmit)?;
        let b = asked(w, h, x);
        Ok(match disposition {
            XferRdyDisposition::Next => taken(w, b, next_taken(w)),
            XferRdyDisposition::Repeat => taken(w, b, Answer::Repeated),
        })
    }

    // The same, where a failure ends the record.
    fn xfer_rdy(self, h: Header, iu: &[u8]) -> Stepped<Writer>
        ensures { stepped result ≡ xfer_rdy_taken self.writer h iu.now }
    {
        self.burst_of(h, iu)
            .unwrap_or_else(|why| failed(self.writer, why))
    }

    // A frame that has passed 5 to 8.
    fn take(self, a: Arrived, bytes: &[u8]) -> Stepped<Writer>
        requires { a.start + a.len ≤ length bytes.now }
        ensures { stepped result ≡ taken_of a.class self.writer a bytes.now }
    {
        let w = self.writer;
        let iu = &bytes[a.start..a.start + a.len];
        let at = Part {
            start: a.start,
            len: a.len,
        };
        match a.class {
            Class::XferRdy => self.xfer_rdy(a.header, iu),
            Class::Response => response(w, at, iu),
            Class::Data => Stepped::refused(w, Refusal::UnexpectedFrameType),
        }
    }
}

// 1, 2, 5, 6, 7, 8, else the frame, with what it is taken for.
#[tactic(auto, unfolding(crate::specs::WriteTake::arrived_frame))]
fn arrived(w: Writer, bytes: &[u8]) -> Result<Arrived, Refusal>
    ensures { or_refusal result ≡ arrived_frame w bytes.now }
{
    admitted(w)?;
    arrival::accept(Role::WriteInitiator, w.sender.transfer, bytes)
}

// 1, 2, 5, 6, 7, 8; XFER_RDY 23, 24, 27, 26, 25, else which burst it is for; RESPONSE 32, 34, else where its IU stands,
// kind, status and bytes of sense data.
pub fn write_frame_received(w: Writer, bytes: &[u8]) -> Stepped<Writer>
    ensures { (stepped result ≡ write_arrival_of w bytes.now) × Counts w [] (stepped result) }
{
    match arrived(w, bytes) {
        Err(why) => Stepped::refused(w, why),
        Ok(a) => Held { writer: w }.take(a, bytes),
    }
}
