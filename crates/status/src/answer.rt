// What a call answers, at every port.
ghost use Rattle.std.specs.Prelude.{◌≡◌};
ghost use Rattle.status.specs.Answer.{says, number, stores, refuses};

use crate::words::{Failure, Refusal};

// A part of the bytes that were lent: len bytes from start. Numbers and no slice, since C is told them.
#[derive(Clone, Copy)]
pub struct Part {
    pub start: usize,
    pub len: usize,
}

// What a RESPONSE's IU says (request K9).
#[derive(Clone, Copy)]
pub struct Opened {
    // DATAPRES: 0 no data, 1 response data, 2 sense data. A number, since C hands it back and may hand back any (frame
    // `sense_of`).
    pub kind: u8,
    pub status: u8,
    // bytes of sense data, from byte 24 of the IU; 0 of kinds 0 and 1
    pub sense: usize,
}

// A refusal and a failure are answers here and no errors of a Result: the record comes back with every answer
// (`Stepped`, specs/Answer `says`).
#[derive(Clone, Copy)]
pub enum Answer {
    // 1 to 8: nothing changed
    Refused(Refusal),
    // 20 to 34: the port has ended; with the DATA frames that it handed out, 0 at a port that hands out none
    Failed(Failure, u64),
    // no frame is due
    Wait,
    // a frame of that many bytes stands in the output buffer
    Frame(usize),
    // the event was taken; nothing to tell
    Taken,
    // a retry begins
    Retry,
    // a cut with nothing unanswered, or a report of time outside its span
    Unchanged,
    // the read, the write burst or the RESPONSE is delivered, with the DATA frames handed out, 0 of a RESPONSE
    Delivered(u64),
    // the XFER_RDY had its ACK
    Acknowledged,
    // DATA: discarded; stored; stored, and the burst is filled with it
    Discarded,
    Stored,
    Received,
    // an XFER_RDY for the next burst was taken; there was none before, or its delivery was reported
    NextBurst,
    // the same; with it the burst before counts as delivered, after so many frames
    NextBurstDelivers(u64),
    // an XFER_RDY that repeats the burst taken last was taken
    Repeated,
    // The command has ended; where the RESPONSE's IU stands in the frame, and what it says. With the frames of the
    // burst in service.
    Response {
        iu: Part,
        opened: Opened,
        frames: u64,
    },
}

impl Answer {
    // The paper's number, 0 where it has none.
    pub fn number(self) -> u8
        ensures { result ≡ number (says self) }
    {
        match self {
            Answer::Refused(why) => why.number(),
            Answer::Failed(why, _) => why.number(),
            _ => 0,
        }
    }

    // DATA was stored.
    pub fn stores(self) -> bool
        ensures { result ≡ stores (says self) }
    {
        matches!(self, Answer::Stored | Answer::Received)
    }

    // The call was refused.
    pub fn refuses(self) -> bool
        ensures { result ≡ refuses (says self) }
    {
        matches!(self, Answer::Refused(_))
    }
}
