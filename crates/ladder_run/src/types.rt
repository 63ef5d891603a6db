// The record of a ladder's run, and what its functions answer.
use initiator::Writer;
use ladder_text::{Row, Verdict};
use receiver::Receiver;
use sender::Sender;
use target::Target;

// The port that sends: a read's at the target, a write's at the initiator.
// It and `Receiving` stay two enums: no function serves both, and one generic would name two ports at each use.
#[derive(Clone, Copy)]
pub enum Sending {
    Read(Sender),
    Write(Writer),
}

// The port that receives.
#[derive(Clone, Copy)]
pub enum Receiving {
    Read(Receiver),
    Write(Target),
}

// What the sending port has reported: its number, and the frames that it handed out.
// A failure stays a number: `Ladder` is public, and `next_line` and `verdict` take each u8 in it.
#[derive(Clone, Copy)]
pub enum Report {
    Delivered(u64),
    Failed(u8, u64),
}

#[derive(Clone, Copy)]
pub struct Ladder {
    pub sending: Sending,
    pub receiving: Receiving,
    // frames handed out; those before this round
    pub frames: u32,
    pub before: u32,
    // the first report, once there is one
    pub report: Option<Report>,
}

impl Ladder {
    // no ladder of a run file has more rows: 21,844 fates listed, 63 more frames of that window,
    // 16,384 frames of a faultless transfer
    pub const ROWS_MOST: u32 = 38_291;

    // the byte count at most
    pub const COUNT_MOST: u32 = 65_536;

    // start plus count at most
    pub const PAST_MOST: usize = 65_536;

    // hashed addresses of the two ports, and the tag
    pub const INITIATOR: u32 = 0x12_3456;

    pub const TARGET: u32 = 0xab_cdef;

    pub const TAG: u16 = 0x0012;
}

// What a frame says of itself.
#[derive(Clone, Copy)]
pub struct Shown {
    pub offset: u32,
    pub bytes: u32,
    pub cdp: u32,
}

// A frame that met its fate: the receiving port as it is left, and its word.
#[derive(Clone, Copy)]
pub struct Met {
    pub receiving: Receiving,
    pub receipt: ladder_text::Receipt,
}

// The sending port while confirmations come; one of them is missing.
#[derive(Clone, Copy)]
pub struct Confirming {
    pub sending: Sending,
    pub report: Option<Report>,
    pub missing: bool,
}

// A line of a ladder.
#[derive(Clone, Copy)]
pub enum Line {
    Row(Row),
    Verdict(Verdict),
}

// What is left of a ladder, and what it tells.
#[derive(Clone, Copy)]
pub struct Next<L> {
    pub ladder: Ladder,
    pub line: L,
}
