// The words and numbers of run files and ladders, and what their readers answer.

// Four numbers side by side, as specs/Rows has them.
#[derive(Clone, Copy, Debug, PartialEq, Eq)]
pub struct Quad {
    pub a: u32,
    pub b: u32,
    pub c: u32,
    pub d: u32,
}

#[derive(Clone, Copy, Debug, PartialEq, Eq)]
pub enum Direction {
    Read,
    Write,
}

// What becomes of a frame and of its confirmation.
#[derive(Clone, Copy, Debug, PartialEq, Eq)]
pub enum Fate {
    Ok,
    // ACK lost
    Noack,
    // damaged, NAK arrives
    Bad,
    // damaged, NAK lost
    Nonak,
    Lost,
}

// What the receiver made of a frame.
#[derive(Clone, Copy, Debug, PartialEq, Eq)]
pub enum Receipt {
    Stored,
    Discarded,
    // nothing arrived: `none`, a word of the paper, and no Option
    Nothing,
    // the number that it gave
    Number(u32),
}

// The sender's verdict.
#[derive(Clone, Copy, Debug, PartialEq, Eq)]
pub enum Outcome {
    Delivered,
    Failed,
}

// Line one of a run file.
#[derive(Clone, Copy, Debug, PartialEq, Eq)]
pub struct Run {
    pub direction: Direction,
    // byte count
    pub count: u32,
    // data size
    pub size: u32,
    pub window: u32,
    // retry limit
    pub limit: u32,
}

// One frame of a ladder.
#[derive(Clone, Copy, Debug, PartialEq, Eq)]
pub struct Row {
    pub frame: u32,
    pub offset: u32,
    pub bytes: u32,
    pub cdp: u32,
    pub fate: Fate,
    pub receipt: Receipt,
}

// The last line of a ladder.
#[derive(Clone, Copy, Debug, PartialEq, Eq)]
pub struct Verdict {
    pub outcome: Outcome,
    pub number: u32,
    pub frames: u32,
    pub faults: u32,
    // the receiver's filled mark
    pub filled: u32,
}

// A run file that fits: line one, and the place from which on each line is a fate.
#[derive(Clone, Copy, Debug, PartialEq, Eq)]
pub struct RunFile {
    pub run: Run,
    pub fates: usize,
}

// The number of a run file's first line that does not fit; 0 where the file is too long.
#[derive(Clone, Copy, Debug, PartialEq, Eq)]
pub struct Misfit {
    pub line: u32,
}

// The fate of the next frame, and where the one after it stands.
#[derive(Clone, Copy, Debug, PartialEq, Eq)]
pub struct NextFate {
    pub fate: Fate,
    pub next: usize,
}
