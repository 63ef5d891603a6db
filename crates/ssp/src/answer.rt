// The answers of all ports as C sees them.
ghost use Rattle.std.specs.Prelude.{◌≡◌};
ghost use Rattle.status.specs.Answer.{says};
ghost use Rattle.status.specs.Number.{refusal_number, failure_number};
ghost use Rattle.status.specs.Result.{or_refusal};
ghost use Rattle.status.specs.Stepped.{stepped};
ghost use Rattle.ssp.specs.CAnswer.{REFUSED, FAILED, answer_with, opens, word, c_answer_of, Leaves, SetsUp};

use crate::types::CAnswer;
use status::{Answer, Failure, Opened, Part, Refusal, Stepped};

impl CAnswer {
    // A case that names no value.
    pub(crate) fn word(what: u8) -> CAnswer
        ensures { result ≡ word what }
    {
        CAnswer {
            what,
            ..CAnswer::NONE
        }
    }

    // A failure after that many frames, 0 at a reader of IUs.
    pub(crate) fn failed(why: Failure, frames: u64) -> CAnswer
        ensures { result ≡ answer_with (failure_number why) FAILED frames 0 0 }
    {
        CAnswer {
            number: why.number(),
            what: CAnswer::FAILED,
            frames,
            ..CAnswer::NONE
        }
    }

    // A RESPONSE's IU: where it stands, and what it says.
    pub(crate) fn opened(what: u8, frames: u64, iu: Part, o: Opened) -> CAnswer
        ensures { result ≡ opens what frames iu.start iu.len o }
    {
        CAnswer {
            number: 0,
            what,
            kind: o.kind,
            status: o.status,
            frames,
            start: iu.start,
            len: iu.len,
            sense: o.sense,
        }
    }
}

impl From<Refusal> for CAnswer {
    ghost from_gives = { λ why a. a ≡ answer_with (refusal_number why) REFUSED 0 0 0 };

    fn from(why: Refusal) -> CAnswer {
        CAnswer {
            number: why.number(),
            what: CAnswer::REFUSED,
            ..CAnswer::NONE
        }
    }
}

// A port's answer.
impl From<Answer> for CAnswer {
    ghost from_gives = { λ a c. c ≡ c_answer_of (says a) };

    fn from(a: Answer) -> CAnswer {
        match a {
            Answer::Refused(why) => why.into(),
            Answer::Failed(why, frames) => CAnswer::failed(why, frames),
            Answer::Wait => CAnswer::word(CAnswer::WAIT),
            Answer::Frame(len) => CAnswer {
                what: CAnswer::FRAME,
                len,
                ..CAnswer::NONE
            },
            Answer::Taken => CAnswer::word(CAnswer::TAKEN),
            Answer::Retry => CAnswer::word(CAnswer::RETRY),
            Answer::Unchanged => CAnswer::word(CAnswer::UNCHANGED),
            Answer::Delivered(frames) => CAnswer {
                what: CAnswer::DELIVERED,
                frames,
                ..CAnswer::NONE
            },
            Answer::Acknowledged => CAnswer::word(CAnswer::ACKNOWLEDGED),
            Answer::Discarded => CAnswer::word(CAnswer::DISCARDED),
            Answer::Stored => CAnswer::word(CAnswer::STORED),
            Answer::Received => CAnswer::word(CAnswer::RECEIVED),
            Answer::NextBurst => CAnswer::word(CAnswer::NEXT_BURST),
            Answer::NextBurstDelivers(frames) => CAnswer {
                what: CAnswer::NEXT_BURST_DELIVERS,
                frames,
                ..CAnswer::NONE
            },
            Answer::Repeated => CAnswer::word(CAnswer::REPEATED),
            Answer::Response { iu, opened, frames } => CAnswer::opened(
                CAnswer::RESPONSE,
                frames,
                iu,
                opened,
            ),
        }
    }
}

// What a call leaves goes into the record that C lent, and C is told what it answers.
pub(crate) fn leave<X: Copy>(y: Stepped<X>, s: &mut X) -> CAnswer
    ensures { Leaves (stepped y) s.new result }
{
    *s = y.left;
    y.answer.into()
}

// A set-up goes into the record that C lent; a refused one leaves it as it was.
pub(crate) fn set_up<X: Copy>(y: Result<X, Refusal>, s: &mut X) -> CAnswer
    ensures { SetsUp (or_refusal y) s.old s.new result }
{
    match y {
        Ok(x) => {
            *s = x;
            CAnswer::word(CAnswer::READY)
        }
        Err(why) => why.into(),
    }
}

// The same answer, field by field: so the compiler keeps the answer of the call before apart from the caller's own
// (docs/SPEED.md).
pub(crate) fn again(a: CAnswer) -> CAnswer
    ensures { result ≡ a }
{
    CAnswer {
        number: a.number,
        what: a.what,
        kind: a.kind,
        status: a.status,
        frames: a.frames,
        start: a.start,
        len: a.len,
        sense: a.sense,
    }
}
