// The end of a round: "answers come in order, then a timeout if any is missing".
// The fates stay bytes: see src/fates.rt.
ghost use Rattle.std.specs.Prelude.{◌≡◌, ◌-◌};
ghost use Rattle.status.specs.Answer.{says};
ghost use Rattle.ladder_run.specs.Ends.{told, signalled_of};
ghost use Rattle.ladder_run.specs.Round.{report_of, noted_of, confirmed_by, confirmations_of, timed_out, opened_of, closed_of};

use crate::ends::Signal;
use crate::types::{Confirming, Ladder, Report};
use crate::{ends, fates};
use ladder_text::Fate;
use status::Answer;

// What an answer reports, if anything.
fn reports(a: Answer) -> Option<Report>
    ensures { result ≡ report_of (says a) }
{
    match a {
        Answer::Delivered(n) => Some(Report::Delivered(n)),
        Answer::Failed(why, n) => Some(Report::Failed(why.number(), n)),
        _ => None,
    }
}

// The port as a signal leaves it, with what it reported. The first report stays.
fn note(x: Confirming, g: Signal) -> Confirming
    ensures { result ≡ noted_of x (signalled_of (told g) x.sending) }
{
    let y = ends::tell(x.sending, g);
    Confirming {
        sending: y.left,
        report: x.report.or(reports(y.answer)),
        ..x
    }
}

// The confirmation of a frame of that fate reaches the sending port, or is missing. One decision: closures would say no
// more.
fn confirm(x: Confirming, fate: Fate) -> Confirming
    ensures { result ≡ confirmed_by fate x }
{
    match fate {
        Fate::Ok => note(x, Signal::Ack),
        Fate::Bad => note(x, Signal::Nak),
        Fate::Noack | Fate::Nonak | Fate::Lost => Confirming { missing: true, ..x },
    }
}

// The confirmations of the frames of a round, in order.
#[tactic(auto, using(crate::proofs::InTurn::confirmations_next, crate::proofs::InTurn::confirmations_end))]
fn confirmations(start: Confirming, fates: &[u8], from: u32, to: u32) -> Confirming
    ensures { result ≡ confirmations_of fates.now (to - from) from start }
{
    let mut x = start;
    for i in from..to {
        x = confirm(x, fates::fate_of(fates, i));
    }
    x
}

// "then a timeout if any is missing"
#[tactic(auto, unfolding(status::specs::Pick::pick))]
fn time_out(x: Confirming) -> Confirming
    ensures { result ≡ timed_out x }
{
    if x.missing {
        note(x, Signal::Timeout)
    } else {
        x
    }
}

fn opened(l: Ladder) -> Confirming
    ensures { result ≡ opened_of l }
{
    Confirming {
        sending: l.sending,
        report: l.report,
        missing: false,
    }
}

// The round's confirmations and timeout.
#[tactic(auto, unfolding(crate::specs::Round::closed_of))]
pub(crate) fn close(l: Ladder, fates: &[u8]) -> Ladder
    ensures { result ≡ closed_of fates.now l }
{
    let x = time_out(confirmations(opened(l), fates, l.before, l.frames));
    Ladder {
        sending: x.sending,
        before: l.frames,
        report: x.report,
        ..l
    }
}
