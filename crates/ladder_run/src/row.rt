// One frame handed out, and its fate.
// The fates stay bytes: see src/fates.rt.
// No heap, and fixed memory: the part of a buffer that is in use goes on as a slice.
ghost use Rattle.std.specs.Prelude.{◌≡◌, ◌<◌};
ghost use Rattle.status.specs.Answer.{says};
ghost use Rattle.frame.specs.Read.{decode};
ghost use Rattle.ladder_run.specs.Row.{handed, receipt_of, shown_of, met_of, met_by, ROWS-MOST, open_of, sent_of, nothing_of, next_line_by, out_of};

use crate::types::{Ladder, Met, Next, Receiving, Sending, Shown};
use crate::{ends, fates};
use ladder_text::{Fate, Receipt, Row};
use status::Answer;

// The length of the frame that was handed out, if one was.
pub(crate) fn handed(a: Answer) -> Option<usize>
    ensures { result ≡ handed (says a) }
{
    match a {
        Answer::Frame(n) => Some(n),
        _ => None,
    }
}

// The receiving port's word.
fn receipt(a: Answer) -> Receipt
    ensures { result ≡ receipt_of (says a) }
{
    match a {
        Answer::Stored | Answer::Received => Receipt::Stored,
        Answer::Discarded => Receipt::Discarded,
        _ => Receipt::Number(u32::from(a.number())),
    }
}

// Offset, bytes and CDP, as the frame itself has them.
fn shown(f: &[u8]) -> Shown
    ensures { result ≡ shown_of (decode f.now) }
{
    match frame::read(f) {
        Ok(p) => Shown {
            offset: p.header.offset,
            bytes: p.len as u32,
            cdp: u32::from(p.header.flags.cdp),
        },
        Err(_) => Shown {
            offset: 0,
            bytes: 0,
            cdp: 0,
        },
    }
}

// A frame meets its fate: whole, it arrives at the receiving port.
#[tactic(auto, unfolding(status::specs::Pick::pick))]
fn meet(r: Receiving, fate: Fate, f: &[u8], received: &mut [u8]) -> Met
    ensures { met_by result received.new ≡ met_of r fate f.now received.old }
{
    if fates::is_whole(fate) {
        let x = ends::arrive(r, f, received);
        return Met {
            receiving: x.left,
            receipt: receipt(x.answer),
        };
    }
    Met {
        receiving: r,
        receipt: Receipt::Nothing,
    }
}

// The sending port has reported nothing, a row more can be told, and no data offset passes 65,535.
fn open(l: Ladder) -> bool
    ensures { result ≡ open_of l }
{
    l.report.is_none() && l.frames < Ladder::ROWS_MOST && ends::past(l.sending) <= Ladder::PAST_MOST
}

// Frame f was handed out by a port that is left as s.
fn sent(l: Ladder, s: Sending, f: &[u8], fates: &[u8], received: &mut [u8]) -> Next<Option<Row>>
    requires { l.frames < ROWS-MOST }
    ensures { next_line_by result received.new ≡ sent_of l s f.now fates.now received.old }
{
    let fate = fates::fate_of(fates, l.frames);
    let seen = shown(f);
    let met = meet(l.receiving, fate, f, received);
    Next {
        ladder: Ladder {
            sending: s,
            receiving: met.receiving,
            frames: l.frames + 1,
            ..l
        },
        line: Some(Row {
            frame: l.frames + 1,
            offset: seen.offset,
            bytes: seen.bytes,
            cdp: seen.cdp,
            fate,
            receipt: met.receipt,
        }),
    }
}

fn nothing_due(l: Ladder, s: Sending) -> Next<Option<Row>>
    ensures { result ≡ nothing_of l s }
{
    Next {
        ladder: Ladder { sending: s, ..l },
        line: None,
    }
}

// A frame asked for in a zeroed area; if one is handed out, its fate.
#[tactic(auto, unfolding(crate::specs::Row::out_of, status::specs::Pick::pick))]
pub(crate) fn frame_out(
    l: Ladder,
    fates: &[u8],
    source: &[u8],
    received: &mut [u8],
) -> Next<Option<Row>>
    ensures { next_line_by result received.new ≡ out_of l fates.now source.now received.old }
{
    if !open(l) {
        return nothing_due(l, l.sending);
    }
    let mut area = [0; 1048];
    let x = ends::ask(l.sending, source, &mut area);
    match handed(x.answer) {
        Some(n) => {
            prove!(n <= area.len());
            sent(l, x.left, &area[..n], fates, received)
        }
        None => nothing_due(l, x.left),
    }
}
