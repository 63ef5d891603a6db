// A RESPONSE's IU, and its sense data as a part of the caller's own bytes.
ghost use Rattle.std.specs.Prelude.{◌≡◌, length};
ghost use Rattle.frame.specs.Lent.{Shows};
ghost use Rattle.frame.specs.Response.{response_iu_of};
ghost use Rattle.ssp.specs.Sense.{response_answer, opened_in, sense_answered};

use crate::types::CAnswer;
use status::{Opened, Part};

// An IU of any length: 32, 34, else kind, status and bytes of sense data.
#[unsafe(no_mangle)]
pub extern "C" fn ssp_response_iu_read(iu: &[u8]) -> CAnswer
    ensures { result ≡ response_answer (response_iu_of iu.now) (length iu.now) }
{
    match frame::read_response(iu) {
        Ok(o) => CAnswer::opened(
            CAnswer::PARSED,
            0,
            Part {
                start: 0,
                len: iu.len(),
            },
            o,
        ),
        Err(why) => CAnswer::failed(why, 0),
    }
}

impl From<CAnswer> for Opened {
    ghost from_gives = { λ a o. o ≡ opened_in a };

    fn from(a: CAnswer) -> Opened {
        Opened {
            kind: a.kind,
            status: a.status,
            sense: a.sense,
        }
    }
}

#[tactic(auto, unfolding(crate::specs::Sense::sense_answered, status::specs::Pick::pick), using(frame::proofs::Parts::no_part))]
fn sense_answered(a: CAnswer, bytes: &[u8]) -> &[u8]
    ensures { Shows result bytes.entry (sense_answered a bytes.now) }
{
    if a.what == CAnswer::RESPONSE || a.what == CAnswer::PARSED {
        return frame::sense_of(a.into(), frame::part(bytes, a.start, a.len));
    }
    frame::part(bytes, 0, 0)
}

// The sense data of the answer a to these bytes: the part is put down, and its length answered.
#[unsafe(no_mangle)]
pub extern "C" fn ssp_sense_data<'a>(part: &mut &'a [u8], a: CAnswer, bytes: &'a [u8]) -> usize
    ensures { Shows part.new bytes.entry (sense_answered a bytes.now) × (result ≡ length (sense_answered a bytes.now).bytes) }
{
    let s = sense_answered(a, bytes);
    *part = s;
    s.len()
}
