// The sense data of a RESPONSE, as a part of the caller's own frame.
ghost use Rattle.status.specs.Answer.{says};
ghost use Rattle.frame.specs.Lent.{Shows};
ghost use Rattle.initiator.specs.Sense.{sense_in};

use status::Answer;

// Of a frame and the answer to its arrival: the sense data, nothing copied; empty but after a RESPONSE of kind 2.
pub fn sense_data(a: Answer, bytes: &[u8]) -> &[u8]
    ensures { Shows result bytes.entry (sense_in (says a) bytes.now) }
{
    match a {
        Answer::Response { iu, opened, .. } => {
            frame::sense_of(opened, frame::part(bytes, iu.start, iu.len))
        }
        _ => frame::part(bytes, 0, 0),
    }
}
