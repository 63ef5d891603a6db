// What every arriving frame is tested for, once for all roles: 5, 6, 7, 8.
#![tactic(auto)]

ghost use Rattle.std.specs.Prelude.{◌≡◌};
ghost use Rattle.status.specs.Result.{or_refusal};
ghost use Rattle.arrival.specs.Accept.{class_of, screen_of, accept_of};

use frame::{Header, Parsed};
use status::Refusal;
use transfer::Transfer;

// Which port of which command the frame arrives at.
#[derive(Clone, Copy)]
pub enum Role {
    ReadInitiator,
    WriteInitiator,
    WriteTarget,
    ReadTarget,
}

// What a role takes a frame for.
#[derive(Clone, Copy)]
pub enum Class {
    Data,
    XferRdy,
    Response,
}

// A frame that has passed 5 to 8: the IU is len bytes from start, as in `frame::Parsed`. Three functions ask that it
// lies within the bytes, and cut it out: with the slice in this struct, every clause about it would speak of a lent
// part.
#[derive(Clone, Copy)]
pub struct Arrived {
    pub class: Class,
    pub header: Header,
    pub start: usize,
    pub len: usize,
}

// One match on the type byte, by role; every other number is refused.
#[tactic(auto, unfolding(crate::specs::Accept::class_of, status::specs::Pick::pick))]
fn class_of(role: Role, frametype: u8) -> Option<Class>
    ensures { result ≡ class_of role frametype }
{
    match role {
        Role::ReadInitiator => match frametype {
            frame::DATA => Some(Class::Data),
            frame::XFER_RDY => Some(Class::XferRdy),
            frame::RESPONSE => Some(Class::Response),
            _ => None,
        },
        Role::WriteInitiator => match frametype {
            frame::XFER_RDY => Some(Class::XferRdy),
            frame::RESPONSE => Some(Class::Response),
            _ => None,
        },
        Role::WriteTarget => match frametype {
            frame::DATA => Some(Class::Data),
            _ => None,
        },
        Role::ReadTarget => None,
    }
}

// 6, 7, 8.
#[tactic(auto, unfolding(crate::specs::Accept::screen_of, status::specs::Pick::pick))]
fn screen(t: Transfer, class: Option<Class>, p: Parsed) -> Result<Arrived, Refusal>
    ensures { or_refusal result ≡ screen_of t class p }
{
    let class = class.ok_or(Refusal::UnexpectedFrameType)?;
    let h = p.header;
    if (h.dest != t.local) | (h.source != t.remote) {
        return Err(Refusal::WrongAddress);
    }
    if h.tag != t.tag {
        return Err(Refusal::UnknownTag);
    }
    Ok(Arrived {
        class,
        header: h,
        start: p.start,
        len: p.len,
    })
}

// Any bytes: 5, 6, 7, 8, else the frame, with what the role takes it for.
#[tactic(auto, unfolding(crate::specs::Accept::accept_of))]
pub fn accept(role: Role, t: Transfer, bytes: &[u8]) -> Result<Arrived, Refusal>
    ensures { or_refusal result ≡ accept_of role t bytes.now }
{
    let p = frame::read(bytes)?;
    screen(t, class_of(role, p.header.frametype), p)
}
