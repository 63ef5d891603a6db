// The RESPONSE's IU: DATAPRES, status, sense length and response length, then the list.
ghost use Rattle.std.specs.Prelude.{◌≡◌, ◌≤◌, length};
ghost use Rattle.status.specs.Result.{or_failure};
ghost use Rattle.frame.specs.Lent.{Shows};
ghost use Rattle.frame.specs.Response.{needing, response_fits, sense_fits, by_kind, response_iu_of, sense_of};

use crate::{byte, lent};
use status::{Failure, Opened};

// Four functions ask for the header's 24 bytes, and `read_response` tests them once. A struct for such an IU is no
// plainer: each function reads the slice, so each would take it out of the struct first.

// Kind 1: response data of 4 bytes.
#[tactic(auto, unfolding(crate::specs::Response::response_fits))]
fn response_fits(iu: &[u8]) -> bool
    requires { 24 ≤ length iu.now }
    ensures { result ≡ response_fits iu.now }
{
    let n = byte::be32(iu, 20);
    (n == 4) & (iu.len() == 28)
}

// Kind 2: so many bytes of sense data, 1 to 1,000.
#[tactic(auto, unfolding(crate::specs::Response::sense_fits))]
fn sense_fits(iu: &[u8]) -> bool
    requires { 24 ≤ length iu.now }
    ensures { result ≡ sense_fits iu.now }
{
    let n = byte::be32(iu, 16) as usize;
    (1 <= n) & (n <= 1000) & (iu.len() == 24 + n)
}

// 34, or kind, status and bytes of sense data.
#[tactic(auto, unfolding(status::specs::Pick::pick))]
fn needing(met: bool, iu: &[u8], sense: usize) -> Result<Opened, Failure>
    requires { 24 ≤ length iu.now }
    ensures { or_failure result ≡ needing met iu.now sense }
{
    if met {
        return Ok(Opened {
            kind: iu[10] % 4,
            status: iu[11],
            sense,
        });
    }
    Err(Failure::ResponseDataWrong)
}

// By DATAPRES: no data, response data, sense data; 3 is 34.
#[tactic(auto, unfolding(crate::specs::Response::by_kind, status::specs::Pick::pick))]
fn by_kind(iu: &[u8]) -> Result<Opened, Failure>
    requires { 24 ≤ length iu.now }
    ensures { or_failure result ≡ by_kind iu.now }
{
    match iu[10] % 4 {
        0 => needing(iu.len() == 24, iu, 0),
        1 => needing(response_fits(iu), iu, 0),
        2 => needing(sense_fits(iu), iu, byte::be32(iu, 16) as usize),
        _ => Err(Failure::ResponseDataWrong),
    }
}

// An IU of any length, without its fill: 32, 34, else kind, status and bytes of sense data.
#[tactic(auto, unfolding(crate::specs::Response::response_iu_of, status::specs::Pick::pick))]
pub fn read_response(iu: &[u8]) -> Result<Opened, Failure>
    ensures { or_failure result ≡ response_iu_of iu.now }
{
    if iu.len() < 24 {
        return Err(Failure::ResponseTooShort);
    }
    by_kind(iu)
}

// The sense data of an IU that says o, as a part of it.
#[tactic(auto, using(crate::proofs::Parts::no_part), unfolding(status::specs::Pick::pick))]
pub fn sense_of(o: Opened, iu: &[u8]) -> &[u8]
    ensures { Shows result iu.entry (sense_of o iu.now) }
{
    if o.kind == 2 {
        return lent::part(iu, 24, o.sense);
    }
    lent::part(iu, 0, 0)
}
