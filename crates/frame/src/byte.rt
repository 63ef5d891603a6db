// The type byte, byte 10, and numbers of several bytes.
// A slice and a place come side by side: `&b[at..]` would have the same bound.
ghost use Rattle.std.specs.Prelude.{◌≡◌, ◌+◌, ◌≤◌, ◌%◌, length};
ghost use Rattle.frame.specs.Format.{is_type, flag_byte, flags_of, field};

use crate::types::{COMMAND, DATA, Flags, RESPONSE, TASK, XFER_RDY};

// The five frame types; every other number is refused.
pub(crate) fn known(frametype: u8) -> bool
    ensures { result ≡ is_type frametype }
{
    matches!(frametype, DATA | XFER_RDY | COMMAND | RESPONSE | TASK)
}

pub(crate) fn low_bit(x: u8) -> u8
    ensures { result ≡ x % 2 }
{
    x & 1
}

pub(crate) fn low_two_bits(x: u8) -> u8
    ensures { result ≡ x % 4 }
{
    x & 3
}

// Byte 10, built, by shifts and masks (docs/DECISIONS.md, Form by location).
pub(crate) fn flag_byte(f: Flags) -> u8
    ensures { result ≡ flag_byte f }
{
    let tlr = low_two_bits(f.tlr);
    (tlr << 3) | ((f.retry as u8) << 2) | ((f.retransmit as u8) << 1) | (f.cdp as u8)
}

// Byte 10, taken apart, by shifts and masks too.
#[tactic(auto, unfolding(crate::specs::Format::flags_of))]
pub(crate) fn flags_of(b: u8) -> Flags
    ensures { result ≡ flags_of b }
{
    Flags {
        tlr: low_two_bits(b >> 3),
        retry: low_bit(b >> 2) == 1,
        retransmit: low_bit(b >> 1) == 1,
        cdp: low_bit(b) == 1,
    }
}

// The two, three or four bytes from `at`, big-endian. They are three functions, since from_be_bytes is a method of each
// type and of no trait.
pub(crate) fn be16(b: &[u8], at: usize) -> u16
    requires { at + 2 ≤ length b.now }
    ensures { result ≡ field b.now at 2 }
{
    u16::from_be_bytes([b[at], b[at + 1]])
}

pub(crate) fn be24(b: &[u8], at: usize) -> u32
    requires { at + 3 ≤ length b.now }
    ensures { result ≡ field b.now at 3 }
{
    u32::from_be_bytes([0, b[at], b[at + 1], b[at + 2]])
}

pub(crate) fn be32(b: &[u8], at: usize) -> u32
    requires { at + 4 ≤ length b.now }
    ensures { result ≡ field b.now at 4 }
{
    u32::from_be_bytes([b[at], b[at + 1], b[at + 2], b[at + 3]])
}
