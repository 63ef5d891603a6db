// Decimal numbers.
ghost use Rattle.std.specs.Prelude.{◌≡◌, ◌+◌, ◌≤◌, length};
ghost use Rattle.ladder_text.specs.Decimal.{decimal, sum_from, opens, number_of};
ghost use Rattle.ladder_text.specs.Place.{Puts};

// The number of the digits s, at most `most`.
#[tactic(auto, using(crate::proofs::Digits::sum_past), unfolding(crate::specs::Decimal::sum_from, crate::specs::Pick::pick))]
fn sum(s: &[u8], most: u32) -> Option<u32>
    ensures { result ≡ sum_from most 0 s.now }
{
    let mut v: u32 = 0;
    for d in s {
        if !d.is_ascii_digit() {
            return None;
        }
        let w = u64::from(v) * 10 + u64::from(*d - b'0');
        if u64::from(most) < w {
            return None;
        }
        v = w as u32;
    }
    Some(v)
}

// One byte, or more with no leading zero.
#[tactic(auto, unfolding(crate::specs::Pick::pick))]
fn well_begun(s: &[u8]) -> bool
    ensures { result ≡ opens s.now }
{
    match s {
        [] => false,
        [_] => true,
        [first, ..] => *first != b'0',
    }
}

// The number that s is, at most `most`.
#[tactic(auto, unfolding(crate::specs::Decimal::number_of, crate::specs::Pick::pick))]
pub fn read_number(s: &[u8], most: u32) -> Option<u32>
    ensures { result ≡ number_of most s.now }
{
    if !well_begun(s) {
        return None;
    }
    sum(s, most)
}

// Prints n at `at`; answers the place behind it.
#[tactic(auto, using(crate::proofs::Printed::printed))]
pub(crate) fn print_number(out: &mut [u8], at: usize, n: u32) -> usize
    requires { at + length (decimal n) ≤ length out.old }
    ensures { Puts out.old at (decimal n) result out.new }
{
    if n < 10 {
        out[at] = b'0' + (n as u8);
        return at + 1;
    }
    let p = print_number(out, at, n / 10);
    out[p] = b'0' + ((n % 10) as u8);
    p + 1
}
