// Lines and fields.
ghost use Rattle.std.specs.Prelude.{◌≡◌, ◌==◌, length, position};
ghost use Rattle.ladder_text.specs.Text.{fields};
ghost use Rattle.ladder_text.specs.Lent.{Shows, part_in, line_in, field_start, field_in};

// The index of the first c.
fn find(s: &[u8], c: u8) -> Option<usize>
    ensures { result ≡ position (λ x. x == c) s.now }
{
    s.iter().position(|b| *b == c)
}

// The bytes of s from `at`, or from the end where that is beyond, to the first c or to the end.
#[tactic(auto, using(crate::proofs::Cut::part_within, crate::proofs::Cut::part_is))]
fn part(s: &[u8], at: usize, c: u8) -> &[u8]
    ensures { Shows result s.entry (part_in c s.now at) }
{
    let rest = &s[at.min(s.len())..];
    let end = find(rest, c).unwrap_or(rest.len());
    &rest[..end]
}

// The line that starts at `at`, without its line feed; the next starts one byte behind it.
pub fn line(s: &[u8], at: usize) -> &[u8]
    ensures { Shows result s.entry (line_in s.now at) }
{
    part(s, at, b'\n')
}

// Where field i of a line starts, counted from 0; the end where there is none.
#[tactic(auto, using(crate::proofs::Cut::passed, crate::proofs::Cut::none_left, crate::proofs::Cut::arrived))]
fn field_start(l: &[u8], i: usize) -> usize
    ensures { result ≡ field_start l.now i }
{
    let mut at = 0;
    for _tab in 0..i {
        at += part(l, at, b'\t').len() + 1;
        if l.len() < at {
            return l.len();
        }
    }
    at
}

// Field i of a line, counted from 0, without its tab; empty where there is none.
#[tactic(auto, using(crate::proofs::Cut::field_there, crate::proofs::Cut::start_within))]
pub fn field(l: &[u8], i: usize) -> &[u8]
    ensures { Shows result l.entry (field_in l.now i) }
{
    let at = field_start(l, i);
    part(l, at, b'\t')
}

// How many fields a line has: one more than its tabs.
#[tactic(auto, using(crate::proofs::Cut::count_fields))]
pub fn field_count(l: &[u8]) -> usize
    ensures { result ≡ length (fields l.now) }
{
    l.iter().filter(|b| **b == b'\t').count() + 1
}
