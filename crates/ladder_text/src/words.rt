// Words, and the values they stand for.
ghost use Rattle.std.specs.Prelude.{◌≡◌, ℕ, List};
ghost use Rattle.ladder_text.specs.Words.{named, all_directions, all_fates, all_outcomes, direction_word, direction_of, fate_number, fate_at, fate_word, fate_of, receipt_of, outcome_word, outcome_of};

use crate::decimal;
use crate::types::{Direction, Fate, Outcome, Receipt};

// A value that a word stands for. Its impls have one shape.
pub(crate) trait Word: Copy + 'static {
    ghost word: { Self → List ℕ };

    ghost all: { List Self };

    fn all() -> &'static [Self]
        ensures { result.now ≡ all };

    fn word(self) -> &'static [u8]
        ensures { result.now ≡ word self };
}

// The value whose word is s.
fn named<W: Word>(s: &[u8]) -> Option<W>
    ensures { result ≡ named W.word W.all s.now }
{
    W::all().iter().copied().find(|w| s == w.word())
}

impl Word for Direction {
    ghost word = { direction_word };

    ghost all = { all_directions };

    fn all() -> &'static [Direction] {
        &[Direction::Read, Direction::Write]
    }

    fn word(self) -> &'static [u8] {
        match self {
            Direction::Read => b"read",
            Direction::Write => b"write",
        }
    }
}

impl Word for Fate {
    ghost word = { fate_word };

    ghost all = { all_fates };

    fn all() -> &'static [Fate] {
        &[Fate::Ok, Fate::Noack, Fate::Bad, Fate::Nonak, Fate::Lost]
    }

    fn word(self) -> &'static [u8] {
        match self {
            Fate::Ok => b"ok",
            Fate::Noack => b"noack",
            Fate::Bad => b"bad",
            Fate::Nonak => b"nonak",
            Fate::Lost => b"lost",
        }
    }
}

impl Word for Outcome {
    ghost word = { outcome_word };

    ghost all = { all_outcomes };

    fn all() -> &'static [Outcome] {
        &[Outcome::Delivered, Outcome::Failed]
    }

    fn word(self) -> &'static [u8] {
        match self {
            Outcome::Delivered => b"delivered",
            Outcome::Failed => b"failed",
        }
    }
}

// The fates in their order, numbered from 0.
impl From<Fate> for u8 {
    ghost from_gives = { λ f n. n ≡ fate_number f };

    fn from(f: Fate) -> u8 {
        f as u8
    }
}

// The fate of a number; `lost` from 4 on.
impl From<u8> for Fate {
    ghost from_gives = { λ n f. f ≡ fate_at n };

    fn from(n: u8) -> Fate {
        match n {
            0 => Fate::Ok,
            1 => Fate::Noack,
            2 => Fate::Bad,
            3 => Fate::Nonak,
            _ => Fate::Lost,
        }
    }
}

// The direction that s names. This reader and the next ones are public under the names of their definitions.
#[tactic(auto, unfolding(crate::specs::Words::direction_of))]
pub fn read_direction(s: &[u8]) -> Option<Direction>
    ensures { result ≡ direction_of s.now }
{
    named(s)
}

// The fate that s names.
#[tactic(auto, unfolding(crate::specs::Words::fate_of))]
pub fn read_fate(s: &[u8]) -> Option<Fate>
    ensures { result ≡ fate_of s.now }
{
    named(s)
}

// The word or the number that s is.
// A `match` on byte strings was tried: its last arm has a goal for each byte that may differ, and these stay open.
#[tactic(auto, unfolding(crate::specs::Words::receipt_of))]
pub fn read_receipt(s: &[u8]) -> Option<Receipt>
    ensures { result ≡ receipt_of s.now }
{
    if s == b"stored".as_slice() {
        return Some(Receipt::Stored);
    }
    if s == b"discarded".as_slice() {
        return Some(Receipt::Discarded);
    }
    if s == b"none".as_slice() {
        return Some(Receipt::Nothing);
    }
    decimal::read_number(s, u32::MAX).map(Receipt::Number)
}

// The sender's verdict that s names.
#[tactic(auto, unfolding(crate::specs::Words::outcome_of))]
pub fn read_outcome(s: &[u8]) -> Option<Outcome>
    ensures { result ≡ outcome_of s.now }
{
    named(s)
}
