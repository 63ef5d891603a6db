// What is printed. Each printer prints at `at` and answers the place behind it.
// A struct of buffer and place is no plainer: each printer would also promise that it holds the same borrow.
ghost use Rattle.std.specs.Prelude.{ℕ, List, ◌+◌, ◌≤◌, ◌<◌, length};
ghost use Rattle.std.proofs.Common.{lit<};
ghost use Rattle.ladder_text.specs.Decimal.{decimal};
ghost use Rattle.ladder_text.specs.Words.{direction_word, fate_word, receipt_word, outcome_word};
ghost use Rattle.ladder_text.specs.Rows.{run_text, row_text, verdict_text, refused_text};
ghost use Rattle.ladder_text.specs.Place.{ROOM, Puts, ended};

use crate::decimal;
use crate::types::{Direction, Fate, Misfit, Outcome, Receipt, Row, Run, Verdict};
use crate::words::Word;

// What has a text: a number, a word, a line without its line feed. The crate keeps the trait to itself, since `print`
// asks for room: `put` and `put_ended` test it. Display is no plainer: its contract would have to fix the place and the
// rest of the buffer too.
pub trait Printable: Copy {
    ghost text: { Self → List ℕ };

    // No text of a value that the code holds has more bytes.
    ghost most: { ℕ };

    fn print(self, out: &mut [u8], at: usize) -> usize
        requires { at + most ≤ length out.old }
        ensures short { length (text self) ≤ most }
        ensures puts { Puts out.old at (text self) result out.new };

    // The text has room, and a byte that ends it.
    ghost fits: { most < ROOM };
}

// The word w.
#[tactic(auto, using(crate::proofs::Place::copied))]
fn print_word(out: &mut [u8], at: usize, w: &[u8]) -> usize
    requires { at + length w.now ≤ length out.old }
    ensures { Puts out.old at w.now result out.new }
{
    let end = at + w.len();
    out[at..end].copy_from_slice(w);
    end
}

// A text, and the byte that ends it.
#[tactic(auto, using(crate::proofs::Puts::printing))]
pub(crate) fn print_ended<T: Printable>(out: &mut [u8], at: usize, x: T, end: u8) -> usize
    requires { at + T.most < length out.old }
    ensures short { length (ended end (T.text x)) ≤ T.most + 1 }
    ensures puts { Puts out.old at (ended end (T.text x)) result out.new }
{
    let p = x.print(out, at);
    out[p] = end;
    p + 1
}

impl Printable for u32 {
    ghost text = { decimal };

    ghost most = { 10 };

    #[tactic(auto, using(crate::proofs::Lengths::ten))]
    fn print(self, out: &mut [u8], at: usize) -> usize {
        decimal::print_number(out, at, self)
    }

    ghost fits = { lit< tt };
}

impl Printable for Direction {
    ghost text = { direction_word };

    ghost most = { 5 };

    fn print(self, out: &mut [u8], at: usize) -> usize {
        print_word(out, at, self.word())
    }

    ghost fits = { lit< tt };
}

impl Printable for Fate {
    ghost text = { fate_word };

    ghost most = { 5 };

    fn print(self, out: &mut [u8], at: usize) -> usize {
        print_word(out, at, self.word())
    }

    ghost fits = { lit< tt };
}

impl Printable for Receipt {
    ghost text = { receipt_word };

    ghost most = { 10 };

    fn print(self, out: &mut [u8], at: usize) -> usize {
        match self {
            Receipt::Stored => print_word(out, at, b"stored"),
            Receipt::Discarded => print_word(out, at, b"discarded"),
            Receipt::Nothing => print_word(out, at, b"none"),
            Receipt::Number(n) => n.print(out, at),
        }
    }

    ghost fits = { lit< tt };
}

impl Printable for Outcome {
    ghost text = { outcome_word };

    ghost most = { 9 };

    fn print(self, out: &mut [u8], at: usize) -> usize {
        print_word(out, at, self.word())
    }

    ghost fits = { lit< tt };
}

// Line one of a run file.
impl Printable for Run {
    ghost text = { run_text };

    ghost most = { 49 };

    #[tactic(auto, using(crate::proofs::Puts::printing))]
    fn print(self, out: &mut [u8], at: usize) -> usize {
        let p = print_ended(out, at, self.direction, b'\t');
        let p = print_ended(out, p, self.count, b'\t');
        let p = print_ended(out, p, self.size, b'\t');
        let p = print_ended(out, p, self.window, b'\t');
        self.limit.print(out, p)
    }

    ghost fits = { lit< tt };
}

// A frame's row of a ladder.
impl Printable for Row {
    ghost text = { row_text };

    ghost most = { 60 };

    #[tactic(auto, using(crate::proofs::Puts::printing))]
    fn print(self, out: &mut [u8], at: usize) -> usize {
        let p = print_ended(out, at, self.frame, b'\t');
        let p = print_ended(out, p, self.offset, b'\t');
        let p = print_ended(out, p, self.bytes, b'\t');
        let p = print_ended(out, p, self.cdp, b'\t');
        let p = print_ended(out, p, self.fate, b'\t');
        self.receipt.print(out, p)
    }

    ghost fits = { lit< tt };
}

// The last line of a ladder.
impl Printable for Verdict {
    ghost text = { verdict_text };

    ghost most = { 53 };

    #[tactic(auto, using(crate::proofs::Puts::printing))]
    fn print(self, out: &mut [u8], at: usize) -> usize {
        let p = print_ended(out, at, self.outcome, b'\t');
        let p = print_ended(out, p, self.number, b'\t');
        let p = print_ended(out, p, self.frames, b'\t');
        let p = print_ended(out, p, self.faults, b'\t');
        self.filled.print(out, p)
    }

    ghost fits = { lit< tt };
}

// The line that names a line that does not fit.
impl Printable for Misfit {
    ghost text = { λ m. refused_text m.line };

    ghost most = { 18 };

    #[tactic(auto, using(crate::proofs::Puts::printing))]
    fn print(self, out: &mut [u8], at: usize) -> usize {
        let p = print_word(out, at, b"refused\t");
        self.line.print(out, p)
    }

    ghost fits = { lit< tt };
}
