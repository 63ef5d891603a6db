// Run files.
ghost use Rattle.std.specs.Prelude.{◌≡◌, ◌≤◌, length, drop};
ghost use Rattle.ladder_text.specs.Text.{lines};
ghost use Rattle.ladder_text.specs.RunFile.{MOST-BYTES, misfit, file_of, next_fate};

use crate::types::{Fate, Misfit, NextFate, RunFile};
use crate::{rows, text, words};

// The number of the first line from place `from` on that is no fate, counted from 2.
#[tactic(auto, using(crate::proofs::FileSteps::line_by_line), unfolding(crate::specs::Pick::pick))]
fn first_misfit(s: &[u8], from: usize) -> Option<u32>
    requires { length s.now ≤ MOST-BYTES }
    ensures { result ≡ misfit 2 (lines (drop from s.now)) }
{
    let mut at = from;
    let mut n: u32 = 2;
    // std's splits are no plainer: `split` gives an empty line behind a last line feed, `split_inclusive` leaves each
    // line feed to be cut off.
    while at < s.len() {
        let l = text::line(s, at);
        if words::read_fate(l).is_none() {
            return Some(n);
        }
        at += l.len() + 1;
        n += 1;
    }
    None
}

// A whole run file, any bytes.
#[tactic(auto, using(crate::proofs::FileSteps::whole_file))]
pub fn read_run_file(s: &[u8]) -> Result<RunFile, Misfit>
    ensures { result ≡ file_of s.now }
{
    if 65_536 < s.len() {
        return Err(Misfit { line: 0 });
    }
    let l = text::line(s, 0);
    let fates = l.len() + 1;
    let run = rows::read_run(l).ok_or(Misfit { line: 1 })?;
    match first_misfit(s, fates) {
        Some(line) => Err(Misfit { line }),
        None => Ok(RunFile { run, fates }),
    }
}

// The fate at place `at`; past the list, `ok`.
#[tactic(auto, unfolding(crate::specs::RunFile::next_fate, crate::specs::Pick::pick))]
pub fn next_fate(s: &[u8], at: usize) -> NextFate
    ensures { result ≡ next_fate s.now at }
{
    if s.len() <= at {
        return NextFate {
            fate: Fate::Ok,
            next: at,
        };
    }
    let l = text::line(s, at);
    NextFate {
        fate: words::read_fate(l).unwrap_or(Fate::Ok),
        next: at + l.len() + 1,
    }
}
