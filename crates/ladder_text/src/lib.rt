// The text of run files and ladders ("The ladder program"): numbers, words, lines and fields, each with its reader and
// its printer.
#![tactic(auto)]

mod decimal;
mod print;
mod room;
mod rows;
mod run_file;
mod text;
mod types;
mod words;

pub use decimal::read_number;
pub use room::{ROOM, put, put_ended};
pub use rows::{read_refused, read_row, read_run, read_verdict};
pub use run_file::{next_fate, read_run_file};
pub use text::{field, field_count, line};
pub use types::{
    Direction, Fate, Misfit, NextFate, Outcome, Quad, Receipt, Row, Run, RunFile, Verdict,
};
pub use words::{read_direction, read_fate, read_outcome, read_receipt};
