// The run of a ladder ("The ladder program"): two ports, the frames between them and their fates.
// Its rows and its verdict come one by one, as values.
#![tactic(auto)]

mod ends;
mod fates;
mod line;
mod round;
mod row;
mod setup;
mod types;

pub use fates::{fate_of, faults};
pub use line::{next_line, verdict};
pub use setup::set_up;
pub use types::{Confirming, Ladder, Line, Met, Next, Receiving, Report, Sending, Shown};
