// A run file's ladder as text: functions from the whole input to the whole output.
#![tactic(auto)]

mod climb;
mod data;
mod run;
mod start;
mod text;

pub use text::{TEXT_MOST, print_if_room, print_ladder};
