// The receiving port's record, the tests of number 1, and its step: what a DATA frame does once 1 and 2 are tested. No
// entry points: those are in crate receiver.
#![tactic(auto)]

mod data_frame;
mod record;
mod types;

pub use data_frame::data_step;
pub use record::{begin, failed, holds, lent};
pub use types::{DataDisposition, Receiver};
