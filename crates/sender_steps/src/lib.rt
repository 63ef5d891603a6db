// The sending port's record, the tests of number 1, and its steps: what an event does once its tests are passed. No
// entry points: those are in crate sender.
#![tactic(auto)]

mod confirmation;
mod record;
mod transmit;
mod types;

pub use confirmation::{ack_step, failed, less_one, nak_step, retry_step};
pub use record::{begin, holds, lent};
pub use transmit::{frame_step, header};
pub use types::{Burst, Sender};
