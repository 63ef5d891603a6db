// The sending port: it serves a target's read and an initiator's write burst, from base to end. Every function here is
// an entry point.
#![tactic(auto)]

mod confirmation;
mod record;
mod transmit;

pub use confirmation::{ack_nak_timeout, ack_received, connection_lost, nak_received, nexus_lost};
pub use record::set_up_read;
pub use sender_steps::{Burst, Sender};
pub use transmit::next_frame;
