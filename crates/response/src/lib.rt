// RESPONSE at the target: a record of its own, resent until its ACK. Every function here is an entry point.
#![tactic(auto)]

mod confirmation;
mod record;
mod transmit;
mod types;

pub use confirmation::{ack_nak_timeout, ack_received, connection_lost, nak_received, nexus_lost};
pub use record::set_up;
pub use transmit::next_frame;
pub use types::Responder;
