// The receiving port: one DATA frame against a burst from base to end. Every function here is an entry point.
#![tactic(auto)]

mod data_frame;
mod record;

pub use data_frame::data_received;
pub use receiver_steps::Receiver;
pub use record::{nexus_lost, set_up_read};
