// The target port. A write command: XFER_RDY handed out and resent, its tags, write DATA arrivals, reports of time. A
// read command: its frames, their confirmations, what arrives. Every function here is an entry point.
#![tactic(auto)]

mod confirmation;
mod incoming;
mod read;
mod read_send;
mod record;
mod tag;
mod time;
mod transmit;
mod types;

pub use confirmation::{
    write_ack_nak_timeout, write_ack_received, write_connection_lost, write_nak_received,
    write_nexus_lost,
};
pub use incoming::write_frame_received;
pub use read::read_frame_received;
pub use read_send::{
    read_ack_nak_timeout, read_ack_received, read_connection_lost, read_nak_received,
    read_next_frame, read_nexus_lost,
};
pub use record::set_up_write;
pub use sender::{Burst, Sender, set_up_read};
pub use time::write_time_reported;
pub use transmit::write_next_frame;
pub use types::Target;
