// The initiator port: what arrives at the host, and what it sends in a write command. Every function here is an entry
// point; `sense_data` takes no record.
#![tactic(auto)]

mod read;
mod sense;
mod types;
mod write_record;
mod write_send;
mod write_take;

pub use read::{read_frame_received, read_nexus_lost};
pub use receiver::{Receiver, set_up_read};
pub use sense::sense_data;
pub use types::Writer;
pub use write_record::set_up_write;
pub use write_send::{
    write_ack_nak_timeout, write_ack_received, write_connection_lost, write_nak_received,
    write_next_frame, write_nexus_lost,
};
pub use write_take::write_frame_received;
