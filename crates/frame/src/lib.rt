// The SSP frame ("The frame"): header, information unit (IU) and fill, written and read.
#![tactic(auto)]

mod byte;
mod decode;
mod encode;
mod full;
mod lent;
mod plain;
mod response;
mod types;
mod words;
mod xfer_rdy;

pub use decode::read;
pub use encode::{write, write_data, write_header};
pub use full::write_full;
pub use lent::part;
pub use plain::{is_data, transfer_tag};
pub use response::{read_response, sense_of};
pub use types::{COMMAND, DATA, Flags, Header, Parsed, RESPONSE, TASK, XFER_RDY, XferRdy};
pub use words::copy;
pub use xfer_rdy::{read_xfer_rdy, write_xfer_rdy};
