// The library for C: each port in place, over a record that the caller lends. A lent slice is a pointer and a length. C
// owes what the contracts take as given: pointers to whole records and buffers of those lengths, no two of which
// overlap in one call, and bools that are 0 or 1. Each export is a name of the C interface, so exports of one shape
// stay: those are one line each.
#![tactic(auto)]

mod answer;
mod frames;
mod read_initiator;
mod read_target;
mod respond;
mod sense;
mod short_read_initiator;
mod short_read_target;
mod short_receive;
mod short_send;
mod short_write_initiator;
mod short_write_target;
mod types;
mod version;
mod write_initiator;
mod write_target;
