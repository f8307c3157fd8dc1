// The queues between the units of a network, over the bytes that the caller lends (docs/TABLES.md has their index rule).
//
// `queue` has one queue among all: its messages counted, the first taken out, one put at the end. `parcels` takes the
// messages of an event from the buffer where `unit` laid them to their queues.
#![tactic(auto)]

pub mod parcels;
pub mod queue;
