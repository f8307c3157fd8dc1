// One unit: its calls over the table of numbers that the caller lends.
//
// A call's refusals are looked at first (`refusing`). Then the table is taken apart into arrays, the event is noted in them
// (`noting`, step A), and what the event brings about follows (`event`, steps B to F): the tree is recomputed, feasible
// distances go down, messages are laid into the lent buffer (`send`), and the arrays are laid back over the table. `calls` is
// what other crates see. The state itself, its test and its questions are the crate `state`.
#![tactic(auto)]

pub mod calls;
mod event;
mod noting;
pub mod refusing;
mod send;
