// A unit's event in a network, over the two tables that the caller lends (docs/TABLES.md has both index rules).
//
// `tell` tells a copy of the unit's table of the event: what the unit answers, the table it leaves and the messages it sends.
// `happen` looks whether the messages find room in their queues, and only then puts the table and the messages where they
// belong: for an event at one unit, and for one at each end of a link.
#![tactic(auto)]

pub mod happen;
pub mod tell;
