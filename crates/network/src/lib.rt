// The network: units that send each other messages through queues, over two tables that the caller lends.
//
// `words` holds the units' tables one after the other, `queues` the bytes of the queue from each unit to each other
// (docs/TABLES.md has both index rules). Every call first tests the whole of both (`fitness`), then its arguments. A unit's
// event happens on a copy of its table; only when every message finds room in its queue are the copies and the messages put
// where they belong (`events`), so a refusal leaves both tables as they came. `calls` has link up, cost, link down and
// delivery, `fresh` the fresh network; what can be asked is in `asking`.
#![tactic(auto)]

pub mod calls;
pub mod fresh;
