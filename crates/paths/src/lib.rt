// The tracer: from a start, successor after successor towards a destination, over the tables of a network.
//
// A choice byte says which successor is taken at each unit. On tables that calls have reached from the fresh network no path
// circles (docs/PROOF.md); fit tables that nothing has reached may hold a circle, and the hops are bounded for them.
#![tactic(auto)]

pub mod tracer;
