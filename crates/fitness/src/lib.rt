// Whether a network's tables are fit, over the two tables that the caller lends (docs/TABLES.md has both index rules).
//
// `fit` tests the whole of both. `tables` has the tables of all units: their count, a copy of one unit's table, another put
// in its place, whether one of its links is up.
#![tactic(auto)]

pub mod fit;
pub mod tables;
