// Recomputing a unit's tree, and the distances that it rests on.
//
// A unit holds a copy of each neighbour's tree (`copies`, which alone knows how they are stored). Recomputing goes through
// tables of distances: those in each neighbour's copy (`through`, found by following heads, `heads`), then the links out of
// each unit in its preferred neighbour's copy (`links`), the shortest distances over them (`shortest`, which settles each unit
// once), and the lowest head for each unit (`recompute`). The distances through neighbours give the successors too
// (`successors`).
//
// What others call takes any numbers: a count above the limit gets zeros, and a link whose cost is none that a link has is not
// taken. For fit tables that is the recomputation of the rules (proofs/Recomputing.antt).
#![tactic(auto)]

pub mod copies;
pub mod heads;
mod links;
pub mod recompute;
mod shortest;
pub mod successors;
pub mod through;
