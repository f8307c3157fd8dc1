// What is printed, put into a lent buffer: decimals, the lines of a refusal, of a frame that is held and of a figure, and the
// lines of a unit's row.
//
// Each function takes the bytes used so far and answers those used then, so that texts come one behind the other. What has
// no room in the buffer is left out: `put_byte` of `slices` alone looks whether there is room, and all others put bytes by it.
#![tactic(auto)]

pub mod row;
pub mod text;

// The room that each line has: four decimals, and successors of at most 2 digits each.
pub const LINE_ROOM: usize = 128;
